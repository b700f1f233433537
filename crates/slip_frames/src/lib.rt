//! SLIP framing after RFC 1055: packets as bytes of a serial line, and back.
#![tactic(auto)]

mod laws;
mod receiving;
mod sending;

pub use laws::{a_piece_spells_one_text, a_sent_packet_comes_back};
pub use receiving::{Decoder, Fed};
pub use sending::{SlipFault, encode};

/// Ends a packet on the line.
pub const END: u8 = 0xc0;
/// Says that the next byte stands for another.
pub const ESC: u8 = 0xdb;
/// After [`ESC`]: an [`END`] in the packet.
pub const ESC_END: u8 = 0xdc;
/// After [`ESC`]: an [`ESC`] in the packet.
pub const ESC_ESC: u8 = 0xdd;
/// The most bytes of a packet.
pub const MAX_PACKET: usize = 1006;
