//! A ring of 16-bit numbers between two threads: one puts, the other takes. It neither locks nor
//! waits, and nothing but making it asks for memory.
//!
//! Four numbers share a word of 64 bits. The putter stores a word once for each four numbers and
//! at a push, and the tail at a push; the taker loads a word once for each four numbers that it
//! peeks, and stores the head once for all of them. Where both ends are at hand and nothing waits, a run of
//! numbers is passed from the one to the other, and the tail and the head are stored once for them.
#![tactic(auto)]

mod fours;
mod lanes;
mod new;
mod passing;
mod past;
mod putter;
mod steps;
mod table;
mod taker;

pub use lanes::{LANE, THREE_LANES, TWO_LANES};
pub use new::{names_tell_rings, ring};
pub use putter::{Note, Putter};
pub use taker::{HeadNote, Taker};
