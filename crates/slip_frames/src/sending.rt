//! Packets as the bytes that are sent.

ghost use Rattle.std.specs.Prelude.{◌≡◌, ◌+◌, ◌++◌, ◌<◌, ◌≤◌, ◌↔◌, length, IfOk, Err};
ghost use Rattle.slip_frames.specs.Slip.{spelling_of, spelling_of_byte, max_packet};
ghost use Rattle.slip_frames.specs.declared.sending.SlipFault.TheVariants.{NoMemory as OutOfMemory};

use crate::{END, ESC, ESC_END, ESC_ESC, MAX_PACKET};
use std::alloc::Global;
use tty_base::{Bytes, NoMemory};

/// Why a packet was not encoded.
#[derive(Clone, Copy, Debug, PartialEq, Eq)]
pub enum SlipFault {
    /// The packet has more than [`MAX_PACKET`] bytes.
    TooLong,
    NoMemory,
}

impl From<NoMemory> for SlipFault {
    ghost from_gives = { λ _ e. e ≡ OutOfMemory };

    fn from(_e: NoMemory) -> SlipFault {
        SlipFault::NoMemory
    }
}

fn add_stuffed(out: &mut Bytes, b: u8)
    requires { 2 ≤ out.old.spare }
    ensures items { out.new.items ≡ out.old.items ++ spelling_of_byte b }
    ensures spare { out.old.spare ≤ out.new.spare + 2 }
{
    match b {
        END => {
            out.add(ESC);
            out.add(ESC_END);
        }
        ESC => {
            out.add(ESC);
            out.add(ESC_ESC);
        }
        _ => out.add(b),
    }
}

/// A packet as it is sent (RFC 1055): [`END`], its bytes with [`END`] and [`ESC`] as two bytes each, and [`END`].
pub fn encode(alloc: Global, packet: &[u8]) -> Result<Bytes, SlipFault>
    ensures too_long { (result ≡ Err SlipFault.TooLong) ↔ (max_packet < length packet.now) }
    ensures ok { IfOk result (λ out. out.items ≡ spelling_of packet.now) }
{
    if packet.len() > MAX_PACKET {
        return Err(SlipFault::TooLong);
    }
    let mut out = Bytes::new(alloc);
    out.reserve(2 * packet.len() + 2)?;
    out.add(END);
    for b in packet {
        add_stuffed(&mut out, *b);
    }
    out.add(END);
    Ok(out)
}
