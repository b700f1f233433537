//! A packet that is framed for a line by SLIP, and received as it was.

use slip_frames::{Decoder, SlipFault, encode};
use std::alloc::Global;
use tty_base::Flagged;

/// Whether a packet that is sent is received as it was.
fn comes_back(alloc: Global, packet: &[u8]) -> Result<bool, SlipFault> {
    let sent = encode(alloc, packet)?;
    let mut decoder = Decoder::new(alloc)?;
    for byte in sent.as_slice() {
        decoder.feed(Flagged::good(*byte));
    }
    Ok(decoder.packet() == packet)
}

#[test]
fn a_packet_comes_back(rt: HostRuntime) {
    assert!(rt; comes_back(rt.alloc(), b"\xc0A") == Ok(true));
}
