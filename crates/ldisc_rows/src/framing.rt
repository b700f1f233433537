//! SLIP framing after RFC 1055: END and ESC in packets.

use slip_frames::{Decoder, Fed, SlipFault, encode};
use std::alloc::Global;
use tty_base::{Flagged, NoMemory};

/// Whether END and ESC are stuffed.
fn stuffs(alloc: Global) -> Result<bool, SlipFault> {
    let sent = encode(alloc, &[0xc0, 0xdb, 0x41])?;
    Ok(sent.as_slice() == [0xc0, 0xdb, 0xdc, 0xdb, 0xdd, 0x41, 0xc0].as_slice())
}

/// Whether the last of these bytes is answered so by a decoder, which has this packet then.
fn reads(alloc: Global, line: &[u8], wanted: Fed, packet: &[u8]) -> Result<bool, NoMemory> {
    let mut decoder = Decoder::new(alloc)?;
    let mut fed = Fed::Going;
    for byte in line {
        fed = decoder.feed(Flagged::good(*byte));
    }
    Ok(fed == wanted && decoder.packet() == packet)
}

#[test]
fn escapes_are_stuffed_and_read(rt: HostRuntime) {
    let rows: [(&[u8], Fed, &[u8]); 7] = [
        (&[0xdb, 0x41, 0xc0], Fed::Packet, &[0x41]),
        (&[0xdb, 0xc0], Fed::Empty, &[]),
        (&[0xc0], Fed::Empty, &[]),
        (&[0xdb, 0xdc, 0xdb, 0xdd, 0xc0], Fed::Packet, &[0xc0, 0xdb]),
        (&[0xdb, 0xdb, 0xdc, 0xc0], Fed::Packet, &[0xdb, 0xdc]),
        (&[0x41, 0xdb, 0xc0], Fed::Packet, &[0x41]),
        (&[0x41], Fed::Going, &[]),
    ];
    assert!(rt; stuffs(rt.alloc()) == Ok(true));
    for (line, fed, packet) in rows {
        assert!(rt;
            reads(rt.alloc(), line, fed, packet) == Ok(true),
            "{line:?}"
        );
    }
}
