//! A line that is typed with a correction, echoed and read.

use std::alloc::Global;
use tty_base::NoMemory;
use tty_embed::Tty;

/// Whether a line that is typed with a correction is echoed and read.
fn edits_a_line(tty: &mut Tty) -> Result<bool, NoMemory> {
    let mut echo = [0; 64];
    let mut line = [0; 64];
    tty.receive_bytes(b"ab\x7fc\r")?;
    let sent = tty.take_wire(&mut echo)?;
    let read = tty.read(false, 0, &mut line)?;
    let is_echoed = sent == 8 && echo.starts_with(b"ab\x08 \x08c\r\n");
    Ok(is_echoed && read == Some(3) && line.starts_with(b"ac\n"))
}

fn is_edited(alloc: Global) -> Result<bool, NoMemory> {
    let mut tty = Tty::new(alloc)?;
    edits_a_line(&mut tty)
}

#[test]
fn a_line_is_edited(rt: HostRuntime) {
    assert!(rt; is_edited(rt.alloc()) == Ok(true));
}
