//! Ends of lines that have no bytes between them, wherever in the circle of unread bytes they stand, as a test.

use line_store::Store;
use std::alloc::Global;
use tty_base::{Bytes, NoMemory};

/// Adds a byte, and then so many ends of lines, where there is room.
fn add(store: &mut Store, byte: u8, ends: usize) -> bool {
    if store.len() >= 4096 {
        return false;
    }
    store.push(byte);
    for _ in 0..ends {
        if store.lines() >= 4096 {
            return false;
        }
        store.end_line();
    }
    true
}

/// Whether the next line that is taken has so many bytes.
fn gives_line(store: &mut Store, out: &mut Bytes, len: u32) -> Result<bool, NoMemory> {
    out.reserve(store.line_len(8) as usize)?;
    Ok(store.lines() > 0 && store.take_line(8, out) == len)
}

/// Whether three lines, of which the second has no bytes, come as they are added.
fn come_round(store: &mut Store, out: &mut Bytes) -> Result<bool, NoMemory> {
    if !add(store, 0x61, 2) || !add(store, 0x62, 1) {
        return Ok(false);
    }
    for len in [1, 0, 1] {
        if !gives_line(store, out, len)? {
            return Ok(false);
        }
    }
    Ok(store.len() == 0 && store.lines() == 0)
}

/// Whether three lines come as they are added, wherever in the circle they are.
fn come_round_often(store: &mut Store, out: &mut Bytes) -> Result<bool, NoMemory> {
    for _ in 0..5000 {
        if !come_round(store, out)? {
            return Ok(false);
        }
    }
    Ok(true)
}

/// Whether marks without bytes between them stand apart.
fn marks_stand_apart(alloc: Global) -> Result<bool, NoMemory> {
    let mut store = Store::new(alloc)?;
    let mut out = Bytes::new(alloc);
    let come = come_round_often(&mut store, &mut out) == Ok(true);
    let mut pairs = out.as_slice().chunks(2);
    Ok(come && pairs.all(|pair| pair == [0x61, 0x62].as_slice()))
}

#[test]
fn several_eof_marks_come_round(rt: HostRuntime) {
    assert!(rt; marks_stand_apart(rt.alloc()) == Ok(true));
}
