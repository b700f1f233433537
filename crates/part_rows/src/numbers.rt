//! Numbers that pass through a ring that has room for two.

use arrayvec::ArrayVec;
use std::alloc::Global;
use tty_base::NoMemory;
use word_ring::ring;

/// Whether two numbers come through a ring of two, into which three are put.
fn two_pass(alloc: Global) -> Result<bool, NoMemory> {
    let (mut putter, mut taker) = ring(alloc, 2)?;
    let mut taken = ArrayVec::<u16, 64>::new();
    let puts = [putter.put(5), putter.put(6), putter.put(7)];
    putter.push();
    if puts[2].is_err() {
        taker.take(64, &mut taken);
    }
    Ok(taken.as_slice() == [5, 6].as_slice())
}

#[test]
fn two_numbers_pass(rt: HostRuntime) {
    assert!(rt; two_pass(rt.alloc()) == Ok(true));
}
