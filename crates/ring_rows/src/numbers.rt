//! Numbers that go through a ring from one thread to another, and through one of two numbers, as tests.

ghost use Rattle.std.specs.Prelude.{◌≡◌, ◌<◌, ◌≤◌, ◌^◌, [], length, IfOk, vec_len};

use arrayvec::ArrayVec;
use std::alloc::Global;
use std::sync::Wait;
use std::test::Fail;
use std::thread;
use std::thread::{Threads, join};
use tty_base::{Full, NoMemory};
use word_ring::{Putter, Taker, ring};

/// Puts all items, and gives the putter back.
fn put_all<R: Wait>(rt: &R, mut putter: Putter, items: &[u16]) -> Putter
    requires { (putter.sent ≡ []) × (length items.now < 2 ^ 63) }
    ensures { (result.ring ≡ putter.ring) × (result.sent ≡ items.now) }
{
    let mut next = 0;
    for _ in rt.forever() {
        if next >= items.len() {
            break;
        }
        if putter.put(items[next]).is_ok() {
            next += 1;
        } else {
            putter.push();
            thread::yield_now();
        }
    }
    putter.push();
    putter
}

/// Takes so many numbers.
fn take_all<R: Wait>(
    rt: &R,
    mut taker: Taker,
    count: usize,
    mut all: Vec<u16>,
) -> Result<(Taker, Vec<u16>), NoMemory>
    requires { (taker.taken ≡ []) × (all.items ≡ []) }
    ensures { IfOk result (λ r. (r.0.ring ≡ taker.ring) × (r.0.taken ≡ r.1.items) × (vec_len r.1 ≡ count)) }
{
    for _ in rt.forever() {
        if all.len() >= count {
            break;
        }
        let mut piece = ArrayVec::new();
        if taker.take((count - all.len()).min(64), &mut piece) == 0 {
            thread::yield_now();
        }
        all.extend_from_slice(piece.as_slice())?;
    }
    Ok((taker, all))
}

/// Sends the items through a ring of `n` numbers from one thread to another, which gives them back.
pub fn relay<R: Threads + Wait + Sync>(
    rt: &R,
    alloc: Global,
    n: usize,
    items: &[u16],
) -> Result<Vec<u16>, NoMemory>
    requires { (0 < n) × (n ≤ 65536) }
    ensures { IfOk result (λ v. v.items ≡ items.now) }
{
    let all = Vec::with_capacity(alloc, items.len())?;
    let (putter, taker) = ring(alloc, n)?;
    let (putter, taken) = join(
        rt,
        || -> Putter
            requires { (putter.sent ≡ []) × (length items.now < 2 ^ 63) }
            ensures { (result.ring ≡ putter.ring) × (result.sent ≡ items.entry.now) }
        { put_all(rt, putter, items) },
        || -> Result<(Taker, Vec<u16>), NoMemory>
            requires { (taker.taken ≡ []) × (all.items ≡ []) }
            ensures { IfOk result
                (λ r. (r.0.ring ≡ taker.ring) × (r.0.taken ≡ r.1.items) × (vec_len r.1 ≡ length items.entry.now)) }
        { take_all(rt, taker, items.len(), all) },
    );
    let (mut taker, all) = taken?;
    taker.finish(putter);
    Ok(all)
}

#[test]
fn two_threads_pass_numbers_in_order(rt: HostRuntime) -> Result<(), Fail> {
    let mut items = Vec::with_capacity(rt.alloc(), 20000)?;
    for i in 0..20000u64 {
        items.push((i * 7919 % 65536) as u16)?;
    }
    let taken = relay(&rt, rt.alloc(), 7, items.as_slice())?;
    assert!(rt; taken.as_slice() == items.as_slice());
    Ok(())
}

/// Puts a number, which is seen once it is pushed, and takes it.
fn passes_one(putter: &mut Putter, taker: &mut Taker, x: u16) -> bool
    ensures { (putter.new.ring ≡ putter.old.ring)
        × (taker.new.ring ≡ taker.old.ring)
        × (taker.new.capacity ≡ taker.old.capacity) }
{
    if putter.sent() > 1000 || putter.put(x).is_err() || taker.look() != 0 {
        return false;
    }
    putter.push();
    if taker.look() != 1 || taker.peek_next() != x {
        return false;
    }
    taker.release(1);
    true
}

/// Whether a list has these numbers once so many are taken into it.
fn takes(taker: &mut Taker, most: usize, out: &mut ArrayVec<u16, 64>, wanted: &[u16]) -> bool
    ensures { taker.new.ring ≡ taker.old.ring }
{
    if most > 64 || out.len() > 64 - most {
        return false;
    }
    taker.take(most, out);
    out.as_slice() == wanted
}

/// Whether a ring takes two numbers and no third, which are seen once they are pushed.
fn takes_two(putter: &mut Putter, taker: &mut Taker) -> bool {
    if putter.sent() > 0 || putter.put(5).is_err() || putter.put(6).is_err() {
        return false;
    }
    let is_full = putter.put(7) == Err(Full { sent: 2, seen: 0 });
    is_full && taker.look() == 0
}

#[test]
fn ring_of_two(rt: HostRuntime) -> Result<(), Fail> {
    let (mut putter, mut taker) = ring(rt.alloc(), 2)?;
    assert!(rt; takes_two(&mut putter, &mut taker));
    putter.push();
    assert!(rt; takes(&mut taker, 64, &mut ArrayVec::new(), &[5, 6]));
    assert!(rt; passes_one(&mut putter, &mut taker, 7) && taker.taken() == 3);
    Ok(())
}
