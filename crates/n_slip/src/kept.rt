//! The bytes of the packets that wait.

ghost use Rattle.std.specs.Prelude.{◌≡◌, ◌+◌, ◌-◌, ◌≤◌, [], ◌++◌, length, take, drop, IfOk, vec_len, vec_capacity};

use super::queue::MOST;
use slip_frames::MAX_PACKET;
use std::alloc::Global;
use std::marker::Model;
use tty_base::{Bytes, NoMemory, front_of};

/// How many bytes are kept at most.
const MOST_BYTES: usize = MOST * MAX_PACKET;

/// The bytes of the packets that wait, one after another. Behind those that were taken as many have room, so that they
/// are seldom moved.
#[derive(Drop)]
pub struct Kept {
    items: Vec<u8>,
    start: usize,
}

impl Model for Kept {
    ghost use Rattle.std.specs.Prelude.{List, ℕ, drop, vec_len, vec_capacity};
    ghost use Rattle.n_slip.specs.Kept.{IsKept};

    ghost Value = { List ℕ };

    ghost view = { λ k. drop k.start k.items.items };

    ghost invariant = { λ k. IsKept (vec_len k.items) (vec_capacity k.items) k.start };
}

impl Kept {
    /// Nothing, with room for all the bytes that are kept at most.
    pub fn new(alloc: Global) -> Result<Kept, NoMemory>
        ensures { IfOk result (λ kept. kept ≡ []) }
    {
        Ok(Kept {
            items: Vec::with_capacity(alloc, 2 * MOST_BYTES)?,
            start: 0,
        })
    }

    /// Adds bytes at the end.
    pub fn append(&mut self, bytes: &[u8])
        requires { length self.old + length bytes.now ≤ MOST_BYTES }
        ensures { self.new ≡ self.old ++ bytes.now }
    {
        match self.items.extend_from_slice(bytes) {
            Ok(()) => {}
            Err(_) => unreachable!(),
        }
    }

    /// Moves the first bytes, so many, to the end of `out`.
    pub fn move_front(&mut self, count: usize, out: &mut Bytes)
        requires within { count ≤ length self.old }
        requires room { count ≤ out.old.spare }
        ensures rest { self.new ≡ drop count self.old }
        ensures front { out.new
            ≡ record { items = out.old.items ++ take count self.old; spare = out.old.spare - count } }
    {
        out.append(front_of(self.as_slice(), count));
        self.skip(count);
    }

    /// Forgets all bytes.
    pub fn clear(&mut self)
        ensures { self.new ≡ [] }
    {
        self.items.clear();
        self.start = 0;
    }

    fn as_slice(&self) -> &[u8]
        ensures { result.now ≡ self.now }
    {
        &self.items[self.start..]
    }

    /// Takes `count` bytes from the front.
    fn skip(&mut self, count: usize)
        requires { count ≤ length self.old }
        ensures { self.new ≡ drop count self.old }
    {
        let start = self.start + count;
        if start <= MOST_BYTES && start < self.items.len() {
            self.start = start;
        } else {
            close_up(&mut self.items, start);
            self.start = 0;
        }
    }
}

/// Moves the bytes that are left to the front of their memory.
#[cold]
fn close_up(bytes: &mut Vec<u8>, start: usize)
    requires { start ≤ vec_len bytes.old }
    ensures items { bytes.new.items ≡ drop start bytes.old.items }
    ensures capacity { vec_capacity bytes.old ≤ vec_capacity bytes.new }
{
    let count = bytes.len() - start;
    bytes.rotate_left(start);
    bytes.truncate(count);
}
