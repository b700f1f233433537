//! The packets that wait: their bytes and their lengths.

ghost use Rattle.std.specs.Prelude.{◌≡◌, ◌+◌, ◌-◌, ◌*◌, ◌<◌, ◌≤◌, [], ◌∷◌, ◌++◌};
ghost use Rattle.std.specs.Prelude.{length, take, drop, IfOk, slice_index_or};
ghost use Rattle.slip_frames.specs.Slip.{max_packet};
ghost use Rattle.n_slip.specs.Discipline.{most_waiting};

use crate::kept::Kept;
use std::alloc::Global;
use std::collections::VecDeque;
use std::marker::Model;
use tty_base::{Bytes, NoMemory};

/// How many packets can wait.
pub const MOST: usize = 64;

/// The packets that wait, oldest first: their bytes one after another, and the length of each.
#[derive(Drop)]
pub struct Queue {
    bytes: Kept,
    lengths: VecDeque<u32>,
}

impl Model for Queue {
    ghost use Rattle.std.specs.Prelude.{List, ℕ};

    ghost Value = { List (List ℕ) };

    ghost use Rattle.n_slip.specs.Queue.{packets_of, IsQueue};

    ghost view = { λ q. packets_of q.lengths.items q.bytes };

    ghost invariant = { IsQueue };
}

impl Queue {
    /// An empty queue with room for all the packets that it can hold.
    pub fn new(alloc: Global) -> Result<Queue, NoMemory>
        ensures { IfOk result (λ q. q ≡ []) }
    {
        Ok(Queue {
            bytes: Kept::new(alloc)?,
            lengths: VecDeque::with_capacity(alloc, MOST)?,
        })
    }

    pub fn len(&self) -> usize
        ensures len { result ≡ length self.now }
        ensures few { result ≤ most_waiting }
    {
        self.lengths.len()
    }

    /// The length of the oldest packet, or 0 where none waits.
    pub fn first_len(&self) -> usize
        ensures first { result ≡ length (slice_index_or self.now 0 []) }
        ensures short { result ≤ max_packet }
    {
        match self.lengths.front() {
            Some(n) => *n as usize,
            None => 0,
        }
    }

    pub fn push(&mut self, packet: &[u8])
        requires free { length self.old < most_waiting }
        requires short { length packet.now ≤ max_packet }
        ensures { self.new ≡ self.old ++ packet.now ∷ [] }
    {
        self.bytes.append(packet);
        self.lengths.push_back_reserved(packet.len() as u32);
    }

    /// Moves the oldest packet to the end of `out`, and answers its length.
    pub fn take(&mut self, out: &mut Bytes) -> u32
        requires some { 0 < length self.old }
        requires room { length (slice_index_or self.old 0 []) ≤ out.old.spare }
        ensures len { result ≡ length (slice_index_or self.old 0 []) }
        ensures out { out.new
            ≡ record {
              items = out.old.items ++ slice_index_or self.old 0 [];
              spare = out.old.spare - length (slice_index_or self.old 0 []);
            } }
        ensures rest { self.new ≡ drop 1 self.old }
    {
        match self.lengths.pop_front() {
            Some(n) => {
                self.bytes.move_front(n as usize, out);
                n
            }
            None => unreachable!(),
        }
    }

    pub fn clear(&mut self)
        ensures { self.new ≡ [] }
    {
        self.bytes.clear();
        self.lengths.clear();
    }
}
