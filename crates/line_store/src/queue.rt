//! A queue in one block of memory, whose items are one slice.

ghost use Rattle.std.specs.Prelude.{◌≡◌, ◌<◌, ◌≤◌, ◌+◌, IfOk, [], ◌∷◌, ◌++◌, length};
ghost use Rattle.std.specs.Prelude.{take, drop, slice_set, vec_len, vec_capacity};
ghost use Rattle.std.specs.List.{AllByRecursion};
ghost use Rattle.line_store.specs.Good.{IsGood, bytes_in};
ghost use Rattle.line_store.specs.Pieces.{MOST_QUEUED};

use char_lanes::push_run;
use std::alloc::Global;
use std::marker::Model;
use tty_base::{Flagged, NoMemory};

/// How many items a queue holds at most, of bytes and of ends alike.
const MOST_QUEUED: usize = 4096;

/// How many items have room in its memory: those that it holds, and before them as many that were taken.
const ROOM: usize = 2 * MOST_QUEUED;

/// A queue of at most 4,096 items. Contracts see them in order.
#[derive(Drop)]
pub struct Queue<T> {
    items: Vec<T>,
    start: usize,
}

impl<T> Model for Queue<T> {
    ghost use Rattle.std.specs.Prelude.{List, drop, vec_len, vec_capacity};
    ghost use Rattle.line_store.specs.Pieces.{IsQueue};

    ghost Value = { List T };

    ghost view = { λ q. drop q.start q.items.items };

    ghost invariant = { λ q. IsQueue (vec_len q.items) (vec_capacity q.items) q.start };
}

impl<T: Copy> Queue<T> {
    pub fn new(alloc: Global) -> Result<Queue<T>, NoMemory>
        ensures { IfOk result (λ queue. queue ≡ []) }
    {
        Ok(Queue {
            items: Vec::with_capacity(alloc, ROOM)?,
            start: 0,
        })
    }

    /// Adds an item at the end.
    #[inline(always)]
    pub fn push(&mut self, item: T)
        requires { length self.old < MOST_QUEUED }
        ensures { self.new ≡ self.old ++ item ∷ [] }
    {
        self.items.push_reserved(item);
    }

    /// Adds several items at the end.
    pub fn append(&mut self, items: &[T])
        requires { length self.old + length items.now ≤ MOST_QUEUED }
        ensures { self.new ≡ self.old ++ items.now }
    {
        match self.items.extend_from_slice(items) {
            Ok(()) => {}
            Err(_) => unreachable!(),
        }
    }

    /// Takes `count` items from the front.
    pub fn skip(&mut self, count: usize)
        requires { count ≤ length self.old }
        ensures { self.new ≡ drop count self.old }
    {
        let start = self.start + count;
        if start <= MOST_QUEUED && start < self.items.len() {
            self.start = start;
        } else {
            close_up(&mut self.items, start);
            self.start = 0;
        }
    }

    /// Takes all items.
    pub fn clear(&mut self)
        ensures { self.new ≡ [] }
    {
        self.items.clear();
        self.start = 0;
    }

    /// Replaces the first item.
    pub fn set_first(&mut self, item: T)
        requires { 0 < length self.old }
        ensures { self.new ≡ slice_set self.old 0 item }
    {
        self.items[self.start] = item;
    }

    /// The items, in order.
    pub fn as_slice(&self) -> &[T]
        ensures items { result.now ≡ self.now }
        ensures few { length self.now ≤ MOST_QUEUED }
    {
        &self.items[self.start..]
    }

    /// How many items there are.
    pub fn len(&self) -> usize
        ensures len { result ≡ length self.now }
        ensures few { result ≤ MOST_QUEUED }
    {
        self.items.len() - self.start
    }
}

/// Moves the items of a queue to the front of its memory.
#[cold]
fn close_up<T: Copy>(items: &mut Vec<T>, start: usize)
    requires { start ≤ vec_len items.old }
    ensures items { items.new.items ≡ drop start items.old.items }
    ensures capacity { vec_capacity items.old ≤ vec_capacity items.new }
{
    let count = items.len() - start;
    items.rotate_left(start);
    items.truncate(count);
}

impl Queue<u8> {
    /// Adds the bytes of the good characters at the front. Answers how many.
    #[inline(always)]
    pub fn append_good(&mut self, chars: &[Flagged]) -> usize
        requires { length self.old + length chars.now ≤ MOST_QUEUED }
        ensures within { result ≤ length chars.now }
        ensures good { AllByRecursion IsGood (take result chars.now) }
        ensures added { self.new ≡ self.old ++ bytes_in (take result chars.now) }
    {
        push_run(&mut self.items, chars, 0, u8::MAX, [].as_slice())
    }
}
