//! Lists with reserved room.
ghost use Rattle.std.specs.Prelude.{◌≡◌, ◌+◌, ◌-◌, ◌≤◌, ◌<◌, [], ◌∷◌, ◌++◌};
ghost use Rattle.std.specs.Prelude.{length, take, drop, IfOk, OnOk, OnErr, vec_len};
ghost use Rattle.tty_base.specs.Contents.{Contents};

use std::alloc::{AllocError, AllocFailed, Global};
use std::marker::Model;

/// No memory was left.
#[derive(Clone, Copy, Debug, PartialEq, Eq)]
pub struct NoMemory;

impl From<AllocError> for NoMemory {
    fn from(_error: AllocError) -> NoMemory {
        NoMemory
    }
}

impl<T: Drop> From<AllocFailed<T>> for NoMemory {
    fn from(_error: AllocFailed<T>) -> NoMemory {
        NoMemory
    }
}

/// A list with reserved room. Contracts see its items and the number `spare` of items that can be
/// added without asking for memory.
#[derive(Debug, Drop)]
pub struct Buffer<T> {
    items: Vec<T>,
    spare: usize,
}

impl<T> Model for Buffer<T> {
    ghost use Rattle.std.specs.Prelude.{◌+◌, ◌≤◌, vec_len, vec_capacity};
    ghost use Rattle.tty_base.specs.Contents.{Contents};

    ghost Value = { Contents T };

    ghost view = { λ b. record { items = b.items.items; spare = b.spare } };

    ghost invariant = { λ b. vec_len b.items + b.spare ≤ vec_capacity b.items };
}

/// A list of bytes.
pub type Bytes = Buffer<u8>;

impl<T> Buffer<T> {
    /// An empty list, without room. It takes no memory.
    pub fn new(alloc: Global) -> Buffer<T>
        ensures { result ≡ record { items = []; spare = 0 } }
    {
        Buffer {
            items: Vec::new(alloc),
            spare: 0,
        }
    }

    /// The items of a vector, without further room. It takes no memory.
    pub fn from_vec(items: Vec<T>) -> Buffer<T>
        ensures { result ≡ record { items = items.items; spare = 0 } }
    {
        Buffer { items, spare: 0 }
    }

    /// The items as a vector. It takes no memory.
    pub fn into_vec(self) -> Vec<T>
        ensures { result.items ≡ self.items }
    {
        let Buffer { items, spare: _ } = self;
        items
    }

    /// Makes room for `more` further items. Room grows by doubling, and where it is there nothing is
    /// done. `NoMemory` leaves the list as it was.
    pub fn reserve(&mut self, more: usize) -> Result<(), NoMemory>
        ensures items { self.new.items ≡ self.old.items }
        ensures ok { OnOk result (more ≤ self.new.spare) }
        ensures grows { self.old.spare ≤ self.new.spare }
        ensures err { OnErr result (self.new ≡ self.old) }
    {
        if more > self.spare {
            self.items.reserve(more)?;
            self.spare = more;
        }
        Ok(())
    }

    /// Adds an item in room that was reserved.
    pub fn add(&mut self, item: T)
        requires { 0 < self.old.spare }
        ensures { self.new ≡ record { items = self.old.items ++ item ∷ []; spare = self.old.spare - 1 } }
    {
        self.spare -= 1;
        self.items.push_reserved(item);
    }

    /// The items, in order.
    pub fn as_slice(&self) -> &[T]
        ensures { result.now ≡ self.now.items }
    {
        self.items.as_slice()
    }

    /// How many items can be added without asking for memory.
    pub fn spare(&self) -> usize
        ensures { result ≡ self.now.spare }
    {
        self.spare
    }

    /// How many items there are.
    pub fn len(&self) -> usize
        ensures { result ≡ length self.now.items }
    {
        self.items.len()
    }
}

impl<T: Copy> Buffer<T> {
    /// Adds items in room that was reserved.
    pub fn append(&mut self, items: &[T])
        requires { length items.now ≤ self.old.spare }
        ensures { self.new ≡ record { items = self.old.items ++ items.now; spare = self.old.spare - length items.now } }
    {
        self.spare -= items.len();
        match self.items.extend_from_slice(items) {
            Ok(()) => {}
            Err(_) => unreachable!(),
        }
    }

    /// Moves the first `n` items to the end of `out`. The room that they took is free again.
    pub fn take_front(&mut self, n: usize, out: &mut Buffer<T>)
        requires within { n ≤ length self.old.items }
        requires room { n ≤ out.old.spare }
        ensures front { out.new ≡ record { items = out.old.items ++ take n self.old.items; spare = out.old.spare - n } }
        ensures rest { self.new ≡ record { items = drop n self.old.items; spare = self.old.spare + n } }
    {
        let rest = self.items.len() - n;
        out.append(&self.items.as_slice()[..n]);
        self.items.rotate_left(n);
        self.items.truncate(rest);
        self.spare += n;
    }

    /// An equal list, with room of its own.
    pub fn copy(&self, alloc: Global) -> Result<Buffer<T>, NoMemory>
        ensures { IfOk result (λ copy. copy.items ≡ self.now.items) }
    {
        let mut copy = Buffer::new(alloc);
        copy.reserve(self.len())?;
        copy.append(self.as_slice());
        Ok(copy)
    }
}
