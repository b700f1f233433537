//! Lists of characters, of which a short one takes no memory.
ghost use Rattle.std.specs.Prelude.{◌≡◌, ◌+◌, ◌-◌, ◌≤◌, ◌<◌, [], ◌∷◌, ◌++◌};
ghost use Rattle.std.specs.Prelude.{length, take, IfOk, OnOk, OnErr, vec_capacity};
ghost use Rattle.arrayvec.specs.ArrayVec.{array_vec_len};
ghost use Rattle.tty_base.specs.Characters.{good_characters};

use super::buffers::NoMemory;
use super::characters::{Flagged, four_good, good_at};
use arrayvec::ArrayVec;
use std::alloc::Global;
use std::marker::Model;

/// How many characters stand in a list itself.
const NEAR: usize = 8;

/// Where the characters of a list stand: in the list itself, or in memory.
#[derive(Debug, Drop)]
enum Held {
    Near(ArrayVec<Flagged, NEAR, Global>),
    Far(Vec<Flagged>),
}

/// A list of characters with reserved room, seen by contracts as a `Buffer` is. Up to eight stand in the
/// list itself, so that a short one takes no memory.
#[derive(Debug, Drop)]
pub struct Chars {
    held: Held,
}

impl Model for Chars {
    ghost use Rattle.tty_base.specs.Contents.{Contents};
    ghost use Rattle.tty_base.specs.declared.characters.Flagged.{Flagged};

    ghost Value = { Contents Flagged };

    ghost use Rattle.tty_base.specs.Held.{contents_of};

    ghost view = { λ c. contents_of c.held };
}

/// These characters in memory, with room for `more` further ones.
#[inline(never)]
fn moved(near: &ArrayVec<Flagged, NEAR, Global>, more: usize) -> Result<Vec<Flagged>, NoMemory>
    ensures { IfOk result (λ far. (far.items ≡ near.now.items) × (length near.now.items + more ≤ vec_capacity far)) }
{
    let mut far = near.as_slice().to_vec(*near.allocator())?;
    far.reserve(more)?;
    Ok(far)
}

/// Adds four characters to those in the list itself.
#[inline(always)]
fn push_near(near: &mut ArrayVec<Flagged, NEAR, Global>, chars: [Flagged; 4])
    requires { array_vec_len near.old + 4 ≤ 8 }
    ensures items { near.new.items ≡ near.old.items ++ chars }
    ensures len { array_vec_len near.new ≡ array_vec_len near.old + 4 }
{
    let [a, b, c, d] = chars;
    near.push(a);
    near.push(b);
    near.push(c);
    near.push(d);
}

/// Adds four characters to those in memory, in room that was reserved.
#[inline(always)]
fn push_far(far: &mut Vec<Flagged>, chars: [Flagged; 4])
    requires { length far.old.items + 4 ≤ vec_capacity far.old }
    ensures items { far.new.items ≡ far.old.items ++ chars }
    ensures capacity { vec_capacity far.new ≡ vec_capacity far.old }
{
    let [a, b, c, d] = chars;
    far.push_reserved(a);
    far.push_reserved(b);
    far.push_reserved(c);
    far.push_reserved(d);
}

impl Chars {
    /// An empty list, with the room that a list has in itself. It takes no memory.
    #[inline(always)]
    pub fn new(alloc: Global) -> Chars
        ensures { result ≡ record { items = []; spare = 8 } }
    {
        Chars {
            held: Held::Near(ArrayVec::new_in(alloc)),
        }
    }

    /// Makes room for `more` further characters. Room grows by doubling, and where it is there nothing is
    /// done. `NoMemory` leaves the list as it was.
    #[inline(always)]
    pub fn reserve(&mut self, more: usize) -> Result<(), NoMemory>
        ensures items { self.new.items ≡ self.old.items }
        ensures ok { OnOk result (more ≤ self.new.spare) }
        ensures grows { self.old.spare ≤ self.new.spare }
        ensures err { OnErr result (self.new ≡ self.old) }
    {
        if more > self.spare() {
            return self.grow(more);
        }
        Ok(())
    }

    /// Makes room for more characters than there is room for.
    #[inline(never)]
    fn grow(&mut self, more: usize) -> Result<(), NoMemory>
        requires { self.old.spare < more }
        ensures items { self.new.items ≡ self.old.items }
        ensures ok { OnOk result (more ≤ self.new.spare) }
        ensures err { OnErr result (self.new ≡ self.old) }
    {
        match &mut self.held {
            Held::Near(near) => {
                let far = moved(near, more)?;
                self.held = Held::Far(far);
                Ok(())
            }
            Held::Far(far) => Ok(far.reserve(more)?),
        }
    }

    /// Adds a character in room that was reserved.
    #[inline(always)]
    pub fn add(&mut self, c: Flagged)
        requires { 0 < self.old.spare }
        ensures { self.new ≡ record { items = self.old.items ++ c ∷ []; spare = self.old.spare - 1 } }
    {
        match &mut self.held {
            Held::Near(near) => near.push(c),
            Held::Far(far) => far.push_reserved(c),
        }
    }

    /// Adds four characters in room that was reserved.
    #[inline(always)]
    pub fn add_four(&mut self, chars: [Flagged; 4])
        requires { 4 ≤ self.old.spare }
        ensures { self.new ≡ record { items = self.old.items ++ chars; spare = self.old.spare - 4 } }
    {
        match &mut self.held {
            Held::Near(near) => push_near(near, chars),
            Held::Far(far) => push_far(far, chars),
        }
    }

    /// Adds the good characters of these bytes in room that was reserved. Mostly they are eight.
    #[inline(always)]
    pub fn add_good(&mut self, bytes: &[u8])
        requires { length bytes.now ≤ self.old.spare }
        ensures { self.new ≡ record {
          items = self.old.items ++ good_characters bytes.now;
          spare = self.old.spare - length bytes.now;
        } }
    {
        if bytes.len() == 8 {
            self.add_two_fours(four_good(bytes, 0), four_good(bytes, 4));
        } else {
            self.add_any_good(bytes);
        }
    }

    /// Adds the good characters of any number of bytes in room that was reserved.
    #[inline(never)]
    fn add_any_good(&mut self, bytes: &[u8])
        requires { length bytes.now ≤ self.old.spare }
        ensures { self.new ≡ record {
          items = self.old.items ++ good_characters bytes.now;
          spare = self.old.spare - length bytes.now;
        } }
    {
        let whole = bytes.len() / 4;
        for k in 0..whole {
            self.add_four(four_good(bytes, 4 * k));
        }
        for at in 4 * whole..bytes.len() {
            self.add(good_at(bytes, at));
        }
    }

    /// Adds eight characters in room that was reserved.
    #[inline(always)]
    fn add_two_fours(&mut self, first: [Flagged; 4], second: [Flagged; 4])
        requires { 8 ≤ self.old.spare }
        ensures { self.new ≡ record { items = (self.old.items ++ first) ++ second; spare = self.old.spare - 8 } }
    {
        match &mut self.held {
            Held::Near(near) => {
                push_near(near, first);
                push_near(near, second);
            }
            Held::Far(far) => {
                push_far(far, first);
                push_far(far, second);
            }
        }
    }

    /// Adds characters in room that was reserved.
    #[inline(always)]
    pub fn append(&mut self, chars: &[Flagged])
        requires { length chars.now ≤ self.old.spare }
        ensures { self.new ≡ record { items = self.old.items ++ chars.now; spare = self.old.spare - length chars.now } }
    {
        for c in chars {
            self.add(*c);
        }
    }

    /// Keeps the first `n` characters, and all the room.
    #[inline(never)]
    pub fn truncate(&mut self, n: usize)
        ensures items { self.new.items ≡ take n self.old.items }
        ensures room { self.old.spare ≤ self.new.spare }
    {
        match &mut self.held {
            Held::Near(near) => near.truncate(n),
            Held::Far(far) => far.truncate(n),
        }
    }

    /// The characters, in order.
    #[inline(always)]
    pub fn as_slice(&self) -> &[Flagged]
        ensures { result.now ≡ self.now.items }
    {
        match &self.held {
            Held::Near(near) => near.as_slice(),
            Held::Far(far) => far.as_slice(),
        }
    }

    /// How many characters can be added without asking for memory.
    #[inline(always)]
    pub fn spare(&self) -> usize
        ensures { result ≡ self.now.spare }
    {
        match &self.held {
            Held::Near(near) => NEAR - near.len(),
            Held::Far(far) => far.capacity() - far.len(),
        }
    }

    /// How many characters there are.
    #[inline(always)]
    pub fn len(&self) -> usize
        ensures { result ≡ length self.now.items }
    {
        match &self.held {
            Held::Near(near) => near.len(),
            Held::Far(far) => far.len(),
        }
    }

    /// An equal list, with room of its own.
    pub fn copy(&self, alloc: Global) -> Result<Chars, NoMemory>
        ensures { IfOk result (λ copy. copy.items ≡ self.now.items) }
    {
        let mut copy = Chars::new(alloc);
        copy.reserve(self.len())?;
        copy.append(self.as_slice());
        Ok(copy)
    }
}
