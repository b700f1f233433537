//! The end that takes characters out.
ghost use Rattle.std.specs.Prelude.{◌≡◌, ℕ, ◌+◌, ◌-◌, ◌<◌, ◌≤◌, true, List, [], ◌∷◌, ◌++◌, length, take, min, max, All};
ghost use Rattle.tty_base.specs.Sizes.{LEAST_FLIP};
ghost use mathlib.Core.List.{IsPrefix};
ghost use Rattle.arrayvec.specs.ArrayVec.{array_vec_len};
ghost use Rattle.tty_base.specs.declared.characters.Flagged.{Flagged};
ghost use Rattle.word_ring.specs.Ends.{IsOneWithin, AreReleased, with_shown, with_taken};
ghost use Rattle.flip_buffer.specs.Drops.{LooksAt, Releases};

use crate::input::{FlipIn, FlipNote};
use crate::packed::{add_each, character_of};
use arrayvec::ArrayVec;
use std::marker::Model;
use tty_base::{Chars, Flagged, Moves};
use word_ring::{HeadNote, Taker};

/// The end that takes characters out.
#[derive(Drop)]
pub struct FlipOut {
    pub(crate) taker: Taker,
}

impl Model for FlipOut {
    ghost use Rattle.tty_base.specs.declared.characters.Flagged.{Flagged};
    ghost use Rattle.word_ring.specs.Ends.{TakerState};

    ghost Value = { TakerState Flagged };

    ghost use Rattle.flip_buffer.specs.Parts.{flip_out, HasRoomOut};

    ghost view = { flip_out };

    ghost invariant = { HasRoomOut };
}

impl Moves for FlipOut {}

impl FlipOut {
    /// How many characters the buffer has room for.
    #[inline(always)]
    pub fn capacity(&self) -> usize
        ensures count { result ≡ self.now.capacity }
        ensures least { LEAST_FLIP ≤ self.now.capacity }
    {
        self.taker.capacity()
    }

    /// How many characters were taken.
    pub fn taken(&self) -> u64
        ensures count { result ≡ length self.now.taken }
        ensures begins { self.now.ended ≡ true → IsPrefix self.now.taken self.now.sent }
    {
        self.taker.taken()
    }

    /// Gives a note of how many characters were taken, which the other end can be told.
    pub fn note(&mut self) -> HeadNote
        ensures same { self.new ≡ self.old }
        ensures note { result ≡ record { ring = self.old.ring; taken = length self.old.taken } }
    {
        self.taker.note()
    }

    /// Is told what the other end had pushed, and the heads that it had loaded. From then on each
    /// tail counts at least that. What was peeked is forgotten.
    pub fn meet(&mut self, note: FlipNote)
        requires { note.ring ≡ self.old.ring }
        ensures same { self.new ≡ record self.old { peeked = []; floor = max self.old.floor (length note.pushed) } }
        ensures compared { IsOneWithin self.old.taken note.pushed }
        ensures heads { AreReleased self.old.released note.heads × All (λ h. h ≤ length self.old.taken) note.heads }
    {
        let FlipNote { note } = note;
        self.taker.meet(note);
    }

    /// How many characters can be taken, by the tail that this call loads. What was peeked is
    /// forgotten.
    pub fn look(&mut self) -> usize
        ensures same { self.new ≡ with_shown self.old self.new.floor }
        ensures count { length self.old.taken + result ≡ self.new.floor }
        ensures most { result ≤ self.old.capacity }
        ensures rises { self.old.floor ≤ self.new.floor }
        ensures ended { self.old.ended ≡ true → self.new.floor ≡ length self.old.sent }
        ensures begins { self.old.ended ≡ true → IsPrefix self.old.taken self.old.sent }
    {
        self.taker.look()
    }

    /// The next character after those that were taken or peeked, which a look or a note has shown. It
    /// stays in the buffer until it is released.
    pub(crate) fn peek_next(&mut self) -> Flagged
        requires { length self.old.taken + length self.old.peeked < self.old.floor }
        ensures { self.new ≡ record self.old { peeked = self.old.peeked ++ result ∷ [] } }
    {
        character_of(self.taker.peek_next())
    }

    /// Takes the first `n` characters that were peeked, by one store of the head, and the others are
    /// forgotten. Where `n` is 0 nothing changes.
    #[inline(always)]
    pub fn release(&mut self, n: usize)
        requires { n ≤ length self.old.peeked }
        ensures same { self.new ≡ with_taken self.old (take n self.old.peeked) }
        ensures begins { self.old.ended ≡ true → IsPrefix self.new.taken self.old.sent }
    {
        self.taker.release(n);
    }

    /// Takes the oldest characters, at most so many and no more than the tail that this call loads
    /// counts, and adds them to `out`.
    pub fn take(&mut self, most: usize, out: &mut ArrayVec<Flagged, 64>) -> usize
        requires { array_vec_len out.old + most ≤ 64 }
        ensures moves { (xs : List Flagged)
            × (length xs ≡ result)
            × (out.new.items ≡ out.old.items ++ xs)
            × (self.new ≡ with_taken (with_shown self.old self.new.floor) xs) }
        ensures count { (length self.old.taken ≤ self.new.floor)
            × (result ≡ min most (self.new.floor - length self.old.taken)) }
        ensures rises { self.old.floor ≤ self.new.floor }
        ensures most { self.new.floor ≤ length self.old.taken + self.old.capacity }
        ensures ended { self.old.ended ≡ true → self.new.floor ≡ length self.old.sent }
        ensures begins { self.old.ended ≡ true → IsPrefix self.new.taken self.old.sent }
    {
        let mut numbers = ArrayVec::new();
        let count = self.taker.take(most, &mut numbers);
        add_each(numbers.as_slice(), out);
        count
    }

    /// Looks once, takes what that look shows, or the first `most` of it, and adds these characters to
    /// `out`.
    pub fn drop_all(&mut self, most: usize, out: &mut Chars) -> usize
        requires few { most ≤ self.old.capacity }
        requires room { most ≤ out.old.spare }
        ensures moves { (xs : List Flagged)
            × (length xs ≡ result)
            × (out.new ≡ record { items = out.old.items ++ xs; spare = out.old.spare - result })
            × (self.new.taken ≡ self.old.taken ++ xs) }
        ensures shown { (tail : ℕ)
            × LooksAt self.old self.new tail
            × (result ≡ min most (tail - length self.old.taken)) }
        ensures same { (self.new.ring ≡ self.old.ring)
            × (self.new.capacity ≡ self.old.capacity)
            × (self.new.ended ≡ self.old.ended)
            × (self.new.sent ≡ self.old.sent) }
        ensures peeked { self.new.peeked ≡ [] }
        ensures released { Releases self.old self.new }
        ensures ended { self.old.ended ≡ true → self.new.floor ≡ length self.old.sent }
        ensures begins { self.old.ended ≡ true → IsPrefix self.new.taken self.old.sent }
    {
        let shown = self.look().min(most);
        for _ in 0..shown {
            out.add(self.peek_next());
        }
        self.release(shown);
        shown
    }

    /// Takes over the other end, which first pushes, and answers how many characters were put. From
    /// then on each tail counts these. What was peeked is forgotten.
    pub fn end(&mut self, putter: FlipIn) -> u64
        requires { putter.ring ≡ self.old.ring }
        ensures sent { result ≡ length putter.sent }
        ensures same { self.new
            ≡ record self.old { peeked = []; floor = length putter.sent; ended = true; sent = putter.sent } }
        ensures compared { IsPrefix self.old.taken putter.sent }
        ensures heads { AreReleased self.old.released putter.heads }
        ensures floor { self.old.floor ≤ length putter.sent }
    {
        let FlipIn { putter } = putter;
        self.taker.finish(putter)
    }
}
