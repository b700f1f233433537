//! The end that puts characters in, and its notes.
ghost use Rattle.std.specs.Prelude.{◌≡◌, ◌+◌, ◌<◌, ◌≤◌, [], ◌∷◌, ◌++◌, length, OnOk, OnErr, MatchResult};
ghost use Rattle.std.specs.List.Sorted.{IsNonDecreasing};
ghost use Rattle.tty_base.specs.Sizes.{LEAST_FLIP, MOST_SENT};
ghost use Rattle.word_ring.specs.Ends.{with_loaded};

use crate::packed::number_of;
use std::marker::Model;
use tty_base::{Flagged, Full, Moves, Put};
use word_ring::{HeadNote, Note, Putter};

/// The end that puts characters in.
#[derive(Drop)]
pub struct FlipIn {
    pub(crate) putter: Putter,
}

impl Model for FlipIn {
    ghost use Rattle.tty_base.specs.declared.characters.Flagged.{Flagged};
    ghost use Rattle.word_ring.specs.Ends.{PutterState};

    ghost Value = { PutterState Flagged };

    ghost use Rattle.flip_buffer.specs.Parts.{flip_in, HasRoomIn};

    ghost view = { flip_in };

    ghost invariant = { HasRoomIn };
}

/// What was pushed, and the heads that were loaded, when the note was given.
#[derive(Drop)]
pub struct FlipNote {
    pub(crate) note: Note,
}

impl Model for FlipNote {
    ghost use Rattle.tty_base.specs.declared.characters.Flagged.{Flagged};
    ghost use Rattle.word_ring.specs.Ends.{NoteState};

    ghost Value = { NoteState Flagged };

    ghost use Rattle.flip_buffer.specs.Parts.{flip_note};

    ghost view = { flip_note };
}

impl Put for FlipIn {
    ghost use Rattle.std.specs.Prelude.{◌≡◌, ◌-◌, length};
    ghost use Rattle.tty_base.specs.Sizes.{MOST_SENT};
    ghost use Rattle.word_ring.specs.Names.{name_of};

    ghost sent = { λ f. f.sent };

    ghost heads = { λ f. f.heads };

    ghost capacity = { λ f. f.capacity };

    ghost visible = { λ f. f.pushed ≡ f.sent };

    ghost name = { λ f. name_of f.ring };

    ghost numbers_left = { λ f. MOST_SENT - length f.sent };

    /// Puts a character. `Full` says how many were put and how many of these were taken, at the head
    /// that this call loaded, and comes where as many as the capacity are left.
    fn put(&mut self, c: Flagged) -> Result<(), Full>
        requires { length self.old.sent < MOST_SENT }
        ensures ok { OnOk result
            (self.new ≡ record (with_loaded self.old self.new.floor) { sent = self.old.sent ++ c ∷ [] }) }
        ensures full { OnErr result (self.new ≡ with_loaded self.old self.new.floor) }
        ensures exact { MatchResult result (λ _. length self.old.sent < self.new.floor + self.old.capacity)
            (λ f.
            (f ≡ record { sent = length self.old.sent; seen = self.new.floor })
            × (length self.old.sent ≡ self.new.floor + self.old.capacity)) }
        ensures rises { (self.old.floor ≤ self.new.floor) × (self.new.floor ≤ length self.old.pushed) }
        ensures ordered { IsNonDecreasing self.new.heads }
    {
        self.putter.put(number_of(c))
    }

    /// Makes all that was put visible to the other end.
    fn push(&mut self)
        ensures same { self.new ≡ record self.old { pushed = self.old.sent } }
        ensures ordered { IsNonDecreasing self.new.heads }
    {
        self.putter.push();
    }
}

impl Moves for FlipIn {}

impl Moves for FlipNote {}

impl FlipIn {
    /// How many characters the buffer has room for.
    #[inline(always)]
    pub fn capacity(&self) -> usize
        ensures count { result ≡ self.now.capacity }
        ensures least { LEAST_FLIP ≤ self.now.capacity }
    {
        self.putter.capacity()
    }

    /// How many characters were put.
    pub fn sent(&self) -> u64
        ensures { result ≡ length self.now.sent }
    {
        self.putter.sent()
    }

    /// How many characters were put and, by the head that this call loads, not taken.
    pub fn waiting(&mut self) -> u64
        ensures same { self.new ≡ with_loaded self.old self.new.floor }
        ensures count { result + self.new.floor ≡ length self.old.sent }
        ensures most { result ≤ self.old.capacity }
        ensures rises { (self.old.floor ≤ self.new.floor) × (self.new.floor ≤ length self.old.pushed) }
        ensures ordered { IsNonDecreasing self.new.heads }
    {
        self.putter.waiting()
    }

    /// Puts a character for which there is room by the latest head that was loaded.
    #[inline(always)]
    pub fn put_known(&mut self, c: Flagged)
        requires small { length self.old.sent < MOST_SENT }
        requires room { length self.old.sent < self.old.floor + self.old.capacity }
        ensures { self.new ≡ record self.old { sent = self.old.sent ++ c ∷ [] } }
    {
        self.putter.put_known(number_of(c));
    }

    /// Pushes, and gives a note of what this end knows, which the other end can be told.
    pub fn note(&mut self) -> FlipNote
        ensures same { self.new ≡ record self.old { pushed = self.old.sent } }
        ensures note { result ≡ record { ring = self.old.ring; pushed = self.old.sent; heads = self.old.heads } }
        ensures ordered { IsNonDecreasing self.new.heads }
    {
        FlipNote {
            note: self.putter.note(),
        }
    }

    /// Is told what the other end had taken, and loads the head once. That head and each later one is
    /// at least that.
    pub fn meet(&mut self, note: HeadNote)
        requires { note.ring ≡ self.old.ring }
        ensures same { self.new ≡ with_loaded self.old self.new.floor }
        ensures rises { (self.old.floor ≤ self.new.floor)
            × (note.taken ≤ self.new.floor)
            × (self.new.floor ≤ length self.old.pushed) }
        ensures within { length self.old.pushed ≤ length self.old.sent }
        ensures ordered { IsNonDecreasing self.new.heads }
    {
        self.putter.meet(note);
    }
}
