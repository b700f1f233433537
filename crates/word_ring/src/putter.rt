//! The end that puts numbers in, and its notes.
ghost use Rattle.std.specs.Prelude.{◌≡◌, ◌+◌, ◌%◌, ◌<◌, ◌≤◌, [], ◌∷◌, ◌++◌, length, OnOk, OnErr, MatchResult};
ghost use Rattle.std.specs.List.Sorted.{IsNonDecreasing};
ghost use Rattle.tty_base.specs.Sizes.{MOST_SENT};
ghost use Rattle.word_ring.specs.Ends.{with_loaded};

use crate::lanes::with_next;
use crate::steps::{place_after, store_lanes};
use crate::table::{HEAD, HeadNoted, LoadHead, Noted, RingSeat, RingTable, StoreTail, TAIL};
use crate::taker::HeadNote;
use std::alloc::Global;
use std::marker::Model;
use std::sync::Arc;
use tty_base::{Full, Moves};

/// The end that puts numbers in.
#[derive(Drop)]
pub struct Putter {
    pub(crate) board: Arc<RingTable>,
    pub(crate) seat: RingSeat,
    pub(crate) capacity: u64,
    pub(crate) sent: u64,
    /// The last numbers put, `sent % 4` of them, in its last lanes.
    pub(crate) word: u64,
    /// The place of the word that has the next number.
    pub(crate) at: usize,
    /// How many numbers were pushed.
    pub(crate) shown: u64,
    /// How many numbers were taken, at least.
    pub(crate) head: u64,
}

impl Model for Putter {
    ghost use Rattle.std.specs.Prelude.{ℕ};
    ghost use Rattle.word_ring.specs.Ends.{PutterState};

    ghost Value = { PutterState ℕ };

    ghost use Rattle.word_ring.specs.PutterParts.{putter_state, IsPutter};

    ghost view = { putter_state };

    ghost invariant = { IsPutter };
}

/// What the putter had pushed, and the heads that it had loaded, when it gave the note.
#[derive(Drop)]
pub struct Note {
    pub(crate) seat: RingSeat,
    /// How many numbers were pushed.
    pub(crate) shown: u64,
}

impl Model for Note {
    ghost use Rattle.std.specs.Prelude.{ℕ};
    ghost use Rattle.word_ring.specs.Ends.{NoteState};

    ghost Value = { NoteState ℕ };

    ghost use Rattle.word_ring.specs.PutterParts.{note_state, IsNote};

    ghost view = { note_state };

    ghost invariant = { IsNote };
}

impl Moves for Putter {}

impl Moves for Note {}

impl Putter {
    /// How many numbers the ring has room for.
    #[inline(always)]
    pub fn capacity(&self) -> usize
        ensures { result ≡ self.now.capacity }
    {
        self.capacity as usize
    }

    /// How many numbers were put.
    pub fn sent(&self) -> u64
        ensures { result ≡ length self.now.sent }
    {
        self.sent
    }

    /// How many numbers were put and, by the head that this call loads, not taken.
    pub fn waiting(&mut self) -> u64
        ensures same { self.new ≡ with_loaded self.old self.new.floor }
        ensures count { result + self.new.floor ≡ length self.old.sent }
        ensures most { result ≤ self.old.capacity }
        ensures rises { (self.old.floor ≤ self.new.floor) × (self.new.floor ≤ length self.old.pushed) }
        ensures ordered { IsNonDecreasing self.new.heads }
    {
        self.sent - self.load_head()
    }

    /// Puts a number. `Full` says how many were put and how many of these were taken, at the head that this call
    /// loaded, and comes where as many as the capacity are left. The taker finds the number after the next push.
    pub fn put(&mut self, x: u16) -> Result<(), Full>
        requires { length self.old.sent < MOST_SENT }
        ensures ok { OnOk result
            (self.new ≡ record (with_loaded self.old self.new.floor) { sent = self.old.sent ++ x ∷ [] }) }
        ensures full { OnErr result (self.new ≡ with_loaded self.old self.new.floor) }
        ensures exact { MatchResult result (λ _. length self.old.sent < self.new.floor + self.old.capacity)
            (λ f.
            (f ≡ record { sent = length self.old.sent; seen = self.new.floor })
            × (length self.old.sent ≡ self.new.floor + self.old.capacity)) }
        ensures rises { (self.old.floor ≤ self.new.floor) × (self.new.floor ≤ length self.old.pushed) }
        ensures ordered { IsNonDecreasing self.new.heads }
    {
        let seen = self.load_head();
        let sent = self.sent;
        if sent - seen == self.capacity {
            return Err(Full { sent, seen });
        }
        self.put_known(x);
        Ok(())
    }

    /// Puts a number for which there is room by the latest head that was loaded. The taker finds it
    /// after the next push.
    #[inline(always)]
    pub fn put_known(&mut self, x: u16)
        requires small { length self.old.sent < MOST_SENT }
        requires room { length self.old.sent < self.old.floor + self.old.capacity }
        ensures { self.new ≡ record self.old { sent = self.old.sent ++ x ∷ [] } }
    {
        let sent = self.sent;
        self.word = with_next(self.word, x);
        self.sent = sent + 1;
        if sent % 4 < 3 {
            return;
        }
        store_lanes(&self.board.shared, &mut self.seat, self.at, self.word, 4);
        self.at = place_after(self.capacity, sent + 1, self.at);
    }

    /// Makes all that was put visible to the taker, by one store of the tail. Where all of it is, there
    /// is nothing to store.
    pub fn push(&mut self)
        ensures same { self.new ≡ record self.old { pushed = self.old.sent } }
        ensures ordered { IsNonDecreasing self.new.heads }
    {
        let sent = self.sent;
        if self.shown == sent {
            return;
        }
        store_lanes(
            &self.board.shared,
            &mut self.seat,
            self.at,
            self.word,
            sent % 4,
        );
        self.board
            .shared
            .store::<StoreTail>(&mut self.seat, TAIL, sent);
        self.shown = sent;
    }

    /// Pushes, and gives a note of what the putter knows, which the taker can be told.
    pub fn note(&mut self) -> Note
        ensures same { self.new ≡ record self.old { pushed = self.old.sent } }
        ensures note { result ≡ record { ring = self.old.ring; pushed = self.old.sent; heads = self.old.heads } }
        ensures ordered { IsNonDecreasing self.new.heads }
    {
        self.push();
        Note {
            seat: self.board.shared.split_seat::<Noted>(&mut self.seat),
            shown: self.shown,
        }
    }

    /// Is told what the taker had taken, and loads the head once. That head and each later one is at least that.
    pub fn meet(&mut self, note: HeadNote)
        requires { note.ring ≡ self.old.ring }
        ensures same { self.new ≡ with_loaded self.old self.new.floor }
        ensures rises { (self.old.floor ≤ self.new.floor)
            × (note.taken ≤ self.new.floor)
            × (self.new.floor ≤ length self.old.pushed) }
        ensures within { length self.old.pushed ≤ length self.old.sent }
        ensures ordered { IsNonDecreasing self.new.heads }
    {
        let HeadNote { seat, taken } = note;
        let shared = &self.board.shared;
        shared.join_seat::<HeadNoted>(&mut self.seat, seat);
        self.head = self.head.max(taken);
        self.load_head();
    }

    // Loads the head.
    #[inline(always)]
    fn load_head(&mut self) -> u64
        ensures same { self.new ≡ with_loaded self.old result }
        ensures rises { (self.old.floor ≤ result) × (result ≤ length self.old.pushed) }
        ensures within { length self.old.pushed ≤ length self.old.sent }
        ensures ordered { IsNonDecreasing self.new.heads }
        ensures most { length self.old.sent ≤ result + self.old.capacity }
    {
        let head = self.board.shared.load::<LoadHead>(&mut self.seat, HEAD);
        self.head = head;
        head
    }
}
