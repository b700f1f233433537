//! The end that takes numbers out, and its notes.
ghost use Rattle.std.specs.Prelude.{◌≡◌, ℕ, ◌+◌, ◌-◌, ◌%◌, ◌<◌, ◌≤◌, true, List};
ghost use Rattle.std.specs.Prelude.{[], ◌∷◌, ◌++◌, length, take, min, max, All};
ghost use mathlib.Core.List.{IsPrefix};
ghost use Rattle.arrayvec.specs.ArrayVec.{array_vec_len};
ghost use Rattle.word_ring.specs.Ends.{IsOneWithin, AreReleased, with_shown, with_taken};

use crate::lanes::lane_of;
use crate::putter::{Note, Putter};
use crate::steps::{place_of_head, place_to_load};
use crate::table::{
    Compare, Ended, HEAD, HeadNoted, LoadLanes, LoadTail, Noted, RingSeat, RingTable, StoreHead,
    TAIL,
};
use arrayvec::ArrayVec;
use std::alloc::Global;
use std::marker::Model;
use std::sync::Arc;
use tty_base::Moves;

/// The end that takes numbers out.
#[derive(Drop)]
pub struct Taker {
    pub(crate) board: Arc<RingTable>,
    pub(crate) seat: RingSeat,
    pub(crate) capacity: u64,
    pub(crate) taken: u64,
    /// How many numbers were taken or are peeked.
    pub(crate) next: u64,
    /// The word that has the latest number that was peeked.
    pub(crate) word: u64,
    /// The place of the word that has the first number not taken.
    pub(crate) start: usize,
    /// The place of the word that has the latest number that was peeked.
    pub(crate) at: usize,
    /// How many numbers were pushed, at least.
    pub(crate) tail: u64,
    /// The putter was taken over.
    pub(crate) ended: bool,
}

impl Model for Taker {
    ghost use Rattle.std.specs.Prelude.{ℕ};
    ghost use Rattle.word_ring.specs.Ends.{TakerState};

    ghost Value = { TakerState ℕ };

    ghost use Rattle.word_ring.specs.TakerParts.{taker_state, IsTaker};

    ghost view = { taker_state };

    ghost invariant = { IsTaker };
}

/// How many numbers the taker had taken when it gave the note.
#[derive(Drop)]
pub struct HeadNote {
    pub(crate) seat: RingSeat,
    pub(crate) taken: u64,
}

impl Model for HeadNote {
    ghost use Rattle.word_ring.specs.Ends.{HeadNoteState};

    ghost Value = { HeadNoteState };

    ghost use Rattle.word_ring.specs.TakerParts.{head_note_state, IsHeadNote};

    ghost view = { head_note_state };

    ghost invariant = { IsHeadNote };
}

impl Moves for Taker {}

impl Moves for HeadNote {}

impl Taker {
    /// How many numbers the ring has room for.
    #[inline(always)]
    pub fn capacity(&self) -> usize
        ensures { result ≡ self.now.capacity }
    {
        self.capacity as usize
    }

    /// How many numbers were taken.
    pub fn taken(&self) -> u64
        ensures count { result ≡ length self.now.taken }
        ensures begins { self.now.ended ≡ true → IsPrefix self.now.taken self.now.sent }
    {
        self.taken
    }

    /// Gives a note of how many numbers were taken, which the putter can be told.
    pub fn note(&mut self) -> HeadNote
        ensures same { self.new ≡ self.old }
        ensures note { result ≡ record { ring = self.old.ring; taken = length self.old.taken } }
    {
        HeadNote {
            seat: self.board.shared.split_seat::<HeadNoted>(&mut self.seat),
            taken: self.taken,
        }
    }

    /// Is told what the putter had pushed, and the heads that it had loaded. From then on each tail
    /// counts at least that. What was peeked is forgotten.
    pub fn meet(&mut self, note: Note)
        requires { note.ring ≡ self.old.ring }
        ensures same { self.new ≡ record self.old { peeked = []; floor = max self.old.floor (length note.pushed) } }
        ensures compared { IsOneWithin self.old.taken note.pushed }
        ensures heads { AreReleased self.old.released note.heads × All (λ h. h ≤ length self.old.taken) note.heads }
    {
        let Note { seat, shown } = note;
        let shared = &self.board.shared;
        shared.join_seat::<Noted>(&mut self.seat, seat);
        shared.load::<Compare>(&mut self.seat, HEAD);
        self.tail = self.tail.max(shown);
        self.next = self.taken;
    }

    /// How many numbers can be taken, by the tail that this call loads. What was peeked is forgotten.
    pub fn look(&mut self) -> usize
        ensures same { self.new ≡ with_shown self.old self.new.floor }
        ensures count { length self.old.taken + result ≡ self.new.floor }
        ensures most { result ≤ self.old.capacity }
        ensures rises { self.old.floor ≤ self.new.floor }
        ensures ended { self.old.ended ≡ true → self.new.floor ≡ length self.old.sent }
        ensures begins { self.old.ended ≡ true → IsPrefix self.old.taken self.old.sent }
    {
        let tail = self.board.shared.load::<LoadTail>(&mut self.seat, TAIL);
        self.tail = tail;
        self.next = self.taken;
        (self.tail - self.taken) as usize
    }

    /// The next number after those that were taken or peeked, which a look or a note has shown. It stays
    /// in the ring until it is released.
    pub fn peek_next(&mut self) -> u16
        requires { length self.old.taken + length self.old.peeked < self.old.floor }
        ensures { self.new ≡ record self.old { peeked = self.old.peeked ++ result ∷ [] } }
    {
        let next = self.next;
        if let Some(at) = place_to_load(self.capacity, self.taken, next, self.start, self.at) {
            self.word = self.board.shared.load::<LoadLanes>(&mut self.seat, at);
            self.at = at;
        }
        self.next = next + 1;
        lane_of(self.word, next % 4)
    }

    /// Takes the first `n` numbers that were peeked, by one store of the head, and the others are
    /// forgotten. Where `n` is 0 nothing changes.
    #[inline(always)]
    pub fn release(&mut self, n: usize)
        requires { n ≤ length self.old.peeked }
        ensures same { self.new ≡ with_taken self.old (take n self.old.peeked) }
        ensures begins { self.old.ended ≡ true → IsPrefix self.new.taken self.old.sent }
    {
        let taken = self.taken;
        if n == 0 {
            return;
        }
        let head = taken + n as u64;
        self.board
            .shared
            .store::<StoreHead>(&mut self.seat, HEAD, head);
        self.start = place_of_head(self.capacity, head, self.next, self.at);
        self.taken = head;
        self.next = head;
    }

    /// Takes the oldest numbers, at most so many and no more than the tail that this call loads
    /// counts, and adds them to `out`.
    pub fn take(&mut self, most: usize, out: &mut ArrayVec<u16, 64>) -> usize
        requires { array_vec_len out.old + most ≤ 64 }
        ensures moves { (xs : List ℕ)
            × (length xs ≡ result)
            × (out.new.items ≡ out.old.items ++ xs)
            × (self.new ≡ with_taken (with_shown self.old self.new.floor) xs) }
        ensures count { (length self.old.taken ≤ self.new.floor)
            × (result ≡ min most (self.new.floor - length self.old.taken)) }
        ensures rises { self.old.floor ≤ self.new.floor }
        ensures most { self.new.floor ≤ length self.old.taken + self.old.capacity }
        ensures ended { self.old.ended ≡ true → self.new.floor ≡ length self.old.sent }
        ensures begins { self.old.ended ≡ true → IsPrefix self.new.taken self.old.sent }
    {
        let count = self.look().min(most);
        for _ in 0..count {
            out.push(self.peek_next());
        }
        self.release(count);
        count
    }

    /// Takes over the putter, which first pushes, and answers how many numbers were put. From then on
    /// each tail counts these. What was peeked is forgotten.
    pub fn finish(&mut self, putter: Putter) -> u64
        requires { putter.ring ≡ self.old.ring }
        ensures sent { result ≡ length putter.sent }
        ensures same { self.new
            ≡ record self.old { peeked = []; floor = length putter.sent; ended = true; sent = putter.sent } }
        ensures compared { IsPrefix self.old.taken putter.sent }
        ensures heads { AreReleased self.old.released putter.heads }
        ensures floor { self.old.floor ≤ length putter.sent }
    {
        let mut putter = putter;
        putter.push();
        let sent = putter.sent();
        let Putter {
            board: _board,
            seat,
            capacity: _,
            sent: _,
            word: _,
            at: _,
            shown: _,
            head: _,
        } = putter;
        let shared = &self.board.shared;
        shared.join_seat::<Ended>(&mut self.seat, seat);
        shared.load::<Compare>(&mut self.seat, HEAD);
        self.tail = self.tail.max(sent);
        self.ended = true;
        self.next = self.taken;
        sent
    }
}
