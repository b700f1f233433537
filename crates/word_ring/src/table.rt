//! The table that both ends of a ring share: its words, what each seat knows, and what a step tells.
//! Word 0 is the head, how many numbers were taken; word 1 the tail, how many were pushed; the
//! words from 2 on have the numbers, four to a word, each at its count. What is passed with both ends
//! at hand stands in no word: its numbers go through the one slot, which the taker holds.
ghost use Rattle.word_ring.specs.Plays.{TakesSlot, LoadsHead, StoresLanes, StoresTail, LoadsTail, LoadsLanes};
ghost use Rattle.word_ring.specs.Plays.{StoresHead, Compares, PutsPast, TakesPast, blank_view, putter_of};
ghost use Rattle.word_ring.specs.Plays.{taker_of, note_of, head_note_of, with_note, with_head_note, with_putter};

use crate::past::Past;
use atomic_table::{Join, Play, Seat, Shared, Split, Table, TableRule};
use std::alloc::Global;

/// The word that has the head.
pub(crate) const HEAD: usize = 0;

/// The word that has the tail.
pub(crate) const TAIL: usize = 1;

/// What a seat at the table knows. No value of it is made. A clause reads an array as a list of any length.
pub struct View {
    /// This is the putter's seat.
    pub puts: bool,
    /// This is the taker's seat.
    pub takes: bool,
    /// The capacity, as the putter knows it.
    pub puts_within: u64,
    /// The capacity, as the taker knows it.
    pub takes_within: u64,
    /// The numbers whose word was stored.
    pub written: [u16; 0],
    pub pushed: [u16; 0],
    /// The loaded heads.
    pub heads: [u64; 0],
    pub taken: [u16; 0],
    /// What was taken, and what was loaded after it.
    pub read: [u16; 0],
    /// The stored heads.
    pub released: [u64; 0],
    /// The loaded tails.
    pub tails: [u64; 0],
    /// What a note says was pushed.
    pub noted: [u16; 0],
    /// What a note says of loaded heads.
    pub noted_heads: [u64; 0],
    /// The head is at least this.
    pub head: u64,
    /// The tail is at least this.
    pub tail: u64,
    /// The slot was taken.
    pub holds: bool,
    /// What was pushed last goes past the words, and is not yet taken.
    pub passing: bool,
}

/// The rule of a ring. Its key is the capacity.
pub struct RingRule;

impl TableRule<Slot, View, u64> for RingRule {
    ghost use Rattle.word_ring.specs.Rule.{Ring};
    ghost use Rattle.word_ring.specs.Plays.{both_ends};

    ghost holds = { Ring };

    ghost first = { both_ends };
}

pub(crate) type Slot = Past;

pub(crate) type RingTable = Table<Slot, View, u64, RingRule, Global>;

pub(crate) type Steps = Shared<Slot, View, u64, RingRule>;

pub(crate) type RingSeat = Seat<Slot, View>;

pub(crate) struct LoadHead;

impl Play<Slot, View> for LoadHead {
    ghost then = { LoadsHead };
}

pub(crate) struct StoreLanes<const LANES: u64>;

impl<const LANES: u64> Play<Slot, View> for StoreLanes<LANES> {
    ghost then = { StoresLanes LANES };
}

pub(crate) struct StoreTail;

impl Play<Slot, View> for StoreTail {
    ghost then = { StoresTail };
}

pub(crate) struct LoadTail;

impl Play<Slot, View> for LoadTail {
    ghost then = { LoadsTail };
}

pub(crate) struct LoadLanes;

impl Play<Slot, View> for LoadLanes {
    ghost then = { LoadsLanes };
}

pub(crate) struct StoreHead;

impl Play<Slot, View> for StoreHead {
    ghost then = { StoresHead };
}

pub(crate) struct Compare;

impl Play<Slot, View> for Compare {
    ghost then = { Compares };
}

/// The numbers in the slot are put and pushed past the words.
pub(crate) struct PutPast;

impl Play<Slot, View> for PutPast {
    ghost then = { PutsPast };
}

/// They are taken.
pub(crate) struct TakePast;

impl Play<Slot, View> for TakePast {
    ghost then = { TakesPast };
}

/// The slot is taken.
pub(crate) struct TakeSlot;

impl Play<Slot, View> for TakeSlot {
    ghost then = { TakesSlot };
}

/// The first seat becomes the taker's, and the new one is the putter's.
pub(crate) struct Apart;

impl Split<View> for Apart {
    ghost left = { taker_of };

    ghost right = { putter_of };
}

/// The new seat has all that the first one had.
pub(crate) struct Left;

impl Split<View> for Left {
    ghost left = { λ _. blank_view };

    ghost right = { λ v. v };
}

/// A note of the putter.
pub(crate) struct Noted;

impl Split<View> for Noted {
    ghost left = { λ v. v };

    ghost right = { note_of };
}

impl Join<View> for Noted {
    ghost both = { with_note };

    ghost spent = { blank_view };
}

/// A note of the taker.
pub(crate) struct HeadNoted;

impl Split<View> for HeadNoted {
    ghost left = { λ v. v };

    ghost right = { head_note_of };
}

impl Join<View> for HeadNoted {
    ghost both = { with_head_note };

    ghost spent = { blank_view };
}

/// The taker takes over the putter's seat.
pub(crate) struct Ended;

impl Join<View> for Ended {
    ghost both = { with_putter };

    ghost spent = { blank_view };
}
