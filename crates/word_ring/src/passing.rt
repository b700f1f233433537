//! What goes from the one end straight to the other, where both are at hand and nothing waits: the head
//! and the tail are stored, and no number is stored in a word.
ghost use Rattle.std.specs.Prelude.{◌≡◌, ℕ, ◌+◌, ◌≤◌, ◌↔◌, List, ◌++◌, length, IsTrue};
ghost use Rattle.tty_base.specs.Sizes.{MOST_SENT};
ghost use Rattle.word_ring.specs.Ends.{NothingWaits, Passes};
ghost use Rattle.word_ring.specs.Lanes.{HasLast, lanes};

use crate::lanes::{with_next, word_of};
use crate::past::{Past, Run};
use crate::putter::Putter;
use crate::steps::place_further;
use crate::table::{Apart, Ended, HEAD, Left, PutPast, TAIL, TakePast};
use crate::taker::Taker;

impl Taker {
    /// Whether nothing that was put waits to be taken, as both ends know.
    #[inline(always)]
    pub fn nothing_waits(&self, putter: &Putter) -> bool
        ensures { IsTrue result ↔ NothingWaits putter.now self.now }
    {
        putter.shown == putter.sent
            && putter.head == putter.sent
            && self.taken == putter.sent
            && !self.ended
    }

    /// Takes these bytes as numbers from the putter, where nothing waits: as if each was put, all of them
    /// pushed and taken, and the head loaded. The tail and the head are stored once.
    #[inline(always)]
    pub fn pass(&mut self, putter: &mut Putter, bytes: &[u8])
        requires ring { putter.old.ring ≡ self.old.ring }
        requires clear { NothingWaits putter.old self.old }
        requires room { length bytes.now ≤ self.old.capacity }
        requires small { length putter.old.sent + length bytes.now ≤ MOST_SENT }
        ensures { Passes putter.old putter.new self.old self.new bytes.now }
    {
        let sent = putter.sent + bytes.len() as u64;
        let shared = &self.board.shared;
        let seat = shared.split_seat::<Left>(&mut putter.seat);
        shared.join_seat::<Ended>(&mut self.seat, seat);
        shared.exchange(&mut self.seat, 0, Past::of(&Run { bytes }));
        shared.store::<PutPast>(&mut self.seat, TAIL, sent);
        shared.store::<TakePast>(&mut self.seat, HEAD, sent);
        putter.seat = shared.split_seat::<Apart>(&mut self.seat);
        putter.at = place_further(putter.capacity, putter.sent, sent, putter.at);
        putter.word = word_after(putter.word, putter.sent, bytes);
        putter.sent = sent;
        putter.shown = sent;
        putter.head = sent;
        self.start = putter.at;
        self.taken = sent;
        self.next = sent;
        self.tail = sent;
    }
}

/// The word that has in its last lanes the numbers since the last full word, where these come after so many
/// of which it has those in another.
#[inline(always)]
fn word_after(word: u64, sent: u64, bytes: &[u8]) -> u64
    requires small { sent + length bytes.now ≤ MOST_SENT }
    ensures { (front : List ℕ) → length front ≡ sent → HasLast word front → HasLast result (front ++ bytes.now) }
{
    match bytes.last_chunk::<4>() {
        Some(last) => word_of_bytes(*last),
        None => word_after_few(word, sent, bytes),
    }
}

/// The word with these numbers, the first in its first lane.
#[inline(always)]
fn word_of_bytes(bytes: [u8; 4]) -> u64
    ensures { lanes result 4 ≡ bytes }
{
    let [a, b, c, d] = bytes;
    word_of([u16::from(a), u16::from(b), u16::from(c), u16::from(d)])
}

/// That word, where they are few.
#[inline(never)]
fn word_after_few(word: u64, sent: u64, bytes: &[u8]) -> u64
    requires small { sent + length bytes.now ≤ MOST_SENT }
    ensures { (front : List ℕ) → length front ≡ sent → HasLast word front → HasLast result (front ++ bytes.now) }
{
    let count = (sent + bytes.len() as u64) % 4;
    let first = bytes.len().saturating_sub(count as usize);
    let mut word = word;
    for at in first..bytes.len() {
        word = with_next(word, u16::from(bytes[at]));
    }
    word
}
