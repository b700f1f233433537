//! Four numbers at a time: each call leaves what four times `put_known` or `peek_next` would, with one store or one
//! load of a word.
ghost use Rattle.std.specs.Prelude.{◌≡◌, ◌+◌, ◌%◌, ◌<◌, ◌≤◌, ◌++◌, length};
ghost use Rattle.tty_base.specs.Sizes.{MOST_SENT};
ghost use Rattle.word_ring.specs.Lanes.{lanes};

use crate::lanes::{joined, word_of};
use crate::putter::Putter;
use crate::steps::{place_of_next, place_of_word, store_lanes};
use crate::table::LoadLanes;
use crate::taker::Taker;

impl Putter {
    /// Puts four numbers for which there is room by the latest head that was loaded. The taker finds them after the
    /// next push.
    #[inline(always)]
    pub fn put_four(&mut self, xs: [u16; 4])
        requires small { length self.old.sent + 4 ≤ MOST_SENT }
        requires room { length self.old.sent + 4 ≤ self.old.floor + self.old.capacity }
        ensures { self.new ≡ record self.old { sent = self.old.sent ++ xs } }
    {
        let four = word_of(xs);
        if self.sent % 4 == 0 {
            self.put_word(four);
        } else {
            self.put_across(four);
        }
    }

    // Puts the four numbers of a word, where all words so far are full.
    #[inline(always)]
    fn put_word(&mut self, word: u64)
        requires full { length self.old.sent % 4 ≡ 0 }
        requires small { length self.old.sent + 4 ≤ MOST_SENT }
        requires room { length self.old.sent + 4 ≤ self.old.floor + self.old.capacity }
        ensures { self.new ≡ record self.old { sent = self.old.sent ++ lanes word 4 } }
    {
        let at = self.at;
        store_lanes(&self.board.shared, &mut self.seat, at, word, 4);
        self.sent += 4;
        self.at = place_of_next(self.capacity, self.sent, at);
    }

    // Puts four numbers of which the first fill the last word, and the others begin the next one.
    fn put_across(&mut self, four: u64)
        requires inside { 0 < length self.old.sent % 4 }
        requires small { length self.old.sent + 4 ≤ MOST_SENT }
        requires room { length self.old.sent + 4 ≤ self.old.floor + self.old.capacity }
        ensures { self.new ≡ record self.old { sent = self.old.sent ++ lanes four 4 } }
    {
        let at = self.at;
        let end = self.sent + 4;
        let full = joined(self.word, four, self.sent % 4);
        store_lanes(&self.board.shared, &mut self.seat, at, full, 4);
        self.word = four;
        self.sent = end;
        self.at = place_of_next(self.capacity, end / 4 * 4, at);
    }
}

impl Taker {
    /// The next four numbers, which a look or a note has shown, as the lanes of a word. They stay in the
    /// ring until they are released.
    pub fn peek_four(&mut self) -> u64
        requires shown { length self.old.taken + length self.old.peeked + 4 ≤ self.old.floor }
        ensures { self.new ≡ record self.old { peeked = self.old.peeked ++ lanes result 4 } }
    {
        if self.next % 4 == 0 {
            self.peek_word()
        } else {
            self.peek_across()
        }
    }

    // The next four numbers, where the first of them begins a word.
    fn peek_word(&mut self) -> u64
        requires begins { (length self.old.taken + length self.old.peeked) % 4 ≡ 0 }
        requires shown { length self.old.taken + length self.old.peeked + 4 ≤ self.old.floor }
        ensures { self.new ≡ record self.old { peeked = self.old.peeked ++ lanes result 4 } }
    {
        let next = self.next;
        let at = place_of_word(self.capacity, self.taken, next, self.start, self.at);
        let word = self.board.shared.load::<LoadLanes>(&mut self.seat, at);
        self.word = word;
        self.at = at;
        self.next = next + 4;
        word
    }

    // The next four numbers, where the first of them does not begin a word: the last ones of a word,
    // which may have been loaded, and the first ones of the next.
    fn peek_across(&mut self) -> u64
        requires inside { 0 < (length self.old.taken + length self.old.peeked) % 4 }
        requires shown { length self.old.taken + length self.old.peeked + 4 ≤ self.old.floor }
        ensures { self.new ≡ record self.old { peeked = self.old.peeked ++ lanes result 4 } }
    {
        let lane = self.next % 4;
        let end = self.next + 4;
        if self.next == self.taken {
            self.word = self
                .board
                .shared
                .load::<LoadLanes>(&mut self.seat, self.start);
            self.at = self.start;
        }
        let first = self.word;
        let at = place_of_next(self.capacity, end / 4 * 4, self.at);
        let second = self.board.shared.load::<LoadLanes>(&mut self.seat, at);
        self.word = second;
        self.at = at;
        self.next = end;
        joined(first, second, 4 - lane)
    }
}
