//! Characters are peeked four at a time, and what is left one by one: each four leave what four times
//! `peek_next` would.
ghost use Rattle.std.specs.Prelude.{◌≡◌, ◌+◌, ◌-◌, ◌*◌, ◌≤◌, List, ◌++◌, map, length};
ghost use Rattle.tty_base.specs.declared.characters.Flagged.{Flagged};
ghost use Rattle.word_ring.specs.Lanes.{lanes};
ghost use Rattle.flip_buffer.specs.Packed.{char_of};

use crate::output::FlipOut;
use crate::packed::add_characters;
use tty_base::Chars;

impl FlipOut {
    /// So many characters after those that were taken or peeked, which a look or a note has shown, are
    /// added to `out` in room that was reserved. They stay in the buffer until they are released.
    #[inline(always)]
    pub fn peek(&mut self, count: usize, out: &mut Chars)
        requires shown { length self.old.taken + length self.old.peeked + count ≤ self.old.floor }
        requires room { count ≤ out.old.spare }
        ensures peeks { (xs : List Flagged)
            × (length xs ≡ count)
            × (out.new ≡ record { items = out.old.items ++ xs; spare = out.old.spare - count })
            × (self.new ≡ record self.old { peeked = self.old.peeked ++ xs }) }
    {
        self.peek_fours(count / 4, out);
        if count % 4 > 0 {
            self.peek_each(count % 4, out);
        }
    }

    // So many are peeked one after the other.
    #[inline(never)]
    fn peek_each(&mut self, lone: usize, out: &mut Chars)
        requires shown { length self.old.taken + length self.old.peeked + lone ≤ self.old.floor }
        requires room { lone ≤ out.old.spare }
        ensures peeks { (xs : List Flagged)
            × (length xs ≡ lone)
            × (out.new ≡ record { items = out.old.items ++ xs; spare = out.old.spare - lone })
            × (self.new ≡ record self.old { peeked = self.old.peeked ++ xs }) }
    {
        for _ in 0..lone {
            out.add(self.peek_next());
        }
    }

    // So many times four are peeked.
    #[inline(always)]
    fn peek_fours(&mut self, fours: usize, out: &mut Chars)
        requires shown { length self.old.taken + length self.old.peeked + 4 * fours ≤ self.old.floor }
        requires room { 4 * fours ≤ out.old.spare }
        ensures peeks { (xs : List Flagged)
            × (length xs ≡ 4 * fours)
            × (out.new ≡ record { items = out.old.items ++ xs; spare = out.old.spare - 4 * fours })
            × (self.new ≡ record self.old { peeked = self.old.peeked ++ xs }) }
    {
        for _ in 0..fours {
            add_characters(self.peek_four(), out);
        }
    }

    // The next four characters, as the lanes of a word.
    fn peek_four(&mut self) -> u64
        requires shown { length self.old.taken + length self.old.peeked + 4 ≤ self.old.floor }
        ensures { self.new ≡ record self.old { peeked = self.old.peeked ++ map char_of (lanes result 4) } }
    {
        self.taker.peek_four()
    }
}
