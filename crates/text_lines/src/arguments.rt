//! The words of a line.

ghost use Rattle.std.specs.Prelude.{◌≡◌, ◌≤◌, ◌∷◌, nat_le, drop, length};
ghost use Rattle.text_lines.specs.Lines.{words_of};
ghost use Rattle.text_lines.specs.Values.{word_at, number_at, read_of};

use super::lines::{has_word, split_word};
use super::numbers::{number_in, read_number};
use std::marker::Model;

/// The words of a line, of which the first two are parted. Contracts see the list of all of them.
#[derive(Debug, Drop)]
pub struct FirstTwo<'a> {
    first: &'a [u8],
    second: &'a [u8],
    /// The line behind its second word.
    more: &'a [u8],
    /// How many of the two there are.
    few: usize,
    /// The number that the first word is, if it is one.
    number: Option<u64>,
}

impl<'a> Model for FirstTwo<'a> {
    ghost use Rattle.std.specs.Prelude.{◌≡◌, ℕ, List};
    ghost use Rattle.text_lines.specs.Lines.{words_of};
    ghost use Rattle.text_lines.specs.Values.{read_of};
    ghost use Rattle.text_lines.specs.Parted.{parted, IsParted};

    ghost Value = { List (List ℕ) };

    ghost view = { λ a. parted a.few a.first.now a.second.now (words_of a.more.now) };

    ghost invariant = { λ a.
        IsParted a.few a.first.now a.second.now (words_of a.more.now) × (a.number ≡ read_of a.first.now) };
}

impl<'a> FirstTwo<'a> {
    /// The words of a line.
    #[inline(always)]
    pub fn of(line: &'a [u8]) -> FirstTwo<'a>
        ensures { result ≡ words_of line.now }
    {
        match split_word(line) {
            None => FirstTwo {
                first: &[],
                second: &[],
                more: &[],
                few: 0,
                number: None,
            },
            Some((first, after)) => FirstTwo::behind(first, after),
        }
    }

    #[inline(always)]
    fn behind(first: &'a [u8], after: &'a [u8]) -> FirstTwo<'a>
        ensures { result ≡ first.now ∷ words_of after.now }
    {
        let number = read_number(first);
        match split_word(after) {
            None => FirstTwo {
                first,
                second: &[],
                more: &[],
                few: 1,
                number,
            },
            Some((second, more)) => FirstTwo {
                first,
                second,
                more,
                few: 2,
                number,
            },
        }
    }

    /// Whether there are no more words than two.
    #[inline(always)]
    pub fn are_all(&self) -> bool
        ensures { result ≡ nat_le (length self.now) 2 }
    {
        !has_word(self.more)
    }

    /// What stands behind the second word.
    pub fn more(&self) -> &'a [u8]
        ensures { words_of result.now ≡ drop 2 self.now }
    {
        self.more
    }

    /// The words of a line that has no more than these two.
    #[inline(always)]
    pub fn whole(&self) -> Arguments<'_, 'a>
        requires { length self.now ≤ 2 }
        ensures { result ≡ self.now }
    {
        Arguments {
            count: self.few,
            words: self,
        }
    }

    /// The words of a line that has so many.
    #[inline(always)]
    pub fn counted(&self, count: usize) -> Arguments<'_, 'a>
        requires { count ≡ length self.now }
        ensures { result ≡ self.now }
    {
        Arguments { words: self, count }
    }
}

/// The words of a line, parted and counted once. Contracts see the list of the words.
#[derive(Debug, Drop)]
pub struct Arguments<'b, 'a> {
    words: &'b FirstTwo<'a>,
    count: usize,
}

impl<'b, 'a> Model for Arguments<'b, 'a> {
    ghost use Rattle.std.specs.Prelude.{◌≡◌, ℕ, List, length};

    ghost Value = { List (List ℕ) };

    ghost view = { λ a. a.words.now };

    ghost invariant = { λ a. a.count ≡ length a.words.now };
}

impl<'b, 'a> Arguments<'b, 'a> {
    /// How many words there are.
    pub fn count(&self) -> usize
        ensures { result ≡ length self.now }
    {
        self.count
    }

    /// The first word, and no bytes where there is none.
    pub fn first(&self) -> &'a [u8]
        ensures { result.now ≡ word_at self.now 0 }
    {
        let words = self.words;
        words.first
    }

    /// The second word, and no bytes where there is none.
    pub fn second(&self) -> &'a [u8]
        ensures { result.now ≡ word_at self.now 1 }
    {
        let words = self.words;
        words.second
    }

    /// The number that is the first word, which was read once, and `None` where that is no number.
    #[inline(always)]
    pub fn first_read(&self) -> Option<u64>
        ensures { result ≡ read_of (word_at self.now 0) }
    {
        let words = self.words;
        words.number
    }

    /// The number that is the first word, and 0 where that is no number.
    #[inline(always)]
    pub fn first_number(&self) -> u64
        ensures { result ≡ number_at self.now 0 }
    {
        self.first_read().unwrap_or(0)
    }

    /// The number that is the second word, and 0 where that is no number.
    pub fn second_number(&self) -> u64
        ensures { result ≡ number_at self.now 1 }
    {
        let words = self.words;
        number_in(words.second)
    }

    /// What stands behind the second word.
    pub fn more(&self) -> &'a [u8]
        ensures { words_of result.now ≡ drop 2 self.now }
    {
        let words = self.words;
        words.more
    }
}
