//! The line that is being edited, and what erasing takes from it.

ghost use Rattle.std.specs.Prelude.{◌≡◌, ◌+◌, ◌-◌, ◌<◌, ◌≤◌, ◌↔◌, IsTrue, IfOk, List, [], ◌∷◌};
ghost use Rattle.std.specs.Prelude.{◌++◌, length, take, slice_index, vec_len, vec_capacity};
ghost use Rattle.std.specs.List.{AllByRecursion};
ghost use Rattle.tty_base.specs.Sizes.{MOST_LINE};
ghost use Rattle.n_tty_edit.specs.Typed.{IsTyped, bytes_in};
ghost use Rattle.tty_modes.specs.Settings.{has_flag};
ghost use Rattle.n_tty_edit.specs.Line.{Change, AddBytes, EraseLast, EraseWord, Clear};
ghost use Rattle.n_tty_edit.specs.Line.{after_change, edited_line, word_start, erase_size};
ghost use Rattle.n_tty_edit.specs.Width.{width_of, gone_of};

use crate::bytes::Class;
use crate::widths::width_at;
use char_lanes::push_run;
use std::alloc::Global;
use std::marker::Model;
use tty_base::sizes::MOST_LINE;
use tty_base::{Flagged, NoMemory};
use tty_modes::Modes;
use tty_modes::places::IUTF8;

/// What ERASE removed.
#[derive(Clone, Copy, Debug, PartialEq, Eq)]
pub struct Gone {
    /// The first byte of it.
    pub first: u8,
    /// How many bytes.
    pub bytes: usize,
    /// The sum of their widths, in columns.
    pub width: usize,
}

/// The line that is being edited, of at most 4,095 bytes. Contracts see its bytes.
#[derive(Drop)]
pub struct Edit {
    bytes: Vec<u8>,
}

impl Model for Edit {
    ghost use Rattle.std.specs.Prelude.{◌≤◌, List, ℕ, vec_len, vec_capacity};
    ghost use Rattle.tty_base.specs.Sizes.{MOST_LINE};

    ghost Value = { List ℕ };

    ghost view = { λ e. e.bytes.items };

    ghost invariant = { λ e. (vec_len e.bytes ≤ MOST_LINE) × (MOST_LINE ≤ vec_capacity e.bytes) };
}

impl Edit {
    /// An empty line, with room for all that it ever holds. No other call takes memory.
    pub fn new(alloc: Global) -> Result<Edit, NoMemory>
        ensures { IfOk result (λ line. line ≡ []) }
    {
        let bytes = Vec::with_capacity(alloc, MOST_LINE)?;
        Ok(Edit { bytes })
    }

    /// Adds a byte. A line of 4,095 bytes stays as it is.
    #[inline(always)]
    pub fn add(&mut self, b: u8) -> bool
        ensures room { IsTrue result ↔ (length self.old < MOST_LINE) }
        ensures line { self.new ≡ after_change self.old (AddBytes (b ∷ [])) }
    {
        let free = self.bytes.len() < MOST_LINE;
        if free {
            self.bytes.push_reserved(b);
        }
        free
    }

    /// Adds the good characters from blank to tilde at the front of some for which the line has room. Answers how many.
    #[inline(always)]
    pub fn append_typed(&mut self, chars: &[Flagged]) -> usize
        requires { length self.old + length chars.now ≤ MOST_LINE }
        ensures within { result ≤ length chars.now }
        ensures typed { AllByRecursion IsTyped (take result chars.now) }
        ensures line { self.new ≡ self.old ++ bytes_in (take result chars.now) }
    {
        push_run(&mut self.bytes, chars, b' ', b'~', [].as_slice())
    }

    /// Removes the last byte, or with iutf8 the last character: the bytes at the end that continue one,
    /// and the byte before them. There is none where the line has no such byte, and it then stays. `start`
    /// is the column in which the line began.
    pub fn erase(&mut self, start: usize, modes: &Modes) -> Option<Gone>
        ensures gone { result ≡ gone_of modes.now start self.old }
        ensures line { self.new ≡ after_change self.old (EraseLast (has_flag modes.now IUTF8)) }
    {
        let kept = self.erase_start(modes);
        let bytes = self.bytes.len() - kept;
        if bytes == 0 {
            return None;
        }
        let gone = Gone {
            first: self.bytes[kept],
            bytes,
            width: width_at(&self.bytes, kept, start, modes),
        };
        self.bytes.truncate(kept);
        Some(gone)
    }

    /// Removes the bytes at the end that are no ASCII letters, digits or `_`, and then the letters,
    /// digits and `_` before them. Answers how many bytes went.
    pub fn erase_word(&mut self) -> usize
        ensures count { result ≡ length self.old - word_start self.old }
        ensures line { self.new ≡ after_change self.old EraseWord }
    {
        let count = self.word_len();
        self.bytes.truncate(self.bytes.len() - count);
        count
    }

    /// How many bytes `erase_word` would remove.
    pub fn word_len(&self) -> usize
        ensures { result ≡ length self.now - word_start self.now }
    {
        let word_end = Class::Other.start_at_end(&self.bytes);
        self.bytes.len() - Class::Word.start_at_end(&self.bytes[..word_end])
    }

    /// Removes all bytes, and answers how many.
    pub fn kill(&mut self) -> usize
        ensures count { result ≡ length self.old }
        ensures line { self.new ≡ after_change self.old Clear }
    {
        let count = self.bytes.len();
        self.bytes.clear();
        count
    }

    /// The width of the last byte, in columns. `start` is the column in which the line began.
    pub fn width_of_last(&self, start: usize, modes: &Modes) -> usize
        requires { 0 < length self.now }
        ensures width { result ≡ width_of modes.now start (take (length self.now - 1) self.now)
            (slice_index self.now (length self.now - 1)) }
        ensures most { result ≤ 8 }
    {
        width_at(&self.bytes, self.bytes.len() - 1, start, modes)
    }

    /// The width of the byte at a place of the line, in columns.
    pub fn width_at(&self, i: usize, start: usize, modes: &Modes) -> usize
        requires { i < length self.now }
        ensures width { result ≡ width_of modes.now start (take i self.now) (slice_index self.now i) }
        ensures most { result ≤ 8 }
    {
        width_at(&self.bytes, i, start, modes)
    }

    /// The bytes of the line.
    pub fn bytes(&self) -> &[u8]
        ensures bytes { result.now ≡ self.now }
        ensures most { length self.now ≤ MOST_LINE }
    {
        &self.bytes
    }

    /// Where that begins which ERASE removes.
    fn erase_start(&self, modes: &Modes) -> usize
        ensures { result ≡ length self.now - erase_size (has_flag modes.now IUTF8) self.now }
    {
        let len = self.bytes.len();
        if modes.has(IUTF8) {
            let start = Class::Continuation.start_at_end(&self.bytes);
            if start == 0 { len } else { start - 1 }
        } else {
            len.saturating_sub(1)
        }
    }
}

/// What changes leave of the line is what the last of them makes of what the others leave.
pub fn edited_by_the_last()
    ensures { (changes : List Change) (last : Change) →
        edited_line (changes ++ last ∷ []) ≡ after_change (edited_line changes) last }
{}
