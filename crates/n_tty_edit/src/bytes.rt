//! The classes of bytes by which words and characters are erased.

ghost use Rattle.std.specs.Prelude.{◌≡◌, ◌-◌, ◌≤◌, ◌↔◌, IsTrue, length};
ghost use Rattle.std.specs.List.{suffix_len};
ghost use Rattle.n_tty_edit.specs.Bytes.{is_of};

/// A class of bytes.
#[derive(Clone, Copy)]
pub enum Class {
    /// Continues a character of UTF-8: 0x80 to 0xbf.
    Continuation,
    /// Of a word: an ASCII letter or digit, or `_`.
    Word,
    /// Not of a word.
    Other,
}

impl Class {
    pub fn has(self, b: u8) -> bool
        ensures { result ≡ is_of self b }
    {
        let word = matches!(b, b'0'..=b'9' | b'A'..=b'Z' | b'a'..=b'z' | b'_');
        match self {
            Class::Continuation => matches!(b, 0x80..=0xbf),
            Class::Word => word,
            Class::Other => !word,
        }
    }

    /// How many bytes stand before those of this class at the end of a line.
    pub fn start_at_end(self, line: &[u8]) -> usize
        ensures { result ≡ length line.now - suffix_len (is_of self) line.now }
    {
        let mut start = line.len();
        while start > 0 && self.has(line[start - 1]) {
            start -= 1;
        }
        start
    }
}

/// Whether a byte is from blank to tilde, which is shown as itself under all modes.
pub fn is_printed(b: u8) -> bool
    ensures { IsTrue result ↔ ((32 ≤ b) × (b ≤ 126)) }
{
    b' ' <= b && b <= b'~'
}
