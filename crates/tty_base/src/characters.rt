//! Characters with their flags.
ghost use Rattle.std.specs.Prelude.{◌≡◌, ◌<◌, ◌≤◌, ◌+◌, [], ◌∷◌, ◌++◌, length, take};
ghost use Rattle.tty_base.specs.Characters.{good_character, good_characters};

/// How a character was received (16550 data sheet, line status register).
#[derive(Clone, Copy, Debug, Default, PartialEq, Eq)]
pub enum Flag {
    /// Received without an error.
    #[default]
    Normal,
    /// The line was held low: a break. The byte is 0.
    Break,
    /// The parity bit was wrong.
    Parity,
    /// The stop bit was missing.
    Frame,
    /// Not a character but a mark: here the receive FIFO lost some. The byte is 0.
    Overrun,
}

/// A character: a byte and its flag. It is good where the flag is `Normal`, and else flagged.
#[derive(Clone, Copy, Debug, Default, PartialEq, Eq)]
pub struct Flagged {
    pub byte: u8,
    pub flag: Flag,
}

impl Flagged {
    /// A byte that was received without an error.
    #[inline(always)]
    pub const fn good(byte: u8) -> Flagged
        ensures { result ≡ good_character byte }
    {
        Flagged {
            byte,
            flag: Flag::Normal,
        }
    }
}

/// The four good characters from the place `at` on.
#[inline(always)]
pub(crate) fn four_good(bytes: &[u8], at: usize) -> [Flagged; 4]
    requires { at + 4 ≤ length bytes.now }
    ensures { good_characters (take (at + 4) bytes.now) ≡ good_characters (take at bytes.now) ++ result }
{
    [
        good_at(bytes, at),
        good_at(bytes, at + 1),
        good_at(bytes, at + 2),
        good_at(bytes, at + 3),
    ]
}

/// The good character at the place `at`.
#[inline(always)]
pub fn good_at(bytes: &[u8], at: usize) -> Flagged
    requires { at < length bytes.now }
    ensures { good_characters (take (at + 1) bytes.now) ≡ good_characters (take at bytes.now) ++ result ∷ [] }
{
    Flagged::good(bytes[at])
}
