//! Why a line is wrong, which line of a text is the first wrong one, and why a text gave no session.

use tty_base::NoMemory;

/// Why a line is wrong.
#[derive(Clone, Copy, Debug, PartialEq, Eq)]
pub enum Reason {
    /// The first item is not `tty-session 1` or `tty-session 2`.
    Header,
    /// The first word is no item and no call, a word is missing or too many, or a word is not one of
    /// those that may stand there.
    Word,
    /// A word is not a number.
    Number,
    /// A word is not HEX.
    Hex,
    /// The item may not stand there.
    Order,
    /// A number is out of its range, or a total is passed.
    Limit,
}

/// The first wrong line of a text, counted from 1, and why it is wrong.
#[derive(Clone, Copy, Debug, PartialEq, Eq)]
pub struct BadLine {
    pub line: u32,
    pub reason: Reason,
}

/// Why a text gave no session.
#[derive(Clone, Copy, Debug, PartialEq, Eq)]
pub enum TextFault {
    /// The text spells no session.
    Bad(BadLine),
    /// No memory was left.
    NoMemory,
}

impl From<NoMemory> for TextFault {
    ghost use Rattle.std.specs.Prelude.{◌≡◌};
    ghost use Rattle.session_text.specs.declared.faults.TextFault.TheVariants.{NoMemory as no_memory};

    ghost from_gives = { λ _ fault. fault ≡ no_memory };

    fn from(_error: NoMemory) -> TextFault {
        TextFault::NoMemory
    }
}
