//! Which items of a session's text a text with further items asks of.

ghost use Rattle.std.specs.Prelude.{◌≡◌};
ghost use Rattle.further_text.specs.Sorts.{sort_of, is_step};

use session_text::is_call;
use tty_modes::is_same;

/// What a first word does in a session's text.
#[derive(Clone, Copy, PartialEq, Eq)]
pub enum Sort {
    /// It says how many ports there are.
    Ports,
    /// It opens a caller's block.
    Caller,
    /// An open phase is over there.
    Border,
    /// It stands inside a block.
    Inside,
    /// It opens another block, stands before the phases, or is no item.
    Other,
}

/// What a first word does in a session's text.
pub fn sort_of(word: &[u8]) -> Sort
    ensures { result ≡ sort_of word.now }
{
    if is_same(word, b"ports".as_slice()) {
        Sort::Ports
    } else if is_same(word, b"caller".as_slice()) {
        Sort::Caller
    } else if is_same(word, b"phase".as_slice()) || is_same(word, b"end".as_slice()) {
        Sort::Border
    } else if is_step(word) || is_call(word) {
        Sort::Inside
    } else {
        Sort::Other
    }
}

// Whether a word is an item of a line block or of a clock block.
fn is_step(word: &[u8]) -> bool
    ensures { result ≡ is_step word.now }
{
    is_same(word, b"rx".as_slice())
        || is_same(word, b"rxp".as_slice())
        || is_same(word, b"rxf".as_slice())
        || is_same(word, b"break".as_slice())
        || is_same(word, b"mask".as_slice())
        || is_same(word, b"unmask".as_slice())
        || is_same(word, b"idle".as_slice())
        || is_same(word, b"trigger".as_slice())
        || is_same(word, b"tick".as_slice())
}
