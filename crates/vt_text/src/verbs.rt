//! The first words of lines.

ghost use Rattle.std.specs.Prelude.{◌≡◌};
ghost use Rattle.vt_text.specs.Verbs.{verb_of};

use session_text::is_call;
use tty_modes::is_same;

/// What the first word of a line is.
#[derive(Clone, Copy, PartialEq, Eq)]
pub(crate) enum VtVerb {
    Header,
    Consoles,
    Phase,
    Caller,
    Keys,
    Operator,
    Activate,
    State,
    End,
    /// A call of a caller.
    Call,
}

pub(crate) fn verb_of(word: &[u8]) -> Option<VtVerb>
    ensures { result ≡ verb_of word.now }
{
    if is_same(word, b"vt-session".as_slice()) {
        Some(VtVerb::Header)
    } else if is_same(word, b"consoles".as_slice()) {
        Some(VtVerb::Consoles)
    } else if is_same(word, b"phase".as_slice()) {
        Some(VtVerb::Phase)
    } else if is_same(word, b"caller".as_slice()) {
        Some(VtVerb::Caller)
    } else if is_same(word, b"keys".as_slice()) {
        Some(VtVerb::Keys)
    } else if is_same(word, b"operator".as_slice()) {
        Some(VtVerb::Operator)
    } else if is_same(word, b"activate".as_slice()) {
        Some(VtVerb::Activate)
    } else if is_same(word, b"state".as_slice()) {
        Some(VtVerb::State)
    } else if is_same(word, b"end".as_slice()) {
        Some(VtVerb::End)
    } else if is_call(word) {
        Some(VtVerb::Call)
    } else {
        None
    }
}
