//! The kinds of answers, each by the call that is answered, and the kinds of entries, each by the word that names it.

ghost use Rattle.std.specs.Prelude.{◌≡◌};
ghost use Rattle.tty_calls.specs.Plain.{call_of};
ghost use Rattle.check_text.specs.Callers.{answer_kind as kind_of_call};
ghost use Rattle.check_text.specs.Entries.{kind_of, kind_text, call_kinds, last_kinds, other_kinds};
ghost use Rattle.text_lines.specs.Values.{choice_of};

use tty_calls::Call;

/// What a call is answered, where it is neither refused nor told that nothing can come any more.
#[derive(Clone, Copy)]
pub(crate) enum AnswerKind {
    Done,
    Count,
    Got,
    Number,
    Modes,
    Counts,
}

/// The kind of a call.
#[inline(always)]
pub(crate) fn answer_kind(call: &Call) -> AnswerKind
    ensures { result ≡ kind_of_call (call_of call.now) }
{
    match call {
        Call::Read { .. } | Call::TakePacket { .. } => AnswerKind::Got,
        Call::Write { .. } => AnswerKind::Count,
        Call::GetModes { .. } => AnswerKind::Modes,
        Call::GetDisc { .. } | Call::Inq { .. } | Call::Outq { .. } => AnswerKind::Number,
        Call::Counts { .. } => AnswerKind::Counts,
        _ => AnswerKind::Done,
    }
}

/// What an entry says.
#[derive(Clone, Copy)]
pub(crate) enum EventKind {
    Answer,
    Part,
    Wait,
    Flush,
    Tick,
    LineEnd,
    ClockEnd,
    CallerEnd,
    PhaseEnd,
    Hangup,
}

/// The kind that a word names.
pub(crate) fn kind_of(word: &[u8]) -> Option<EventKind>
    ensures { result ≡ kind_of word.now }
{
    match call_kind_of(word) {
        Some(kind) => Some(kind),
        None => other_kind_of(word),
    }
}

/// The kinds that speak of a call.
fn call_kind_of(word: &[u8]) -> Option<EventKind>
    ensures { result ≡ choice_of kind_text call_kinds word.now }
{
    if word == b"answer".as_slice() {
        Some(EventKind::Answer)
    } else if word == b"part".as_slice() {
        Some(EventKind::Part)
    } else if word == b"wait".as_slice() {
        Some(EventKind::Wait)
    } else {
        None
    }
}

fn other_kind_of(word: &[u8]) -> Option<EventKind>
    ensures { result ≡ choice_of kind_text other_kinds word.now }
{
    if word == b"flush".as_slice() {
        Some(EventKind::Flush)
    } else if word == b"tick".as_slice() {
        Some(EventKind::Tick)
    } else if word == b"line_end".as_slice() {
        Some(EventKind::LineEnd)
    } else if word == b"clock_end".as_slice() {
        Some(EventKind::ClockEnd)
    } else {
        last_kind_of(word)
    }
}

fn last_kind_of(word: &[u8]) -> Option<EventKind>
    ensures { result ≡ choice_of kind_text last_kinds word.now }
{
    if word == b"caller_end".as_slice() {
        Some(EventKind::CallerEnd)
    } else if word == b"phase_end".as_slice() {
        Some(EventKind::PhaseEnd)
    } else if word == b"hangup".as_slice() {
        Some(EventKind::Hangup)
    } else {
        None
    }
}
