//! What a call is to meet, beside what it was answered.

use tty_base::{Counts, Errno};
use tty_calls::Answer;
use tty_modes::Modes;

/// What a call is to meet.
#[derive(Clone, Copy)]
pub enum Wanted<'a> {
    Done,
    Count(u32),
    Number(u32),
    Got(&'a [u8]),
    /// The default modes.
    Sane,
    Counts(Counts),
    Refused(Errno),
    /// A part of a write, which is no answer.
    Takes(u32),
    /// No answer yet.
    Waits,
}

pub const NOTHING_COUNTED: Counts = Counts {
    mark: 0,
    parity: 0,
    frame: 0,
    breaks: 0,
    cut: 0,
    echo: 0,
    pin: 0,
    pout: 0,
    pbad: 0,
    pfull: 0,
};

fn is_done(answer: &Answer) -> bool {
    match answer {
        Answer::Done => true,
        _ => false,
    }
}

fn count_of(answer: &Answer) -> Option<u32> {
    match answer {
        Answer::Count(count) => Some(*count),
        _ => None,
    }
}

fn number_of(answer: &Answer) -> Option<u32> {
    match answer {
        Answer::Number(number) => Some(*number),
        _ => None,
    }
}

fn gives(answer: &Answer, bytes: &[u8]) -> bool {
    match answer {
        Answer::Got(got) => got.as_slice() == bytes,
        _ => false,
    }
}

fn is_sane(answer: &Answer) -> bool {
    match answer {
        Answer::ModesAre(modes) => *modes == Modes::sane(),
        _ => false,
    }
}

fn counts(answer: &Answer, wanted: &Counts) -> bool {
    match answer {
        Answer::CountsAre(counts) => **counts == *wanted,
        _ => false,
    }
}

fn refusal_of(answer: &Answer) -> Option<Errno> {
    match answer {
        Answer::Refused(errno) => Some(*errno),
        _ => None,
    }
}

/// Whether a call was answered as it was to be.
pub fn is_answer(answer: &Answer, wanted: &Wanted) -> bool {
    match wanted {
        Wanted::Done => is_done(answer),
        Wanted::Count(count) => count_of(answer) == Some(*count),
        Wanted::Number(number) => number_of(answer) == Some(*number),
        Wanted::Got(bytes) => gives(answer, bytes),
        Wanted::Sane => is_sane(answer),
        Wanted::Counts(wanted) => counts(answer, wanted),
        Wanted::Refused(errno) => refusal_of(answer) == Some(*errno),
        _ => false,
    }
}
