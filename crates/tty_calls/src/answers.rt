//! What a call is answered, why a port made no entry, and what is left of a port at its end.

ghost use Rattle.std.specs.Prelude.{◌≡◌};
ghost use Rattle.tty_calls.specs.Plain.{answer_of, answer_lent};

use tty_base::{Buffer, Bytes, Counts, Errno, Moves, Signal};
use tty_modes::Modes;

/// What a call is answered.
#[derive(Drop)]
pub enum Answer {
    /// The call did what it is for.
    Done,
    /// How many bytes a write took.
    Count(u32),
    /// The bytes that a read gives, or a packet. No bytes are the end of file.
    Got(Vec<u8>),
    /// The number that was asked for.
    Number(u32),
    /// The modes that were asked for.
    ModesAre(Modes),
    /// The counts that were asked for. They stand apart, since few calls ask for them.
    CountsAre(Box<Counts>),
    /// The call was refused (errno(3)).
    Refused(Errno),
    /// The call waited, and nothing could come any more that it waited for.
    Idle,
}

impl Moves for Answer {}

impl Answer {
    /// The answer, lent.
    #[inline(always)]
    pub fn lent(&self) -> AnswerRef<'_>
        ensures { answer_lent result ≡ answer_of self.now }
    {
        match self {
            Answer::Done => AnswerRef::Done,
            Answer::Count(count) => AnswerRef::Count(*count),
            Answer::Got(bytes) => AnswerRef::Got(bytes.as_slice()),
            Answer::Number(number) => AnswerRef::Number(*number),
            Answer::ModesAre(modes) => AnswerRef::ModesAre(modes),
            Answer::CountsAre(counts) => AnswerRef::CountsAre(counts),
            Answer::Refused(errno) => AnswerRef::Refused(*errno),
            Answer::Idle => AnswerRef::Idle,
        }
    }
}

/// An answer whose bytes, modes and counts stand with whoever tells it.
#[derive(Clone, Copy)]
pub enum AnswerRef<'a> {
    Done,
    Count(u32),
    Got(&'a [u8]),
    Number(u32),
    ModesAre(&'a Modes),
    CountsAre(&'a Counts),
    Refused(Errno),
    Idle,
}

/// Why a port made no entry.
#[derive(Clone, Copy, Debug, PartialEq, Eq)]
pub enum Denied {
    /// No memory was left. The port makes no further entry.
    NoMemory,
    /// The journal has as many entries as it may have.
    Full,
}

/// What is left of a port at its end.
#[derive(Drop)]
pub struct PortEnd {
    /// What was counted.
    pub counts: Counts,
    /// The signals, in the order raised.
    pub signals: Buffer<Signal>,
    /// How many discipline changes, hangups and last closes there were.
    pub generation: u32,
    /// The bytes that went to the wire.
    pub wire: Bytes,
}

impl Moves for PortEnd {}
