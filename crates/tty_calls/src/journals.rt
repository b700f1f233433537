//! The entries of a journal, who made them and what they say, and the run of a port.

use super::answers::AnswerRef;
use super::kept_entries::Journal;
use tty_base::{Flagged, LineReport, Moves};

/// Who made an entry. A caller's number is the place of its name in the order in which names first occur for the port.
#[derive(Clone, Copy, Debug, PartialEq, Eq)]
pub enum Who {
    Caller(u16),
    Flusher,
    Line,
    Clock,
    Session,
}

/// What one entry of a journal says. Bytes and characters stand with whoever tells it.
#[derive(Clone, Copy)]
pub enum Event<'a> {
    /// A call was answered, and these characters of the flip buffer were dropped with it.
    Answer {
        answer: AnswerRef<'a>,
        dropped: &'a [Flagged],
    },
    /// A write took so many bytes, and is not over.
    Part(u32),
    /// A call must wait.
    Wait,
    /// These characters went from the flip buffer to the line discipline.
    Flush(&'a [Flagged]),
    /// A tenth of a second passed.
    Tick,
    /// The line of the phase is over, and so many characters were sent so far.
    LineEnd(u64),
    /// The clock of the phase is over.
    ClockEnd,
    /// The caller's calls of the phase are over.
    CallerEnd,
    /// The phase is over.
    PhaseEnd,
    /// The session hangs the port up, and these characters are dropped.
    Hangup(&'a [Flagged]),
}

/// An entry of a port's journal: one atomic event.
#[derive(Clone, Copy)]
pub struct Entry<'a> {
    pub who: Who,
    /// The caller's step, the number of the flush run, or the phase.
    pub step: u32,
    /// How many parts of the call, or pieces of the flush run, came before.
    pub part: u32,
    /// How many discipline changes, hangups and last closes came before.
    pub generation: u32,
    pub event: Event<'a>,
}

/// One port's journal, and what its line did.
#[derive(Drop)]
pub struct PortRun {
    pub journal: Journal,
    pub line: LineReport,
}

impl Moves for PortRun {}
