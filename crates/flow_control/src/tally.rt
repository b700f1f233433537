//! What a port counts, and the signals that it raised.

use std::alloc::Global;
use tty_base::{Buffer, Counts, Moves, NoMemory, Signal};

/// A kind of event that is counted.
#[derive(Clone, Copy, PartialEq, Eq, Debug)]
pub enum Counter {
    /// A mark of a receive FIFO that overran.
    Mark,
    /// A character with a parity error.
    Parity,
    /// A character with a framing error.
    Frame,
    /// A break.
    Break,
    /// A character that a full edited line did not take.
    Cut,
    /// A byte of echo that found no room.
    Echo,
    /// A SLIP packet that was received.
    PacketIn,
    /// A SLIP packet that was sent.
    PacketOut,
    /// A SLIP packet that was dropped because it was flagged or too long.
    PacketBad,
    /// A SLIP packet that was dropped because too many waited.
    PacketFull,
}

/// A list of signals.
pub type Signals = Buffer<Signal>;

/// What a port has counted, and the signals that it has raised, in order.
#[derive(Debug, Drop)]
pub struct Tally {
    /// The counts. Each stands still at its type's end.
    pub counts: Counts,
    /// The signals, with the room that is reserved for more.
    pub signals: Signals,
}

impl Moves for Tally {}

impl Tally {
    ghost use Rattle.std.specs.Prelude.{◌≡◌, ◌≤◌, ◌<◌, ◌-◌, [], ◌∷◌, ◌++◌, length, take, OnOk, OnErr};
    ghost use Rattle.flow_control.specs.Counting.{with_count, no_counts, without_signals};

    /// Nothing is counted and no signal is raised. It takes no memory.
    pub fn new(alloc: Global) -> Tally
        ensures { result ≡ record { counts = no_counts; signals = record { items = []; spare = 0 } } }
    {
        Tally {
            counts: Counts::default(),
            signals: Buffer::new(alloc),
        }
    }

    /// Makes room for `more` further signals. `NoMemory` leaves all as it was.
    pub fn reserve(&mut self, more: usize) -> Result<(), NoMemory>
        ensures counts { self.new.counts ≡ self.old.counts }
        ensures signals { self.new.signals.items ≡ self.old.signals.items }
        ensures ok { OnOk result (more ≤ self.new.signals.spare) }
        ensures grows { self.old.signals.spare ≤ self.new.signals.spare }
        ensures err { OnErr result (self.new ≡ self.old) }
    {
        self.signals.reserve(more)
    }

    /// Counts `more` events of one kind.
    pub fn count(&mut self, counter: Counter, more: u64)
        ensures { self.new ≡ record self.old { counts = with_count self.old.counts counter more } }
    {
        let counts = &mut self.counts;
        match counter {
            Counter::Mark => counts.mark = counts.mark.saturating_add(more),
            Counter::Parity => counts.parity = counts.parity.saturating_add(more),
            Counter::Frame => counts.frame = counts.frame.saturating_add(more),
            Counter::Break => counts.breaks = counts.breaks.saturating_add(more),
            Counter::Cut => counts.cut = counts.cut.saturating_add(more),
            Counter::Echo => counts.echo = counts.echo.saturating_add(more),
            Counter::PacketIn => counts.pin = counts.pin.saturating_add(more),
            Counter::PacketOut => counts.pout = counts.pout.saturating_add(more),
            Counter::PacketBad => counts.pbad = counts.pbad.saturating_add(more),
            Counter::PacketFull => counts.pfull = counts.pfull.saturating_add(more),
        }
    }

    /// Records a signal, in room that was reserved.
    pub fn raise(&mut self, signal: Signal)
        requires { 0 < self.old.signals.spare }
        ensures { self.new
            ≡ record self.old {
              signals = record { items = self.old.signals.items ++ signal ∷ []; spare = self.old.signals.spare - 1 };
            } }
    {
        self.signals.add(signal);
    }

    /// Moves the first `n` signals to the end of `out`, for a user who runs for ever. Their room is free again.
    pub fn take_signals(&mut self, n: usize, out: &mut Signals)
        requires within { n ≤ length self.old.signals.items }
        requires room { n ≤ out.old.spare }
        ensures front { out.new
            ≡ record { items = out.old.items ++ take n self.old.signals.items; spare = out.old.spare - n } }
        ensures rest { self.new ≡ without_signals n self.old }
    {
        self.signals.take_front(n, out);
    }
}
