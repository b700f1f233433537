//! The port in the cell, and what one turn does with it.

ghost use Rattle.std.specs.Prelude.{◌≡◌, ◌+◌, ◌<◌, ◌≤◌, ◌^◌, true, false, IfOk};
ghost use Rattle.std.specs.Prelude.{IfErr, OnOk, OnErr, length, sum};
ghost use Rattle.tty_base.specs.Sizes.{MOST_ENTRIES, MOST_HANDLES};
ghost use Rattle.tty_calls.specs.Plain.{call_of, handle_of, changes};
ghost use Rattle.tty_calls.specs.Limits.{byte_count};
ghost use Rattle.tty_terminal.specs.Steps.{may_end};
ghost use Rattle.port_core.specs.Attempts.{tried_of, Raises, IsAtOnce};
ghost use Rattle.port_cell.specs.Entries.{generation_of, AddsBy};
ghost use Rattle.tty_port.specs.Histories.{history_of, name_of, seat_of};
ghost use Rattle.tty_port.specs.Seen.{marks_at, next_run, terminal_at};
ghost use Rattle.tty_port.specs.Placed.{IsHistoryOf};
ghost use Rattle.tty_port.specs.Adding.{Adds, IsFull, IsUnderWay, TriesCall};
ghost use Rattle.tty_port.specs.Flushing.{GoesOnAt, FlushesPiece};
ghost use Rattle.tty_port.specs.Lines.{EndsLine};
ghost use Rattle.tty_port.specs.PhaseEvents.{CanFollow, IsEventEntry, maker_of};

use crate::names::{HistoryEntry, PortName};
use crate::phase_events::{PhaseEvent, happen};
use flip_buffer::FlipIn;
use port_cell::Kept;
use port_core::{Flushed, Port, Tried};
use tty_calls::{Call, Denied};

/// A port that is shared, and how many callers have seats.
#[derive(Drop)]
pub struct KeptPort {
    pub(crate) port: Box<Port>,
    pub(crate) callers: u32,
}

impl Kept for KeptPort {
    type Name = PortName;

    type Entry = HistoryEntry;

    ghost use Rattle.tty_port.specs.Histories.{history_of, name_of};

    ghost name = { name_of };

    ghost list = { history_of };

    fn count(&self) -> u64 {
        self.port.journal().len() as u64
    }

    fn generation(&self) -> u32 {
        self.port.known();
        self.port.generation()
    }
}

/// The most characters of a piece of a flush run.
const PIECE: u32 = tty_base::sizes::PIECE as u32;

impl KeptPort {
    /// How many entries the journal has.
    pub(crate) fn entry_count(&self) -> u64
        ensures count { result ≡ length (history_of self.now) }
        ensures history { IsHistoryOf self.now.callers self.now.port.value (history_of self.now) }
    {
        let port = &*self.port;
        port.journal().len() as u64
    }

    /// Tries a call of a caller.
    pub(crate) fn attempt(&mut self, caller: u16, step: u32, call: &Call) -> Result<Tried, Denied>
        requires known { caller < sum (name_of self.old).counts }
        requires number { handle_of (call_of call.now) < MOST_HANDLES }
        requires bytes { byte_count (call_of call.now) < 2 ^ 32 }
        requires ready { IsUnderWay caller step (call_of call.now) (generation_of (history_of self.old))
            (history_of self.old) }
        ensures name { name_of self.new ≡ name_of self.old }
        ensures tried { IfOk result (λ tried.
            TriesCall caller step (call_of call.now) (history_of self.old) (history_of self.new) (tried_of tried)) }
        ensures same { OnErr result (history_of self.new ≡ history_of self.old) }
        ensures full { IfErr result (λ d. IsFull (name_of self.new) d (history_of self.new)) }
        ensures at_once { changes (call_of call.now) ≡ true → IfOk result (λ tried. IsAtOnce (tried_of tried)) }
        ensures by { AddsBy caller (history_of self.old) (history_of self.new) }
        ensures generation { Raises (changes (call_of call.now)) (generation_of (history_of self.old))
            (generation_of (history_of self.new)) }
        ensures few { generation_of (history_of self.new) ≤ MOST_ENTRIES }
        ensures history { IsHistoryOf self.new.callers self.new.port.value (history_of self.new) }
    {
        let port = &mut *self.port;
        port.known();
        let tried = port.attempt(caller, step, call);
        port.known();
        port.generation();
        tried
    }

    /// Flushes a piece of a flush run, of at most 64 characters.
    pub(crate) fn flush_piece(&mut self, run: u32, part: u32) -> Result<Flushed, Denied>
        requires { GoesOnAt run part (generation_of (history_of self.old)) (history_of self.old) }
        ensures name { name_of self.new ≡ name_of self.old }
        ensures flushed { IfOk result
            (λ flushed. FlushesPiece (name_of self.old) run part (history_of self.old) (history_of self.new) flushed) }
        ensures same { OnErr result (history_of self.new ≡ history_of self.old) }
        ensures full { IfErr result (λ d. IsFull (name_of self.new) d (history_of self.new)) }
        ensures by { AddsBy (name_of self.old).callers (history_of self.old) (history_of self.new) }
        ensures few { next_run (history_of self.new) ≤ MOST_ENTRIES }
        ensures generation { generation_of (history_of self.new) ≡ generation_of (history_of self.old) }
    {
        let port = &mut *self.port;
        port.known();
        let flushed = port.flush_piece(run, part, PIECE);
        port.known();
        flushed
    }

    /// Has an event of the phase happen.
    pub(crate) fn happen(&mut self, event: PhaseEvent) -> Result<(), Denied>
        requires { CanFollow (sum (name_of self.old).counts) event (history_of self.old) }
        ensures name { name_of self.new ≡ name_of self.old }
        ensures ok { OnOk result (Adds
            (IsEventEntry (name_of self.old).callers event (history_of self.old) (history_of self.old))
            (history_of self.old) (history_of self.new)) }
        ensures same { OnErr result (history_of self.new ≡ history_of self.old) }
        ensures full { IfErr result (λ d. IsFull (name_of self.new) d (history_of self.new)) }
        ensures by { AddsBy (seat_of (name_of self.old).callers (maker_of event)) (history_of self.old)
            (history_of self.new) }
        ensures generation { generation_of (history_of self.new) ≡ generation_of (history_of self.old) }
    {
        let port = &mut *self.port;
        port.known();
        happen(port, event)
    }

    /// The line of the phase is over: all that its putter put was sent.
    pub(crate) fn line_end(&mut self, putter: &mut FlipIn) -> Result<(), Denied>
        requires not_over { (marks_at (history_of self.old)).line_over ≡ false }
        requires ring { putter.old.ring ≡ (name_of self.old).ring }
        requires sent { (marks_at (history_of self.old)).sent ≤ length putter.old.sent }
        ensures name { name_of self.new ≡ name_of self.old }
        ensures ok { OnOk result (Adds
            (EndsLine ((name_of self.old).callers + 1) putter.old putter.new (history_of self.old))
            (history_of self.old) (history_of self.new)) }
        ensures putter { OnErr result (putter.new ≡ putter.old) }
        ensures same { OnErr result (history_of self.new ≡ history_of self.old) }
        ensures full { IfErr result (λ d. IsFull (name_of self.new) d (history_of self.new)) }
        ensures by { AddsBy ((name_of self.old).callers + 1) (history_of self.old) (history_of self.new) }
        ensures generation { generation_of (history_of self.new) ≡ generation_of (history_of self.old) }
    {
        let port = &mut *self.port;
        port.known();
        port.line_end(putter)
    }

    /// Whether the phase that runs may end.
    pub(crate) fn may_end(&self) -> bool
        ensures { result ≡ may_end (name_of self.now).counts (terminal_at (name_of self.now) (history_of self.now)) }
    {
        let port = &*self.port;
        port.known();
        port.may_end()
    }
}
