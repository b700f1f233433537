//! What a port that runs for ever does beside: callers are many, the clock is set, what went out is taken, and what
//! only grows is forgotten.

ghost use Rattle.std.specs.Prelude.{◌≡◌, ◌≤◌, ◌<◌, [], max, length, take, drop, slice_get};

use super::Terminal;
use crate::callers::CallerState;
use flow_control::Signals;
use handle_table::HandleState;
use ldisc_switch::Disc;
use tty_base::{Bytes, Signal};
use tty_modes::Modes;

impl Terminal {
    ghost use Rattle.tty_terminal.specs.Terminals.{caller_at, handle_at, live_count};
    ghost use Rattle.tty_terminal.specs.Steps.{with_caller};
    ghost use Rattle.tty_terminal.specs.Kept.{kept};

    /// How many callers there are.
    pub fn callers(&self) -> usize
        ensures { result ≡ length self.now.terminal.callers }
    {
        self.callers.count()
    }

    /// Where one of any number of callers stands.
    pub fn standing(&self, caller: usize) -> CallerState
        requires { caller < length self.now.terminal.callers }
        ensures { result ≡ caller_at self.now.terminal caller }
    {
        self.callers.get(caller)
    }

    /// A caller stands so from now on.
    pub fn stand(&mut self, caller: usize, state: CallerState)
        requires { caller < length self.old.terminal.callers }
        ensures { self.new ≡ record self.old { terminal = with_caller self.old.terminal caller state } }
    {
        self.callers.set(caller, state);
    }

    /// How many handles are live.
    pub fn live(&self) -> usize
        ensures { result ≡ live_count self.now.terminal }
    {
        self.handles.live()
    }

    /// How the handle of a number stands, if it is in use.
    pub fn handle(&self, h: u8) -> Option<HandleState>
        ensures { result ≡ handle_at self.now.terminal h }
    {
        self.handles.state(h)
    }

    /// Whether the port may not be opened again (EXCL).
    pub fn is_exclusive(&self) -> bool
        ensures { result ≡ self.now.terminal.exclusive }
    {
        self.exclusive
    }

    /// The modes in force.
    pub fn modes(&self) -> Modes
        ensures { result ≡ self.now.terminal.modes }
    {
        self.modes
    }

    /// The signals that were raised and are not taken.
    pub fn signals(&self) -> &[Signal]
        ensures { result.now ≡ self.now.terminal.tally.signals.items }
    {
        self.tally.signals.as_slice()
    }

    /// Sets the clock. It does not go back.
    pub fn set_clock(&mut self, tick: u64)
        ensures { self.new
            ≡ record self.old { terminal = record self.old.terminal { tick = max self.old.terminal.tick tick } } }
    {
        self.tick = self.tick.max(tick);
    }

    /// Forgets what is not kept.
    pub fn forget(&mut self)
        ensures { self.new ≡ record self.old { terminal = kept self.old.terminal } }
    {
        self.generation = 0;
        self.taken = 0;
        match &mut self.disc {
            Disc::Tty(tty) => tty.wrap_column(),
            Disc::Slip(_) => {}
        }
    }

    /// Moves the first bytes that went to the wire to the end of `out`.
    pub fn take_wire(&mut self, n: usize, out: &mut Bytes)
        requires within { n ≤ length self.old.terminal.output.wire }
        requires empty { out.old.items ≡ [] }
        requires room { n ≤ out.old.spare }
        ensures front { out.new.items ≡ take n self.old.terminal.output.wire }
        ensures rest { self.new.terminal
            ≡ record self.old.terminal {
              output = record self.old.terminal.output { wire = drop n self.old.terminal.output.wire };
            } }
    {
        self.wire.take_front(n, out);
    }

    /// The first signal that was raised and is not taken.
    pub fn first_signal(&self) -> Option<Signal>
        ensures { result ≡ slice_get self.now.terminal.tally.signals.items 0 }
    {
        self.tally.signals.as_slice().first().copied()
    }

    /// Takes the first signal, which is there.
    pub fn take_signal(&mut self, out: &mut Signals)
        requires within { 1 ≤ length self.old.terminal.tally.signals.items }
        requires room { 1 ≤ out.old.spare }
        ensures { self.new.terminal
            ≡ record self.old.terminal {
              tally = record self.old.terminal.tally {
                signals =
                    record self.old.terminal.tally.signals { items = drop 1 self.old.terminal.tally.signals.items };
              };
            } }
    {
        self.tally.take_signals(1, out);
    }
}
