//! Calls that wait.

ghost use Rattle.std.specs.Prelude.{◌≡◌, ◌↔◌, ◌<◌, true, IsTrue, IfOk, length};
ghost use Rattle.tty_base.specs.Sizes.{COUNT_END, MOST_HANDLES};
ghost use Rattle.tty_calls.specs.Plain.{call_of, handle_of};
ghost use Rattle.ldisc_switch.specs.Disciplines.{column_in};
ghost use Rattle.tty_terminal.specs.Terminals.{caller_at};
ghost use Rattle.tty_terminal.specs.Calls.{outcome};
ghost use Rattle.tty_terminal.specs.Steps.{MustWait};
ghost use Rattle.port_core.specs.Inside.{call_waiting, can_wait};

use std::alloc::Global;
use tty_base::NoMemory;
use tty_calls::{Call, When};
use tty_modes::Word;
use tty_terminal::Terminal;

/// A call that waits, with memory of its own. Other calls than these four never do.
#[derive(Drop)]
pub(crate) enum WaitingCall {
    Read { h: u8, n: u32 },
    Write { h: u8, bytes: Vec<u8> },
    SetModes { h: u8, when: When, words: Vec<Word> },
    Drain { h: u8 },
}

impl WaitingCall {
    /// A copy of a call.
    pub(crate) fn of(alloc: Global, call: &Call) -> Result<WaitingCall, NoMemory>
        requires { can_wait (call_of call.now) ≡ true }
        ensures { IfOk result (λ waiting. call_waiting waiting ≡ call_of call.now) }
    {
        match *call {
            Call::Read { h, n } => Ok(WaitingCall::Read { h, n }),
            Call::Write { h, bytes } => Ok(WaitingCall::Write {
                h,
                bytes: bytes.to_vec(alloc)?,
            }),
            Call::SetModes { h, when, words } => Ok(WaitingCall::SetModes {
                h,
                when,
                words: words.to_vec(alloc)?,
            }),
            Call::Drain { h } => Ok(WaitingCall::Drain { h }),
            _ => unreachable!(),
        }
    }

    /// The call.
    #[inline(always)]
    pub(crate) fn lent(&self) -> Call<'_>
        ensures { call_of result ≡ call_waiting self.now }
    {
        match self {
            WaitingCall::Read { h, n } => Call::Read { h: *h, n: *n },
            WaitingCall::Write { h, bytes } => Call::Write {
                h: *h,
                bytes: bytes.as_slice(),
            },
            WaitingCall::SetModes { h, when, words } => Call::SetModes {
                h: *h,
                when: *when,
                words: words.as_slice(),
            },
            WaitingCall::Drain { h } => Call::Drain { h: *h },
        }
    }

    /// Whether the call of this caller must wait. It stands apart, since most calls that wait are reads,
    /// and those are asked in place.
    #[inline(never)]
    pub(crate) fn must_wait(&self, caller: u16, terminal: &Terminal) -> bool
        requires known { caller < length terminal.now.terminal.callers }
        requires number { handle_of (call_waiting self.now) < MOST_HANDLES }
        requires column { column_in terminal.now.terminal.disc < COUNT_END }
        ensures { IsTrue result
            ↔ MustWait
            (outcome terminal.now.terminal (caller_at terminal.now.terminal caller) (call_waiting self.now)) }
    {
        terminal.must_wait(caller, &self.lent())
    }
}
