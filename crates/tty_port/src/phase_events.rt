//! The events of a phase that are of no call: its clock ticks and ends, and the calls of its callers end.

ghost use Rattle.std.specs.Prelude.{IfErr, OnOk};
ghost use Rattle.port_core.specs.Ports.{Appends, Denies};
ghost use Rattle.tty_port.specs.PhaseEvents.{CanHappen, entry_of_event};

use port_core::Port;
use tty_calls::Denied;

/// An event of the phase that runs.
#[derive(Clone, Copy)]
pub(crate) enum PhaseEvent {
    Tick,
    ClockEnd,
    /// The calls of this caller are over.
    CallerEnd(u16),
}

/// Has the event happen at a port.
pub(crate) fn happen(port: &mut Port, event: PhaseEvent) -> Result<(), Denied>
    requires { CanHappen event port.old }
    ensures ok { OnOk result (Appends port.old port.new port.old.flip (entry_of_event port.old event)) }
    ensures err { IfErr result (λ d. Denies d port.old port.new) }
{
    match event {
        PhaseEvent::Tick => port.tick(),
        PhaseEvent::ClockEnd => port.clock_end(),
        PhaseEvent::CallerEnd(caller) => port.caller_end(caller),
    }
}
