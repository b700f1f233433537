//! The roles of the callers of a phase, and their next steps.

ghost use Rattle.std.specs.Prelude.{◌≡◌, ◌<◌, ◌≤◌, List, IfOk, IfErr, length, map, slice_set, sum};
ghost use Rattle.tty_base.specs.Sizes.{MOST_NUMBERED};
ghost use Rattle.tty_calls.specs.declared.answers.Denied.TheVariants as denied;
ghost use Rattle.tty_calls.specs.declared.sessions.Script.{Script};
ghost use Rattle.tty_calls.specs.Sessions.{script_of};
ghost use Rattle.tty_terminal.specs.Terminals.{caller_at};
ghost use Rattle.play_base.specs.Casting.{AreNumbered, HaveSameCallers, cast_of};
ghost use Rattle.play_base.specs.Roles.{role_in};
ghost use Rattle.order_laws.specs.Filled.{AreNextSteps};

use play_base::{Role, cast};
use port_core::Port;
use std::alloc::Global;
use tty_base::NoMemory;
use tty_calls::{Denied, Names, Script};

/// The roles of a port's scripts.
pub fn cast_in(
    alloc: Global,
    scripts: &[Script],
    port: usize,
    names: &Names,
    steps: &[u32],
) -> Result<Vec<Role>, Denied>
    requires numbered { AreNumbered names.now port (map script_of scripts.now) }
    requires few { length names.now < MOST_NUMBERED }
    requires steps { length steps.now ≡ length names.now }
    ensures ok { IfOk result (λ roles.
        (others : List Script)
        → HaveSameCallers others scripts.now
        → map (role_in others) roles.items ≡ cast_of names.now steps.now port (map script_of others)) }
    ensures err { IfErr result (λ d. d ≡ denied.NoMemory) }
{
    match cast(alloc, scripts, port, names, steps) {
        Ok(roles) => Ok(roles),
        Err(NoMemory) => Err(Denied::NoMemory),
    }
}

/// Notes the next step of each of so many callers.
pub fn take_steps(port: &Port, steps: &mut [u32])
    requires known { length steps.old ≤ sum port.now.counts }
    requires few { length steps.old ≤ MOST_NUMBERED }
    ensures { AreNextSteps port.now.terminal (length steps.old) steps.new }
{
    for caller in 0..steps.len() {
        let step = next_of(port, caller);
        set_step(steps, caller, step);
    }
}

fn next_of(port: &Port, caller: usize) -> u32
    requires known { caller < sum port.now.counts }
    requires few { caller < MOST_NUMBERED }
    ensures { result ≡ (caller_at port.now.terminal caller).next }
{
    port.caller(caller as u16).next
}

fn set_step(steps: &mut [u32], caller: usize, step: u32)
    requires { caller < length steps.old }
    ensures { steps.new ≡ slice_set steps.old caller step }
{
    steps[caller] = step;
}
