//! The account of a port and its line, which a program in C asks for where it has both at hand.

ghost use Rattle.tty_c.specs.Calls.{device_in, end_in, AreOne, MeetsWhere};

use crate::answers::NO_TERMINAL;
use crate::lines::Line;
use crate::ports::Port;
use crate::{lines, ports};
use std::alloc::Global;

/// Where the characters are that were put: received, dropped or waiting; and how many were refused.
#[derive(Drop)]
#[repr(C)]
pub struct Account {
    pub sent: u64,
    pub overruns: u64,
    pub received: u64,
    pub dropped: u64,
    pub waiting: u64,
}

/// Pushes all that was put, and tells the account of both ends: a look after it shows all that was put.
#[tactic(auto, using(crate::proofs::Meeting::met_both, crate::proofs::Meeting::met_no_port, crate::proofs::Meeting::met_no_end))]
#[unsafe(no_mangle)]
pub extern "C" fn jw_port_account(
    alloc: Global,
    port: &mut Port,
    line: &mut Line,
    account: &mut Account,
) -> i64
    requires { AreOne (device_in port.old) (end_in line.old) }
    ensures { MeetsWhere (device_in port.old) (device_in port.new) (end_in line.old) (end_in line.new)
        account.old account.new result }
{
    let Some(mut device) = ports::taken(alloc, port) else {
        return NO_TERMINAL;
    };
    let Some(mut end) = lines::taken(alloc, line) else {
        ports::put(port, device);
        return NO_TERMINAL;
    };
    let both = device.meet(&mut end);
    *account = Account {
        sent: both.sent,
        overruns: both.overruns,
        received: both.account.flushed,
        dropped: both.account.dropped,
        waiting: both.account.waiting,
    };
    ports::put(port, device);
    lines::put(line, end);
    0
}
