//! The desk of a port at its opening: its processes, and which of them its callers are.

ghost use Rattle.std.specs.Prelude.{◌≡◌, ◌++◌, ◌≤◌, ◌==◌, [], ◌∷◌, IfOk, OnOk, if◌then◌else◌, length};
ghost use Rattle.tty_base.specs.Sizes.{MOST_PROCESSES};
ghost use Rattle.tty_calls.specs.Sessions.{number_in};
ghost use Rattle.job_text.specs.Sessions.{procs_on};
ghost use Rattle.job_ports.specs.Between.{IsDeskOpened};
ghost use Rattle.job_ports.specs.Callers.{AreCallers, StandOnce, with_proc};

use job_control::{Jobs, Proc};
use job_one::Desk;
use job_text::{JobsSession, PortProc};
use std::alloc::Global;
use tty_base::NoMemory;
use tty_calls::Names;

/// The desk of a port whose callers have these names, at which nothing was done.
pub(crate) fn open_desk(
    alloc: Global,
    session: &JobsSession,
    number: u8,
    names: &Names,
) -> Result<Desk, NoMemory>
    requires few { length (procs_on number session.now.procs.items) ≤ MOST_PROCESSES }
    requires once { StandOnce names.now }
    ensures opened { IfOk result
        (λ desk. IsDeskOpened number (procs_on number session.now.procs.items) desk.callers desk) }
    ensures callers { IfOk result
        (λ desk. AreCallers (procs_on number session.now.procs.items) names.now (length names.now) desk.callers) }
{
    let procs = procs_on(alloc, session.procs.as_slice(), number)?;
    let callers = callers_of(alloc, procs.as_slice(), names)?;
    let next = vec![in alloc; 0; callers.len()]?;
    let jobs = Jobs::new(alloc, procs.as_slice())?;
    Ok(Desk::new(alloc, number, callers, next, jobs))
}

/// The processes of a port.
fn procs_on(alloc: Global, procs: &[PortProc], port: u8) -> Result<Vec<Proc>, NoMemory>
    ensures { IfOk result (λ found. found.items ≡ procs_on port procs.now) }
{
    let mut found = Vec::new(alloc);
    for proc in procs {
        add_proc(&mut found, proc, port)?;
    }
    Ok(found)
}

/// Adds a process, where it is one of this port.
fn add_proc(found: &mut Vec<Proc>, proc: &PortProc, port: u8) -> Result<(), NoMemory>
    ensures { OnOk result
        (found.new.items ≡ found.old.items ++ (if proc.now.port == port then proc.now.proc ∷ [] else [])) }
{
    if proc.port == port {
        found.push(proc.proc)?;
    }
    Ok(())
}

/// The process of each caller, by its place; of several of one name the first.
fn callers_of(alloc: Global, procs: &[Proc], names: &Names) -> Result<Vec<u16>, NoMemory>
    requires few { length procs.now ≤ MOST_PROCESSES }
    requires once { StandOnce names.now }
    ensures { IfOk result (λ callers. AreCallers procs.now names.now (length names.now) callers.items) }
{
    let mut callers = vec![in alloc; procs.len() as u16; names.len()]?;
    let mut left = procs.len();
    while left > 0 {
        left -= 1;
        note_proc(callers.as_mut_slice(), names, &procs[left], left as u16);
    }
    Ok(callers)
}

/// Notes the place of a process, where it is a caller's.
fn note_proc(callers: &mut [u16], names: &Names, proc: &Proc, place: u16)
    requires { length callers.old ≡ length names.now }
    ensures { callers.new ≡ with_proc callers.old (number_in names.now proc.now.name.bytes) place }
{
    match names.number(&proc.name) {
        None => {}
        Some(number) => callers[number] = place,
    }
}
