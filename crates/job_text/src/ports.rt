//! What a session of processes has on a port, and in a phase.

ghost use Rattle.std.specs.Prelude.{◌≡◌, ◌++◌, ◌==◌, [], ◌∷◌, IfOk, OnOk, if◌then◌else◌, map, slice_index_or};
ghost use Rattle.job_text.specs.Sessions.{own_of, procs_on};

use crate::calls::OwnCall;
use crate::sessions::{JobsPart, PortProc};
use job_control::Proc;
use passed_calls::PlacedCall;
use std::alloc::Global;
use tty_base::NoMemory;

/// The processes of a port.
pub fn procs_on(alloc: Global, procs: &[PortProc], port: u8) -> Result<Vec<Proc>, NoMemory>
    ensures { IfOk result (λ found. found.items ≡ procs_on port procs.now) }
{
    let mut found = Vec::new(alloc);
    for proc in procs {
        add_proc(&mut found, proc, port)?;
    }
    Ok(found)
}

/// Adds a process, where it is one of this port.
fn add_proc(found: &mut Vec<Proc>, proc: &PortProc, port: u8) -> Result<(), NoMemory>
    ensures { OnOk result
        (found.new.items ≡ found.old.items ++ (if proc.now.port == port then proc.now.proc ∷ [] else [])) }
{
    if proc.port == port {
        found.push(proc.proc)?;
    }
    Ok(())
}

/// The calls of job control in the phase at a place.
pub fn own_in(parts: &[JobsPart], place: usize) -> &[PlacedCall<OwnCall>]
    ensures { result.now ≡ slice_index_or (map own_of parts.now) place [] }
{
    match parts.get(place) {
        None => &[],
        Some(part) => part.own.as_slice(),
    }
}
