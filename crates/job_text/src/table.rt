//! The processes that were read, each found by its name.

ghost use Rattle.std.specs.Prelude.{◌≡◌, ◌==◌, ◌<◌, ℕ, IsTrue, OnOk, OnErr, None, [], ◌∷◌, ◌++◌};
ghost use Rattle.std.specs.Prelude.{count_by, length, map, slice_index_or, slice_set};
ghost use Rattle.std.specs.List.{list_any};
ghost use Rattle.text_lines.specs.Values.{is_name};
ghost use Rattle.tty_calls.specs.Sessions.{number_in, with_name};
ghost use Rattle.job_text.specs.Procs.{leads_with, place_named};
ghost use Rattle.job_text.specs.Sessions.{bare};
ghost use Rattle.job_text.specs.Tables.{learned};

use crate::leaders::Leaders;
use crate::sessions::PortProc;
use arrayvec::ArrayString;
use std::alloc::Global;
use std::marker::Model;
use text_lines::{is_name, name_of};
use tty_base::{Buffer, NoMemory};
use tty_calls::Names;

/// The processes that were read so far. None is looked for among all.
#[derive(Drop)]
pub(crate) struct ProcTable {
    procs: Buffer<PortProc>,
    /// Of each port, the names of its processes in their order.
    names: Vec<Names>,
    leaders: Leaders,
}

impl Model for ProcTable {
    ghost use Rattle.std.specs.Prelude.{List, map};
    ghost use Rattle.job_text.specs.declared.sessions.PortProc.{PortProc};

    ghost Value = { List PortProc };

    ghost use Rattle.job_text.specs.Sessions.{bare};
    ghost use Rattle.job_text.specs.Tables.{IsTable};

    ghost view = { λ t. map bare t.procs.items };

    ghost invariant = { λ t. IsTable (map bare t.procs.items) t.names.items t.leaders };
}

impl ProcTable {
    /// No processes. It takes no memory.
    pub(crate) fn new(alloc: Global) -> ProcTable
        ensures { result ≡ [] }
    {
        ProcTable {
            procs: Buffer::new(alloc),
            names: Vec::new(alloc),
            leaders: Leaders::new(alloc),
        }
    }

    /// The place of a process among those of its port.
    pub(crate) fn place_named(&self, port: u64, name: &[u8]) -> Option<usize>
        ensures { result ≡ place_named self.now port name.now }
    {
        if is_name(name) {
            number_on(self.names.as_slice(), port as usize, &name_of(name))
        } else {
            None
        }
    }

    /// Whether a session of a port has a leader.
    pub(crate) fn has_leader(&self, of: &PortProc) -> bool
        ensures { result ≡ list_any (leads_with of.now) self.now }
    {
        self.leaders.has(of.port, of.proc.session)
    }

    /// How many processes are of a port.
    pub(crate) fn count_on(&self, port: u8) -> usize
        ensures { result ≡ count_by (λ q. q.port == port) self.now }
    {
        names_count(self.names.as_slice(), usize::from(port))
    }

    /// Adds a process whose name is new on its port.
    pub(crate) fn add(&mut self, alloc: Global, proc: PortProc) -> Result<(), NoMemory>
        requires name { IsTrue (is_name proc.proc.name.bytes) }
        requires first { place_named self.old proc.port proc.proc.name.bytes ≡ None }
        ensures { OnOk result (self.new ≡ self.old ++ bare proc ∷ []) }
    {
        self.procs.reserve(1)?;
        self.leaders.make_room()?;
        learn_on(
            &mut self.names,
            alloc,
            usize::from(proc.port),
            &proc.proc.name,
        )?;
        self.leaders.note(&proc);
        self.procs.add(proc);
        Ok(())
    }

    /// The processes, in order.
    pub(crate) fn into_list(self) -> Buffer<PortProc>
        ensures { map bare result.items ≡ self }
    {
        let ProcTable {
            procs,
            names: _,
            leaders: _,
        } = self;
        procs
    }
}

/// The number of a name on a port.
fn number_on(names: &[Names], port: usize, name: &ArrayString<16>) -> Option<usize>
    ensures { result ≡ number_in (slice_index_or names.now port []) name.now.bytes }
{
    match names.get(port) {
        None => None,
        Some(names) => names.number(name),
    }
}

/// How many names a port has.
fn names_count(names: &[Names], port: usize) -> usize
    ensures { result ≡ length (slice_index_or names.now port []) }
{
    match names.get(port) {
        None => 0,
        Some(names) => names.len(),
    }
}

/// Learns a name of a port. `NoMemory` leaves each port its names.
fn learn_on(
    names: &mut Vec<Names>,
    alloc: Global,
    port: usize,
    name: &ArrayString<16>,
) -> Result<(), NoMemory>
    ensures ok { OnOk result ((p : ℕ)
        → slice_index_or names.new.items p [] ≡ learned (port == p) (slice_index_or names.old.items p []) name.now.bytes) }
    ensures err { OnErr result ((p : ℕ) → slice_index_or names.new.items p [] ≡ slice_index_or names.old.items p []) }
{
    make_room(names, alloc, port)?;
    learn_at(names, port, name)
}

/// Makes a list of names for each port up to this.
fn make_room(names: &mut Vec<Names>, alloc: Global, port: usize) -> Result<(), NoMemory>
    ensures room { OnOk result (port < length names.new.items) }
    ensures same { (p : ℕ) → slice_index_or names.new.items p [] ≡ slice_index_or names.old.items p [] }
{
    while names.len() <= port {
        names.push(Names::new(alloc))?;
    }
    Ok(())
}

fn learn_at(names: &mut [Names], port: usize, name: &ArrayString<16>) -> Result<(), NoMemory>
    requires { port < length names.old }
    ensures ok { OnOk result (names.new
        ≡ slice_set names.old port (with_name (slice_index_or names.old port []) name.now.bytes)) }
    ensures err { OnErr result (names.new ≡ names.old) }
{
    names[port].learn(name)?;
    Ok(())
}
