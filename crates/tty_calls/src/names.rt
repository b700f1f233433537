//! The names of a port's callers, each with its number.

ghost use Rattle.std.specs.Prelude.{◌≡◌, [], Some, length, map, slice_get, option_map, IfOk, OnOk, OnErr};
ghost use Rattle.tty_calls.specs.Sessions.{session_of, scripts_over, with_name, names_of, number_in};
ghost use Rattle.tty_calls.specs.Naming.{names_after};

use super::sessions::{Script, Session};
use arrayvec::ArrayString;
use indexmap::IndexSet;
use std::alloc::Global;
use std::marker::Model;
use tty_base::NoMemory;

/// The names of a port's callers, in the order in which they first occur. A caller's number is the place of its name.
#[derive(Drop)]
pub struct Names {
    names: IndexSet<ArrayString<16>>,
}

impl Model for Names {
    ghost use Rattle.std.specs.Prelude.{ℕ, List, map};

    ghost Value = { List (List ℕ) };

    ghost view = { λ n. map (λ name. name.bytes) n.names.keys };
}

impl Names {
    /// No names. It takes no memory.
    pub fn new(alloc: Global) -> Names
        ensures { result ≡ [] }
    {
        Names {
            names: IndexSet::new(alloc),
        }
    }

    /// The names of a port's callers in a session.
    pub fn on_port(alloc: Global, session: &Session, port: usize) -> Result<Names, NoMemory>
        ensures { IfOk result (λ names. names ≡ names_of (scripts_over port (session_of session.now).phases)) }
    {
        let mut names = Names::new(alloc);
        for phase in session.phases.as_slice() {
            names.learn_all(phase.callers.as_slice(), port)?;
        }
        Ok(names)
    }

    /// Learns the names of a port's scripts.
    fn learn_all(&mut self, scripts: &[Script], port: usize) -> Result<(), NoMemory>
        ensures { OnOk result (self.new ≡ names_after self.old port scripts.now) }
    {
        for script in scripts {
            if usize::from(script.port) == port {
                self.learn(&script.name)?;
            }
        }
        Ok(())
    }

    /// The number of a name, which goes last where it is new. `NoMemory` leaves the names as they were.
    pub fn learn(&mut self, name: &ArrayString<16>) -> Result<usize, NoMemory>
        ensures number { IfOk result (λ number. number_in self.new name.now.bytes ≡ Some number) }
        ensures names { IfOk result (λ number. self.new ≡ with_name self.old name.now.bytes) }
        ensures err { OnErr result (self.new ≡ self.old) }
    {
        let (number, _) = self.names.insert_full(*name)?;
        Ok(number)
    }

    /// The number of a name, where it is there.
    pub fn number(&self, name: &ArrayString<16>) -> Option<usize>
        ensures { result ≡ number_in self.now name.now.bytes }
    {
        self.names.get_index_of(name)
    }

    /// The name that has a number.
    pub fn name(&self, number: usize) -> Option<&str>
        ensures { option_map (λ name. name.now) result ≡ slice_get self.now number }
    {
        self.names.get_index(number).map(|name| name.as_str())
    }

    /// How many names there are.
    pub fn len(&self) -> usize
        ensures { result ≡ length self.now }
    {
        self.names.len()
    }
}
