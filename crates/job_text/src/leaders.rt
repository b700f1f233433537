//! The sessions that have a leader, each with its port.

ghost use Rattle.std.specs.Prelude.{◌≡◌, ◌==◌, ℕ, ◌&&◌, ◌||◌, OnOk, true, false, if◌then◌else◌};
ghost use Rattle.job_text.specs.Tables.{HasRoom, is_led, leads};

use crate::sessions::PortProc;
use std::alloc::Global;
use std::collections::HashSet;
use tty_base::NoMemory;

#[derive(Drop)]
pub(crate) struct Leaders {
    sessions: HashSet<(u8, u16)>,
}

impl Leaders {
    /// None has a leader. It takes no memory.
    pub(crate) fn new(alloc: Global) -> Leaders
        ensures { (port session : ℕ) → is_led result port session ≡ false }
    {
        Leaders {
            sessions: HashSet::new(alloc),
        }
    }

    /// Whether a session of a port has one.
    pub(crate) fn has(&self, port: u8, session: u16) -> bool
        ensures { result ≡ is_led self.now port session }
    {
        self.sessions.contains(&(port, session))
    }

    /// Makes room for one more.
    pub(crate) fn make_room(&mut self) -> Result<(), NoMemory>
        ensures room { OnOk result (HasRoom self.new) }
        ensures same { (port session : ℕ) → is_led self.new port session ≡ is_led self.old port session }
    {
        self.sessions.reserve(1)?;
        Ok(())
    }

    /// Notes that a session has a leader, where the process is one.
    pub(crate) fn note(&mut self, proc: &PortProc)
        requires { HasRoom self.old }
        ensures { (port session : ℕ)
            → is_led self.new port session ≡ (is_led self.old port session || leads port session proc.now) }
    {
        if proc.proc.leader {
            self.insert(proc.port, proc.proc.session);
        }
    }

    fn insert(&mut self, port: u8, session: u16)
        requires { HasRoom self.old }
        ensures { (p s : ℕ) → is_led self.new p s ≡ (if port == p && session == s then true else is_led self.old p s) }
    {
        match self.sessions.insert((port, session)) {
            Ok(_) => {}
            Err(_) => unreachable!(),
        }
    }
}
