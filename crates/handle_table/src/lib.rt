//! The handles of a port: which numbers are in use, for what access, and whether they are live.
#![tactic(auto)]

ghost use Rattle.std.specs.Prelude.{◌≡◌, ◌<◌, ◌≤◌, is_some, is_none, length, if◌then◌else◌};
ghost use Rattle.tty_base.specs.Sizes.{MOST_HANDLES};
ghost use Rattle.handle_table.specs.Handles.{no_handles, handle_at, with_handle, without_handle};
ghost use Rattle.handle_table.specs.Handles.{handle_after_hangup, after_hangup, live_count};

use std::marker::Model;
use tty_base::sizes::MOST_HANDLES;
use tty_calls::Access;

/// One open of a port (open(2)).
#[derive(Clone, Copy, Debug, PartialEq, Eq)]
pub struct HandleState {
    /// What it may be used for.
    pub access: Access,
    /// Whether its calls answer at once and never wait (open(2), O_NONBLOCK).
    pub nonblock: bool,
    /// Whether no hangup has come since it was opened (vhangup(2)).
    pub live: bool,
}

/// The handles of a port, by their numbers from 0 to 31. No call takes memory.
#[derive(Drop)]
pub struct Handles {
    slots: [Option<HandleState>; MOST_HANDLES as usize],
    live: usize,
}

impl Model for Handles {
    ghost use Rattle.handle_table.specs.Handles.{HandleMap, IsTable};

    ghost Value = { HandleMap };

    ghost view = { λ handles. handles.slots };

    ghost invariant = { λ handles. IsTable handles.slots handles.live };
}

impl Handles {
    /// No number is in use.
    pub fn new() -> Handles
        ensures { result ≡ no_handles }
    {
        Handles {
            slots: [None; MOST_HANDLES as usize],
            live: 0,
        }
    }

    /// Opens a live handle of a number that is not in use. False says that it is in use, by a live handle or
    /// by a dead one, and nothing changes then.
    pub fn admit(&mut self, h: u8, access: Access, nonblock: bool) -> bool
        requires { h < MOST_HANDLES }
        ensures free { result ≡ is_none (handle_at self.old h) }
        ensures after { self.new ≡ (if result then with_handle self.old h access nonblock else self.old) }
    {
        let slot = &mut self.slots[usize::from(h)];
        if slot.is_some() {
            return false;
        }
        *slot = Some(HandleState {
            access,
            nonblock,
            live: true,
        });
        self.live += 1;
        true
    }

    /// Frees a number. False says that it was not in use, and nothing changes then.
    pub fn remove(&mut self, h: u8) -> bool
        ensures used { result ≡ is_some (handle_at self.old h) }
        ensures after { self.new ≡ (if result then without_handle self.old h else self.old) }
    {
        let Some(handle) = self.state(h) else {
            return false;
        };
        self.slots[usize::from(h)] = None;
        if handle.live {
            self.live -= 1;
        }
        true
    }

    /// Makes each handle dead. Their numbers stay in use.
    pub fn kill_all(&mut self)
        ensures { self.new ≡ after_hangup self.old }
    {
        for slot in self.slots.iter_mut() {
            *slot = handle_after_hangup(*slot);
        }
        self.live = 0;
    }

    /// The handle of a number, or None where it is not in use.
    pub fn state(&self, h: u8) -> Option<HandleState>
        ensures state { result ≡ handle_at self.now h }
        ensures numbers { length self.now ≡ MOST_HANDLES }
    {
        self.slots.get(usize::from(h)).copied().flatten()
    }

    /// How many handles are live.
    pub fn live(&self) -> usize
        ensures count { result ≡ live_count self.now }
        ensures few { result ≤ MOST_HANDLES }
    {
        self.live
    }
}

/// The handle after a hangup.
fn handle_after_hangup(slot: Option<HandleState>) -> Option<HandleState>
    ensures { result ≡ handle_after_hangup slot }
{
    slot.map(|handle| HandleState {
        live: false,
        ..handle
    })
}
