//! What a board tells.

ghost use Rattle.std.specs.Prelude.{◌≡◌};
ghost use Rattle.vt_consoles.specs.Runs.{active_after as active_behind};

use tty_base::Full;
use tty_calls::Denied;

/// What happened on a board.
#[derive(Clone, Copy, PartialEq, Eq)]
pub enum VtEvent {
    /// This console was made the active one.
    Activate(u8),
    /// It was told that this console is active.
    State(u8),
    /// The key with this index, counted from 0, went to this console.
    Key { index: u32, console: u8 },
}

impl VtEvent {
    /// Which console is active after the event, where this one is active before it.
    pub fn active_after(self, active: u8) -> u8
        ensures { result ≡ active_behind active self }
    {
        match self {
            VtEvent::Activate(n) => n,
            VtEvent::State(_) | VtEvent::Key { .. } => active,
        }
    }
}

/// An entry of a board: the number of the seat that made it, and what happened.
#[derive(Clone, Copy, PartialEq, Eq)]
pub struct VtEntry {
    pub seat: u32,
    pub event: VtEvent,
}

/// What became of a key: the console to which it went, and whether it was lost there, since the buffer was full.
#[derive(Clone, Copy, PartialEq, Eq)]
pub struct Keyed {
    pub console: u8,
    pub lost: Option<Full>,
}

/// Why no console was activated.
#[derive(Clone, Copy, Debug, PartialEq, Eq)]
pub enum VtFault {
    /// There is no console of this number.
    NoConsole,
    /// The board made no entry.
    Denied(Denied),
}

impl From<Denied> for VtFault {
    ghost use Rattle.std.specs.Prelude.{◌≡◌};
    ghost use Rattle.vt_consoles.specs.declared.entries.VtFault.TheVariants.{Denied as denied_by};

    ghost from_gives = { λ denied fault. fault ≡ denied_by denied };

    fn from(denied: Denied) -> VtFault {
        VtFault::Denied(denied)
    }
}
