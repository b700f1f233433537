//! What comes of the callers of a phase, each on a thread of its own.

ghost use Rattle.std.specs.Prelude.{IfOk};
ghost use Rattle.many_threads.specs.Callers.{TellsFull};

use tty_base::NoMemory;
use tty_calls::Denied;
use tty_port::Seat;

/// What comes of the callers of a phase: their seats in their order, and whether one of them found the
/// journal full.
#[derive(Drop)]
pub struct CallersBack {
    pub seats: Vec<Seat>,
    pub full: bool,
}

/// Whether the journal is full; memory may be wanting too.
pub fn is_full(outcome: Result<(), Denied>) -> Result<bool, NoMemory>
    ensures { IfOk result (λ full. TellsFull outcome full) }
{
    match outcome {
        Ok(()) => Ok(false),
        Err(Denied::Full) => Ok(true),
        Err(Denied::NoMemory) => Err(NoMemory),
    }
}
