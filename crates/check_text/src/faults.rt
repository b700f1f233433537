//! Why a line was not read: it is wrong, or no memory was left.

use session_text::Reason;
use tty_base::NoMemory as Memory;

/// Why a line was not read.
#[derive(Clone, Copy)]
pub(crate) enum LineFault {
    /// The line is wrong.
    Wrong(Reason),
    /// No memory was left.
    NoMemory,
}

impl From<Memory> for LineFault {
    ghost use Rattle.std.specs.Prelude.{◌≡◌};
    ghost use Rattle.check_text.specs.declared.faults.LineFault.TheVariants.{NoMemory as no_memory};

    ghost from_gives = { λ _ fault. fault ≡ no_memory };

    fn from(_error: Memory) -> LineFault {
        LineFault::NoMemory
    }
}

impl From<Reason> for LineFault {
    ghost use Rattle.std.specs.Prelude.{◌≡◌};
    ghost use Rattle.check_text.specs.declared.faults.LineFault.TheVariants.{Wrong as wrong};

    ghost from_gives = { λ reason fault. fault ≡ wrong reason };

    fn from(reason: Reason) -> LineFault {
        LineFault::Wrong(reason)
    }
}
