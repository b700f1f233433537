//! Where bytes come from.
ghost use Rattle.std.specs.Prelude.{◌≡◌, ℕ, List, [], Option, Some, ◌+◌, ◌≤◌, ◌<◌};
ghost use Rattle.std.specs.Prelude.{length, IfOk, IfSome, OnErr, IsErrOf, ◌↔◌};
ghost use Rattle.tty_base.specs.Outside.{Rose, Gives, LeavesRest, TookCount};

use super::buffers::{Bytes, NoMemory};
use std::alloc::Global;
use thiserror::Error;

/// A read or a write failed.
#[derive(Clone, Copy, Debug, PartialEq, Eq)]
pub struct Failed;

/// Where bytes come from. It may tell which bytes it has left, and it counts its faults.
pub trait Source {
    /// The bytes that are left, where the source tells them.
    ghost left: { Self → Option (List ℕ) };

    /// How often reading has failed so far. A count stands still at the last value of its type.
    ghost faults: { Self → ℕ };

    /// Gives the first bytes that are left, at most as many as the buffer has room for, and answers
    /// how many. None on a buffer with room is the end of input. `Failed` gives none.
    fn read(&mut self, buf: &mut [u8]) -> Result<usize, Failed>
        ensures count { faults self.old ≤ faults self.new }
        ensures room { IfOk result (λ k. k ≤ length buf.old) }
        ensures gives { IfOk result (λ k. IfSome (left self.old) (λ bytes. Gives k bytes buf.new (left self.new))) }
        ensures end { IfOk result (λ k. k ≡ 0 → 0 < length buf.old → IfSome (left self.old) (λ bytes. bytes ≡ [])) }
        ensures failed { OnErr result (Rose (faults self.old) (faults self.new)) }
        ensures same { OnErr result (IfSome (left self.old) (λ bytes. left self.new ≡ Some bytes)) };
}

/// Why a text was not read whole.
#[derive(Clone, Copy, Debug, Error, PartialEq, Eq)]
pub enum TakeFault {
    /// The source failed.
    #[error("reading failed")]
    ReadFault,
    /// More bytes came than the limit.
    #[error("the text is too long")]
    TooLong,
    /// No memory was left.
    #[error("out of memory")]
    NoMemory,
}

impl From<NoMemory> for TakeFault {
    ghost use Rattle.std.specs.Prelude.{◌≡◌};
    ghost use Rattle.tty_base.specs.declared.sources.TakeFault.TheVariants.{NoMemory as no_memory};

    ghost from_gives = { λ _ fault. fault ≡ no_memory };

    fn from(_error: NoMemory) -> TakeFault {
        TakeFault::NoMemory
    }
}

impl From<Failed> for TakeFault {
    ghost use Rattle.std.specs.Prelude.{◌≡◌};
    ghost use Rattle.tty_base.specs.declared.sources.TakeFault.TheVariants.{ReadFault};

    ghost from_gives = { λ _ fault. fault ≡ ReadFault };

    fn from(_error: Failed) -> TakeFault {
        TakeFault::ReadFault
    }
}

const PIECE: usize = 8192;

/// Reads to the end of input, at most `limit` bytes. After a refusal the source has left what it had
/// left less what was read.
pub fn read_all<S: Source>(alloc: Global, source: &mut S, limit: usize) -> Result<Bytes, TakeFault>
    ensures count { S.faults source.old ≤ S.faults source.new }
    ensures whole { IfOk result (λ text. IfSome (S.left source.old) (λ bytes.
        (text.items ≡ bytes) × (S.left source.new ≡ Some []))) }
    ensures short { IfOk result (λ text. length text.items ≤ limit) }
    ensures read_fault { IsErrOf result TakeFault.ReadFault → Rose (S.faults source.old) (S.faults source.new) }
    ensures too_long { IfSome (S.left source.old) (λ bytes.
        IsErrOf result TakeFault.TooLong ↔ TookCount (limit + 1) bytes (S.left source.new)) }
    ensures rest { IfSome (S.left source.old) (λ bytes. LeavesRest bytes (S.left source.new)) }
{
    let mut text = Bytes::new(alloc);
    let mut piece = [0u8; PIECE];
    loop {
        let room = limit - text.len();
        let most = if room < PIECE { room + 1 } else { PIECE };
        text.reserve(most)?;
        let count = source.read(&mut piece[..most])?;
        if count == 0 {
            return Ok(text);
        }
        if count > room {
            return Err(TakeFault::TooLong);
        }
        text.append(&piece[..count]);
    }
}
