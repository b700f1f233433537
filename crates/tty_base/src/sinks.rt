//! Where bytes go.
ghost use Rattle.std.specs.Prelude.{◌≡◌, ℕ, List, Option, Some, ◌++◌, ◌≤◌, ◌<◌};
ghost use Rattle.std.specs.Prelude.{take, length, IfOk, IfSome, OnOk, OnErr};
ghost use Rattle.tty_base.specs.Outside.{Rose, GivesFront};

use super::sources::Failed;
use thiserror::Error;

/// Where bytes go. It may tell which bytes it was given, and it counts its faults.
pub trait Sink {
    /// The bytes given so far, where the sink tells them.
    ghost given: { Self → Option (List ℕ) };

    /// How often writing has failed so far. A count stands still at the last value of its type.
    ghost faults: { Self → ℕ };

    /// Takes the first bytes of a piece, at least one, and answers how many. `Failed` takes none.
    fn write(&mut self, bytes: &[u8]) -> Result<usize, Failed>
        requires { 0 < length bytes.now }
        ensures count { faults self.old ≤ faults self.new }
        ensures some { IfOk result (λ k. 0 < k) }
        ensures room { IfOk result (λ k. k ≤ length bytes.now) }
        ensures takes { IfOk result (λ k. IfSome (given self.old) (λ before.
            given self.new ≡ Some (before ++ take k bytes.now))) }
        ensures failed { OnErr result (Rose (faults self.old) (faults self.new)) }
        ensures same { OnErr result (IfSome (given self.old) (λ before. given self.new ≡ Some before)) };
}

/// Why a text was not written whole.
#[derive(Clone, Copy, Debug, Error, PartialEq, Eq)]
pub enum PutFault {
    /// The sink failed.
    #[error("writing failed")]
    WriteFault,
}

/// Gives all bytes to the sink, or on a fault the first of them.
pub fn write_all<K: Sink>(sink: &mut K, bytes: &[u8]) -> Result<(), PutFault>
    ensures count { K.faults sink.old ≤ K.faults sink.new }
    ensures whole { OnOk result (IfSome (K.given sink.old) (λ before. K.given sink.new ≡ Some (before ++ bytes.now))) }
    ensures front { IfSome (K.given sink.old) (λ before. GivesFront before bytes.now (K.given sink.new)) }
    ensures write_fault { OnErr result (Rose (K.faults sink.old) (K.faults sink.new)) }
{
    let mut at = 0;
    while at < bytes.len() {
        match sink.write(&bytes[at..]) {
            Ok(count) => at += count,
            Err(Failed) => return Err(PutFault::WriteFault),
        }
    }
    Ok(())
}
