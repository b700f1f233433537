//! The calls that a port was asked, which proofs alone read.

ghost use Rattle.std.specs.Prelude.{◌≡◌, List, [], ◌∷◌, ◌++◌};
ghost use Rattle.std.specs.Borrow.{ftrue};
ghost use Rattle.tty_calls.specs.Plain.{call_of};
ghost use Rattle.port_core.specs.Ports.{PlainKept, kept_with};

use std::marker::Model;
use tty_calls::Call;

/// A caller's step.
#[derive(Clone, Copy)]
pub(crate) struct Asked {
    pub(crate) caller: u16,
    pub(crate) step: u32,
}

/// The calls that a port was asked, each with its caller and step. It takes no memory.
#[derive(Drop)]
pub(crate) struct AskedCalls {
    pub ghost items: { List PlainKept },
}

impl Model for AskedCalls {
    ghost also_owns = { λ _. ftrue };
}

// It owns nothing.
unsafe impl Send for AskedCalls {}

impl AskedCalls {
    /// None.
    pub(crate) fn new() -> AskedCalls
        ensures { result.items ≡ [] }
    {
        AskedCalls {}
    }

    /// These, and one more.
    fn and(&self, asked: &Asked, call: &Call) -> AskedCalls
        ensures { result.items
            ≡ self.now.items ++ record { caller = asked.now.caller; step = asked.now.step; call = call_of call.now }
            ∷ [] }
    {
        AskedCalls {}
    }

    /// Notes the call of a caller's step, where it has not begun.
    #[inline(always)]
    pub(crate) fn note(&mut self, begun: bool, asked: Asked, call: &Call)
        ensures { self.new.items ≡ kept_with begun self.old.items asked.caller asked.step (call_of call.now) }
    {
        if !begun {
            *self = self.and(&asked, call);
        }
    }
}
