//! What became of the characters that were taken, which proofs alone read.

ghost use Rattle.std.specs.Prelude.{◌≡◌, List, [], ◌++◌, map};
ghost use Rattle.std.specs.Borrow.{ftrue};
ghost use Rattle.tty_device.specs.Kept.{Taken, taken_as};

use std::marker::Model;
use tty_base::Chars;

/// What becomes of characters that are taken: the discipline receives them, or they are dropped.
#[derive(Clone, Copy)]
pub(crate) struct Fate {
    pub(crate) dropped: bool,
}

/// The characters that were taken, each with what became of it. It takes no memory.
#[derive(Drop)]
pub(crate) struct TakenChars {
    pub ghost items: { List Taken },
}

impl Model for TakenChars {
    ghost also_owns = { λ _. ftrue };
}

// It owns nothing.
unsafe impl Send for TakenChars {}

impl TakenChars {
    /// None.
    pub(crate) fn new() -> TakenChars
        ensures { result.items ≡ [] }
    {
        TakenChars {}
    }

    /// These, and more.
    fn and(&self, chars: &Chars, fate: &Fate) -> TakenChars
        ensures { result.items ≡ self.now.items ++ map (taken_as fate.now.dropped) chars.now.items }
    {
        TakenChars {}
    }

    /// Notes what became of more of them.
    pub(crate) fn note(&mut self, chars: &Chars, fate: Fate)
        ensures { self.new.items ≡ self.old.items ++ map (taken_as fate.dropped) chars.now.items }
    {
        *self = self.and(chars, &fate);
    }
}
