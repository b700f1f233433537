//! The numbers that pass by, which proofs alone read.
ghost use Rattle.std.specs.Prelude.{◌≡◌, ℕ, List, []};
ghost use Rattle.std.specs.Borrow.{ftrue};

use std::marker::Model;

/// The numbers that are passed. They take no memory.
#[derive(Drop)]
pub(crate) struct Past {
    pub ghost items: { List ℕ },
}

impl Model for Past {
    ghost also_owns = { λ _. ftrue };
}

// It owns nothing.
unsafe impl Send for Past {}

/// The bytes of a run.
#[derive(Clone, Copy)]
pub(crate) struct Run<'a> {
    pub(crate) bytes: &'a [u8],
}

impl Past {
    /// None.
    pub(crate) fn none() -> Past
        ensures { result.items ≡ [] }
    {
        Past {}
    }

    /// The bytes of a run.
    #[inline(always)]
    pub(crate) fn of(run: &Run) -> Past
        ensures { result.items ≡ run.now.bytes.now }
    {
        Past {}
    }
}
