//! A terminal behind a pointer that C may hold.

ghost use Rattle.std.specs.Prelude.{◌≡◌, Option, Some, None};
ghost use Rattle.tty_embed.specs.Embedded.{Embedded};

use crate::loose::Loose;
use std::alloc::Global;
use std::marker::Model;
use tty_embed::Tty;

/// A pointer that owns a terminal, or nothing. It may not be dropped: a slot with a terminal is freed, or its
/// terminal is taken out, and a body that lets it go is refused.
#[repr(C)]
pub struct Slot {
    at: *mut u8,
    pub ghost tty: { Option Embedded },
}

impl Model for Slot {
    ghost use Rattle.tty_c.specs.Owning.{slot_owns};

    ghost also_owns = { λ slot. slot_owns slot.tty slot.at };
}

impl Slot {
    /// An empty slot.
    pub fn empty(at: *mut u8) -> Slot
        ensures { result.tty ≡ None }
    {
        Slot { at }
    }

    /// Lets an empty slot go.
    pub fn discard(self)
        requires { self.tty ≡ None }
        ensures { self.tty ≡ None }
    {
        let Slot { at: _ } = self;
    }

    /// A slot with a terminal.
    pub fn of(loose: Loose<Tty, Global>) -> Slot
        ensures { result.tty ≡ Some loose.value }
    {
        let Loose { at, alloc: _ } = loose;
        Slot { at: at as *mut u8 }
    }

    /// Frees a terminal.
    pub fn free(self, alloc: Global)
        requires { (t : Embedded) × (self.tty ≡ Some t) }
    {
        drop(self.into_loose(alloc).into_box());
    }

    /// The terminal of a slot.
    pub fn into_loose(self, alloc: Global) -> Loose<Tty, Global>
        requires { (t : Embedded) × (self.tty ≡ Some t) }
        ensures { self.tty ≡ Some result.value }
    {
        let Slot { at } = self;
        Loose {
            at: at as *mut Tty,
            alloc,
        }
    }
}
