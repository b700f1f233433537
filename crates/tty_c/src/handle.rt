//! What C holds of a terminal.

ghost use Rattle.std.specs.Prelude.{◌≡◌, Some, None, is_some, option_map, true};
ghost use Rattle.std.specs.Option.{MatchOption};

use crate::loose::Loose;
use crate::slot::Slot;
use std::alloc::Global;
use std::mem::replace;
use std::ptr::null_mut;
use tty_embed::Tty;

/// A terminal that a program in C owns, or none. C sees the pointer and whether the handle is live, and sets both to
/// zero before the first call.
#[repr(C)]
pub struct Handle {
    pub slot: Slot,
    live: bool,
    pub ghost agrees: { live ≡ is_some slot.tty },
}

pub(crate) fn null() -> *mut u8 {
    null_mut()
}

/// A slot without a terminal.
fn vacancy() -> Slot
    ensures { result.tty ≡ None }
{
    let at = null();
    Slot::empty(at)
}

/// Takes the slot with the terminal out of a handle.
pub fn vacated(handle: &mut Handle) -> Option<Slot>
    ensures slot { MatchOption result (handle.old.slot.tty ≡ None)
        (λ slot. (slot.tty ≡ handle.old.slot.tty) × (is_some slot.tty ≡ true)) }
    ensures left { handle.new.slot.tty ≡ None }
{
    if !handle.live {
        return None;
    }
    let slot = replace(&mut handle.slot, vacancy());
    handle.live = false;
    Some(slot)
}

/// Takes the terminal out of a handle.
pub fn taken(alloc: Global, handle: &mut Handle) -> Option<Box<Tty, Global>>
    ensures tty { option_map (λ owned. owned.value) result ≡ handle.old.slot.tty }
    ensures left { handle.new.slot.tty ≡ None }
{
    match vacated(handle) {
        None => None,
        Some(slot) => Some(slot.into_loose(alloc).into_box()),
    }
}

/// Puts a terminal into a handle that has none.
pub fn put(handle: &mut Handle, tty: Box<Tty, Global>)
    requires { handle.old.slot.tty ≡ None }
    ensures { handle.new.slot.tty ≡ Some tty.value }
{
    let empty = replace(&mut handle.slot, Slot::of(Loose::of(tty)));
    handle.live = true;
    empty.discard();
}
