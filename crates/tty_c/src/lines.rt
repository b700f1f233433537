//! What C holds of the putting end of a port.

ghost use Rattle.std.specs.Prelude.{◌≡◌, Option, Some, None, is_some, option_map, true};
ghost use Rattle.std.specs.Option.{MatchOption};
ghost use Rattle.tty_device.specs.Lines.{PutEnd};

use crate::handle::null;
use crate::loose::Loose;
use std::alloc::Global;
use std::marker::Model;
use std::mem::replace;
use tty_device::Line as LineEnd;

/// A pointer that owns the putting end of a port, or nothing. It may not be dropped: a slot with the putting end of a
/// port is freed, or it is taken out, and a body that lets it go is refused.
#[repr(C)]
pub struct LineSlot {
    at: *mut u8,
    pub ghost end: { Option PutEnd },
}

impl Model for LineSlot {
    ghost use Rattle.tty_c.specs.Owning.{end_owns};

    ghost also_owns = { λ slot. end_owns slot.end slot.at };
}

impl LineSlot {
    /// An empty slot.
    pub fn empty(at: *mut u8) -> LineSlot
        ensures { result.end ≡ None }
    {
        LineSlot { at }
    }

    /// Lets an empty slot go.
    pub fn discard(self)
        requires { self.end ≡ None }
        ensures { self.end ≡ None }
    {
        let LineSlot { at: _ } = self;
    }

    /// A slot with the putting end of a port.
    pub fn of(loose: Loose<LineEnd, Global>) -> LineSlot
        ensures { result.end ≡ Some loose.value }
    {
        let Loose { at, alloc: _ } = loose;
        LineSlot { at: at as *mut u8 }
    }

    /// Frees the putting end of a port.
    pub fn free(self, alloc: Global)
        requires { (t : PutEnd) × (self.end ≡ Some t) }
    {
        drop(self.into_loose(alloc).into_box());
    }

    /// The putting end of a port of a slot.
    pub fn into_loose(self, alloc: Global) -> Loose<LineEnd, Global>
        requires { (t : PutEnd) × (self.end ≡ Some t) }
        ensures { self.end ≡ Some result.value }
    {
        let LineSlot { at } = self;
        Loose {
            at: at as *mut LineEnd,
            alloc,
        }
    }
}

/// The putting end of a port that a program in C owns, or none. C sees the pointer and whether the handle is live,
/// and sets both to zero before the first call.
#[repr(C)]
pub struct Line {
    pub slot: LineSlot,
    live: bool,
    pub ghost agrees: { live ≡ is_some slot.end },
}

/// A slot without the putting end of a port.
fn vacancy() -> LineSlot
    ensures { result.end ≡ None }
{
    let at = null();
    LineSlot::empty(at)
}

/// Takes the slot with the putting end of a port out of a handle.
pub fn vacated(handle: &mut Line) -> Option<LineSlot>
    ensures slot { MatchOption result (handle.old.slot.end ≡ None)
        (λ slot. (slot.end ≡ handle.old.slot.end) × (is_some slot.end ≡ true)) }
    ensures left { handle.new.slot.end ≡ None }
{
    if !handle.live {
        return None;
    }
    let slot = replace(&mut handle.slot, vacancy());
    handle.live = false;
    Some(slot)
}

/// Takes the putting end of a port out of a handle.
pub fn taken(alloc: Global, handle: &mut Line) -> Option<Box<LineEnd, Global>>
    ensures end { option_map (λ owned. owned.value) result ≡ handle.old.slot.end }
    ensures left { handle.new.slot.end ≡ None }
{
    match vacated(handle) {
        None => None,
        Some(slot) => Some(slot.into_loose(alloc).into_box()),
    }
}

/// Puts the putting end of a port into a handle that has none.
pub fn put(handle: &mut Line, end: Box<LineEnd, Global>)
    requires { handle.old.slot.end ≡ None }
    ensures { handle.new.slot.end ≡ Some end.value }
{
    let empty = replace(&mut handle.slot, LineSlot::of(Loose::of(end)));
    handle.live = true;
    empty.discard();
}
