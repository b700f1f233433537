//! What C holds of a port.

ghost use Rattle.std.specs.Prelude.{◌≡◌, Option, Some, None, is_some, option_map, true};
ghost use Rattle.std.specs.Option.{MatchOption};
ghost use Rattle.tty_device.specs.Devices.{DeviceState};

use crate::handle::null;
use crate::loose::Loose;
use std::alloc::Global;
use std::marker::Model;
use std::mem::replace;
use tty_device::Device;

/// A pointer that owns a port, or nothing. It may not be dropped: a slot with a port is freed, or it is
/// taken out, and a body that lets it go is refused.
#[repr(C)]
pub struct PortSlot {
    at: *mut u8,
    pub ghost device: { Option DeviceState },
}

impl Model for PortSlot {
    ghost use Rattle.tty_c.specs.Owning.{device_owns};

    ghost also_owns = { λ slot. device_owns slot.device slot.at };
}

impl PortSlot {
    /// An empty slot.
    pub fn empty(at: *mut u8) -> PortSlot
        ensures { result.device ≡ None }
    {
        PortSlot { at }
    }

    /// Lets an empty slot go.
    pub fn discard(self)
        requires { self.device ≡ None }
        ensures { self.device ≡ None }
    {
        let PortSlot { at: _ } = self;
    }

    /// A slot with a port.
    pub fn of(loose: Loose<Device, Global>) -> PortSlot
        ensures { result.device ≡ Some loose.value }
    {
        let Loose { at, alloc: _ } = loose;
        PortSlot { at: at as *mut u8 }
    }

    /// Frees a port.
    pub fn free(self, alloc: Global)
        requires { (t : DeviceState) × (self.device ≡ Some t) }
    {
        drop(self.into_loose(alloc).into_box());
    }

    /// A port of a slot.
    pub fn into_loose(self, alloc: Global) -> Loose<Device, Global>
        requires { (t : DeviceState) × (self.device ≡ Some t) }
        ensures { self.device ≡ Some result.value }
    {
        let PortSlot { at } = self;
        Loose {
            at: at as *mut Device,
            alloc,
        }
    }
}

/// A port that a program in C owns, or none. C sees the pointer and whether the handle is live, and sets both to zero
/// before the first call.
#[repr(C)]
pub struct Port {
    pub slot: PortSlot,
    live: bool,
    pub ghost agrees: { live ≡ is_some slot.device },
}

/// A slot without a port.
fn vacancy() -> PortSlot
    ensures { result.device ≡ None }
{
    let at = null();
    PortSlot::empty(at)
}

/// Takes the slot with a port out of a handle.
pub fn vacated(handle: &mut Port) -> Option<PortSlot>
    ensures slot { MatchOption result (handle.old.slot.device ≡ None)
        (λ slot. (slot.device ≡ handle.old.slot.device) × (is_some slot.device ≡ true)) }
    ensures left { handle.new.slot.device ≡ None }
{
    if !handle.live {
        return None;
    }
    let slot = replace(&mut handle.slot, vacancy());
    handle.live = false;
    Some(slot)
}

/// Takes a port out of a handle.
pub fn taken(alloc: Global, handle: &mut Port) -> Option<Box<Device, Global>>
    ensures device { option_map (λ owned. owned.value) result ≡ handle.old.slot.device }
    ensures left { handle.new.slot.device ≡ None }
{
    match vacated(handle) {
        None => None,
        Some(slot) => Some(slot.into_loose(alloc).into_box()),
    }
}

/// Puts a port into a handle that has none.
pub fn put(handle: &mut Port, device: Box<Device, Global>)
    requires { handle.old.slot.device ≡ None }
    ensures { handle.new.slot.device ≡ Some device.value }
{
    let empty = replace(&mut handle.slot, PortSlot::of(Loose::of(device)));
    handle.live = true;
    empty.discard();
}
