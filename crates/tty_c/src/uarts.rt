//! What C holds of a 16550.

ghost use Rattle.std.specs.Prelude.{◌≡◌, Option, Some, None, is_some, option_map, true};
ghost use Rattle.std.specs.Option.{MatchOption};
ghost use Rattle.uart_regs.specs.Registers.{Registers};

use crate::handle::null;
use crate::loose::Loose;
use std::alloc::Global;
use std::marker::Model;
use std::mem::replace;
use uart_regs::Uart;

/// A pointer that owns a 16550, or nothing. It may not be dropped: a slot with a 16550 is freed, or it is
/// taken out, and a body that lets it go is refused.
#[repr(C)]
pub struct UartSlot {
    at: *mut u8,
    pub ghost uart: { Option Registers },
}

impl Model for UartSlot {
    ghost use Rattle.tty_c.specs.Owning.{uart_owns};

    ghost also_owns = { λ slot. uart_owns slot.uart slot.at };
}

impl UartSlot {
    /// An empty slot.
    pub fn empty(at: *mut u8) -> UartSlot
        ensures { result.uart ≡ None }
    {
        UartSlot { at }
    }

    /// Lets an empty slot go.
    pub fn discard(self)
        requires { self.uart ≡ None }
        ensures { self.uart ≡ None }
    {
        let UartSlot { at: _ } = self;
    }

    /// A slot with a 16550.
    pub fn of(loose: Loose<Uart, Global>) -> UartSlot
        ensures { result.uart ≡ Some loose.value }
    {
        let Loose { at, alloc: _ } = loose;
        UartSlot { at: at as *mut u8 }
    }

    /// Frees a 16550.
    pub fn free(self, alloc: Global)
        requires { (t : Registers) × (self.uart ≡ Some t) }
    {
        drop(self.into_loose(alloc).into_box());
    }

    /// A 16550 of a slot.
    pub fn into_loose(self, alloc: Global) -> Loose<Uart, Global>
        requires { (t : Registers) × (self.uart ≡ Some t) }
        ensures { self.uart ≡ Some result.value }
    {
        let UartSlot { at } = self;
        Loose {
            at: at as *mut Uart,
            alloc,
        }
    }
}

/// A 16550 that a program in C owns, or none. C sees the pointer and whether the handle is live, and sets both to zero
/// before the first call.
#[repr(C)]
pub struct Receiver {
    pub slot: UartSlot,
    live: bool,
    pub ghost agrees: { live ≡ is_some slot.uart },
}

/// A slot without a 16550.
fn vacancy() -> UartSlot
    ensures { result.uart ≡ None }
{
    let at = null();
    UartSlot::empty(at)
}

/// Takes the slot with a 16550 out of a handle.
pub fn vacated(handle: &mut Receiver) -> Option<UartSlot>
    ensures slot { MatchOption result (handle.old.slot.uart ≡ None)
        (λ slot. (slot.uart ≡ handle.old.slot.uart) × (is_some slot.uart ≡ true)) }
    ensures left { handle.new.slot.uart ≡ None }
{
    if !handle.live {
        return None;
    }
    let slot = replace(&mut handle.slot, vacancy());
    handle.live = false;
    Some(slot)
}

/// Takes a 16550 out of a handle.
pub fn taken(alloc: Global, handle: &mut Receiver) -> Option<Box<Uart, Global>>
    ensures uart { option_map (λ owned. owned.value) result ≡ handle.old.slot.uart }
    ensures left { handle.new.slot.uart ≡ None }
{
    match vacated(handle) {
        None => None,
        Some(slot) => Some(slot.into_loose(alloc).into_box()),
    }
}

/// Puts a 16550 into a handle that has none.
pub fn put(handle: &mut Receiver, uart: Box<Uart, Global>)
    requires { handle.old.slot.uart ≡ None }
    ensures { handle.new.slot.uart ≡ Some uart.value }
{
    let empty = replace(&mut handle.slot, UartSlot::of(Loose::of(uart)));
    handle.live = true;
    empty.discard();
}
