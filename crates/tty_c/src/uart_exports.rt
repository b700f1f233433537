//! The calls of a program in C on the receive side of a 16550.

ghost use Rattle.std.specs.Prelude.{◌≡◌, ◌≢◌, pos, Some, None, is_some, IfOk, if◌then◌else◌};
ghost use Rattle.uart_regs.specs.Registers.{initial_registers, after_idle, is_pending};
ghost use Rattle.tty_c.specs.Answers.{no_memory, no_terminal, already_made, of_truth};
ghost use Rattle.tty_c.specs.Calls.{OnHandle, Does};
ghost use Rattle.tty_c.specs.Uarts.{uart_in, reg_of, error_flag_of, ArrivesWhere, ReadsWhere, WritesWhere};

use crate::answers::{MADE, NO_FLAG, NO_MEMORY, NO_TERMINAL};
use crate::uarts::{Receiver, put, taken, vacated};
use crate::values::of_truth;
use std::alloc::Global;
use tty_base::{Flag, Flagged, NoMemory};
use uart_regs::{Reg, Uart};

/// The register of an offset from the base address.
fn reg_of(number: u8) -> Option<Reg>
    ensures { result ≡ reg_of number }
{
    match number {
        0 => Some(Reg::R0),
        1 => Some(Reg::R1),
        2 => Some(Reg::R2),
        3 => Some(Reg::R3),
        4 => Some(Reg::R4),
        5 => Some(Reg::R5),
        6 => Some(Reg::R6),
        7 => Some(Reg::R7),
        _ => None,
    }
}

/// The flag of a number, with which a character can arrive: a mark is none.
fn error_flag_of(number: u8) -> Option<Flag>
    ensures { result ≡ error_flag_of number }
{
    match number {
        0 => Some(Flag::Normal),
        1 => Some(Flag::Break),
        2 => Some(Flag::Parity),
        3 => Some(Flag::Frame),
        _ => None,
    }
}

fn made(alloc: Global) -> Result<Box<Uart, Global>, NoMemory>
    ensures { IfOk result (λ owned. owned.value ≡ initial_registers) }
{
    Ok(Box::new(alloc, Uart::new())?)
}

/// Makes a 16550 for a handle that has none, as a driver sets it up.
#[unsafe(no_mangle)]
pub extern "C" fn jw_uart_new(alloc: Global, uart: &mut Receiver) -> i64
    ensures answer { result ≢ no_memory → result ≡ (if is_some (uart_in uart.old) then already_made else pos 0) }
    ensures made { result ≡ pos 0 → uart_in uart.new ≡ Some initial_registers }
    ensures kept { result ≢ pos 0 → uart_in uart.new ≡ uart_in uart.old }
{
    if let Some(owned) = taken(alloc, uart) {
        put(uart, owned);
        return MADE;
    }
    let Ok(owned) = made(alloc) else {
        return NO_MEMORY;
    };
    put(uart, owned);
    0
}

/// Frees the 16550 of a handle, which has none afterwards.
#[unsafe(no_mangle)]
pub extern "C" fn jw_uart_free(alloc: Global, uart: &mut Receiver) -> i64
    ensures answer { result ≡ (if is_some (uart_in uart.old) then pos 0 else no_terminal) }
    ensures after { uart_in uart.new ≡ None }
{
    match vacated(uart) {
        None => NO_TERMINAL,
        Some(slot) => {
            slot.free(alloc);
            0
        }
    }
}

/// A character arrives, with the number of its flag.
#[tactic(auto, using(crate::proofs::Handling::on_made, crate::proofs::Handling::on_none))]
#[unsafe(no_mangle)]
pub extern "C" fn jw_uart_arrive(alloc: Global, uart: &mut Receiver, byte: u8, flag: u8) -> i64
    ensures { ArrivesWhere byte (error_flag_of flag) (uart_in uart.old) (uart_in uart.new) result }
{
    let Some(flag) = error_flag_of(flag) else {
        return NO_FLAG;
    };
    let Some(mut owned) = taken(alloc, uart) else {
        return NO_TERMINAL;
    };
    owned.arrive(Flagged { byte, flag });
    put(uart, owned);
    0
}

/// So many character times pass in which none arrives.
#[tactic(auto, using(crate::proofs::Handling::on_made, crate::proofs::Handling::on_none))]
#[unsafe(no_mangle)]
pub extern "C" fn jw_uart_idle(alloc: Global, uart: &mut Receiver, times: u32) -> i64
    ensures { OnHandle (Does (λ _. pos 0) (λ _ r. after_idle r times)) (uart_in uart.old) (uart_in uart.new) result }
{
    let Some(mut owned) = taken(alloc, uart) else {
        return NO_TERMINAL;
    };
    owned.idle(times);
    put(uart, owned);
    0
}

/// Reads a register, by its offset from the base address.
#[tactic(auto, using(crate::proofs::Handling::on_made, crate::proofs::Handling::on_none))]
#[unsafe(no_mangle)]
pub extern "C" fn jw_uart_read(alloc: Global, uart: &mut Receiver, reg: u8) -> i64
    ensures { ReadsWhere (reg_of reg) (uart_in uart.old) (uart_in uart.new) result }
{
    let Some(reg) = reg_of(reg) else {
        return NO_FLAG;
    };
    let Some(mut owned) = taken(alloc, uart) else {
        return NO_TERMINAL;
    };
    let value = i64::from(owned.read(reg));
    put(uart, owned);
    value
}

/// Writes a register, by its offset from the base address.
#[tactic(auto, using(crate::proofs::Handling::on_made, crate::proofs::Handling::on_none))]
#[unsafe(no_mangle)]
pub extern "C" fn jw_uart_write(alloc: Global, uart: &mut Receiver, reg: u8, value: u8) -> i64
    ensures { WritesWhere value (reg_of reg) (uart_in uart.old) (uart_in uart.new) result }
{
    let Some(reg) = reg_of(reg) else {
        return NO_FLAG;
    };
    let Some(mut owned) = taken(alloc, uart) else {
        return NO_TERMINAL;
    };
    owned.write(reg, value);
    put(uart, owned);
    0
}

/// Whether an interrupt is pending.
#[tactic(auto, using(crate::proofs::Handling::on_made, crate::proofs::Handling::on_none))]
#[unsafe(no_mangle)]
pub extern "C" fn jw_uart_pending(alloc: Global, uart: &mut Receiver) -> i64
    ensures { OnHandle (Does (λ r. of_truth (is_pending r)) (λ _ r. r)) (uart_in uart.old) (uart_in uart.new) result }
{
    let Some(owned) = taken(alloc, uart) else {
        return NO_TERMINAL;
    };
    let pending = of_truth(owned.pending());
    put(uart, owned);
    pending
}
