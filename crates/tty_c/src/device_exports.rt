//! The calls of a program in C that make a port, feed it and take what goes out; and those on the end that puts
//! characters in.

ghost use Rattle.std.specs.Prelude.{◌≡◌, ◌≢◌, ◌||◌, ◌≤◌, pos, length, true, Some, None, is_some, IfOk, if◌then◌else◌};
ghost use Rattle.atomic_table.specs.Seated.{TableId};
ghost use Rattle.tty_device.specs.Devices.{fresh_device, fresh_whole, after_cancel, after_advance};
ghost use Rattle.tty_device.specs.Lines.{buffer_size, fresh_line};
ghost use Rattle.tty_c.specs.Answers.{no_memory, no_terminal, already_made, flag_of};
ghost use Rattle.tty_c.specs.Calls.{device_in, end_in, OnHandle, Does, Receives, TakesIn, TakesInFlagged};
ghost use Rattle.tty_c.specs.Calls.{HangsUp, TakesSignal, TakesWire, place_after_wire, TellsAccount, flushed_count};
ghost use Rattle.tty_c.specs.Calls.{dropped_count, waiting_count, PutsWhere, as_answer, TellsWaiting};

use crate::answers::{MADE, NO_FLAG, NO_MEMORY, NO_TERMINAL};
use crate::lines::Line;
use crate::ports::Port;
use crate::values::{flag_of, number_of};
use crate::{lines, ports};
use std::alloc::Global;
use tty_base::{Flag, NoMemory};
use tty_device::{Device, Line as LineEnd};

/// A count of 64 bits as an answer.
fn as_answer(count: u64) -> i64
    ensures { result ≡ as_answer count }
{
    count.min(9223372036854775807) as i64
}

/// A new port, and the end that puts characters in, each in a box.
fn made(
    alloc: Global,
    callers: usize,
    capacity: usize,
) -> Result<(Box<Device, Global>, Box<LineEnd, Global>), NoMemory>
    ensures { IfOk result (λ made.
        (made.0.value ≡ fresh_device made.0.value.ring callers (buffer_size capacity))
        × (made.1.value ≡ fresh_line made.0.value.ring (buffer_size capacity))) }
{
    let (device, line) = Device::new(alloc, callers, capacity)?;
    Ok((Box::new(alloc, device)?, Box::new(alloc, line)?))
}

/// Makes a port for so many callers, and the end of its flip buffer that puts characters in, for two handles that have
/// none. The buffer holds `capacity` characters, 64 at least and 65,536 at most.
#[tactic(auto, using(crate::proofs::Making::new_pair))]
#[unsafe(no_mangle)]
pub extern "C" fn jw_port_new(
    alloc: Global,
    port: &mut Port,
    line: &mut Line,
    callers: usize,
    capacity: usize,
) -> i64
    ensures made { result ≡ pos 0
        → (ring : TableId)
        × (device_in port.new ≡ Some (fresh_device ring callers (buffer_size capacity)))
        × (end_in line.new ≡ Some (fresh_line ring (buffer_size capacity))) }
    ensures kept { result ≢ pos 0 → (device_in port.new ≡ device_in port.old) × (end_in line.new ≡ end_in line.old) }
    ensures there { (is_some (device_in port.old) || is_some (end_in line.old)) ≡ true → result ≡ already_made }
    ensures answer { result ≢ no_memory
        → result ≡ (if (is_some (device_in port.old) || is_some (end_in line.old)) then already_made else pos 0) }
{
    if let Some(device) = ports::taken(alloc, port) {
        ports::put(port, device);
        return MADE;
    }
    if let Some(end) = lines::taken(alloc, line) {
        lines::put(line, end);
        return MADE;
    }
    let Ok((device, end)) = made(alloc, callers, capacity) else {
        return NO_MEMORY;
    };
    ports::put(port, device);
    lines::put(line, end);
    0
}

/// A new port that has the end that puts characters in, in a box.
fn whole(alloc: Global, callers: usize, capacity: usize) -> Result<Box<Device, Global>, NoMemory>
    ensures { IfOk result (λ device. device.value ≡ fresh_whole device.value.ring callers (buffer_size capacity)) }
{
    Ok(Box::new(alloc, Device::whole(alloc, callers, capacity)?)?)
}

/// Makes a port for so many callers that has the end of its flip buffer that puts characters in, for a handle that has
/// none. The buffer holds `capacity` characters, 64 at least and 65,536 at most.
#[tactic(auto, using(crate::proofs::Making::new_whole))]
#[unsafe(no_mangle)]
pub extern "C" fn jw_port_new_whole(
    alloc: Global,
    port: &mut Port,
    callers: usize,
    capacity: usize,
) -> i64
    ensures made { result ≡ pos 0
        → (ring : TableId) × (device_in port.new ≡ Some (fresh_whole ring callers (buffer_size capacity))) }
    ensures kept { result ≢ pos 0 → device_in port.new ≡ device_in port.old }
    ensures there { is_some (device_in port.old) ≡ true → result ≡ already_made }
    ensures answer { result ≢ no_memory → result ≡ (if is_some (device_in port.old) then already_made else pos 0) }
{
    if let Some(device) = ports::taken(alloc, port) {
        ports::put(port, device);
        return MADE;
    }
    let Ok(device) = whole(alloc, callers, capacity) else {
        return NO_MEMORY;
    };
    ports::put(port, device);
    0
}

/// Frees the port of a handle, which has none afterwards.
#[unsafe(no_mangle)]
pub extern "C" fn jw_port_free(alloc: Global, port: &mut Port) -> i64
    ensures answer { result ≡ (if is_some (device_in port.old) then pos 0 else no_terminal) }
    ensures after { device_in port.new ≡ None }
{
    match ports::vacated(port) {
        None => NO_TERMINAL,
        Some(slot) => {
            slot.free(alloc);
            0
        }
    }
}

/// Frees the end of a handle, which has none afterwards.
#[unsafe(no_mangle)]
pub extern "C" fn jw_line_free(alloc: Global, line: &mut Line) -> i64
    ensures answer { result ≡ (if is_some (end_in line.old) then pos 0 else no_terminal) }
    ensures after { end_in line.new ≡ None }
{
    match lines::vacated(line) {
        None => NO_TERMINAL,
        Some(slot) => {
            slot.free(alloc);
            0
        }
    }
}

/// Gives up a caller's call that waits.
#[tactic(auto, using(crate::proofs::Handling::on_made, crate::proofs::Handling::on_none))]
#[unsafe(no_mangle)]
pub extern "C" fn jw_port_cancel(alloc: Global, port: &mut Port, caller: usize) -> i64
    ensures { OnHandle (Does (λ _. pos 0) (λ _ d. after_cancel d caller)) (device_in port.old) (device_in port.new)
        result }
{
    let Some(mut device) = ports::taken(alloc, port) else {
        return NO_TERMINAL;
    };
    device.cancel(caller);
    ports::put(port, device);
    0
}

/// Sets the clock, in tenths of a second. It does not go back.
#[tactic(auto, using(crate::proofs::Handling::on_made, crate::proofs::Handling::on_none))]
#[unsafe(no_mangle)]
pub extern "C" fn jw_port_advance(alloc: Global, port: &mut Port, tick: u64) -> i64
    ensures { OnHandle (Does (λ _. pos 0) (λ _ d. after_advance d tick)) (device_in port.old) (device_in port.new)
        result }
{
    let Some(mut device) = ports::taken(alloc, port) else {
        return NO_TERMINAL;
    };
    device.advance(tick);
    ports::put(port, device);
    0
}

fn receive(device: &mut Device, most: usize) -> i64
    ensures { Receives most device.old device.new result }
{
    match device.flush(most) {
        Ok(count) => count as i64,
        Err(NoMemory) => NO_MEMORY,
    }
}

/// Hands characters of the flip buffer over to the line discipline, `most` at most and 256 at most. Answers how many.
#[tactic(auto, using(crate::proofs::Handling::on_made, crate::proofs::Handling::on_none))]
#[unsafe(no_mangle)]
pub extern "C" fn jw_port_receive(alloc: Global, port: &mut Port, most: usize) -> i64
    ensures { OnHandle (Receives most) (device_in port.old) (device_in port.new) result }
{
    let Some(mut device) = ports::taken(alloc, port) else {
        return NO_TERMINAL;
    };
    let answer = receive(&mut device, most);
    ports::put(port, device);
    answer
}

fn take_in(device: &mut Device, bytes: &[u8], flag: Flag) -> i64
    ensures { TakesIn bytes.now flag device.old device.new result }
{
    match device.take_in(bytes, flag) {
        Ok(Some(count)) => count as i64,
        Ok(None) => NO_FLAG,
        Err(NoMemory) => NO_MEMORY,
    }
}

/// Puts bytes, each with the flag of this number, into the end that the port has, and hands 256 characters at most over
/// to the line discipline: what `jw_line_put`, `jw_line_push` and `jw_port_receive` do in three calls. Answers how many
/// were put. The others are overruns.
#[tactic(auto, using(crate::proofs::Handling::on_made, crate::proofs::Handling::on_none))]
#[unsafe(no_mangle)]
pub extern "C" fn jw_port_take_in(alloc: Global, port: &mut Port, bytes: &[u8], flag: u8) -> i64
    ensures { TakesInFlagged bytes.now (flag_of flag) (device_in port.old) (device_in port.new) result }
{
    let Some(flag) = flag_of(flag) else {
        return NO_FLAG;
    };
    let Some(mut device) = ports::taken(alloc, port) else {
        return NO_TERMINAL;
    };
    let answer = take_in(&mut device, bytes, flag);
    ports::put(port, device);
    answer
}

fn hang_up(device: &mut Device) -> i64
    ensures { HangsUp device.old device.new result }
{
    match device.hang_up() {
        Ok(()) => 0,
        Err(NoMemory) => NO_MEMORY,
    }
}

/// Hangs the port up, as its line does when the carrier goes.
#[tactic(auto, using(crate::proofs::Handling::on_made, crate::proofs::Handling::on_none))]
#[unsafe(no_mangle)]
pub extern "C" fn jw_port_hang_up(alloc: Global, port: &mut Port) -> i64
    ensures { OnHandle HangsUp (device_in port.old) (device_in port.new) result }
{
    let Some(mut device) = ports::taken(alloc, port) else {
        return NO_TERMINAL;
    };
    let answer = hang_up(&mut device);
    ports::put(port, device);
    answer
}

fn take_wire(device: &mut Device, place: &mut [u8]) -> i64
    ensures takes { TakesWire place.old device.old device.new result }
    ensures place { result ≢ no_memory → place.new ≡ place_after_wire (Some device.old) place.old }
    ensures kept { result ≡ no_memory → place.new ≡ place.old }
{
    match device.take_wire(place) {
        Ok(count) => count as i64,
        Err(NoMemory) => NO_MEMORY,
    }
}

/// Takes the first bytes that went to the wire into a place, and answers how many.
#[tactic(auto, using(crate::proofs::Handling::on_made, crate::proofs::Handling::on_none))]
#[unsafe(no_mangle)]
pub extern "C" fn jw_port_take_wire(alloc: Global, port: &mut Port, place: &mut [u8]) -> i64
    ensures takes { OnHandle (TakesWire place.old) (device_in port.old) (device_in port.new) result }
    ensures place { result ≢ no_memory → place.new ≡ place_after_wire (device_in port.old) place.old }
    ensures kept { result ≡ no_memory → place.new ≡ place.old }
{
    let Some(mut device) = ports::taken(alloc, port) else {
        return NO_TERMINAL;
    };
    let answer = take_wire(&mut device, place);
    ports::put(port, device);
    answer
}

fn take_signal(device: &mut Device) -> i64
    ensures { TakesSignal device.old device.new result }
{
    match device.take_signal() {
        Ok(signal) => number_of(signal),
        Err(NoMemory) => NO_MEMORY,
    }
}

/// Takes the first signal that was raised, and answers its number, or 0 for none.
#[tactic(auto, using(crate::proofs::Handling::on_made, crate::proofs::Handling::on_none))]
#[unsafe(no_mangle)]
pub extern "C" fn jw_port_take_signal(alloc: Global, port: &mut Port) -> i64
    ensures { OnHandle TakesSignal (device_in port.old) (device_in port.new) result }
{
    let Some(mut device) = ports::taken(alloc, port) else {
        return NO_TERMINAL;
    };
    let answer = take_signal(&mut device);
    ports::put(port, device);
    answer
}

/// How many characters the line discipline has received.
#[tactic(auto, using(crate::proofs::Handling::on_made, crate::proofs::Handling::on_none))]
#[unsafe(no_mangle)]
pub extern "C" fn jw_port_received(alloc: Global, port: &mut Port) -> i64
    ensures { OnHandle (TellsAccount flushed_count) (device_in port.old) (device_in port.new) result }
{
    let Some(mut device) = ports::taken(alloc, port) else {
        return NO_TERMINAL;
    };
    let answer = as_answer(device.account().flushed);
    ports::put(port, device);
    answer
}

/// How many characters were dropped with a purge or a hangup.
#[tactic(auto, using(crate::proofs::Handling::on_made, crate::proofs::Handling::on_none))]
#[unsafe(no_mangle)]
pub extern "C" fn jw_port_dropped(alloc: Global, port: &mut Port) -> i64
    ensures { OnHandle (TellsAccount dropped_count) (device_in port.old) (device_in port.new) result }
{
    let Some(mut device) = ports::taken(alloc, port) else {
        return NO_TERMINAL;
    };
    let answer = as_answer(device.account().dropped);
    ports::put(port, device);
    answer
}

/// How many characters are pushed and not taken.
#[tactic(auto, using(crate::proofs::Handling::on_made, crate::proofs::Handling::on_none))]
#[unsafe(no_mangle)]
pub extern "C" fn jw_port_waiting(alloc: Global, port: &mut Port) -> i64
    ensures { OnHandle (TellsAccount waiting_count) (device_in port.old) (device_in port.new) result }
{
    let Some(mut device) = ports::taken(alloc, port) else {
        return NO_TERMINAL;
    };
    let answer = as_answer(waiting_of(&mut device));
    ports::put(port, device);
    answer
}

/// Puts bytes, each with the flag of this number, and answers how many. The others are overruns.
#[tactic(auto, using(crate::proofs::Handling::on_made, crate::proofs::Handling::on_none))]
#[unsafe(no_mangle)]
pub extern "C" fn jw_line_put(alloc: Global, line: &mut Line, bytes: &[u8], flag: u8) -> i64
    ensures { PutsWhere bytes.now (flag_of flag) (end_in line.old) (end_in line.new) result }
{
    let Some(flag) = flag_of(flag) else {
        return NO_FLAG;
    };
    let Some(mut end) = lines::taken(alloc, line) else {
        return NO_TERMINAL;
    };
    let count = end.put(bytes, flag) as i64;
    lines::put(line, end);
    count
}

/// Makes all that was put visible to the port.
#[tactic(auto, using(crate::proofs::Handling::on_made, crate::proofs::Handling::on_none))]
#[unsafe(no_mangle)]
pub extern "C" fn jw_line_push(alloc: Global, line: &mut Line) -> i64
    ensures { OnHandle (Does (λ _. pos 0) (λ _ l. record l { pushed = l.sent })) (end_in line.old) (end_in line.new)
        result }
{
    let Some(mut end) = lines::taken(alloc, line) else {
        return NO_TERMINAL;
    };
    end.push();
    lines::put(line, end);
    0
}

/// How many characters were put.
#[tactic(auto, using(crate::proofs::Handling::on_made, crate::proofs::Handling::on_none))]
#[unsafe(no_mangle)]
pub extern "C" fn jw_line_sent(alloc: Global, line: &mut Line) -> i64
    ensures { OnHandle (Does (λ l. as_answer (length l.sent)) (λ _ l. l)) (end_in line.old) (end_in line.new) result }
{
    let Some(end) = lines::taken(alloc, line) else {
        return NO_TERMINAL;
    };
    let answer = as_answer(end.sent());
    lines::put(line, end);
    answer
}

/// How many characters were refused.
#[tactic(auto, using(crate::proofs::Handling::on_made, crate::proofs::Handling::on_none))]
#[unsafe(no_mangle)]
pub extern "C" fn jw_line_overruns(alloc: Global, line: &mut Line) -> i64
    ensures { OnHandle (Does (λ l. as_answer l.overruns) (λ _ l. l)) (end_in line.old) (end_in line.new) result }
{
    let Some(end) = lines::taken(alloc, line) else {
        return NO_TERMINAL;
    };
    let answer = as_answer(end.overruns());
    lines::put(line, end);
    answer
}

/// How many characters were put and are not taken.
#[tactic(auto, using(crate::proofs::Handling::on_made, crate::proofs::Handling::on_none))]
#[unsafe(no_mangle)]
pub extern "C" fn jw_line_waiting(alloc: Global, line: &mut Line) -> i64
    ensures { OnHandle TellsWaiting (end_in line.old) (end_in line.new) result }
{
    let Some(mut end) = lines::taken(alloc, line) else {
        return NO_TERMINAL;
    };
    let answer = as_answer(end.waiting());
    lines::put(line, end);
    answer
}

/// How many characters are pushed and not taken, by what one look shows.
fn waiting_of(device: &mut Device) -> u64
    ensures waiting { result ≡ waiting_count device.new }
    ensures same { device.new ≡ record device.old { shown = device.new.shown } }
    ensures shown { device.old.shown ≤ device.new.shown }
{
    device.account().waiting
}
