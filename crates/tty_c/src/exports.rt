//! The calls of a program in C.

ghost use Rattle.std.specs.Prelude.{◌≡◌, ◌≢◌, pos, true, None, Some, is_some};
ghost use Rattle.std.specs.Prelude.{option_map, length, take, IfOk, if◌then◌else◌};
ghost use Rattle.tty_modes.specs.Reading.{word_of};
ghost use Rattle.n_tty.specs.States.{unread_count};
ghost use Rattle.n_tty.specs.Writing.{piece_size};
ghost use Rattle.tty_embed.specs.Embedded.{fresh, received_count, after_receiving, after_advance};
ghost use Rattle.tty_embed.specs.Embedded.{is_ready_for, read_answer, place_after_read, after_reading};
ghost use Rattle.tty_embed.specs.Embedded.{after_writing, after_setting, wire_of, taken_count, at_front};
ghost use Rattle.tty_embed.specs.Embedded.{without_wire_front, first_signal, without_first_signal};
ghost use Rattle.tty_c.specs.Answers.{no_memory, already_made, terminal_of, answer_on, Calls, place_on, of_truth};
ghost use Rattle.tty_c.specs.Answers.{flag_of, receipt_answer, after_numbered_receipt, count_or_wait, signal_number};

use crate::answers::{MADE, NO_MEMORY, NO_TERMINAL};
use crate::handle::{Handle, put, taken, vacated};
use crate::values;
use std::alloc::Global;
use tty_base::NoMemory;
use tty_embed::Tty;

/// Makes a terminal for a handle that has none.
#[unsafe(no_mangle)]
pub extern "C" fn jw_new(alloc: Global, handle: &mut Handle) -> i64
    ensures answer { result ≢ no_memory → result ≡ (if is_some (terminal_of handle.old) then already_made else pos 0) }
    ensures live { is_some (terminal_of handle.old) ≡ true → result ≡ already_made }
    ensures made { result ≡ pos 0 → terminal_of handle.new ≡ Some fresh }
    ensures kept { result ≢ pos 0 → terminal_of handle.new ≡ terminal_of handle.old }
{
    if let Some(tty) = taken(alloc, handle) {
        put(handle, tty);
        return MADE;
    }
    let Ok(tty) = made(alloc) else {
        return NO_MEMORY;
    };
    put(handle, tty);
    0
}

/// A new terminal.
fn made(alloc: Global) -> Result<Box<Tty, Global>, NoMemory>
    ensures { IfOk result (λ owned. owned.value ≡ fresh) }
{
    Ok(Box::new(alloc, Tty::new(alloc)?)?)
}

/// Frees the terminal of a handle, which has none afterwards.
#[unsafe(no_mangle)]
pub extern "C" fn jw_free(alloc: Global, handle: &mut Handle) -> i64
    ensures answer { result ≡ answer_on (terminal_of handle.old) (λ _. pos 0) }
    ensures after { terminal_of handle.new ≡ None }
{
    match vacated(handle) {
        None => NO_TERMINAL,
        Some(slot) => {
            slot.free(alloc);
            0
        }
    }
}

/// Receives a character from the line, with the number of its flag. Answers 1 where it is accepted, and else 0.
#[unsafe(no_mangle)]
pub extern "C" fn jw_receive(alloc: Global, handle: &mut Handle, byte: u8, flag: u8) -> i64
    ensures { Calls (receipt_answer (flag_of flag)) (after_numbered_receipt byte (flag_of flag))
        (terminal_of handle.old) (terminal_of handle.new) result }
{
    let Some(mut tty) = taken(alloc, handle) else {
        return NO_TERMINAL;
    };
    let answer = values::receive(&mut tty, byte, flag);
    put(handle, tty);
    answer
}

/// Receives good characters from the line, 64 at most, and answers how many were accepted.
#[unsafe(no_mangle)]
pub extern "C" fn jw_receive_bytes(alloc: Global, handle: &mut Handle, bytes: &[u8]) -> i64
    ensures { Calls (λ t. pos (received_count t bytes.now)) (λ t. after_receiving t bytes.now) (terminal_of handle.old)
        (terminal_of handle.new) result }
{
    let Some(mut tty) = taken(alloc, handle) else {
        return NO_TERMINAL;
    };
    let answer = values::receive_bytes(&mut tty, bytes);
    put(handle, tty);
    answer
}

/// Sets the clock, in tenths of a second. It does not go back.
#[unsafe(no_mangle)]
pub extern "C" fn jw_advance(alloc: Global, handle: &mut Handle, tick: u64) -> i64
    ensures answer { result ≡ answer_on (terminal_of handle.old) (λ _. pos 0) }
    ensures after { terminal_of handle.new ≡ option_map (λ t. after_advance t tick) (terminal_of handle.old) }
{
    let Some(mut tty) = taken(alloc, handle) else {
        return NO_TERMINAL;
    };
    tty.advance(tick);
    put(handle, tty);
    0
}

/// Whether a read of at most `n` bytes would be answered, which has waited since a tick.
#[unsafe(no_mangle)]
pub extern "C" fn jw_ready(
    alloc: Global,
    handle: &mut Handle,
    nonblock: bool,
    since: u64,
    n: usize,
) -> i64
    ensures answer { result ≡ answer_on (terminal_of handle.old) (λ t. of_truth (is_ready_for t nonblock since n)) }
    ensures same { terminal_of handle.new ≡ terminal_of handle.old }
{
    let Some(tty) = taken(alloc, handle) else {
        return NO_TERMINAL;
    };
    let ready = tty.ready(nonblock, since, n);
    put(handle, tty);
    values::of_truth(ready)
}

/// Reads into a place, and answers how many bytes.
#[unsafe(no_mangle)]
pub extern "C" fn jw_read(
    alloc: Global,
    handle: &mut Handle,
    nonblock: bool,
    since: u64,
    place: &mut [u8],
) -> i64
    ensures calls { Calls (λ t. count_or_wait (read_answer t nonblock since (length place.old)))
        (λ t. after_reading t nonblock since (length place.old)) (terminal_of handle.old) (terminal_of handle.new)
        result }
    ensures place { result ≢ no_memory
        → place.new ≡ place_on (terminal_of handle.old) (λ t. place_after_read t nonblock since place.old) place.old }
    ensures kept { result ≡ no_memory → place.new ≡ place.old }
{
    let Some(mut tty) = taken(alloc, handle) else {
        return NO_TERMINAL;
    };
    let answer = values::read(&mut tty, nonblock, since, place);
    put(handle, tty);
    answer
}

/// Posts bytes of a write, 64 at most, and answers how many.
#[unsafe(no_mangle)]
pub extern "C" fn jw_write(alloc: Global, handle: &mut Handle, bytes: &[u8]) -> i64
    ensures { Calls (λ t. pos (piece_size t.modes t.port.tty t.port.output bytes.now)) (λ t. after_writing t bytes.now)
        (terminal_of handle.old) (terminal_of handle.new) result }
{
    let Some(mut tty) = taken(alloc, handle) else {
        return NO_TERMINAL;
    };
    let answer = values::write(&mut tty, bytes);
    put(handle, tty);
    answer
}

/// Makes the change of modes that a mode word asks for. Answers 1 for a mode word, and 0 for another text.
#[unsafe(no_mangle)]
pub extern "C" fn jw_set(alloc: Global, handle: &mut Handle, word: &[u8]) -> i64
    ensures { Calls (λ _. of_truth (is_some (word_of word.now))) (λ t. after_setting t (word_of word.now))
        (terminal_of handle.old) (terminal_of handle.new) result }
{
    let Some(mut tty) = taken(alloc, handle) else {
        return NO_TERMINAL;
    };
    let answer = values::set(&mut tty, word);
    put(handle, tty);
    answer
}

/// Takes the first bytes that went to the wire into a place, and answers how many.
#[unsafe(no_mangle)]
pub extern "C" fn jw_take_wire(alloc: Global, handle: &mut Handle, place: &mut [u8]) -> i64
    ensures calls { Calls (λ t. pos (taken_count t place.old)) (λ t. without_wire_front (taken_count t place.old) t)
        (terminal_of handle.old) (terminal_of handle.new) result }
    ensures place { result ≢ no_memory
        → place.new
        ≡ place_on (terminal_of handle.old) (λ t. at_front place.old (take (taken_count t place.old) (wire_of t)))
        place.old }
    ensures kept { result ≡ no_memory → place.new ≡ place.old }
{
    let Some(mut tty) = taken(alloc, handle) else {
        return NO_TERMINAL;
    };
    let answer = values::take_wire(&mut tty, place);
    put(handle, tty);
    answer
}

/// Takes the first signal that was raised, and answers its number, or 0 for none.
#[unsafe(no_mangle)]
pub extern "C" fn jw_take_signal(alloc: Global, handle: &mut Handle) -> i64
    ensures { Calls (λ t. signal_number (first_signal t)) without_first_signal (terminal_of handle.old)
        (terminal_of handle.new) result }
{
    let Some(mut tty) = taken(alloc, handle) else {
        return NO_TERMINAL;
    };
    let answer = values::take_signal(&mut tty);
    put(handle, tty);
    answer
}

/// How many bytes are unread.
#[unsafe(no_mangle)]
pub extern "C" fn jw_unread(alloc: Global, handle: &mut Handle) -> i64
    ensures answer { result ≡ answer_on (terminal_of handle.old) (λ t. pos (unread_count t.port.tty)) }
    ensures same { terminal_of handle.new ≡ terminal_of handle.old }
{
    let Some(tty) = taken(alloc, handle) else {
        return NO_TERMINAL;
    };
    let unread = tty.unread() as i64;
    put(handle, tty);
    unread
}
