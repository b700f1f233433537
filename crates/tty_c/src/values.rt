//! What each call does to a terminal, with its answer as a number.

ghost use Rattle.std.specs.Prelude.{◌≡◌, ◌≢◌, pos, Some, None, length, take, is_some};
ghost use Rattle.tty_modes.specs.Reading.{word_of};
ghost use Rattle.n_tty.specs.Writing.{piece_size};
ghost use Rattle.tty_embed.specs.Embedded.{received_count, after_receiving, read_answer, place_after_read};
ghost use Rattle.tty_embed.specs.Embedded.{after_reading, after_writing, after_setting, wire_of, taken_count};
ghost use Rattle.tty_embed.specs.Embedded.{at_front, without_wire_front, first_signal, without_first_signal};
ghost use Rattle.tty_c.specs.Answers.{no_memory, of_truth, flag_of, receipt_answer};
ghost use Rattle.tty_c.specs.Answers.{after_numbered_receipt, count_or_wait, signal_number};

use crate::answers::{NO_FLAG, NO_MEMORY, WAITS};
use tty_base::{Flag, NoMemory, Signal};
use tty_embed::Tty;

/// 1 for true.
pub fn of_truth(holds: bool) -> i64
    ensures { result ≡ of_truth holds }
{
    if holds { 1 } else { 0 }
}

/// The flag of a number.
pub fn flag_of(number: u8) -> Option<Flag>
    ensures { result ≡ flag_of number }
{
    match number {
        0 => Some(Flag::Normal),
        1 => Some(Flag::Break),
        2 => Some(Flag::Parity),
        3 => Some(Flag::Frame),
        4 => Some(Flag::Overrun),
        _ => None,
    }
}

/// The number of a signal, and 0 for none.
pub fn number_of(signal: Option<Signal>) -> i64
    ensures { result ≡ signal_number signal }
{
    match signal {
        None => 0,
        Some(Signal::Int) => 2,
        Some(Signal::Quit) => 3,
        Some(Signal::Susp) => 20,
    }
}

pub fn receive(tty: &mut Tty, byte: u8, flag: u8) -> i64
    ensures answer { result ≢ no_memory → result ≡ receipt_answer (flag_of flag) tty.old }
    ensures after { result ≢ no_memory → tty.new ≡ after_numbered_receipt byte (flag_of flag) tty.old }
    ensures no_memory { result ≡ no_memory → tty.new ≡ tty.old }
{
    let Some(flag) = flag_of(flag) else {
        return NO_FLAG;
    };
    match tty.receive(byte, flag) {
        Ok(accepted) => of_truth(accepted),
        Err(NoMemory) => NO_MEMORY,
    }
}

pub fn receive_bytes(tty: &mut Tty, bytes: &[u8]) -> i64
    ensures answer { result ≢ no_memory → result ≡ pos (received_count tty.old bytes.now) }
    ensures after { result ≢ no_memory → tty.new ≡ after_receiving tty.old bytes.now }
    ensures no_memory { result ≡ no_memory → tty.new ≡ tty.old }
{
    match tty.receive_bytes(bytes) {
        Ok(count) => count as i64,
        Err(NoMemory) => NO_MEMORY,
    }
}

pub fn read(tty: &mut Tty, nonblock: bool, since: u64, place: &mut [u8]) -> i64
    ensures answer { result ≢ no_memory
        → result ≡ count_or_wait (read_answer tty.old nonblock since (length place.old)) }
    ensures place { result ≢ no_memory → place.new ≡ place_after_read tty.old nonblock since place.old }
    ensures after { result ≢ no_memory → tty.new ≡ after_reading tty.old nonblock since (length place.old) }
    ensures no_memory { result ≡ no_memory → (tty.new ≡ tty.old) × (place.new ≡ place.old) }
{
    match tty.read(nonblock, since, place) {
        Ok(Some(count)) => count as i64,
        Ok(None) => WAITS,
        Err(NoMemory) => NO_MEMORY,
    }
}

pub fn write(tty: &mut Tty, bytes: &[u8]) -> i64
    ensures answer { result ≢ no_memory
        → result ≡ pos (piece_size tty.old.modes tty.old.port.tty tty.old.port.output bytes.now) }
    ensures after { result ≢ no_memory → tty.new ≡ after_writing tty.old bytes.now }
    ensures no_memory { result ≡ no_memory → tty.new ≡ tty.old }
{
    match tty.write(bytes) {
        Ok(count) => count as i64,
        Err(NoMemory) => NO_MEMORY,
    }
}

pub fn set(tty: &mut Tty, word: &[u8]) -> i64
    ensures answer { result ≢ no_memory → result ≡ of_truth (is_some (word_of word.now)) }
    ensures after { result ≢ no_memory → tty.new ≡ after_setting tty.old (word_of word.now) }
    ensures no_memory { result ≡ no_memory → tty.new ≡ tty.old }
{
    match tty.set(word) {
        Ok(known) => of_truth(known),
        Err(NoMemory) => NO_MEMORY,
    }
}

pub fn take_wire(tty: &mut Tty, place: &mut [u8]) -> i64
    ensures answer { result ≢ no_memory → result ≡ pos (taken_count tty.old place.old) }
    ensures place { result ≢ no_memory
        → place.new ≡ at_front place.old (take (taken_count tty.old place.old) (wire_of tty.old)) }
    ensures after { result ≢ no_memory → tty.new ≡ without_wire_front (taken_count tty.old place.old) tty.old }
    ensures no_memory { result ≡ no_memory → (tty.new ≡ tty.old) × (place.new ≡ place.old) }
{
    match tty.take_wire(place) {
        Ok(count) => count as i64,
        Err(NoMemory) => NO_MEMORY,
    }
}

pub fn take_signal(tty: &mut Tty) -> i64
    ensures answer { result ≢ no_memory → result ≡ signal_number (first_signal tty.old) }
    ensures after { result ≢ no_memory → tty.new ≡ without_first_signal tty.old }
    ensures no_memory { result ≡ no_memory → tty.new ≡ tty.old }
{
    match tty.take_signal() {
        Ok(signal) => number_of(signal),
        Err(NoMemory) => NO_MEMORY,
    }
}
