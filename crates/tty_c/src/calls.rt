//! Calls of a port, from the handle of a program in C to its answer.

ghost use Rattle.std.specs.Prelude.{◌≡◌, ◌≢◌, take, length};
ghost use Rattle.tty_calls.specs.Plain.{answer_of, call_of};
ghost use Rattle.tty_terminal.specs.Outcomes.{Outcome};
ghost use Rattle.tty_terminal.specs.Meeting.{Meets};
ghost use Rattle.tty_device.specs.Devices.{outcome_for, at_front};
ghost use Rattle.tty_c.specs.Answers.{no_memory};
ghost use Rattle.tty_c.specs.Calls.{device_in, DeviceCalls, PortCalls, place_with, place_after, place_after_call};
ghost use Rattle.tty_c.specs.declared.told.Detail.TheVariants.{Nothing};

use crate::answers::{NO_MEMORY, NO_TERMINAL};
use crate::ports::{Port, put, taken};
use crate::told::{Detail, met_number};
use std::alloc::Global;
use tty_base::NoMemory;
use tty_calls::{Answer, Call};
use tty_device::Device;
use tty_terminal::Met;

/// A call on a port.
fn call_device(device: &mut Device, caller: usize, told: &Detail, call: &Call) -> i64
    ensures { DeviceCalls told.now device.old device.new caller (call_of call.now) result }
{
    match device.call(caller, call) {
        Ok(met) => met_number(told, &met),
        Err(NoMemory) => NO_MEMORY,
    }
}

/// Puts as many bytes as fit at the front of a place.
fn put_front(place: &mut [u8], bytes: &[u8])
    ensures { place.new ≡ at_front place.old (take (length place.old) bytes.now) }
{
    let count = place.len().min(bytes.len());
    place[..count].copy_from_slice(&bytes[..count]);
}

/// The bytes that an answer gives stand in a place.
fn put_answer(place: &mut [u8], answer: &Answer)
    ensures { place.new ≡ place_with (answer_of answer.now) place.old }
{
    if let Answer::Got(bytes) = answer {
        put_front(place, bytes.as_slice());
    }
}

/// The bytes that a call met stand in a place.
#[tactic(auto, using(crate::proofs::Telling::place_gives, crate::proofs::Telling::place_takes, crate::proofs::Telling::place_waits))]
fn put_met(place: &mut [u8], met: &Met)
    ensures { (o : Outcome) → Meets o met.now → place.new ≡ place_after o place.old }
{
    if let Met::Gives(answer) = met {
        put_answer(place, answer);
    }
}

/// A call on a port that may give bytes.
fn read_device(device: &mut Device, caller: usize, call: &Call, place: &mut [u8]) -> i64
    ensures calls { DeviceCalls Nothing device.old device.new caller (call_of call.now) result }
    ensures place { result ≢ no_memory
        → place.new ≡ place_after (outcome_for device.old caller (call_of call.now)) place.old }
    ensures kept { result ≡ no_memory → place.new ≡ place.old }
{
    match device.call(caller, call) {
        Ok(met) => {
            put_met(place, &met);
            met_number(&Detail::Nothing, &met)
        }
        Err(NoMemory) => NO_MEMORY,
    }
}

/// A call on the port of a handle.
#[tactic(auto, using(crate::proofs::Handling::on_made, crate::proofs::Handling::on_none))]
pub fn make_call(alloc: Global, port: &mut Port, caller: usize, told: &Detail, call: &Call) -> i64
    ensures { PortCalls told.now (device_in port.old) (device_in port.new) caller (call_of call.now) result }
{
    let Some(mut device) = taken(alloc, port) else {
        return NO_TERMINAL;
    };
    let answer = call_device(&mut device, caller, told, call);
    put(port, device);
    answer
}

/// A call on the port of a handle that may give bytes.
#[tactic(auto, using(crate::proofs::Handling::on_made, crate::proofs::Handling::on_none))]
pub fn make_read(
    alloc: Global,
    port: &mut Port,
    caller: usize,
    call: &Call,
    place: &mut [u8],
) -> i64
    ensures calls { PortCalls Nothing (device_in port.old) (device_in port.new) caller (call_of call.now) result }
    ensures place { result ≢ no_memory
        → place.new ≡ place_after_call (device_in port.old) caller (call_of call.now) place.old }
    ensures kept { result ≡ no_memory → place.new ≡ place.old }
{
    let Some(mut device) = taken(alloc, port) else {
        return NO_TERMINAL;
    };
    let answer = read_device(&mut device, caller, call, place);
    put(port, device);
    answer
}
