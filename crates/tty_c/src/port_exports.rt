//! The calls of a program in C on a port.

ghost use Rattle.std.specs.Prelude.{◌≡◌, ◌≢◌, min, length, option_map, Some};
ghost use Rattle.tty_base.specs.Sizes.{MOST_ASKED};
ghost use Rattle.tty_modes.specs.Reading.{word_of};
ghost use Rattle.tty_calls.specs.Plain.{opens, closes, reads, writes, gets_modes, gets_disc, sets_disc};
ghost use Rattle.tty_calls.specs.Plain.{flushes, steers, counts_input, counts_output, excludes, admits};
ghost use Rattle.tty_calls.specs.Plain.{drains, gets_counts, hangs_up, sends_packet, takes_packet};
ghost use Rattle.tty_c.specs.Answers.{no_memory};
ghost use Rattle.tty_c.specs.Calls.{device_in, PortCalls, PortCallsWhere, place_after_call};
ghost use Rattle.tty_c.specs.Calls.{access_of, queue_of, act_of, when_of, word_set};
ghost use Rattle.tty_c.specs.declared.told.Detail.TheVariants.{Nothing, Flag, Character, Count};

use crate::answers::NO_FLAG;
use crate::calls::{make_call, make_read};
use crate::ports::Port;
use crate::told::{Detail, access_of, act_of, queue_of, when_of};
use std::alloc::Global;
use tty_base::sizes::MOST_ASKED;
use tty_calls::Call;
use tty_modes::set_word_bytes;

/// Opens a port under the number `h`, for reading, writing or both (open(2)).
#[unsafe(no_mangle)]
pub extern "C" fn jw_port_open(
    alloc: Global,
    port: &mut Port,
    caller: usize,
    h: u8,
    access: u8,
    nonblock: bool,
) -> i64
    ensures { PortCallsWhere Nothing (option_map (λ access. opens h access nonblock) (access_of access))
        (device_in port.old) (device_in port.new) caller result }
{
    let Some(access) = access_of(access) else {
        return NO_FLAG;
    };
    let call = Call::Open {
        h,
        access,
        nonblock,
    };
    make_call(alloc, port, caller, &Detail::Nothing, &call)
}

/// Closes a handle (close(2)).
#[unsafe(no_mangle)]
pub extern "C" fn jw_port_close(alloc: Global, port: &mut Port, caller: usize, h: u8) -> i64
    ensures { PortCalls Nothing (device_in port.old) (device_in port.new) caller (closes h) result }
{
    make_call(alloc, port, caller, &Detail::Nothing, &Call::Close { h })
}

/// Reads into a place, 65,536 bytes at most, and answers how many (read(2)).
#[unsafe(no_mangle)]
pub extern "C" fn jw_port_read(
    alloc: Global,
    port: &mut Port,
    caller: usize,
    h: u8,
    place: &mut [u8],
) -> i64
    ensures calls { PortCalls Nothing (device_in port.old) (device_in port.new) caller
        (reads h (min (length place.old) MOST_ASKED)) result }
    ensures place { result ≢ no_memory
        → place.new
        ≡ place_after_call (device_in port.old) caller (reads h (min (length place.old) MOST_ASKED)) place.old }
    ensures kept { result ≡ no_memory → place.new ≡ place.old }
{
    let n = place.len().min(MOST_ASKED) as u32;
    make_read(alloc, port, caller, &Call::Read { h, n }, place)
}

/// Writes bytes, and answers how many were taken (write(2)).
#[unsafe(no_mangle)]
pub extern "C" fn jw_port_write(
    alloc: Global,
    port: &mut Port,
    caller: usize,
    h: u8,
    bytes: &[u8],
) -> i64
    ensures { PortCalls Nothing (device_in port.old) (device_in port.new) caller (writes h bytes.now) result }
{
    make_call(
        alloc,
        port,
        caller,
        &Detail::Nothing,
        &Call::Write { h, bytes },
    )
}

/// Makes the change of modes that a mode word asks for (tcsetattr(3)).
#[unsafe(no_mangle)]
pub extern "C" fn jw_port_set(
    alloc: Global,
    port: &mut Port,
    caller: usize,
    h: u8,
    when: u8,
    word: &[u8],
) -> i64
    ensures { PortCallsWhere Nothing (word_set h (when_of when) (word_of word.now)) (device_in port.old)
        (device_in port.new) caller result }
{
    let Some(when) = when_of(when) else {
        return NO_FLAG;
    };
    let Ok(word) = set_word_bytes(word) else {
        return NO_FLAG;
    };
    let words = [word];
    let call = Call::SetModes {
        h,
        when,
        words: &words,
    };
    make_call(alloc, port, caller, &Detail::Nothing, &call)
}

/// Whether a flag of the modes is set (tcgetattr(3)).
#[unsafe(no_mangle)]
pub extern "C" fn jw_port_flag(
    alloc: Global,
    port: &mut Port,
    caller: usize,
    h: u8,
    flag: u32,
) -> i64
    ensures { PortCalls (Flag flag) (device_in port.old) (device_in port.new) caller (gets_modes h) result }
{
    make_call(
        alloc,
        port,
        caller,
        &Detail::Flag(flag),
        &Call::GetModes { h },
    )
}

/// A control character of the modes (tcgetattr(3)).
#[unsafe(no_mangle)]
pub extern "C" fn jw_port_character(
    alloc: Global,
    port: &mut Port,
    caller: usize,
    h: u8,
    place: u8,
) -> i64
    ensures { PortCalls (Character place) (device_in port.old) (device_in port.new) caller (gets_modes h) result }
{
    let told = Detail::Character(place);
    make_call(alloc, port, caller, &told, &Call::GetModes { h })
}

/// The number of the line discipline (ioctl_tty(2), TIOCGETD).
#[unsafe(no_mangle)]
pub extern "C" fn jw_port_getd(alloc: Global, port: &mut Port, caller: usize, h: u8) -> i64
    ensures { PortCalls Nothing (device_in port.old) (device_in port.new) caller (gets_disc h) result }
{
    make_call(alloc, port, caller, &Detail::Nothing, &Call::GetDisc { h })
}

/// Changes the line discipline (ioctl_tty(2), TIOCSETD).
#[unsafe(no_mangle)]
pub extern "C" fn jw_port_setd(
    alloc: Global,
    port: &mut Port,
    caller: usize,
    h: u8,
    number: u32,
) -> i64
    ensures { PortCalls Nothing (device_in port.old) (device_in port.new) caller (sets_disc h number) result }
{
    make_call(
        alloc,
        port,
        caller,
        &Detail::Nothing,
        &Call::SetDisc { h, number },
    )
}

/// Drops what was not read or not sent (tcflush(3)).
#[unsafe(no_mangle)]
pub extern "C" fn jw_port_flush(
    alloc: Global,
    port: &mut Port,
    caller: usize,
    h: u8,
    queue: u8,
) -> i64
    ensures { PortCallsWhere Nothing (option_map (λ queue. flushes h queue) (queue_of queue)) (device_in port.old)
        (device_in port.new) caller result }
{
    let Some(queue) = queue_of(queue) else {
        return NO_FLAG;
    };
    make_call(
        alloc,
        port,
        caller,
        &Detail::Nothing,
        &Call::Flush { h, queue },
    )
}

/// Halts output or lets it go on, or tells the sender to (tcflow(3)).
#[unsafe(no_mangle)]
pub extern "C" fn jw_port_flow(alloc: Global, port: &mut Port, caller: usize, h: u8, act: u8) -> i64
    ensures { PortCallsWhere Nothing (option_map (λ act. steers h act) (act_of act)) (device_in port.old)
        (device_in port.new) caller result }
{
    let Some(act) = act_of(act) else {
        return NO_FLAG;
    };
    make_call(
        alloc,
        port,
        caller,
        &Detail::Nothing,
        &Call::Xonc { h, act },
    )
}

/// How many bytes can be read (ioctl_tty(2), FIONREAD).
#[unsafe(no_mangle)]
pub extern "C" fn jw_port_inq(alloc: Global, port: &mut Port, caller: usize, h: u8) -> i64
    ensures { PortCalls Nothing (device_in port.old) (device_in port.new) caller (counts_input h) result }
{
    make_call(alloc, port, caller, &Detail::Nothing, &Call::Inq { h })
}

/// How many bytes are held (ioctl_tty(2), TIOCOUTQ).
#[unsafe(no_mangle)]
pub extern "C" fn jw_port_outq(alloc: Global, port: &mut Port, caller: usize, h: u8) -> i64
    ensures { PortCalls Nothing (device_in port.old) (device_in port.new) caller (counts_output h) result }
{
    make_call(alloc, port, caller, &Detail::Nothing, &Call::Outq { h })
}

/// Lets nobody else open the port (ioctl_tty(2), TIOCEXCL).
#[unsafe(no_mangle)]
pub extern "C" fn jw_port_exclude(alloc: Global, port: &mut Port, caller: usize, h: u8) -> i64
    ensures { PortCalls Nothing (device_in port.old) (device_in port.new) caller (excludes h) result }
{
    make_call(alloc, port, caller, &Detail::Nothing, &Call::Excl { h })
}

/// Lets others open the port again (ioctl_tty(2), TIOCNXCL).
#[unsafe(no_mangle)]
pub extern "C" fn jw_port_admit(alloc: Global, port: &mut Port, caller: usize, h: u8) -> i64
    ensures { PortCalls Nothing (device_in port.old) (device_in port.new) caller (admits h) result }
{
    make_call(alloc, port, caller, &Detail::Nothing, &Call::Nxcl { h })
}

/// Waits until no output is held (tcdrain(3)).
#[unsafe(no_mangle)]
pub extern "C" fn jw_port_drain(alloc: Global, port: &mut Port, caller: usize, h: u8) -> i64
    ensures { PortCalls Nothing (device_in port.old) (device_in port.new) caller (drains h) result }
{
    make_call(alloc, port, caller, &Detail::Nothing, &Call::Drain { h })
}

/// One of the counts of a port.
#[unsafe(no_mangle)]
pub extern "C" fn jw_port_count(
    alloc: Global,
    port: &mut Port,
    caller: usize,
    h: u8,
    place: u8,
) -> i64
    ensures { PortCalls (Count place) (device_in port.old) (device_in port.new) caller (gets_counts h) result }
{
    make_call(
        alloc,
        port,
        caller,
        &Detail::Count(place),
        &Call::Counts { h },
    )
}

/// Hangs a port up (vhangup(2)).
#[unsafe(no_mangle)]
pub extern "C" fn jw_port_vhangup(alloc: Global, port: &mut Port, caller: usize, h: u8) -> i64
    ensures { PortCalls Nothing (device_in port.old) (device_in port.new) caller (hangs_up h) result }
{
    make_call(alloc, port, caller, &Detail::Nothing, &Call::Vhangup { h })
}

/// Sends a packet (RFC 1055).
#[unsafe(no_mangle)]
pub extern "C" fn jw_port_send(
    alloc: Global,
    port: &mut Port,
    caller: usize,
    h: u8,
    bytes: &[u8],
) -> i64
    ensures { PortCalls Nothing (device_in port.old) (device_in port.new) caller (sends_packet h bytes.now) result }
{
    let call = Call::SendPacket { h, bytes };
    make_call(alloc, port, caller, &Detail::Nothing, &call)
}

/// Takes the first packet that was received into a place, and answers how long it is (RFC 1055).
#[unsafe(no_mangle)]
pub extern "C" fn jw_port_take(
    alloc: Global,
    port: &mut Port,
    caller: usize,
    h: u8,
    place: &mut [u8],
) -> i64
    ensures calls { PortCalls Nothing (device_in port.old) (device_in port.new) caller (takes_packet h) result }
    ensures place { result ≢ no_memory
        → place.new ≡ place_after_call (device_in port.old) caller (takes_packet h) place.old }
    ensures kept { result ≡ no_memory → place.new ≡ place.old }
{
    make_read(alloc, port, caller, &Call::TakePacket { h }, place)
}
