//! Bytes that are put and handed over in one call, where both ends of the flip buffer are at hand. Where nothing waits
//! in it, good ones go past its memory.

ghost use Rattle.std.specs.Prelude.{◌≡◌, ◌<◌, ◌≤◌, ◌+◌, ◌-◌, ◌^◌, max, [], ◌++◌, length, take, false, IsTrue};
ghost use Rattle.tty_base.specs.Sizes.{MOST_SENT};
ghost use Rattle.tty_base.specs.Characters.{good_characters};
ghost use Rattle.tty_base.specs.declared.characters.Flag.TheVariants.{Normal};
ghost use Rattle.ldisc_switch.specs.Disciplines.{column_in};
ghost use Rattle.tty_terminal.specs.Kept.{kept};
ghost use Rattle.tty_terminal.specs.Meeting.{room_for_characters};
ghost use Rattle.tty_terminal.specs.Receiving.{accepts, after_characters, AcceptsAll};
ghost use Rattle.tty_device.specs.Devices.{MOST_FLUSHED};
ghost use Rattle.tty_device.specs.Acts.{PassesBytes, HandsIn, IsClear};
ghost use Rattle.tty_device.specs.Lines.{PutsAndPushes};

use crate::devices::{MOST_FLUSHED, hand_over};
use crate::lines::Line;
use flip_buffer::{FlipIn, FlipOut};
use tty_base::sizes::MOST_SENT;
use tty_base::{Chars, Flag, front_of, rest_of};
use tty_terminal::Terminal;

/// Puts bytes, each with this flag, as far as there is room, and makes them visible to the other end.
pub(crate) fn put_and_push(line: &mut Line, bytes: &[u8], flag: Flag) -> usize
    ensures { PutsAndPushes line.old line.new flag bytes.now result }
{
    let count = line.put(bytes, flag);
    line.push();
    count
}

/// Puts bytes, each with this flag, as far as there is room, and hands over what waits then, in room that was reserved.
pub(crate) fn hand_in(
    terminal: &mut Terminal,
    flip: &mut FlipOut,
    line: &mut Line,
    chars: &mut Chars,
    bytes: &[u8],
    flag: Flag,
) -> usize
    requires ring { line.old.ring ≡ flip.old.ring }
    requires empty { chars.old.items ≡ [] }
    requires spare { MOST_FLUSHED ≤ chars.old.spare }
    requires wire { room_for_characters terminal.old.terminal MOST_FLUSHED ≤ terminal.old.wire_room }
    requires signals { MOST_FLUSHED ≤ terminal.old.signal_room }
    requires uncounted { terminal.old.terminal.taken ≡ 0 }
    requires column { column_in terminal.old.terminal.disc < 2 ^ 32 }
    ensures { HandsIn terminal.old.terminal terminal.new.terminal flip.old flip.new
        line.old line.new chars.new.items flag bytes.now result }
{
    line.waiting();
    if is_short_run(bytes, flag) && is_clear(flip, &line.input, bytes.len()) {
        let _most = line.overruns(); // known: its bound
        let received = receive_good(terminal, chars, bytes);
        give(flip, &mut line.input, bytes, received);
        return bytes.len();
    }
    let count = line.put(bytes, flag);
    tell(flip, line);
    hand_over(terminal, flip, chars, MOST_FLUSHED);
    count
}

/// Whether these are good characters, and no more than one flush takes.
fn is_short_run(bytes: &[u8], flag: Flag) -> bool
    ensures few { IsTrue result → length bytes.now ≤ MOST_FLUSHED }
    ensures good { IsTrue result → flag ≡ Normal }
{
    bytes.len() <= MOST_FLUSHED && flag == Flag::Normal
}

/// Whether nothing waits, and there is room for so many.
fn is_clear(flip: &FlipOut, input: &FlipIn, more: usize) -> bool
    requires few { more ≤ MOST_FLUSHED }
    requires ring { input.now.ring ≡ flip.now.ring }
    ensures { IsTrue result → IsClear flip.now input.now more }
{
    has_room(flip, input, more) && flip.nothing_waits(input)
}

/// Whether both ends have room for so many.
fn has_room(flip: &FlipOut, input: &FlipIn, more: usize) -> bool
    requires few { more ≤ MOST_FLUSHED }
    ensures passes { IsTrue result → more ≤ flip.now.capacity }
    ensures fits { IsTrue result → more ≤ input.now.capacity }
    ensures small { IsTrue result → length input.now.sent + more ≤ MOST_SENT }
{
    more <= flip.capacity() && more <= input.capacity() && input.sent() <= MOST_SENT - more as u64
}

/// Hands over the good characters of these bytes as far as the discipline accepts, in room that was reserved, and
/// keeps those. Answers how many.
fn receive_good(terminal: &mut Terminal, chars: &mut Chars, bytes: &[u8]) -> usize
    requires few { length bytes.now ≤ MOST_FLUSHED }
    requires empty { chars.old.items ≡ [] }
    requires spare { MOST_FLUSHED ≤ chars.old.spare }
    requires wire { room_for_characters terminal.old.terminal MOST_FLUSHED ≤ terminal.old.wire_room }
    requires signals { MOST_FLUSHED ≤ terminal.old.signal_room }
    requires uncounted { terminal.old.terminal.taken ≡ 0 }
    requires column { column_in terminal.old.terminal.disc < 2 ^ 32 }
    ensures within { result ≤ length bytes.now }
    ensures chars { chars.new.items ≡ take result (good_characters bytes.now) }
    ensures accepted { AcceptsAll terminal.old.terminal chars.new.items }
    ensures left { terminal.new.terminal ≡ kept (after_characters terminal.old.terminal chars.new.items) }
    ensures stops { result < length bytes.now → accepts terminal.new.terminal ≡ false }
{
    chars.add_good(bytes);
    let received = terminal.receive_all(chars.as_slice());
    chars.truncate(received);
    terminal.forget();
    received
}

/// Passes the first so many of these bytes, and puts the others for a later flush.
fn give(flip: &mut FlipOut, input: &mut FlipIn, bytes: &[u8], count: usize)
    requires clear { IsClear flip.old input.old (length bytes.now) }
    requires within { count ≤ length bytes.now }
    ensures { PassesBytes flip.old flip.new input.old input.new bytes.now count }
{
    flip.pass(input, front_of(bytes, count));
    if count < bytes.len() {
        keep(flip, input, rest_of(bytes, count));
    }
}

/// Puts good characters, and shows them.
#[inline(never)]
fn keep(flip: &mut FlipOut, input: &mut FlipIn, bytes: &[u8])
    requires ring { input.old.ring ≡ flip.old.ring }
    requires room { length input.old.sent + length bytes.now ≤ input.old.floor + input.old.capacity }
    requires small { length input.old.sent + length bytes.now ≤ MOST_SENT }
    ensures input { input.new
        ≡ record input.old {
          sent = input.old.sent ++ good_characters bytes.now;
          pushed = input.old.sent ++ good_characters bytes.now;
        } }
    ensures flip { flip.new
        ≡ record flip.old { peeked = []; floor = max flip.old.floor (length input.old.sent + length bytes.now) } }
{
    input.put_run(bytes, Flag::Normal);
    flip.meet(input.note());
}

/// The other end is told of all that was put.
fn tell(flip: &mut FlipOut, line: &mut Line)
    requires { line.old.ring ≡ flip.old.ring }
    ensures flip { flip.new ≡ record flip.old { peeked = []; floor = max flip.old.floor (length line.old.sent) } }
    ensures line { line.new ≡ record line.old { pushed = line.old.sent } }
{
    flip.meet(line.input.note());
}
