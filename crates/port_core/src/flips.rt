//! The flip buffer of a port, as the port's calls use it.

ghost use Rattle.std.specs.Prelude.{◌≡◌, ◌+◌, ◌-◌, ◌*◌, ◌≤◌, ◌<◌};
ghost use Rattle.std.specs.Prelude.{[], ◌++◌, true, false, length, take};
ghost use Rattle.tty_base.specs.Sizes.{COLUMNS_OF_CHARACTER, COUNT_END, MOST_SENT, PIECE};
ghost use Rattle.tty_base.specs.Characters.{good_characters};
ghost use Rattle.tty_base.specs.declared.characters.Flagged.{Flagged};
ghost use Rattle.word_ring.specs.Ends.{AreReleased, NothingWaits, with_shown};
ghost use Rattle.flip_buffer.specs.Drops.{LooksAt, Releases};
ghost use Rattle.ldisc_switch.specs.Disciplines.{column_in};
ghost use Rattle.tty_terminal.specs.Receiving.{accepts, after_characters, AcceptsAll};
ghost use Rattle.tty_terminal.specs.Meeting.{room_for_characters};
ghost use Rattle.port_core.specs.Flips.{shown_count, TakesOut, DropsShown, after_meeting, MeetsTaker};
ghost use Rattle.port_core.specs.Given.{TakesGiven, with_put};

use arrayvec::ArrayVec;
use flip_buffer::{FlipIn, FlipOut};
use tty_base::{Chars, Flagged, Put};
use tty_terminal::Terminal;

/// Both ends are told what the other knows: all that was put is pushed, and both know it; and the
/// putter knows what was taken.
#[inline(always)]
pub(crate) fn tell_each_other(flip: &mut FlipOut, putter: &mut FlipIn)
    requires { putter.old.ring ≡ flip.old.ring }
    ensures flip { flip.new ≡ after_meeting flip.old putter.old }
    ensures meets { MeetsTaker flip.old putter.old putter.new }
{
    putter.meet(flip.note());
    flip.meet(putter.note());
}

/// How many characters one look shows; once the line is over, none past those that it sent.
#[inline(always)]
pub(crate) fn look_at(flip: &mut FlipOut, terminal: &Terminal) -> usize
    requires { terminal.now.terminal.taken ≡ length flip.old.taken }
    ensures same { flip.new ≡ with_shown flip.old flip.new.floor }
    ensures looks { LooksAt flip.old flip.new flip.new.floor }
    ensures count { result ≡ shown_count terminal.now.terminal flip.new.floor }
    ensures there { length flip.old.taken + result ≤ flip.new.floor }
{
    let count = flip.look();
    if terminal.line_is_over() {
        count.min(terminal.sent().saturating_sub(terminal.taken()) as usize)
    } else {
        count
    }
}

/// Hands over the characters that a look has shown, so many as far as the discipline accepts, lists
/// those that it received in room that was reserved, and takes them out all at once.
#[inline(always)]
pub(crate) fn hand_over(
    terminal: &mut Terminal,
    flip: &mut FlipOut,
    count: usize,
    chars: &mut Chars,
) -> usize
    requires few { count ≤ PIECE }
    requires looked { flip.old.peeked ≡ [] }
    requires empty { chars.old.items ≡ [] }
    requires spare { count ≤ chars.old.spare }
    requires there { length flip.old.taken + count ≤ flip.old.floor }
    requires taken { terminal.old.terminal.taken + count < MOST_SENT }
    requires wire { room_for_characters terminal.old.terminal count ≤ terminal.old.wire_room }
    requires signals { count ≤ terminal.old.signal_room }
    requires column { column_in terminal.old.terminal.disc + COLUMNS_OF_CHARACTER * count < COUNT_END }
    ensures takes_out { TakesOut flip.old flip.new chars.new.items }
    ensures took { result ≡ length chars.new.items }
    ensures within { length chars.new.items ≤ count }
    ensures received { terminal.new.terminal ≡ after_characters terminal.old.terminal chars.new.items }
    ensures accepted { AcceptsAll terminal.old.terminal chars.new.items }
    ensures stops { length chars.new.items < count → accepts terminal.new.terminal ≡ false }
    ensures column { column_in terminal.new.terminal.disc
        ≤ column_in terminal.old.terminal.disc + COLUMNS_OF_CHARACTER * count }
{
    flip.peek(count, chars);
    let received = receive_front(terminal, chars, count);
    flip.release(received);
    received
}

/// Hands over these characters, which are so many, as far as the discipline accepts, and keeps those.
#[inline(always)]
pub(crate) fn receive_front(terminal: &mut Terminal, chars: &mut Chars, count: usize) -> usize
    requires count { length chars.old.items ≡ count }
    requires taken { terminal.old.terminal.taken + count < MOST_SENT }
    requires wire { room_for_characters terminal.old.terminal count ≤ terminal.old.wire_room }
    requires signals { count ≤ terminal.old.signal_room }
    requires column { column_in terminal.old.terminal.disc + COLUMNS_OF_CHARACTER * count < COUNT_END }
    ensures front { chars.new.items ≡ take result chars.old.items }
    ensures within { result ≤ count }
    ensures received { terminal.new.terminal ≡ after_characters terminal.old.terminal (take result chars.old.items) }
    ensures accepted { AcceptsAll terminal.old.terminal (take result chars.old.items) }
    ensures stops { result < count → accepts terminal.new.terminal ≡ false }
    ensures column { column_in terminal.new.terminal.disc
        ≤ column_in terminal.old.terminal.disc + COLUMNS_OF_CHARACTER * count }
{
    let received = terminal.receive_all(chars.as_slice());
    keep_front(chars, count, received);
    received
}

/// Keeps the first `n` of so many characters. Mostly these are all.
#[inline(always)]
fn keep_front(chars: &mut Chars, count: usize, n: usize)
    requires { count ≡ length chars.old.items }
    ensures { chars.new.items ≡ take n chars.old.items }
{
    if n < count {
        chars.truncate(n);
    }
}

/// Takes out all that one look shows, and lists it in room that was reserved.
pub(crate) fn drop_shown(terminal: &Terminal, flip: &mut FlipOut, dropped: &mut Chars)
    requires taken { terminal.now.terminal.taken ≡ length flip.old.taken }
    requires within { terminal.now.terminal.sent ≤ terminal.now.terminal.taken + flip.old.capacity }
    requires empty { dropped.old.items ≡ [] }
    requires spare { flip.old.capacity ≤ dropped.old.spare }
    ensures { DropsShown terminal.now.terminal flip.old flip.new dropped.new.items }
{
    let most = if terminal.line_is_over() {
        terminal.sent().saturating_sub(terminal.taken()) as usize
    } else {
        flip.capacity()
    };
    flip.drop_all(most, dropped);
}

/// Takes over the putter, takes out all that it put, and lists it in room that was reserved.
pub(crate) fn drop_rest(flip: &mut FlipOut, putter: FlipIn, dropped: &mut Chars)
    requires ring { putter.ring ≡ flip.old.ring }
    requires within { length putter.sent ≤ length flip.old.taken + flip.old.capacity }
    requires empty { dropped.old.items ≡ [] }
    requires spare { flip.old.capacity ≤ dropped.old.spare }
    ensures taken { flip.new.taken ≡ flip.old.taken ++ dropped.new.items }
    ensures all { flip.new.taken ≡ putter.sent }
    ensures heads { AreReleased flip.old.released putter.heads }
    ensures released { Releases flip.old flip.new }
    ensures floor { flip.new.floor ≡ length putter.sent }
    ensures same { (flip.new.ring ≡ flip.old.ring) × (flip.new.capacity ≡ flip.old.capacity) × (flip.new.ended ≡ true) }
{
    flip.end(putter);
    flip.drop_all(flip.capacity(), dropped);
}

/// Puts the good characters of these bytes, where all that was put is known to be taken.
pub(crate) fn put_good(putter: &mut FlipIn, bytes: &[u8])
    requires few { length bytes.now ≤ PIECE }
    requires known { putter.old.floor ≡ length putter.old.sent }
    requires small { length putter.old.sent + length bytes.now ≤ MOST_SENT }
    ensures { putter.new ≡ with_put putter.old (good_characters bytes.now) }
{
    let _room = putter.capacity(); // known: its bound
    for byte in bytes {
        putter.put_known(Flagged::good(*byte));
    }
}

/// Puts the good characters of these bytes where nothing waits, takes the first of them, so many as were
/// received, and both ends meet. Mostly these are all.
#[inline(always)]
pub(crate) fn take_given(flip: &mut FlipOut, putter: &mut FlipIn, bytes: &[u8; 8], received: usize)
    requires ring { putter.old.ring ≡ flip.old.ring }
    requires clear { NothingWaits putter.old flip.old }
    requires small { length putter.old.sent + 8 ≤ MOST_SENT }
    requires within { received ≤ 8 }
    ensures { TakesGiven flip.old flip.new putter.old putter.new (good_characters bytes.now) received }
{
    let _room = flip.capacity(); // known: its bound
    if received == 8 {
        flip.pass(putter, bytes);
    } else {
        take_front(flip, putter, bytes, received);
    }
}

/// Does so where the discipline did not accept all.
#[inline(never)]
fn take_front(flip: &mut FlipOut, putter: &mut FlipIn, bytes: &[u8; 8], count: usize)
    requires ring { putter.old.ring ≡ flip.old.ring }
    requires clear { NothingWaits putter.old flip.old }
    requires small { length putter.old.sent + 8 ≤ MOST_SENT }
    requires within { count ≤ 8 }
    ensures { TakesGiven flip.old flip.new putter.old putter.new (good_characters bytes.now) count }
{
    put_good(putter, bytes);
    let note = putter.note();
    flip.meet(note);
    let mut front = ArrayVec::new();
    flip.take(count, &mut front);
    tell_each_other(flip, putter);
}
