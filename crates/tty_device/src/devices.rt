//! The port itself.

ghost use Rattle.std.specs.Prelude.{◌≡◌, ◌≤◌, ◌<◌, ◌^◌, [], length, take, IfSome, IfOk, OnOk, OnErr};
ghost use Rattle.tty_base.specs.Sizes.{COUNT_END, MOST_HANDLES, NUMBER_END};
ghost use Rattle.tty_calls.specs.Plain.{call_of, handle_of};
ghost use Rattle.ldisc_switch.specs.Disciplines.{column_in};
ghost use Rattle.tty_terminal.specs.Meeting.{Meets, drops_of, room_for_characters};
ghost use Rattle.tty_terminal.specs.Calls.{outcome};
ghost use Rattle.tty_terminal.specs.Steps.{left_by, with_caller};
ghost use Rattle.tty_terminal.specs.Terminals.{idle_caller};
ghost use Rattle.tty_device.specs.Askers.{state_of};
ghost use Rattle.tty_device.specs.Acts.{settled, verbs_after, DropsOut, FlushesLook};
ghost use Rattle.tty_device.specs.Kept.{chars_of, dropped_of};
ghost use Rattle.tty_device.specs.Devices.{MOST_FLUSHED, DeviceState, fresh_device, fresh_whole};
ghost use Rattle.tty_device.specs.Devices.{caller_waiting, outcome_for};
ghost use Rattle.tty_device.specs.Devices.{after_call, after_cancel, DropsShown, DropsWhere, with_taken_of};
ghost use Rattle.tty_device.specs.Devices.{after_hang_up};
ghost use Rattle.tty_device.specs.Devices.{is_stuck, FlushesWhere, TakesInWhere, after_advance, wire_of, taken_count};
ghost use Rattle.tty_device.specs.Devices.{at_front, without_wire_front, first_signal, without_first_signal};
ghost use Rattle.tty_device.specs.Lines.{buffer_size, fresh_line};

use crate::askers::{Asker, IDLE, Verbs, asker_for, verb_of};
use crate::intake::{hand_in, put_and_push};
use crate::lines::Line;
use crate::places::{make_room, put_front};
use crate::taken::{Fate, TakenChars};
use flip_buffer::{FlipOut, flip};
use flow_control::Signals;
use ldisc_switch::{Kind, fresh};
use std::alloc::Global;
use std::marker::Model;
use tty_base::sizes::{LEAST_FLIP, MOST_FLIP, MOST_HANDLES};
use tty_base::{Bytes, Chars, Errno, Flag, NoMemory, Signal};
use tty_calls::{Answer, Call};
use tty_terminal::{CallerState, Met, ROOM_FOR_CALL, Terminal};

/// How many characters one flush takes at most.
pub(crate) const MOST_FLUSHED: usize = 256;

/// A port that runs for ever: a terminal with its handles, both line disciplines and the end of the flip buffer that
/// takes out.
///
/// No method has a condition. One that finds no memory leaves the port as it was, and no number of calls, bytes,
/// changes or hangups ends it. A call that must wait is asked again by the same caller; another call of that caller
/// gives it up.
#[derive(Drop)]
pub struct Device {
    pub(crate) terminal: Terminal,
    verbs: Verbs,
    pub(crate) flip: FlipOut,
    pub(crate) taken: TakenChars,
    pub(crate) dropped: u64,
    /// The end that puts in, where the port has it: it is that of `flip`.
    line: Option<Line>,
    alloc: Global,
    chars: Chars,
    bytes: Bytes,
    signals: Signals,
}

impl Model for Device {
    ghost use Rattle.tty_device.specs.Devices.{DeviceState};

    ghost Value = { DeviceState };

    ghost use Rattle.tty_device.specs.Inside.{device_of, IsSound};

    ghost view = { device_of };

    ghost invariant = { IsSound };
}

impl Device {
    /// A closed port for so many callers, with the default modes, and the end that puts characters into its flip
    /// buffer, which holds `capacity` of them: 64 at least, and 65,536 at most.
    pub fn new(alloc: Global, callers: usize, capacity: usize) -> Result<(Device, Line), NoMemory>
        ensures device { IfOk result (λ made. made.0 ≡ fresh_device made.0.ring callers (buffer_size capacity)) }
        ensures line { IfOk result (λ made. made.1 ≡ fresh_line made.0.ring (buffer_size capacity)) }
    {
        let capacity = capacity.min(MOST_FLIP).max(LEAST_FLIP);
        let (input, output) = flip(alloc, capacity)?;
        let device = Device {
            terminal: Terminal::new(alloc, callers, capacity as u32)?,
            verbs: Verbs::new(alloc, callers)?,
            flip: output,
            taken: TakenChars::new(),
            dropped: 0,
            line: None,
            alloc,
            chars: Chars::new(alloc),
            bytes: Bytes::new(alloc),
            signals: Signals::new(alloc),
        };
        Ok((device, Line::new(input)))
    }

    /// A closed port as of `new`, which has the end that puts characters in: `take_in` gives bytes to it.
    pub fn whole(alloc: Global, callers: usize, capacity: usize) -> Result<Device, NoMemory>
        ensures { IfOk result (λ device. device ≡ fresh_whole device.ring callers (buffer_size capacity)) }
    {
        let (mut device, line) = Device::new(alloc, callers, capacity)?;
        device.line = Some(line);
        Ok(device)
    }

    // ---- calls

    /// Makes a call of a caller: it is answered, takes a part of a write, or must wait. An answer drops what waits in
    /// the flip buffer where the call is for that. EINVAL is answered to a caller that the port has not, and EBADF
    /// for a handle's number from 32 on.
    pub fn call(&mut self, caller: usize, call: &Call) -> Result<Met, NoMemory>
        ensures met { IfOk result (λ met. Meets (outcome_for self.old caller (call_of call.now)) met) }
        ensures after { OnOk result
            (self.new ≡ with_taken_of self.new (after_call self.old caller (call_of call.now))) }
        ensures drops { OnOk result
            (DropsWhere (drops_of (outcome_for self.old caller (call_of call.now))) self.old self.new) }
        ensures err { OnErr result (self.new ≡ self.old) }
    {
        if caller >= self.terminal.callers() {
            return Ok(Met::Gives(Answer::Refused(Errno::EINVAL)));
        }
        if call.handle() >= MOST_HANDLES {
            return Ok(Met::Gives(Answer::Refused(Errno::EBADF)));
        }
        let verb = self.verbs.get(caller);
        let asker = asker_for(&self.terminal.standing(caller), verb, call);
        let mut dropped = Chars::new(self.alloc);
        let drops = drops(&self.terminal, &asker, call);
        if drops {
            dropped.reserve(self.flip.capacity())?;
        }
        let met = meet(&mut self.terminal, self.alloc, &asker, call)?;
        settle(
            &mut self.terminal,
            &mut self.verbs,
            caller,
            &asker,
            call,
            &met,
        );
        if drops {
            drop_shown(
                &mut self.flip,
                &mut self.taken,
                &mut self.dropped,
                &mut dropped,
            );
        }
        Ok(met)
    }

    /// Gives up a call that waits.
    pub fn cancel(&mut self, caller: usize)
        ensures { self.new ≡ after_cancel self.old caller }
    {
        if caller < self.terminal.callers() {
            self.terminal.stand(caller, IDLE);
        }
    }

    /// Hangs the port up, as vhangup(2) does, and drops what waits in the flip buffer.
    pub fn hang_up(&mut self) -> Result<(), NoMemory>
        ensures after { OnOk result (self.new ≡ with_taken_of self.new (after_hang_up self.old)) }
        ensures drops { OnOk result (DropsShown self.old self.new) }
        ensures err { OnErr result (self.new ≡ self.old) }
    {
        let mut dropped = Chars::new(self.alloc);
        dropped.reserve(self.flip.capacity())?;
        let fresh = fresh(self.alloc, Kind::Tty)?;
        self.terminal.hang_up(fresh);
        self.terminal.forget();
        drop_shown(
            &mut self.flip,
            &mut self.taken,
            &mut self.dropped,
            &mut dropped,
        );
        Ok(())
    }

    // ---- characters

    /// Whether no character can be flushed: no handle is live, or the discipline does not accept.
    pub fn is_stuck(&self) -> bool
        ensures { result ≡ is_stuck self.now }
    {
        self.terminal.live() == 0 || !self.terminal.accepts()
    }

    /// Hands characters over to the discipline, `most` at most and 256 at most, as long as it accepts. Answers how
    /// many.
    pub fn flush(&mut self, most: usize) -> Result<usize, NoMemory>
        ensures flushes { IfOk result (λ count. FlushesWhere (is_stuck self.old) self.old self.new most count) }
        ensures err { OnErr result (self.new ≡ self.old) }
    {
        if self.is_stuck() {
            return Ok(0);
        }
        let most = most.min(MOST_FLUSHED);
        let room = self.terminal.room_for_characters(most);
        self.terminal.reserve(room, most)?;
        self.chars.truncate(0);
        self.chars.reserve(most)?;
        let count = hand_over(&mut self.terminal, &mut self.flip, &mut self.chars, most);
        self.taken.note(&self.chars, Fate { dropped: false });
        Ok(count)
    }

    /// Puts bytes, each with this flag, into the end that the port has, and flushes 256 characters at most, all in one:
    /// where nothing waits, up to 256 good ones go past the flip buffer's memory. Answers how many were put, as
    /// `Line::put` does; and `None`, changing nothing, where the port has no such end.
    pub fn take_in(&mut self, bytes: &[u8], flag: Flag) -> Result<Option<usize>, NoMemory>
        ensures takes { IfOk result (λ answer. TakesInWhere self.old.line self.old self.new flag bytes.now answer) }
        ensures within { IfOk result (λ answer. IfSome answer (λ count. count ≤ length bytes.now)) }
        ensures err { OnErr result (self.new ≡ self.old) }
    {
        let stuck = self.is_stuck();
        let Some(line) = &mut self.line else {
            return Ok(None);
        };
        if stuck {
            return Ok(Some(put_and_push(line, bytes, flag)));
        }
        let room = self.terminal.room_for_characters(MOST_FLUSHED);
        self.terminal.reserve(room, MOST_FLUSHED)?;
        self.chars.truncate(0);
        self.chars.reserve(MOST_FLUSHED)?;
        let count = hand_in(
            &mut self.terminal,
            &mut self.flip,
            line,
            &mut self.chars,
            bytes,
            flag,
        );
        self.taken.note(&self.chars, Fate { dropped: false });
        Ok(Some(count))
    }

    /// Sets the clock, which counts tenths of a second. A tick that is past changes nothing.
    pub fn advance(&mut self, tick: u64)
        ensures { self.new ≡ after_advance self.old tick }
    {
        self.terminal.set_clock(tick);
    }

    // ---- what went out

    /// Takes the first bytes that went to the wire into a place, as many as are there and as it holds. Answers how
    /// many.
    pub fn take_wire(&mut self, place: &mut [u8]) -> Result<usize, NoMemory>
        ensures count { IfOk result (λ count. count ≡ taken_count self.old place.old) }
        ensures place { IfOk result (λ count. place.new ≡ at_front place.old (take count (wire_of self.old))) }
        ensures after { IfOk result (λ count. self.new ≡ without_wire_front count self.old) }
        ensures err { OnErr result ((self.new ≡ self.old) × (place.new ≡ place.old)) }
    {
        let count = place.len().min(self.terminal.wire().len());
        make_room(&mut self.bytes, self.alloc, count)?;
        self.terminal.take_wire(count, &mut self.bytes);
        put_front(place, self.bytes.as_slice());
        Ok(count)
    }

    /// Takes the first signal that was raised; `None` where there is none.
    pub fn take_signal(&mut self) -> Result<Option<Signal>, NoMemory>
        ensures signal { IfOk result (λ signal. signal ≡ first_signal self.old) }
        ensures after { OnOk result (self.new ≡ without_first_signal self.old) }
        ensures err { OnErr result (self.new ≡ self.old) }
    {
        let Some(signal) = self.terminal.first_signal() else {
            return Ok(None);
        };
        make_room(&mut self.signals, self.alloc, 1)?;
        self.terminal.take_signal(&mut self.signals);
        Ok(Some(signal))
    }
}

/// Whether what waits in the flip buffer is dropped with the answer to a call.
fn drops(terminal: &Terminal, asker: &Asker, call: &Call) -> bool
    ensures { result ≡ drops_of (outcome terminal.now.terminal (state_of asker.now) (call_of call.now)) }
{
    terminal.drops_from(&asker.state(), call)
}

/// Makes a call. Without memory nothing changes.
fn meet(terminal: &mut Terminal, alloc: Global, asker: &Asker, call: &Call) -> Result<Met, NoMemory>
    requires number { handle_of (call_of call.now) < MOST_HANDLES }
    requires few { terminal.old.terminal.generation < NUMBER_END }
    requires column { column_in terminal.old.terminal.disc < COUNT_END }
    ensures met { IfOk result
        (λ met. Meets (outcome terminal.old.terminal (state_of asker.now) (call_of call.now)) met) }
    ensures left { OnOk result (terminal.new.terminal
        ≡ left_by (outcome terminal.old.terminal (state_of asker.now) (call_of call.now)) terminal.old.terminal) }
    ensures err { OnErr result (terminal.new.terminal ≡ terminal.old.terminal) }
{
    terminal.reserve(ROOM_FOR_CALL, 0)?;
    let room = terminal.make_room(alloc, call)?;
    Ok(terminal.meet_from(&asker.state(), call, room))
}

/// Where a caller stands whose call on the handle `h` waits.
fn waiting(terminal: &Terminal, asker: &Asker, h: u8) -> CallerState
    ensures { result ≡ caller_waiting terminal.now.terminal (state_of asker.now) h }
{
    let state = asker.state();
    if state.waits.is_some() {
        return state;
    }
    CallerState {
        waits: Some(terminal.tick()),
        bound: terminal.bound_at(&state, h),
        ..state
    }
}

/// A caller makes no call. Mostly none of it was under way, and there is nothing to change.
fn rest(terminal: &mut Terminal, caller: usize)
    requires known { caller < length terminal.old.terminal.callers }
    ensures { terminal.new ≡ record terminal.old { terminal = with_caller terminal.old.terminal caller idle_caller } }
{
    if terminal.standing(caller) != IDLE {
        terminal.stand(caller, IDLE);
    }
}

/// Notes of a caller whether its call is over, or waits.
fn settle(
    terminal: &mut Terminal,
    verbs: &mut Verbs,
    caller: usize,
    asker: &Asker,
    call: &Call,
    met: &Met,
)
    requires known { caller < length terminal.old.terminal.callers }
    requires verbs { length verbs.old ≡ length terminal.old.terminal.callers }
    ensures terminal { terminal.new
        ≡ record terminal.old { terminal = settled terminal.old.terminal caller asker.now (call_of call.now) met.now } }
    ensures verbs { verbs.new ≡ verbs_after verbs.old caller (call_of call.now) met.now }
{
    match met {
        Met::Waits => {
            let state = waiting(terminal, asker, call.handle());
            terminal.stand(caller, state);
            verbs.set(caller, verb_of(call));
        }
        _ => rest(terminal, caller),
    }
    terminal.forget();
}

/// Drops what one look shows, by way of a list that has room for all.
fn drop_shown(flip: &mut FlipOut, taken: &mut TakenChars, count: &mut u64, chars: &mut Chars)
    requires empty { chars.old.items ≡ [] }
    requires room { flip.old.capacity ≤ chars.old.spare }
    requires noted { chars_of taken.old.items ≡ flip.old.taken }
    requires counted { count.old ≡ length (dropped_of taken.old.items) }
    ensures drops { DropsOut flip.old flip.new taken.old.items taken.new.items }
    ensures counted { count.new ≡ length (dropped_of taken.new.items) }
{
    let capacity = flip.capacity();
    let shown = flip.drop_all(capacity, chars);
    let _most = flip.taken(); // known: its bound
    taken.note(chars, Fate { dropped: true });
    *count += shown as u64;
}

/// Hands over what one look shows, in room that was reserved.
pub(crate) fn hand_over(
    terminal: &mut Terminal,
    flip: &mut FlipOut,
    chars: &mut Chars,
    most: usize,
) -> usize
    requires few { most ≤ MOST_FLUSHED }
    requires empty { chars.old.items ≡ [] }
    requires spare { most ≤ chars.old.spare }
    requires wire { room_for_characters terminal.old.terminal most ≤ terminal.old.wire_room }
    requires signals { most ≤ terminal.old.signal_room }
    requires uncounted { terminal.old.terminal.taken ≡ 0 }
    requires column { column_in terminal.old.terminal.disc < 2 ^ 32 }
    ensures { FlushesLook terminal.old.terminal terminal.new.terminal flip.old flip.new chars.new.items most result }
{
    let count = flip.look().min(most);
    flip.peek(count, chars);
    let received = terminal.receive_all(chars.as_slice());
    flip.release(received);
    chars.truncate(received);
    terminal.forget();
    received
}
