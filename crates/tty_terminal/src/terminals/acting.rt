//! What each call does.

ghost use Rattle.std.specs.Prelude.{◌≡◌, [], ◌∷◌, IfErr, OnOk, Option, Some, None, true, false, ◌==◌, ◌+◌, ◌-◌};
ghost use Rattle.std.specs.Prelude.{◌*◌, ◌≤◌, ◌<◌, ◌^◌, min, length, drop, option_map, box_value, if◌then◌else◌};
ghost use Rattle.tty_base.specs.Sizes.{COLUMNS_OF_PIECE, COUNT_END, MOST_HANDLES, MOST_HELD, MOST_POSTED, NUMBER_END};
ghost use Rattle.tty_base.specs.Sizes.{PIECE};
ghost use Rattle.tty_calls.specs.Plain.{call_of, answer_of, counts_are};
ghost use Rattle.tty_modes.specs.Word.{after_words};
ghost use Rattle.flow_control.specs.Output.{on_wire};
ghost use Rattle.ldisc_switch.specs.Disciplines.{fresh_of, kind_of_number, column_in, Fits};
ghost use Rattle.ldisc_switch.specs.Happenings.{mode_change, after_one};
ghost use Rattle.tty_terminal.specs.Meeting.{fresh_in, spelled_unless_long};
ghost use Rattle.tty_terminal.specs.Transfers.{has_parts};
ghost use Rattle.tty_terminal.specs.Terminals.{Terminal as PlainTerminal};
ghost use Rattle.tty_terminal.specs.Outcomes.{Outcome, refuses, on_live, may_read as reads_by, may_write as writes_by};

use super::Terminal;
use crate::callers::CallerState;
use crate::rooms::{Met, Room};
use flow_control::Wire;
use handle_table::HandleState;
use ldisc_switch::{Disc, Kind};
use slip_frames::MAX_PACKET;
use tty_base::{Bytes, Counts, Errno};
use tty_calls::{Access, Act, Answer, Call, Queue, When};
use tty_modes::places::{IXON, VSTART, VSTOP};
use tty_modes::{Modes, Word};

fn refuse(errno: Errno) -> Met
    ensures { result ≡ Met.Gives (Answer.Refused errno) }
{
    Met::Gives(Answer::Refused(errno))
}

/// Whether a handle is there, and live; or why a call that any live handle serves is refused.
#[inline(always)]
fn live(handle: Option<HandleState>) -> Result<(), Errno>
    ensures ok { OnOk result ((t : PlainTerminal) (live : Outcome) → on_live t handle live ≡ live) }
    ensures err { IfErr result (λ errno. (t : PlainTerminal) (live : Outcome) → on_live t handle live ≡ refuses errno t) }
{
    match handle {
        None => Err(Errno::EBADF),
        Some(handle) if !handle.live => Err(Errno::EIO),
        Some(_) => Ok(()),
    }
}

pub(super) fn may_read(access: Access) -> bool
    ensures { result ≡ reads_by access }
{
    access != Access::W
}

pub(super) fn may_write(access: Access) -> bool
    ensures { result ≡ writes_by access }
{
    access != Access::R
}

/// The bytes after the first.
pub(super) fn rest_of(bytes: &[u8], count: u32) -> &[u8]
    ensures { result.now ≡ drop count bytes.now }
{
    &bytes[bytes.len().min(count as usize)..]
}

/// The modes after these words.
fn modes_after(modes: &Modes, words: &[Word]) -> Modes
    ensures { result ≡ after_words modes.now words.now }
{
    let mut modes = *modes;
    modes.apply_all(words);
    modes
}

impl Terminal {
    ghost use Rattle.tty_terminal.specs.Terminals.{handle_at, handle_for};
    ghost use Rattle.tty_terminal.specs.Outcomes.{does, tells, on_access, may_read, may_write};
    ghost use Rattle.tty_terminal.specs.Opening.{opening_outcome, closing_outcome};
    ghost use Rattle.tty_terminal.specs.Transfers.{reading_outcome, writing_outcome, write_outcome};
    ghost use Rattle.tty_terminal.specs.Modes.{modes_outcome, drain_outcome, with_modes, without_input};
    ghost use Rattle.tty_terminal.specs.Switching.{number_of, change_outcome, hangup_outcome};
    ghost use Rattle.tty_terminal.specs.Flow.{flush_outcome, after_act};
    ghost use Rattle.tty_terminal.specs.Packets.{sending_outcome, taking_outcome};
    ghost use Rattle.tty_terminal.specs.Meeting.{Meets, left_before_rule, read_room, packet_room};
    ghost use Rattle.tty_terminal.specs.Meeting.{close_kind, CanAct, Acts, group_of};

    /// The handle that a call goes by where its caller stands so.
    pub(super) fn handle_for(&self, state: &CallerState, h: u8) -> Option<HandleState>
        ensures { result ≡ handle_for self.now.terminal state.now h }
    {
        match state.bound {
            Some(bound) => bound.handle,
            None => self.handles.state(h),
        }
    }

    fn open(&mut self, h: u8, access: Access, nonblock: bool) -> Met
        requires { h < MOST_HANDLES }
        ensures met { Meets (opening_outcome self.old.terminal h access nonblock) result }
        ensures left { self.new.terminal
            ≡ left_before_rule (opening_outcome self.old.terminal h access nonblock) self.old.terminal }
        ensures wire { self.new.wire_room ≡ self.old.wire_room }
        ensures disc { self.new.terminal.disc ≡ self.old.terminal.disc }
    {
        if self.handles.state(h).is_some() {
            return refuse(Errno::EEXIST);
        }
        if self.exclusive {
            return refuse(Errno::EBUSY);
        }
        let _free = self.handles.admit(h, access, nonblock);
        Met::Gives(Answer::Done)
    }

    #[inline(never)]
    fn close(&mut self, h: u8, room: &mut Room) -> Met
        requires fresh { fresh_in room.old
            ≡ option_map fresh_of (close_kind self.old.terminal (handle_at self.old.terminal h)) }
        requires few { self.old.terminal.generation < NUMBER_END }
        requires wire { MOST_HELD ≤ self.old.wire_room }
        ensures met { Meets (closing_outcome self.old.terminal h (handle_at self.old.terminal h)) result }
        ensures left { self.new.terminal
            ≡ left_before_rule (closing_outcome self.old.terminal h (handle_at self.old.terminal h)) self.old.terminal }
        ensures wire { self.old.wire_room ≤ self.new.wire_room + MOST_HELD }
        ensures column { column_in self.new.terminal.disc ≤ column_in self.old.terminal.disc + COLUMNS_OF_PIECE }
    {
        if !self.handles.remove(h) {
            return refuse(Errno::EBADF);
        }
        self.callers.close(h);
        if let Some(fresh) = room.take_fresh() {
            let _held = self.wire.held(); // known: its bound
            install(&mut self.disc, fresh);
            self.wire.release();
            self.exclusive = false;
            self.generation += 1;
        }
        Met::Gives(Answer::Done)
    }

    fn read(
        &mut self,
        state: &CallerState,
        handle: Option<HandleState>,
        n: u32,
        mut room: Bytes,
    ) -> Met
        requires empty { room.items ≡ [] }
        requires fits { read_room self.old.terminal n self.old.terminal.disc ≤ room.spare }
        ensures met { Meets (reading_outcome self.old.terminal state.now n handle) result }
        ensures left { self.new.terminal
            ≡ left_before_rule (reading_outcome self.old.terminal state.now n handle) self.old.terminal }
        ensures wire { self.new.wire_room ≡ self.old.wire_room }
        ensures column { column_in self.new.terminal.disc ≡ column_in self.old.terminal.disc }
    {
        let Some(handle) = handle else {
            return refuse(Errno::EBADF);
        };
        if !may_read(handle.access) {
            return refuse(Errno::EBADF);
        }
        if !handle.live {
            return Met::Gives(Answer::Got(room.into_vec()));
        }
        let since = state.waits.unwrap_or(self.tick);
        match &mut self.disc {
            Disc::Slip(_) => refuse(Errno::EIO),
            Disc::Tty(tty) => {
                if tty.ready(n, &self.modes, handle.nonblock, since, self.tick) {
                    let _count = tty.read(n, &self.modes, &mut room);
                    Met::Gives(Answer::Got(room.into_vec()))
                } else if handle.nonblock {
                    refuse(Errno::EAGAIN)
                } else {
                    Met::Waits
                }
            }
        }
    }

    #[inline(always)]
    fn write(&mut self, state: &CallerState, handle: Option<HandleState>, bytes: &[u8]) -> Met
        requires short { state.now.taken + min PIECE (length bytes.now - state.now.taken) < 2 ^ 32 }
        requires wire { MOST_POSTED ≤ self.old.wire_room }
        requires column { column_in self.old.terminal.disc < COUNT_END }
        ensures met { Meets (writing_outcome self.old.terminal state.now bytes.now handle) result }
        ensures left { self.new.terminal
            ≡ left_before_rule (writing_outcome self.old.terminal state.now bytes.now handle) self.old.terminal }
        ensures wire { self.old.wire_room ≤ self.new.wire_room + MOST_POSTED }
        ensures column { column_in self.new.terminal.disc ≤ column_in self.old.terminal.disc + COLUMNS_OF_PIECE }
    {
        let Some(handle) = handle else {
            return refuse_write(state, Errno::EBADF);
        };
        if !may_write(handle.access) {
            return refuse_write(state, Errno::EBADF);
        }
        if !handle.live {
            return refuse_write(state, Errno::EIO);
        }
        if self.is_outlived(state) {
            return Met::Gives(Answer::Count(state.taken));
        }
        self.write_rest(state, handle.nonblock, rest_of(bytes, state.taken))
    }

    /// Writes the bytes that are left of a write that nothing refuses, as far as they fit.
    fn write_rest(&mut self, state: &CallerState, nonblock: bool, rest: &[u8]) -> Met
        requires short { state.now.taken + min PIECE (length rest.now) < 2 ^ 32 }
        requires wire { MOST_POSTED ≤ self.old.wire_room }
        requires column { column_in self.old.terminal.disc < COUNT_END }
        ensures met { Meets (write_outcome self.old.terminal state.now nonblock rest.now self.old.terminal.disc)
            result }
        ensures left { self.new.terminal
            ≡ left_before_rule (write_outcome self.old.terminal state.now nonblock rest.now self.old.terminal.disc)
            self.old.terminal }
        ensures wire { self.old.wire_room ≤ self.new.wire_room + MOST_POSTED }
        ensures column { column_in self.new.terminal.disc ≤ column_in self.old.terminal.disc + COLUMNS_OF_PIECE }
    {
        match &mut self.disc {
            Disc::Slip(_) => refuse_write(state, Errno::EIO),
            Disc::Tty(tty) => {
                if rest.is_empty() {
                    return Met::Gives(Answer::Count(state.taken));
                }
                if !tty.can_write(rest, &self.modes, &self.wire) {
                    return if nonblock {
                        refuse_write(state, Errno::EAGAIN)
                    } else {
                        Met::Waits
                    };
                }
                let count = tty.write_piece(rest, &self.modes, &mut self.wire);
                if count == rest.len() {
                    Met::Gives(Answer::Count(state.taken + count as u32))
                } else {
                    Met::Takes(count as u32)
                }
            }
        }
    }

    /// Tells something through a live handle.
    fn tell(&self, handle: Option<HandleState>, answer: Answer) -> Met
        ensures met { Meets (on_live self.now.terminal handle (tells (answer_of answer) self.now.terminal)) result }
        ensures left { self.now.terminal
            ≡ left_before_rule (on_live self.now.terminal handle (tells (answer_of answer) self.now.terminal))
            self.now.terminal }
    {
        match handle {
            None => refuse(Errno::EBADF),
            Some(handle) if !handle.live => refuse(Errno::EIO),
            Some(_) => Met::Gives(answer),
        }
    }

    /// Tells the counts, which stand in a box, through a live handle.
    fn tell_counts(&self, handle: Option<HandleState>, boxed: Option<Box<Counts>>) -> Met
        requires { option_map box_value boxed ≡ Some self.now.terminal.tally.counts }
        ensures met { Meets
            (on_live self.now.terminal handle (tells (counts_are self.now.terminal.tally.counts) self.now.terminal))
            result }
        ensures left { self.now.terminal
            ≡ left_before_rule
            (on_live self.now.terminal handle (tells (counts_are self.now.terminal.tally.counts) self.now.terminal))
            self.now.terminal }
    {
        match boxed {
            Some(counts) => self.tell(handle, Answer::CountsAre(counts)),
            None => unreachable!(),
        }
    }

    fn set_modes(&mut self, handle: Option<HandleState>, when: When, words: &[Word]) -> Met
        requires wire { MOST_HELD ≤ self.old.wire_room }
        ensures met { Meets (on_live self.old.terminal handle
            (modes_outcome self.old.terminal when (after_words self.old.terminal.modes words.now))) result }
        ensures left { self.new.terminal
            ≡ left_before_rule (on_live self.old.terminal handle
            (modes_outcome self.old.terminal when (after_words self.old.terminal.modes words.now))) self.old.terminal }
        ensures wire { self.old.wire_room ≤ self.new.wire_room + MOST_HELD }
        ensures column { column_in self.new.terminal.disc ≡ column_in self.old.terminal.disc }
    {
        if let Err(errno) = live(handle) {
            return refuse(errno);
        }
        match when {
            When::Now => {}
            When::Drain => {
                if self.wire.held() > 0 {
                    return Met::Waits;
                }
            }
            When::Flush => {
                if self.wire.held() > 0 {
                    return Met::Waits; // and so do the words
                }
                self.drop_input();
            }
        }
        self.change_modes(words);
        Met::Gives(Answer::Done)
    }

    /// Goes over to the modes that words make of those of now.
    fn change_modes(&mut self, words: &[Word])
        requires wire { MOST_HELD ≤ self.old.wire_room }
        ensures after { self.new.terminal
            ≡ with_modes self.old.terminal (after_words self.old.terminal.modes words.now) }
        ensures wire { self.old.wire_room ≤ self.new.wire_room + MOST_HELD }
        ensures column { column_in self.new.terminal.disc ≡ column_in self.old.terminal.disc }
    {
        let new = modes_after(&self.modes, words);
        recast(&mut self.disc, &self.modes, &new);
        let _held = self.wire.held(); // known: its bound
        self.wire
            .start_where(self.modes.has(IXON) && !new.has(IXON));
        self.modes = new;
    }

    /// Drops the unread input of the discipline.
    fn drop_input(&mut self)
        ensures after { self.new ≡ record self.old { terminal = without_input self.old.terminal } }
        ensures column { column_in self.new.terminal.disc ≡ column_in self.old.terminal.disc }
    {
        match &mut self.disc {
            Disc::Tty(tty) => tty.flush_in(),
            Disc::Slip(slip) => slip.flush_in(),
        }
    }

    #[inline(never)]
    fn set_disc(&mut self, handle: Option<HandleState>, number: u32, room: &mut Room) -> Met
        requires fresh { fresh_in room.old
            ≡ option_map fresh_of (if number_of self.old.terminal.disc == number then None else kind_of_number number) }
        requires few { self.old.terminal.generation < NUMBER_END }
        requires wire { MOST_HELD ≤ self.old.wire_room }
        ensures met { Meets
            (on_live self.old.terminal handle (change_outcome self.old.terminal number (kind_of_number number)))
            result }
        ensures left { self.new.terminal
            ≡ left_before_rule
            (on_live self.old.terminal handle (change_outcome self.old.terminal number (kind_of_number number)))
            self.old.terminal }
        ensures wire { self.old.wire_room ≤ self.new.wire_room + MOST_HELD }
        ensures column { column_in self.new.terminal.disc ≤ column_in self.old.terminal.disc + COLUMNS_OF_PIECE }
    {
        if let Err(errno) = live(handle) {
            return refuse(errno);
        }
        if Kind::of(number).is_none() {
            return refuse(Errno::EINVAL);
        }
        if let Some(fresh) = room.take_fresh() {
            let _held = self.wire.held(); // known: its bound
            install(&mut self.disc, fresh);
            self.wire.start();
            self.generation += 1;
        }
        Met::Gives(Answer::Done)
    }

    #[inline(never)]
    fn vhangup(&mut self, handle: Option<HandleState>, room: &mut Room) -> Met
        requires fresh { fresh_in room.old ≡ Some (fresh_of Kind.Tty) }
        requires few { self.old.terminal.generation < NUMBER_END }
        ensures met { Meets (on_live self.old.terminal handle (hangup_outcome self.old.terminal)) result }
        ensures left { self.new.terminal
            ≡ left_before_rule (on_live self.old.terminal handle (hangup_outcome self.old.terminal)) self.old.terminal }
        ensures wire { self.new.wire_room ≡ self.old.wire_room }
        ensures column { column_in self.new.terminal.disc ≤ column_in self.old.terminal.disc }
    {
        if let Err(errno) = live(handle) {
            return refuse(errno);
        }
        if let Some(fresh) = room.take_fresh() {
            self.hang_up(fresh);
        }
        Met::Gives(Answer::Done)
    }

    fn flush(&mut self, handle: Option<HandleState>, queue: Queue) -> Met
        ensures met { Meets (on_live self.old.terminal handle (flush_outcome self.old.terminal queue)) result }
        ensures left { self.new.terminal
            ≡ left_before_rule (on_live self.old.terminal handle (flush_outcome self.old.terminal queue))
            self.old.terminal }
        ensures wire { self.new.wire_room ≡ self.old.wire_room }
        ensures column { column_in self.new.terminal.disc ≡ column_in self.old.terminal.disc }
    {
        if let Err(errno) = live(handle) {
            return refuse(errno);
        }
        match queue {
            Queue::Input => self.drop_input(),
            Queue::Output => self.wire.drop_held(),
            Queue::Both => {
                self.drop_input();
                self.wire.drop_held();
            }
        }
        Met::Gives(Answer::Done)
    }

    fn steer(&mut self, handle: Option<HandleState>, act: Act) -> Met
        requires wire { MOST_HELD ≤ self.old.wire_room }
        ensures met { Meets (on_live self.old.terminal handle (does (after_act self.old.terminal act))) result }
        ensures left { self.new.terminal
            ≡ left_before_rule (on_live self.old.terminal handle (does (after_act self.old.terminal act)))
            self.old.terminal }
        ensures wire { self.old.wire_room ≤ self.new.wire_room + MOST_HELD }
        ensures disc { self.new.terminal.disc ≡ self.old.terminal.disc }
    {
        if let Err(errno) = live(handle) {
            return refuse(errno);
        }
        let _held = self.wire.held(); // known: its bound
        match act {
            Act::Ooff => self.wire.tco_off(),
            Act::Oon => self.wire.tco_on(),
            Act::Ioff => send_character(&mut self.wire, self.modes.cc(VSTOP)),
            Act::Ion => send_character(&mut self.wire, self.modes.cc(VSTART)),
        }
        Met::Gives(Answer::Done)
    }

    fn set_exclusive(&mut self, handle: Option<HandleState>, on: bool) -> Met
        ensures met { Meets (on_live self.old.terminal handle (does (record self.old.terminal { exclusive = on })))
            result }
        ensures left { self.new.terminal
            ≡ left_before_rule (on_live self.old.terminal handle (does (record self.old.terminal { exclusive = on })))
            self.old.terminal }
        ensures wire { self.new.wire_room ≡ self.old.wire_room }
        ensures disc { self.new.terminal.disc ≡ self.old.terminal.disc }
    {
        if let Err(errno) = live(handle) {
            return refuse(errno);
        }
        self.exclusive = on;
        Met::Gives(Answer::Done)
    }

    fn drain(&self, handle: Option<HandleState>) -> Met
        ensures met { Meets (on_live self.now.terminal handle (drain_outcome self.now.terminal)) result }
        ensures left { self.now.terminal
            ≡ left_before_rule (on_live self.now.terminal handle (drain_outcome self.now.terminal)) self.now.terminal }
    {
        if let Err(errno) = live(handle) {
            return refuse(errno);
        }
        if self.wire.held() > 0 {
            return Met::Waits;
        }
        Met::Gives(Answer::Done)
    }

    fn send_packet(&mut self, handle: Option<HandleState>, bytes: &[u8], encoded: &[u8]) -> Met
        requires encoded { encoded.now ≡ spelled_unless_long bytes.now }
        requires wire { MOST_HELD ≤ self.old.wire_room }
        ensures met { Meets (on_access may_write self.old.terminal handle
            (sending_outcome self.old.terminal bytes.now self.old.terminal.disc)) result }
        ensures left { self.new.terminal
            ≡ left_before_rule (on_access may_write self.old.terminal handle
            (sending_outcome self.old.terminal bytes.now self.old.terminal.disc)) self.old.terminal }
        ensures wire { self.old.wire_room ≤ self.new.wire_room + MOST_HELD }
        ensures disc { self.new.terminal.disc ≡ self.old.terminal.disc }
    {
        let Some(handle) = handle else {
            return refuse(Errno::EBADF);
        };
        if !may_write(handle.access) {
            return refuse(Errno::EBADF);
        }
        if !handle.live {
            return refuse(Errno::EIO);
        }
        match &mut self.disc {
            Disc::Tty(_) => refuse(Errno::ENOTTY),
            Disc::Slip(slip) => {
                if bytes.len() > MAX_PACKET {
                    return refuse(Errno::EMSGSIZE);
                }
                if encoded.len() > self.wire.room() {
                    return refuse(Errno::EAGAIN);
                }
                let _sent = slip.send_packet(encoded, &mut self.wire, &mut self.tally);
                Met::Gives(Answer::Done)
            }
        }
    }

    fn take_packet(&mut self, handle: Option<HandleState>, mut room: Bytes) -> Met
        requires empty { room.items ≡ [] }
        requires fits { packet_room self.old.terminal.disc ≤ room.spare }
        ensures met { Meets
            (on_access may_read self.old.terminal handle (taking_outcome self.old.terminal self.old.terminal.disc))
            result }
        ensures left { self.new.terminal
            ≡ left_before_rule
            (on_access may_read self.old.terminal handle (taking_outcome self.old.terminal self.old.terminal.disc))
            self.old.terminal }
        ensures wire { self.new.wire_room ≡ self.old.wire_room }
        ensures column { column_in self.new.terminal.disc ≡ column_in self.old.terminal.disc }
    {
        let Some(handle) = handle else {
            return refuse(Errno::EBADF);
        };
        if !may_read(handle.access) {
            return refuse(Errno::EBADF);
        }
        if !handle.live {
            return refuse(Errno::EIO);
        }
        match &mut self.disc {
            Disc::Tty(_) => refuse(Errno::ENOTTY),
            Disc::Slip(slip) => {
                if slip.waiting() == 0 {
                    return refuse(Errno::EAGAIN);
                }
                let _count = slip.take_packet(&mut room);
                Met::Gives(Answer::Got(room.into_vec()))
            }
        }
    }

    /// Makes a call where its caller stands so, without the rule for ixoff after it. The nineteen calls are four
    /// groups, each in a function of its own that hands the others on: a proof of one function with all of them is
    /// too long, and a read or a write need not make room for what the rare calls keep.
    #[inline(always)]
    pub(super) fn act(&mut self, state: &CallerState, call: &Call, room: &mut Room) -> Met
        requires { CanAct self.old state.now (call_of call.now) room.old }
        ensures { Acts self.old self.new state.now (call_of call.now) result }
    {
        match call {
            Call::Open {
                h,
                access,
                nonblock,
            } => { self.open(*h, *access, *nonblock) }
            Call::Close { h } => { self.close(*h, room) }
            Call::Read { h, n } => {
                let handle = self.handle_for(state, *h);
                self.read(state, handle, *n, room.take_bytes())
            }
            Call::Write { h, bytes } => {
                let handle = self.handle_for(state, *h);
                self.write(state, handle, bytes)
            }
            _ => self.act_on_modes(state, call, room),
        }
    }

    /// The calls on modes and disciplines.
    #[inline(never)]
    fn act_on_modes(&mut self, state: &CallerState, call: &Call, room: &mut Room) -> Met
        requires can { CanAct self.old state.now (call_of call.now) room.old }
        requires group { 1 ≤ group_of (call_of call.now) }
        ensures { Acts self.old self.new state.now (call_of call.now) result }
    {
        match call {
            Call::GetModes { h } => {
                let handle = self.handle_for(state, *h);
                self.tell(handle, Answer::ModesAre(self.modes))
            }
            Call::SetModes { h, when, words } => {
                let handle = self.handle_for(state, *h);
                self.set_modes(handle, *when, words)
            }
            Call::GetDisc { h } => {
                let handle = self.handle_for(state, *h);
                self.tell(handle, Answer::Number(self.disc_number()))
            }
            Call::SetDisc { h, number } => {
                let handle = self.handle_for(state, *h);
                self.set_disc(handle, *number, room)
            }
            _ => self.act_on_output(state, call, room),
        }
    }

    /// The calls on held output, and on who may open.
    fn act_on_output(&mut self, state: &CallerState, call: &Call, room: &mut Room) -> Met
        requires can { CanAct self.old state.now (call_of call.now) room.old }
        requires group { 2 ≤ group_of (call_of call.now) }
        ensures { Acts self.old self.new state.now (call_of call.now) result }
    {
        match call {
            Call::Flush { h, queue } => {
                let handle = self.handle_for(state, *h);
                self.flush(handle, *queue)
            }
            Call::Xonc { h, act } => {
                let handle = self.handle_for(state, *h);
                self.steer(handle, *act)
            }
            Call::Outq { h } => {
                let handle = self.handle_for(state, *h);
                self.tell(handle, Answer::Number(self.held_count()))
            }
            Call::Excl { h } => {
                let handle = self.handle_for(state, *h);
                self.set_exclusive(handle, true)
            }
            Call::Nxcl { h } => {
                let handle = self.handle_for(state, *h);
                self.set_exclusive(handle, false)
            }
            _ => self.act_on_rest(state, call, room),
        }
    }

    /// The other calls.
    fn act_on_rest(&mut self, state: &CallerState, call: &Call, room: &mut Room) -> Met
        requires can { CanAct self.old state.now (call_of call.now) room.old }
        requires group { 3 ≤ group_of (call_of call.now) }
        ensures { Acts self.old self.new state.now (call_of call.now) result }
    {
        match call {
            Call::Drain { h } => {
                let handle = self.handle_for(state, *h);
                self.drain(handle)
            }
            Call::Inq { h } => {
                let handle = self.handle_for(state, *h);
                self.tell(handle, Answer::Number(self.input_count()))
            }
            Call::Counts { h } => {
                let handle = self.handle_for(state, *h);
                self.tell_counts(handle, room.take_counts())
            }
            Call::Vhangup { h } => {
                let handle = self.handle_for(state, *h);
                self.vhangup(handle, room)
            }
            Call::SendPacket { h, bytes } => {
                let handle = self.handle_for(state, *h);
                self.send_packet(handle, bytes, room.packet())
            }
            Call::TakePacket { h } => {
                let handle = self.handle_for(state, *h);
                self.take_packet(handle, room.take_bytes())
            }
            _ => unreachable!(),
        }
    }
}

/// The refusal of a write. Where parts of it were taken, it answers how many bytes these were.
fn refuse_write(state: &CallerState, errno: Errno) -> Met
    ensures { result ≡ Met.Gives (if has_parts state.now then Answer.Count state.now.taken else Answer.Refused errno) }
{
    if state.parts > 0 {
        Met::Gives(Answer::Count(state.taken))
    } else {
        refuse(errno)
    }
}

/// A control character goes to the wire past a halt, unless it is 0.
fn send_character(wire: &mut Wire, character: u8)
    requires { 0 < wire.old.spare }
    ensures { wire.new ≡ (if character == 0 then wire.old else on_wire wire.old (character ∷ [])) }
{
    if character != 0 {
        wire.urgent(character);
    }
}

/// Puts a fresh discipline in place of another, which is let go here alone: it owns much.
#[inline(always)]
fn install(disc: &mut Disc, fresh: Disc)
    ensures { disc.new ≡ fresh }
{
    *disc = fresh;
}

/// The discipline goes over to other modes.
fn recast(disc: &mut Disc, old: &Modes, new: &Modes)
    requires { Fits old.now disc.old }
    ensures after { disc.new ≡ after_one disc.old (mode_change old.now new.now) }
    ensures fits { Fits new.now disc.new }
    ensures column { column_in disc.new ≡ column_in disc.old }
{
    match disc {
        Disc::Tty(tty) => tty.recast(old, new),
        Disc::Slip(_) => {}
    }
}
