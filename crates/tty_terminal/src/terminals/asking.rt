//! What a call would meet, and the room that it needs. What it meets is coded in `acting.rt`; here
//! stands what must be known beforehand, call by call: whether it must wait, whether it drops what
//! waits in the flip buffer, and what it needs.

ghost use Rattle.std.specs.Prelude.{◌≡◌, ◌↔◌, [], true, ◌≤◌, ◌<◌, IsTrue, IfOk, length};
ghost use Rattle.tty_base.specs.Sizes.{COUNT_END, MOST_HANDLES};
ghost use Rattle.tty_calls.specs.Plain.{handle_of, call_of};
ghost use Rattle.ldisc_switch.specs.Disciplines.{column_in, fresh_of};
ghost use Rattle.handle_table.specs.Handles.{is_live as is_live_handle};
ghost use Rattle.tty_terminal.specs.Meeting.{spelled_unless_long};

use super::Terminal;
use super::acting::{may_read, may_write, rest_of};
use crate::callers::CallerState;
use crate::rooms::Room;
use handle_table::HandleState;
use ldisc_switch::{Disc, Kind, fresh};
use slip_frames::{SlipFault, encode};
use std::alloc::Global;
use tty_base::{Bytes, Counts, NoMemory};
use tty_calls::{Call, Queue, When};

/// A packet as it is spelled, unless it is too long.
#[inline(never)]
fn spelled(alloc: Global, packet: &[u8]) -> Result<Bytes, NoMemory>
    ensures { IfOk result (λ bytes. bytes.items ≡ spelled_unless_long packet.now) }
{
    match encode(alloc, packet) {
        Ok(encoded) => Ok(encoded),
        Err(SlipFault::TooLong) => Ok(Bytes::new(alloc)),
        Err(SlipFault::NoMemory) => Err(NoMemory),
    }
}

/// Room for so many bytes of an answer.
fn room_for_bytes(alloc: Global, count: usize) -> Result<Bytes, NoMemory>
    ensures empty { IfOk result (λ bytes. bytes.items ≡ []) }
    ensures fits { IfOk result (λ bytes. count ≤ bytes.spare) }
{
    let mut bytes = Bytes::new(alloc);
    bytes.reserve(count)?;
    Ok(bytes)
}

/// A fresh discipline. It stands apart, since few calls install one.
#[inline(never)]
fn boxed_fresh(alloc: Global, kind: Kind) -> Result<Box<Disc>, NoMemory>
    ensures { IfOk result (λ boxed. boxed.value ≡ fresh_of kind) }
{
    Ok(Box::new(alloc, fresh(alloc, kind)?)?)
}

/// A copy of counts. It stands apart, since few calls tell them.
#[inline(never)]
fn boxed_counts(alloc: Global, counts: &Counts) -> Result<Box<Counts>, NoMemory>
    ensures { IfOk result (λ boxed. boxed.value ≡ counts.now) }
{
    Ok(Box::new(alloc, *counts)?)
}

/// Whether there is a handle, and it is live.
fn is_live(handle: Option<HandleState>) -> bool
    ensures { result ≡ is_live_handle handle }
{
    match handle {
        Some(handle) => handle.live,
        None => false,
    }
}

impl Terminal {
    ghost use Rattle.tty_terminal.specs.Terminals.{caller_at};
    ghost use Rattle.tty_terminal.specs.Opening.{is_last_live};
    ghost use Rattle.tty_terminal.specs.Transfers.{is_outlived, reading_outcome, writing_outcome};
    ghost use Rattle.tty_terminal.specs.Switching.{number_of};
    ghost use Rattle.tty_terminal.specs.Calls.{outcome, input_count};
    ghost use Rattle.tty_terminal.specs.Steps.{MustWait, is_wait};
    ghost use Rattle.tty_terminal.specs.Meeting.{room_for, fresh_kind, needs_room, drops_of, IsRoomFor};
    ghost use Rattle.tty_terminal.specs.Questions.{must_drain, rest_waits, call_waits, call_drops};

    /// The number of the discipline that is installed (linux/tty.h).
    pub(super) fn disc_number(&self) -> u32
        ensures { result ≡ number_of self.now.terminal.disc }
    {
        match self.disc.kind() {
            Kind::Tty => 0,
            Kind::Slip => 1,
        }
    }

    /// How many bytes can be read; under N_SLIP those of the first packet.
    pub(super) fn input_count(&self) -> u32
        ensures { result ≡ input_count self.now.terminal.modes self.now.terminal.disc }
    {
        match &self.disc {
            Disc::Tty(tty) => tty.inq(&self.modes),
            Disc::Slip(slip) => slip.first_len() as u32,
        }
    }

    /// How many bytes are held.
    pub(super) fn held_count(&self) -> u32
        ensures { result ≡ length self.now.terminal.output.held }
    {
        self.wire.held() as u32
    }

    /// How many bytes the answer to a call gives at most.
    #[inline(always)]
    pub fn room_for(&self, call: &Call) -> usize
        ensures { result ≡ room_for self.now.terminal (call_of call.now) }
    {
        match call {
            Call::Read { h: _, n } => match &self.disc {
                Disc::Tty(tty) => tty.read_len(*n, &self.modes) as usize,
                Disc::Slip(_) => 0,
            },
            Call::TakePacket { h: _ } => match &self.disc {
                Disc::Tty(_) => 0,
                Disc::Slip(slip) => slip.first_len(),
            },
            _ => 0,
        }
    }

    /// Whether a handle is live, and the only one that is.
    fn is_last_live(&self, handle: HandleState) -> bool
        ensures { result ≡ is_last_live self.now.terminal handle }
    {
        handle.live && self.handles.live() == 1
    }

    /// The kind of the fresh discipline that a call installs.
    fn fresh_kind(&self, call: &Call) -> Option<Kind>
        ensures { result ≡ fresh_kind self.now.terminal (call_of call.now) }
    {
        match call {
            Call::Close { h } => match self.handles.state(*h) {
                Some(handle) if self.is_last_live(handle) => Some(Kind::Tty),
                _ => None,
            },
            Call::SetDisc { h: _, number } => {
                if self.disc_number() == *number {
                    None
                } else {
                    Kind::of(*number)
                }
            }
            Call::Vhangup { h: _ } => Some(Kind::Tty),
            _ => None,
        }
    }

    /// What a call needs beside the terminal. It is made before the call, which then takes no memory.
    #[inline(always)]
    pub fn make_room(&self, alloc: Global, call: &Call) -> Result<Room, NoMemory>
        ensures { IfOk result (λ room. IsRoomFor self.now.terminal (call_of call.now) room) }
    {
        match call {
            Call::Close { .. }
            | Call::Read { .. }
            | Call::SetDisc { .. }
            | Call::Counts { .. }
            | Call::Vhangup { .. }
            | Call::SendPacket { .. }
            | Call::TakePacket { .. } => self.make_some_room(alloc, call),
            _ => Ok(Room::Nothing),
        }
    }

    /// What a call needs that needs something.
    #[inline(never)]
    fn make_some_room(&self, alloc: Global, call: &Call) -> Result<Room, NoMemory>
        requires { needs_room (call_of call.now) ≡ true }
        ensures { IfOk result (λ room. IsRoomFor self.now.terminal (call_of call.now) room) }
    {
        match call {
            Call::Read { .. } | Call::TakePacket { .. } => {
                let room = room_for_bytes(alloc, self.room_for(call))?;
                Ok(Room::Bytes(room))
            }
            Call::Counts { .. } => Ok(Room::Counts(boxed_counts(alloc, &self.tally.counts)?)),
            Call::SendPacket { h: _, bytes } => { Ok(Room::Packet(spelled(alloc, bytes)?)) }
            _ => match self.fresh_kind(call) {
                Some(kind) => Ok(Room::Fresh(boxed_fresh(alloc, kind)?)),
                None => Ok(Room::Nothing),
            },
        }
    }

    /// Whether parts of the caller's write were taken in a generation that has ended.
    pub(super) fn is_outlived(&self, state: &CallerState) -> bool
        ensures { result ≡ is_outlived self.now.terminal state.now }
    {
        state.parts > 0 && state.generation != self.generation
    }

    #[inline(always)]
    fn read_must_wait(&self, state: &CallerState, handle: Option<HandleState>, n: u32) -> bool
        ensures { result ≡ is_wait (reading_outcome self.now.terminal state.now n handle) }
    {
        let Some(handle) = handle else {
            return false;
        };
        if !may_read(handle.access) || !handle.live || handle.nonblock {
            return false;
        }
        let since = state.waits.unwrap_or(self.tick);
        match &self.disc {
            Disc::Tty(tty) => !tty.ready(n, &self.modes, false, since, self.tick),
            Disc::Slip(_) => false,
        }
    }

    fn write_must_wait(
        &self,
        state: &CallerState,
        handle: Option<HandleState>,
        bytes: &[u8],
    ) -> bool
        requires { column_in self.now.terminal.disc < COUNT_END }
        ensures { result ≡ is_wait (writing_outcome self.now.terminal state.now bytes.now handle) }
    {
        let Some(handle) = handle else {
            return false;
        };
        if !may_write(handle.access) || !handle.live || handle.nonblock {
            return false;
        }
        if self.is_outlived(state) {
            return false;
        }
        self.rest_must_wait(rest_of(bytes, state.taken))
    }

    /// Whether a blocking write must wait of which these bytes are left.
    fn rest_must_wait(&self, rest: &[u8]) -> bool
        requires { column_in self.now.terminal.disc < COUNT_END }
        ensures { result ≡ rest_waits self.now.terminal rest.now self.now.terminal.disc }
    {
        match &self.disc {
            Disc::Tty(tty) => {
                if rest.is_empty() {
                    return false;
                }
                !tty.can_write(rest, &self.modes, &self.wire)
            }
            Disc::Slip(_) => false,
        }
    }

    fn must_drain(&self, handle: Option<HandleState>) -> bool
        ensures { result ≡ must_drain self.now.terminal handle }
    {
        is_live(handle) && self.wire.held() > 0
    }

    /// Whether a call of a caller must wait.
    #[inline(always)]
    pub fn must_wait(&self, caller: u16, call: &Call) -> bool
        requires known { caller < length self.now.terminal.callers }
        requires number { handle_of (call_of call.now) < MOST_HANDLES }
        requires column { column_in self.now.terminal.disc < COUNT_END }
        ensures value { result
            ≡ is_wait (outcome self.now.terminal (caller_at self.now.terminal caller) (call_of call.now)) }
        ensures fact { IsTrue result
            ↔ MustWait (outcome self.now.terminal (caller_at self.now.terminal caller) (call_of call.now)) }
    {
        let state = self.callers.get(caller as usize);
        self.waits_by_call(&state, call)
    }

    #[inline(always)]
    fn waits_by_call(&self, state: &CallerState, call: &Call) -> bool
        requires { column_in self.now.terminal.disc < COUNT_END }
        ensures { result ≡ call_waits self.now.terminal state.now (call_of call.now) }
    {
        match call {
            Call::Read { h, n } => {
                let handle = self.handle_for(state, *h);
                self.read_must_wait(state, handle, *n)
            }
            Call::Write { h, bytes } => {
                let handle = self.handle_for(state, *h);
                self.write_must_wait(state, handle, bytes)
            }
            Call::SetModes { h, when, words: _ } => {
                *when != When::Now && self.must_drain(self.handle_for(state, *h))
            }
            Call::Drain { h } => self.must_drain(self.handle_for(state, *h)),
            _ => false,
        }
    }

    /// Whether what waits in the flip buffer is dropped with the answer to a call.
    #[inline(always)]
    pub fn drops(&self, caller: u16, call: &Call) -> bool
        requires known { caller < length self.now.terminal.callers }
        requires number { handle_of (call_of call.now) < MOST_HANDLES }
        ensures { result
            ≡ drops_of (outcome self.now.terminal (caller_at self.now.terminal caller) (call_of call.now)) }
    {
        let state = self.callers.get(caller as usize);
        self.drops_from(&state, call)
    }

    /// Likewise, where its caller stands so.
    pub fn drops_from(&self, state: &CallerState, call: &Call) -> bool
        ensures { result ≡ drops_of (outcome self.now.terminal state.now (call_of call.now)) }
    {
        self.drops_by_call(state, call)
    }

    #[inline(always)]
    fn drops_by_call(&self, state: &CallerState, call: &Call) -> bool
        ensures { result ≡ call_drops self.now.terminal state.now (call_of call.now) }
    {
        match call {
            Call::Flush { h, queue } => {
                is_live(self.handle_for(state, *h)) && *queue != Queue::Output
            }
            Call::SetModes { h, when, words: _ } => {
                *when == When::Flush && self.wire.held() == 0 && is_live(self.handle_for(state, *h))
            }
            Call::Vhangup { h } => is_live(self.handle_for(state, *h)),
            _ => false,
        }
    }
}
