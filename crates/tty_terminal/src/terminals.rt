//! The one-thread terminal: what characters, calls, the line, the clock and a hangup do to it, and what can be asked
//! of it.

ghost use Rattle.std.specs.Prelude.{◌≡◌, ◌↔◌, Some, true, false, ◌+◌, ◌*◌, ◌-◌, ◌≤◌};
ghost use Rattle.std.specs.Prelude.{◌<◌, ◌^◌, IsTrue, IfOk, OnOk, length, take};
ghost use Rattle.tty_base.specs.Sizes.{COLUMNS_OF_CHARACTER, COLUMNS_OF_PIECE, COUNT_END, MOST_FLIP, MOST_HANDLES};
ghost use Rattle.tty_base.specs.Sizes.{MOST_SENT, NUMBER_END};
ghost use Rattle.tty_calls.specs.Plain.{handle_of, call_of};
ghost use Rattle.ldisc_switch.specs.Disciplines.{fresh_of, column_in};
ghost use Rattle.ldisc_switch.specs.declared.kinds.Kind.{Kind};

mod acting;
mod asking;
mod lasting;

use crate::callers::{Bound, CallerState, Callers, IDLE, Piece};
use crate::rooms::{Met, ROOM_FOR_CALL, Room};
use flow_control::{Tally, Wire};
use handle_table::Handles;
use ldisc_switch::{Disc, Kind, fresh};
use n_tty::CHARACTER_ROOM;
use std::alloc::Global;
use std::marker::Model;
use tty_base::{Flagged, NoMemory};
use tty_calls::{Call, PortEnd};
use tty_modes::Modes;

/// The one-thread terminal: a port's line discipline with its modes, its output and what it counted, its handles, and
/// where its callers stand. Contracts see it as the record `Terminal`, with the room that is reserved for bytes on the
/// wire and for signals. Only `new`, `reserve` and `make_room` take memory.
#[derive(Drop)]
pub struct Terminal {
    disc: Disc,
    modes: Modes,
    wire: Wire,
    tally: Tally,
    handles: Handles,
    exclusive: bool,
    tick: u64,
    generation: u32,
    capacity: u32,
    taken: u64,
    sent: u64,
    phase: u32,
    line_over: bool,
    clock_over: bool,
    callers: Callers,
    flushed: Option<Piece>,
}

impl Model for Terminal {
    ghost use Rattle.tty_terminal.specs.Meeting.{InRoom};

    ghost Value = { InRoom };

    ghost use Rattle.tty_terminal.specs.Inside.{value_of, IsSound};

    ghost view = { value_of };

    ghost invariant = { IsSound };
}

impl Terminal {
    ghost use Rattle.tty_terminal.specs.Terminals.{opening, caller_at, live_count as live};
    ghost use Rattle.tty_terminal.specs.Receiving.{accepts, after_characters, AcceptsAll, after_ixoff};
    ghost use Rattle.tty_terminal.specs.Generations.{after_hangup};
    ghost use Rattle.tty_terminal.specs.Calls.{outcome};
    ghost use Rattle.tty_terminal.specs.Steps.{left_by, nothing_to_flush, quiet_with, may_end_with};
    ghost use Rattle.tty_terminal.specs.Steps.{after_answer, after_wait, after_part};
    ghost use Rattle.tty_terminal.specs.Steps.{after_caller_end, bound_at, next_phase, with_dropped};
    ghost use Rattle.tty_calls.specs.Limits.{byte_count};
    ghost use Rattle.tty_terminal.specs.Meeting.{Meets, IsRoomFor, IsCounted, room_for_characters};

    /// A closed terminal for so many callers, on a port whose flip buffer holds so many characters.
    pub fn new(alloc: Global, callers: usize, capacity: u32) -> Result<Terminal, NoMemory>
        ensures { IfOk result
            (λ t. t ≡ record { terminal = opening callers capacity; wire_room = 0; signal_room = 0 }) }
    {
        let callers = Callers::new(alloc, callers)?;
        let wire = Wire::new(alloc)?;
        Ok(Terminal {
            disc: fresh(alloc, Kind::Tty)?,
            modes: Modes::sane(),
            wire,
            tally: Tally::new(alloc),
            handles: Handles::new(),
            exclusive: false,
            tick: 0,
            generation: 0,
            capacity,
            taken: 0,
            sent: 0,
            phase: 0,
            line_over: false,
            clock_over: false,
            callers,
            flushed: None,
        })
    }

    /// Makes room for so many further bytes on the wire, and for so many signals. Room that is there
    /// is not made again. `NoMemory` leaves the terminal as it was, but for room.
    #[inline(always)]
    pub fn reserve(&mut self, bytes: usize, signals: usize) -> Result<(), NoMemory>
        ensures same { self.new.terminal ≡ self.old.terminal }
        ensures wire { OnOk result (bytes ≤ self.new.wire_room) }
        ensures signals { OnOk result (signals ≤ self.new.signal_room) }
        ensures wire_grows { self.old.wire_room ≤ self.new.wire_room }
        ensures signals_grow { self.old.signal_room ≤ self.new.signal_room }
    {
        self.wire.reserve(bytes)?;
        self.tally.reserve(signals)
    }

    // ---- characters

    /// Whether the discipline accepts a character.
    #[inline(always)]
    pub fn accepts(&self) -> bool
        ensures { result ≡ accepts self.now.terminal }
    {
        self.disc.accepts(&self.modes)
    }

    /// The discipline receives characters from the front, as long as it accepts. Answers how many.
    pub fn receive_all(&mut self, chars: &[Flagged]) -> usize
        requires taken { self.old.terminal.taken + length chars.now < MOST_SENT }
        requires wire { room_for_characters self.old.terminal (length chars.now) ≤ self.old.wire_room }
        requires signals { length chars.now ≤ self.old.signal_room }
        requires column { column_in self.old.terminal.disc + COLUMNS_OF_CHARACTER * length chars.now < COUNT_END }
        ensures within { result ≤ length chars.now }
        ensures received { self.new.terminal ≡ after_characters self.old.terminal (take result chars.now) }
        ensures accepted { AcceptsAll self.old.terminal (take result chars.now) }
        ensures stops { result < length chars.now → accepts self.new.terminal ≡ false }
        ensures column { column_in self.new.terminal.disc
            ≤ column_in self.old.terminal.disc + COLUMNS_OF_CHARACTER * length chars.now }
    {
        let count = self.disc.receive_all(
            chars,
            self.tick,
            &self.modes,
            &mut self.wire,
            &mut self.tally,
        );
        self.taken += count as u64;
        count
    }

    /// The room on the wire that so many characters need at most.
    pub fn room_for_characters(&self, count: usize) -> usize
        requires { count ≤ MOST_FLIP }
        ensures { result ≡ room_for_characters self.now.terminal count }
    {
        self.disc.pending(&self.wire) + CHARACTER_ROOM * count
    }

    /// A piece of a flush run was handed over.
    pub fn note_piece(&mut self, run: u32, part: u32)
        ensures { self.new
            ≡ record self.old {
              terminal = record self.old.terminal { flushed = Some (record { run = run; part = part }) };
            } }
    {
        self.flushed = Some(Piece { run, part });
    }

    /// So many characters that wait in the flip buffer are dropped.
    pub fn drop_characters(&mut self, count: u64)
        requires { self.old.terminal.taken + count < 2 ^ 64 }
        ensures { self.new ≡ record self.old { terminal = with_dropped self.old.terminal count } }
    {
        self.taken += count;
    }

    // ---- calls

    /// Makes a call of a caller, as far as it changes the terminal beside that caller's own state: it
    /// is answered, takes a part, or must wait. The rule for ixoff follows an answer.
    #[inline(always)]
    pub fn meet(&mut self, caller: u16, call: &Call, room: Room) -> Met
        requires known { caller < length self.old.terminal.callers }
        requires number { handle_of (call_of call.now) < MOST_HANDLES }
        requires bytes { byte_count (call_of call.now) < 2 ^ 32 }
        requires few { self.old.terminal.generation < NUMBER_END }
        requires room { IsRoomFor self.old.terminal (call_of call.now) room }
        requires wire { ROOM_FOR_CALL ≤ self.old.wire_room }
        requires column { column_in self.old.terminal.disc < COUNT_END }
        ensures met { Meets (outcome self.old.terminal (caller_at self.old.terminal caller) (call_of call.now)) result }
        ensures left { self.new.terminal
            ≡ left_by (outcome self.old.terminal (caller_at self.old.terminal caller) (call_of call.now))
            self.old.terminal }
        ensures column { column_in self.new.terminal.disc ≤ column_in self.old.terminal.disc + COLUMNS_OF_PIECE }
    {
        let state = self.callers.get(caller as usize);
        self.meet_from(&state, call, room)
    }

    /// Likewise a call whose caller stands so, wherever that is kept.
    #[inline(always)]
    pub fn meet_from(&mut self, state: &CallerState, call: &Call, mut room: Room) -> Met
        requires number { handle_of (call_of call.now) < MOST_HANDLES }
        requires bytes { IsCounted state.now (call_of call.now) }
        requires few { self.old.terminal.generation < NUMBER_END }
        requires room { IsRoomFor self.old.terminal (call_of call.now) room }
        requires wire { ROOM_FOR_CALL ≤ self.old.wire_room }
        requires column { column_in self.old.terminal.disc < COUNT_END }
        ensures met { Meets (outcome self.old.terminal state.now (call_of call.now)) result }
        ensures left { self.new.terminal
            ≡ left_by (outcome self.old.terminal state.now (call_of call.now)) self.old.terminal }
        ensures column { column_in self.new.terminal.disc ≤ column_in self.old.terminal.disc + COLUMNS_OF_PIECE }
    {
        let met = self.act(state, call, &mut room);
        if let Met::Gives(_) = &met {
            self.apply_ixoff_rule();
        }
        met
    }

    /// STOP or START is sent for ixoff where the rule says so.
    fn apply_ixoff_rule(&mut self)
        requires { 0 < self.old.wire_room }
        ensures after { self.new.terminal ≡ after_ixoff self.old.terminal }
    {
        self.disc.ixoff(&self.modes, &mut self.wire);
    }

    /// The caller's call is answered.
    pub fn advance(&mut self, caller: u16)
        requires known { caller < length self.old.terminal.callers }
        requires few { (caller_at self.old.terminal caller).next < NUMBER_END }
        ensures { self.new ≡ record self.old { terminal = after_answer self.old.terminal caller } }
    {
        let state = self.callers.get(caller as usize);
        self.callers.set(
            caller as usize,
            CallerState {
                next: state.next + 1,
                over: state.over,
                ..IDLE
            },
        );
    }

    /// The handle that a call of the caller keeps from its first wait or part on.
    pub fn bound_at(&self, state: &CallerState, h: u8) -> Option<Bound>
        ensures { result ≡ bound_at self.now.terminal state.now.bound h }
    {
        match state.bound {
            None => Some(Bound {
                h,
                handle: self.handles.state(h),
            }),
            bound => bound,
        }
    }

    /// The caller's call on the handle `h` waits from now on.
    pub fn wait(&mut self, caller: u16, h: u8)
        requires known { caller < length self.old.terminal.callers }
        requires number { h < MOST_HANDLES }
        ensures { self.new ≡ record self.old { terminal = after_wait self.old.terminal caller h } }
    {
        let state = self.callers.get(caller as usize);
        let bound = self.bound_at(&state, h);
        let waits = Some(self.tick);
        self.callers.set(
            caller as usize,
            CallerState {
                waits,
                bound,
                ..state
            },
        );
    }

    /// A part of the caller's write on the handle `h` was taken, of so many bytes, under the terminal before that part.
    pub fn note_part(&mut self, caller: u16, h: u8, count: u32)
        requires known { caller < length self.old.terminal.callers }
        requires number { h < MOST_HANDLES }
        requires parts { (caller_at self.old.terminal caller).parts < NUMBER_END }
        requires bytes { (caller_at self.old.terminal caller).taken + count < 2 ^ 32 }
        ensures { self.new ≡ record self.old { terminal = after_part self.old.terminal caller h count } }
    {
        let state = self.callers.get(caller as usize);
        let bound = self.bound_at(&state, h);
        let generation = if state.parts == 0 {
            self.generation
        } else {
            state.generation
        };
        self.callers.set(
            caller as usize,
            CallerState {
                waits: None,
                parts: state.parts + 1,
                taken: state.taken + count,
                generation,
                bound,
                ..state
            },
        );
    }

    /// The caller's calls of this phase are over.
    pub fn end_caller(&mut self, caller: u16)
        requires { caller < length self.old.terminal.callers }
        ensures { self.new ≡ record self.old { terminal = after_caller_end self.old.terminal caller } }
    {
        let state = self.callers.get(caller as usize);
        self.callers.set(
            caller as usize,
            CallerState {
                over: true,
                ..state
            },
        );
    }

    // ---- line, clock and session

    /// A tenth of a second passed.
    pub fn raise_tick(&mut self)
        requires { self.old.terminal.tick < 2 ^ 63 }
        ensures { self.new
            ≡ record self.old { terminal = record self.old.terminal { tick = self.old.terminal.tick + 1 } } }
    {
        self.tick += 1;
    }

    /// The line of the phase is over, with so many characters sent so far.
    pub fn end_line(&mut self, sent: u64)
        ensures { self.new ≡ record self.old { terminal = record self.old.terminal { sent = sent; line_over = true } } }
    {
        self.sent = sent;
        self.line_over = true;
    }

    /// The clock of the phase is over.
    pub fn end_clock(&mut self)
        ensures { self.new ≡ record self.old { terminal = record self.old.terminal { clock_over = true } } }
    {
        self.clock_over = true;
    }

    /// The next phase begins.
    pub fn begin_phase(&mut self)
        requires { self.old.terminal.phase < NUMBER_END }
        ensures { self.new ≡ record self.old { terminal = next_phase self.old.terminal } }
    {
        self.phase += 1;
        self.line_over = false;
        self.clock_over = false;
        self.callers.begin_phase();
    }

    /// The port is hung up: N_TTY stands anew, as it was made for it.
    pub fn hang_up(&mut self, fresh: Disc)
        requires few { self.old.terminal.generation < NUMBER_END }
        requires fresh { fresh ≡ fresh_of Kind.Tty }
        ensures { self.new ≡ record self.old { terminal = after_hangup self.old.terminal } }
    {
        self.disc = fresh;
        self.wire.reset();
        self.handles.kill_all();
        self.callers.hang_up();
        self.exclusive = false;
        self.generation += 1;
    }

    // ---- questions

    /// Whether no character is left that could be flushed.
    pub fn has_nothing_to_flush(&self) -> bool
        ensures { result ≡ nothing_to_flush self.now.terminal }
    {
        self.taken == self.sent || self.handles.live() == 0 || !self.accepts()
    }

    /// Whether nothing can happen any more but that waiting calls are told so, where the phase has so many callers.
    pub fn is_quiet(&self, callers: u8) -> bool
        ensures { result ≡ quiet_with callers self.now.terminal }
    {
        self.line_over
            && self.clock_over
            && usize::from(callers) <= self.callers.resting()
            && self.has_nothing_to_flush()
    }

    /// Whether the phase may end, where it has so many callers.
    pub fn may_end(&self, callers: u8) -> bool
        ensures { result ≡ may_end_with callers self.now.terminal }
    {
        self.line_over
            && self.clock_over
            && usize::from(callers) <= self.callers.over()
            && self.has_nothing_to_flush()
    }

    /// Where a caller stands.
    pub fn caller(&self, caller: u16) -> CallerState
        requires { caller < length self.now.terminal.callers }
        ensures { result ≡ caller_at self.now.terminal caller }
    {
        self.callers.get(caller as usize)
    }

    /// Whether a handle is live.
    pub fn is_open(&self) -> bool
        ensures { IsTrue result ↔ (0 < live self.now.terminal) }
    {
        self.handles.live() > 0
    }

    /// How many characters the flip buffer holds at most.
    pub fn capacity(&self) -> u32
        ensures { result ≡ self.now.terminal.capacity }
    {
        self.capacity
    }

    /// How many ticks passed.
    pub fn tick(&self) -> u64
        ensures { result ≡ self.now.terminal.tick }
    {
        self.tick
    }

    /// How many characters were taken or dropped.
    pub fn taken(&self) -> u64
        ensures { result ≡ self.now.terminal.taken }
    {
        self.taken
    }

    /// How many characters the last line end said were sent.
    pub fn sent(&self) -> u64
        ensures { result ≡ self.now.terminal.sent }
    {
        self.sent
    }

    /// The phase that runs, from 0.
    pub fn phase(&self) -> u32
        ensures { result ≡ self.now.terminal.phase }
    {
        self.phase
    }

    /// Whether the line of the phase is over.
    pub fn line_is_over(&self) -> bool
        ensures { result ≡ self.now.terminal.line_over }
    {
        self.line_over
    }

    /// Whether the clock of the phase is over.
    pub fn clock_is_over(&self) -> bool
        ensures { result ≡ self.now.terminal.clock_over }
    {
        self.clock_over
    }

    /// How many discipline changes, hangups and last closes there were.
    pub fn generation(&self) -> u32
        ensures { result ≡ self.now.terminal.generation }
    {
        self.generation
    }

    /// The latest piece of a flush run.
    pub fn latest_piece(&self) -> Option<Piece>
        ensures { result ≡ self.now.terminal.flushed }
    {
        self.flushed
    }

    /// The bytes that went to the wire.
    pub fn wire(&self) -> &[u8]
        ensures { result.now ≡ self.now.terminal.output.wire }
    {
        self.wire.wire()
    }

    /// What is left at the end.
    pub fn into_end(self) -> PortEnd
        ensures counts { result.counts ≡ self.terminal.tally.counts }
        ensures signals { result.signals.items ≡ self.terminal.tally.signals.items }
        ensures generation { result.generation ≡ self.terminal.generation }
        ensures wire { result.wire.items ≡ self.terminal.output.wire }
    {
        let Terminal {
            disc: _,
            modes: _,
            wire,
            tally,
            handles: _,
            exclusive: _,
            tick: _,
            generation,
            capacity: _,
            taken: _,
            sent: _,
            phase: _,
            line_over: _,
            clock_over: _,
            callers: _,
            flushed: _,
        } = self;
        PortEnd {
            counts: tally.counts,
            signals: tally.signals,
            generation,
            wire: wire.into_wire(),
        }
    }
}
