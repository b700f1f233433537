//! One turn with the port.

ghost use Rattle.std.specs.Prelude.{◌≡◌, ◌+◌, ◌<◌, ◌≤◌, true, false, Some, IfErr, OnOk, OnErr, length, sum};
ghost use Rattle.tty_calls.specs.Plain.{ticked, clock_ended, caller_ended};
ghost use Rattle.tty_calls.specs.declared.journals.Who.TheVariants.{Caller, Clock};
ghost use Rattle.tty_terminal.specs.Steps.{may_end};
ghost use Rattle.port_cell.specs.Entries.{generation_of, AddsBy, Keeps};
ghost use Rattle.port_cell.specs.Knowledge.{number_of, name_of, list_seen, own_entries, user_of, has_turn, is_raised};
ghost use Rattle.port_cell.specs.Seats.{IsSeat, IsSameSeat, KeepsUse};
ghost use Rattle.port_cell.specs.Lent.{value_in};
ghost use Rattle.port_cell.specs.Views.{Knows};
ghost use Rattle.tty_port.specs.Histories.{history_of, name_of as port_name, seat_of};
ghost use Rattle.tty_port.specs.Seen.{standing_at, marks_at, terminal_at, IsBetweenCalls};
ghost use Rattle.tty_port.specs.Placed.{ArePlaced};
ghost use Rattle.tty_port.specs.Adding.{IsEntry, IsFull};
ghost use Rattle.tty_port.specs.Lines.{MakesOne, MakesNone, EndsLine};
ghost use Rattle.tty_port.specs.PhaseEvents.{CanFollow, IsEventEntry, maker_of};
ghost use Rattle.tty_port.specs.Shared.{IsHere, IsFound, name_of_port, table_of};

use crate::kept_port::KeptPort;
use crate::phase_events::PhaseEvent;
use crate::shared::{Seat, SharedPort};
use crate::waking::Woken;
use flip_buffer::FlipIn;
use port_cell::Turn;
use std::sync::Wait;
use tty_calls::Denied;

impl SharedPort {
    /// Takes a turn, and tells how many entries it found.
    pub(crate) fn begin_turn<R: Wait>(&self, rt: &R, seat: &mut Seat) -> (Turn<KeptPort>, u64)
        requires seat { IsSeat (table_of self.now) seat.old }
        requires named { name_of seat.old ≡ Some (name_of_port self.now) }
        requires none { has_turn seat.old ≡ false }
        ensures seat { IsSeat (table_of self.now) seat.new }
        ensures same { IsSameSeat seat.old seat.new }
        ensures references { KeepsUse seat.old seat.new }
        ensures turn { has_turn seat.new ≡ true }
        ensures lowered { is_raised seat.new ≡ false }
        ensures seen { list_seen seat.new ≡ history_of (value_in result.0) }
        ensures name { name_of seat.old ≡ Some (port_name (value_in result.0)) }
        ensures list { Keeps (number_of seat.old) (list_seen seat.old) (history_of (value_in result.0)) }
        ensures own { own_entries seat.new ≡ own_entries seat.old }
        ensures generation { Knows (generation_of (history_of (value_in result.0))) (user_of seat.old) }
        ensures found { IsFound (name_of_port self.now) (number_of seat.old) seat.old (value_in result.0) }
        ensures count { result.1 ≡ length (history_of (value_in result.0)) }
    {
        let mut turn = self.cell.turn(rt, seat);
        let count = turn.value().entry_count();
        (turn, count)
    }

    /// Notes what this turn added to so many entries, where that is anything, and gives the turn back. Then
    /// wakes those who may go on.
    pub(crate) fn end_turn(
        &self,
        seat: &mut Seat,
        mut turn: Turn<KeptPort>,
        found: u64,
        woken: Woken,
    )
        requires seat { IsSeat (table_of self.now) seat.old }
        requires turn { has_turn seat.old ≡ true }
        requires lowered { is_raised seat.old ≡ false }
        requires found { found ≡ length (list_seen seat.old) }
        requires name { name_of seat.old ≡ Some (port_name (value_in turn)) }
        requires named { port_name (value_in turn) ≡ name_of_port self.now }
        requires list { AddsBy (number_of seat.old) (list_seen seat.old) (history_of (value_in turn)) }
        requires generation { generation_of (history_of (value_in turn)) ≡ generation_of (list_seen seat.old) }
        ensures seat { IsSeat (table_of self.now) seat.new }
        ensures same { IsSameSeat seat.old seat.new }
        ensures references { KeepsUse seat.old seat.new }
        ensures turn { has_turn seat.new ≡ false }
        ensures lowered { is_raised seat.new ≡ false }
        ensures list { list_seen seat.new ≡ history_of (value_in turn) }
        ensures placed { ArePlaced (name_of_port self.now).callers (sum (name_of_port self.now).counts)
            (list_seen seat.new) }
    {
        if turn.value().entry_count() != found {
            self.cell.note(seat, &mut turn);
        }
        self.cell.give(seat, turn);
        self.wake(woken);
    }

    /// Has an event of the phase happen, in a turn of its own.
    fn happen<R: Wait>(&self, rt: &R, seat: &mut Seat, event: PhaseEvent) -> Result<(), Denied>
        requires seat { IsHere self.now (seat_of (name_of_port self.now).callers (maker_of event)) seat.old }
        requires can { CanFollow (sum (name_of_port self.now).counts) event (list_seen seat.old) }
        ensures seat { IsHere self.now (seat_of (name_of_port self.now).callers (maker_of event)) seat.new }
        ensures references { KeepsUse seat.old seat.new }
        ensures ok { OnOk result (MakesOne
            (IsEventEntry (name_of_port self.now).callers event (list_seen seat.old)) seat.old seat.new) }
        ensures placed { ArePlaced (name_of_port self.now).callers (sum (name_of_port self.now).counts)
            (list_seen seat.new) }
        ensures err { OnErr result (MakesNone seat.old seat.new) }
        ensures full { IfErr result (λ d. IsFull (name_of_port self.now) d (list_seen seat.new)) }
    {
        let (mut turn, found) = self.begin_turn(rt, seat);
        let result = turn.value().happen(event);
        self.end_turn(seat, turn, found, Woken::All);
        result
    }

    /// A tenth of a second passed.
    pub fn tick<R: Wait>(&self, rt: &R, seat: &mut Seat) -> Result<(), Denied>
        requires seat { IsHere self.now ((name_of_port self.now).callers + 2) seat.old }
        requires not_over { (marks_at (list_seen seat.old)).clock_over ≡ false }
        ensures seat { IsHere self.now ((name_of_port self.now).callers + 2) seat.new }
        ensures references { KeepsUse seat.old seat.new }
        ensures ok { OnOk result (MakesOne
            (λ before. IsEntry ((name_of_port self.now).callers + 2) Clock (marks_at before).phase ticked)
            seat.old seat.new) }
        ensures placed { ArePlaced (name_of_port self.now).callers (sum (name_of_port self.now).counts)
            (list_seen seat.new) }
        ensures err { OnErr result (MakesNone seat.old seat.new) }
        ensures full { IfErr result (λ d. IsFull (name_of_port self.now) d (list_seen seat.new)) }
    {
        self.happen(rt, seat, PhaseEvent::Tick)
    }

    /// The clock of the phase is over.
    pub fn clock_end<R: Wait>(&self, rt: &R, seat: &mut Seat) -> Result<(), Denied>
        requires seat { IsHere self.now ((name_of_port self.now).callers + 2) seat.old }
        requires not_over { (marks_at (list_seen seat.old)).clock_over ≡ false }
        ensures seat { IsHere self.now ((name_of_port self.now).callers + 2) seat.new }
        ensures references { KeepsUse seat.old seat.new }
        ensures ok { OnOk result (MakesOne
            (λ before. IsEntry ((name_of_port self.now).callers + 2) Clock (marks_at before).phase clock_ended)
            seat.old seat.new) }
        ensures placed { ArePlaced (name_of_port self.now).callers (sum (name_of_port self.now).counts)
            (list_seen seat.new) }
        ensures err { OnErr result (MakesNone seat.old seat.new) }
        ensures full { IfErr result (λ d. IsFull (name_of_port self.now) d (list_seen seat.new)) }
    {
        self.happen(rt, seat, PhaseEvent::ClockEnd)
    }

    /// The line of the phase is over: all that its putter put was sent. Both ends of the flip buffer
    /// meet.
    pub fn line_end<R: Wait>(
        &self,
        rt: &R,
        seat: &mut Seat,
        putter: &mut FlipIn,
    ) -> Result<(), Denied>
        requires seat { IsHere self.now ((name_of_port self.now).callers + 1) seat.old }
        requires not_over { (marks_at (list_seen seat.old)).line_over ≡ false }
        requires ring { putter.old.ring ≡ (name_of_port self.now).ring }
        requires sent { (marks_at (list_seen seat.old)).sent ≤ length putter.old.sent }
        ensures seat { IsHere self.now ((name_of_port self.now).callers + 1) seat.new }
        ensures references { KeepsUse seat.old seat.new }
        ensures ok { OnOk result
            (MakesOne (EndsLine ((name_of_port self.now).callers + 1) putter.old putter.new) seat.old seat.new) }
        ensures placed { ArePlaced (name_of_port self.now).callers (sum (name_of_port self.now).counts)
            (list_seen seat.new) }
        ensures putter { OnErr result (putter.new ≡ putter.old) }
        ensures err { OnErr result (MakesNone seat.old seat.new) }
        ensures full { IfErr result (λ d. IsFull (name_of_port self.now) d (list_seen seat.new)) }
    {
        let (mut turn, found) = self.begin_turn(rt, seat);
        let result = turn.value().line_end(putter);
        self.end_turn(seat, turn, found, Woken::All);
        result
    }

    /// The calls of a caller in the phase that runs are over. It is a caller of this phase.
    pub fn caller_end<R: Wait>(&self, rt: &R, seat: &mut Seat, caller: u16) -> Result<(), Denied>
        requires seat { IsHere self.now caller seat.old }
        requires known { caller < sum (name_of_port self.now).counts }
        requires between { IsBetweenCalls caller (standing_at caller (list_seen seat.old)).next (list_seen seat.old) }
        ensures seat { IsHere self.now caller seat.new }
        ensures references { KeepsUse seat.old seat.new }
        ensures ok { OnOk result (MakesOne
            (λ before. IsEntry caller (Caller caller) (standing_at caller (list_seen seat.old)).next caller_ended)
            seat.old seat.new) }
        ensures placed { ArePlaced (name_of_port self.now).callers (sum (name_of_port self.now).counts)
            (list_seen seat.new) }
        ensures err { OnErr result (MakesNone seat.old seat.new) }
        ensures full { IfErr result (λ d. IsFull (name_of_port self.now) d (list_seen seat.new)) }
    {
        self.happen(rt, seat, PhaseEvent::CallerEnd(caller))
    }

    /// Whether the phase that runs may end: line, clock and all its callers are over, and nothing is
    /// left to flush.
    pub fn ended<R: Wait>(&self, rt: &R, seat: &mut Seat) -> bool
        requires { IsHere self.now (number_of seat.old) seat.old }
        ensures seat { IsHere self.now (number_of seat.old) seat.new }
        ensures references { KeepsUse seat.old seat.new }
        ensures kept { MakesNone seat.old seat.new }
        ensures ended { result
            ≡ may_end (name_of_port self.now).counts (terminal_at (name_of_port self.now) (list_seen seat.new)) }
        ensures placed { ArePlaced (name_of_port self.now).callers (sum (name_of_port self.now).counts)
            (list_seen seat.new) }
    {
        let (mut turn, _) = self.begin_turn(rt, seat);
        let ended = turn.value().may_end();
        self.cell.give(seat, turn);
        ended
    }
}
