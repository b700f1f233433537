//! Calls that may change the line discipline.

ghost use Rattle.std.specs.Prelude.{◌≡◌, ◌+◌, ◌<◌, ◌≤◌, ◌^◌, true, false, Some, IfOk};
ghost use Rattle.std.specs.Prelude.{IfErr, OnErr, MatchBool, length, sum, if◌then◌else◌};
ghost use Rattle.tty_base.specs.Sizes.{MOST_ENTRIES, MOST_HANDLES};
ghost use Rattle.tty_calls.specs.Plain.{call_of, handle_of, changes, answer_of};
ghost use Rattle.tty_calls.specs.Limits.{byte_count};
ghost use Rattle.port_cell.specs.Entries.{generation_of, AddsBy};
ghost use Rattle.port_cell.specs.declared.view.User.TheVariants.{Free};
ghost use Rattle.port_cell.specs.Knowledge.{number_of, name_of, list_seen, user_of};
ghost use Rattle.port_cell.specs.Knowledge.{has_turn, is_raised, install_count, IsAlone};
ghost use Rattle.port_cell.specs.Seats.{IsSeat, IsSameSeat, KeepsWord};
ghost use Rattle.port_cell.specs.Lent.{value_in};
ghost use Rattle.tty_port.specs.Histories.{history_of, name_of as port_name};
ghost use Rattle.tty_port.specs.Seen.{IsBetweenCalls};
ghost use Rattle.tty_port.specs.Placed.{ArePlaced};
ghost use Rattle.tty_port.specs.Adding.{IsFull};
ghost use Rattle.tty_port.specs.Lines.{MakesNone};
ghost use Rattle.tty_port.specs.Going.{Changes};
ghost use Rattle.tty_port.specs.Shared.{IsHere, IsByItself, name_of_port, table_of};

use crate::kept_port::KeptPort;
use crate::shared::{Seat, SharedPort};
use crate::waking::Woken;
use port_cell::{Kept, Turn};
use port_core::Tried;
use std::sync::Wait;
use tty_calls::{Answer, Call, Denied};

impl SharedPort {
    /// The turn of a call that may change the discipline, while nobody holds a reference.
    pub(crate) fn change<R: Wait>(
        &self,
        rt: &R,
        seat: &mut Seat,
        caller: u16,
        step: u32,
        call: &Call,
    ) -> Result<Answer, Denied>
        requires seat { IsByItself self.now caller seat.old }
        requires known { caller < sum (name_of_port self.now).counts }
        requires number { handle_of (call_of call.now) < MOST_HANDLES }
        requires bytes { byte_count (call_of call.now) < 2 ^ 32 }
        requires may { changes (call_of call.now) ≡ true }
        requires ready { IsBetweenCalls caller step (list_seen seat.old) }
        ensures seat { IsHere self.now caller seat.new }
        ensures placed { ArePlaced (name_of_port self.now).callers (sum (name_of_port self.now).counts)
            (list_seen seat.new) }
        ensures word { KeepsWord seat.old seat.new }
        ensures ok { IfOk result (λ a. Changes caller step (call_of call.now) (answer_of a) seat.old seat.new) }
        ensures err { OnErr result (MakesNone seat.old seat.new) }
        ensures none { OnErr result (install_count seat.new ≡ install_count seat.old) }
        ensures full { IfErr result (λ d. IsFull (name_of_port self.now) d (list_seen seat.new)) }
    {
        let (mut turn, found) = self.begin_turn(rt, seat);
        let before = turn.value().generation();
        let tried = turn.value().attempt(caller, step, call);
        let raised = turn.value().generation() != before;
        self.settle(seat, turn, found, raised);
        match tried {
            Ok(Tried::Done(answer)) => Ok(answer),
            Ok(_) => unreachable!(),
            Err(denied) => Err(denied),
        }
    }

    /// Notes what this turn added to so many entries, installs the generation where it was raised, and
    /// gives mark and turn back.
    fn settle(&self, seat: &mut Seat, turn: Turn<KeptPort>, found: u64, raised: bool)
        requires seat { IsSeat (table_of self.now) seat.old }
        requires turn { has_turn seat.old ≡ true }
        requires alone { IsAlone seat.old }
        requires lowered { is_raised seat.old ≡ false }
        requires found { found ≡ length (list_seen seat.old) }
        requires name { name_of seat.old ≡ Some (port_name (value_in turn)) }
        requires named { port_name (value_in turn) ≡ name_of_port self.now }
        requires list { AddsBy (number_of seat.old) (list_seen seat.old) (history_of (value_in turn)) }
        requires generation { MatchBool raised
            ((generation_of (history_of (value_in turn)) ≡ generation_of (list_seen seat.old) + 1)
            × (generation_of (history_of (value_in turn)) ≤ MOST_ENTRIES))
            (generation_of (history_of (value_in turn)) ≡ generation_of (list_seen seat.old)) }
        ensures seat { IsSeat (table_of self.now) seat.new }
        ensures same { IsSameSeat seat.old seat.new }
        ensures word { KeepsWord seat.old seat.new }
        ensures turn { has_turn seat.new ≡ false }
        ensures user { user_of seat.new ≡ Free }
        ensures list { list_seen seat.new ≡ history_of (value_in turn) }
        ensures installed { install_count seat.new
            ≡ (if raised then install_count seat.old + 1 else install_count seat.old) }
    {
        if raised {
            self.install(seat, turn);
        } else {
            self.end_turn(seat, turn, found, Woken::All);
            self.cell.unmark(seat);
        }
    }

    /// Installs the generation that this turn raised, and gives the turn back.
    fn install(&self, seat: &mut Seat, mut turn: Turn<KeptPort>)
        requires seat { IsSeat (table_of self.now) seat.old }
        requires turn { has_turn seat.old ≡ true }
        requires alone { IsAlone seat.old }
        requires lowered { is_raised seat.old ≡ false }
        requires name { name_of seat.old ≡ Some (port_name (value_in turn)) }
        requires list { AddsBy (number_of seat.old) (list_seen seat.old) (history_of (value_in turn)) }
        requires raised { generation_of (history_of (value_in turn)) ≡ generation_of (list_seen seat.old) + 1 }
        requires few { generation_of (history_of (value_in turn)) ≤ MOST_ENTRIES }
        ensures seat { IsSeat (table_of self.now) seat.new }
        ensures same { IsSameSeat seat.old seat.new }
        ensures word { KeepsWord seat.old seat.new }
        ensures turn { has_turn seat.new ≡ false }
        ensures user { user_of seat.new ≡ Free }
        ensures list { list_seen seat.new ≡ history_of (value_in turn) }
        ensures installed { install_count seat.new ≡ install_count seat.old + 1 }
    {
        self.cell.note(seat, &mut turn);
        self.cell.install(seat, &mut turn);
        self.cell.give(seat, turn);
        self.wake_flusher();
    }
}
