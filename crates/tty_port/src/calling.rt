//! Calls of callers.

ghost use Rattle.std.specs.Prelude.{◌≡◌, ◌<◌, ◌≤◌, ◌^◌, false, IfOk, IfErr, OnErr, IfSome, IfNone, sum};
ghost use Rattle.tty_base.specs.Sizes.{MOST_HANDLES};
ghost use Rattle.tty_calls.specs.Plain.{call_of, handle_of, changes, answer_of};
ghost use Rattle.tty_calls.specs.Limits.{byte_count};
ghost use Rattle.port_core.specs.Attempts.{tried_of, done_by};
ghost use Rattle.port_cell.specs.Entries.{generation_of};
ghost use Rattle.port_cell.specs.Word.{generation_in, changing_in};
ghost use Rattle.port_cell.specs.Knowledge.{list_seen, last_word, step_count, install_count};
ghost use Rattle.port_cell.specs.Seats.{KeepsUse};
ghost use Rattle.tty_port.specs.Seen.{IsBetweenCalls};
ghost use Rattle.tty_port.specs.Placed.{ArePlaced};
ghost use Rattle.tty_port.specs.Adding.{IsFull, IsUnderWay};
ghost use Rattle.tty_port.specs.Calls.{Answers, IsAnswered, Pauses};
ghost use Rattle.tty_port.specs.Lines.{MakesNone};
ghost use Rattle.tty_port.specs.Going.{Turns, StepsOn};
ghost use Rattle.tty_port.specs.Shared.{IsHere, IsHolding, name_of_port};

use crate::gates::Gate;
use crate::shared::{Seat, SharedPort};
use crate::waking::Woken;
use port_core::Tried;
use std::sync::Wait;
use tty_calls::{Answer, Call, Denied, Who};

impl SharedPort {
    /// Makes the attempts of a caller's next step until it is answered. A call that cannot change the
    /// discipline holds a reference from its first turn until it waits or is answered. One that can
    /// waits until nobody holds a reference, has its turn then, and installs the generation that it
    /// made.
    pub fn call<R: Wait, G: Gate>(
        &self,
        rt: &R,
        seat: &mut Seat,
        caller: u16,
        step: u32,
        call: &Call,
        gate: &G,
    ) -> Result<Answer, Denied>
        requires seat { IsHere self.now caller seat.old }
        requires known { caller < sum (name_of_port self.now).counts }
        requires number { handle_of (call_of call.now) < MOST_HANDLES }
        requires bytes { byte_count (call_of call.now) < 2 ^ 32 }
        requires ready { IsBetweenCalls caller step (list_seen seat.old) }
        ensures seat { IsHere self.now caller seat.new }
        ensures placed { ArePlaced (name_of_port self.now).callers (sum (name_of_port self.now).counts)
            (list_seen seat.new) }
        ensures ok { IfOk result (λ a. Answers caller step (call_of call.now) (answer_of a) seat.old seat.new) }
        ensures err { OnErr result (Pauses caller step (call_of call.now) seat.old seat.new) }
        ensures full { IfErr result (λ d. IsFull (name_of_port self.now) d (list_seen seat.new)) }
    {
        if call.changes() {
            gate.pass(rt, Who::Caller(caller), step, 0);
            self.mark_alone(rt, seat);
            return self.change(rt, seat, caller, step, call);
        }
        self.hold(rt, seat);
        let result = self.go_on(rt, seat, caller, step, call, gate);
        self.release(seat);
        result
    }

    /// Makes the attempts of a call under a reference, which is given back while the call waits.
    fn go_on<R: Wait, G: Gate>(
        &self,
        rt: &R,
        seat: &mut Seat,
        caller: u16,
        step: u32,
        call: &Call,
        gate: &G,
    ) -> Result<Answer, Denied>
        requires seat { IsHolding self.now caller seat.old }
        requires found { changing_in (last_word seat.old) ≡ 0 }
        requires known { caller < sum (name_of_port self.now).counts }
        requires number { handle_of (call_of call.now) < MOST_HANDLES }
        requires bytes { byte_count (call_of call.now) < 2 ^ 32 }
        requires keeps { changes (call_of call.now) ≡ false }
        requires ready { IsUnderWay caller step (call_of call.now) (generation_in (last_word seat.old))
            (list_seen seat.old) }
        ensures seat { IsHolding self.now caller seat.new }
        ensures placed { ArePlaced (name_of_port self.now).callers (sum (name_of_port self.now).counts)
            (list_seen seat.new) }
        ensures steps { step_count seat.old ≤ step_count seat.new }
        ensures found { changing_in (last_word seat.new) ≡ 0 }
        ensures ok { IfOk result (λ a. IsAnswered caller step (call_of call.now) (answer_of a) seat.old seat.new) }
        ensures err { OnErr result (Pauses caller step (call_of call.now) seat.old seat.new) }
        ensures full { IfErr result (λ d. IsFull (name_of_port self.now) d (list_seen seat.new)) }
    {
        let mut turns: u32 = 0;
        let mut waits = false;
        for _ in rt.forever() {
            gate.pass(rt, Who::Caller(caller), step, turns);
            match self.step_on(rt, seat, caller, step, call, &mut waits) {
                Ok(Some(answer)) => return Ok(answer),
                Ok(None) => turns = turns.saturating_add(1),
                Err(denied) => return Err(denied),
            }
        }
        unreachable!()
    }

    /// One attempt of a call under a reference. Where the call must wait, the reference is given back
    /// for a while; `waits` tells whether it has waited before.
    fn step_on<R: Wait>(
        &self,
        rt: &R,
        seat: &mut Seat,
        caller: u16,
        step: u32,
        call: &Call,
        waits: &mut bool,
    ) -> Result<Option<Answer>, Denied>
        requires seat { IsHolding self.now caller seat.old }
        requires found { changing_in (last_word seat.old) ≡ 0 }
        requires known { caller < sum (name_of_port self.now).counts }
        requires number { handle_of (call_of call.now) < MOST_HANDLES }
        requires bytes { byte_count (call_of call.now) < 2 ^ 32 }
        requires keeps { changes (call_of call.now) ≡ false }
        requires ready { IsUnderWay caller step (call_of call.now) (generation_in (last_word seat.old))
            (list_seen seat.old) }
        ensures seat { IsHolding self.now caller seat.new }
        ensures placed { ArePlaced (name_of_port self.now).callers (sum (name_of_port self.now).counts)
            (list_seen seat.new) }
        ensures found { changing_in (last_word seat.new) ≡ 0 }
        ensures steps { step_count seat.old ≤ step_count seat.new }
        ensures installs { install_count seat.new ≡ install_count seat.old }
        ensures none { IfOk result
            (λ answered. IfNone answered (StepsOn caller step (call_of call.now) seat.old seat.new)) }
        ensures some { IfOk result (λ answered. IfSome answered (λ a. Turns caller step (call_of call.now)
            (generation_in (last_word seat.new)) seat.old seat.new (done_by (answer_of a)))) }
        ensures generation { IfOk result (λ answered.
            IfSome answered (λ a. generation_of (list_seen seat.new) ≡ generation_in (last_word seat.new))) }
        ensures same { IfOk result (λ answered.
            IfSome answered (λ a. generation_in (last_word seat.new) ≡ generation_in (last_word seat.old))) }
        ensures err { OnErr result (MakesNone seat.old seat.new) }
        ensures full { IfErr result (λ d. IsFull (name_of_port self.now) d (list_seen seat.new)) }
    {
        let since = self.cell.for_change.changes();
        match self.attempt(rt, seat, caller, step, call) {
            Ok(Tried::Done(answer)) => Ok(Some(answer)),
            Ok(Tried::Part) => Ok(None),
            Ok(Tried::MustWait) => {
                self.rest(rt, seat, waits.then_some(since));
                *waits = true;
                Ok(None)
            }
            Err(denied) => Err(denied),
        }
    }

    /// One attempt of a call under a reference.
    fn attempt<R: Wait>(
        &self,
        rt: &R,
        seat: &mut Seat,
        caller: u16,
        step: u32,
        call: &Call,
    ) -> Result<Tried, Denied>
        requires seat { IsHolding self.now caller seat.old }
        requires known { caller < sum (name_of_port self.now).counts }
        requires number { handle_of (call_of call.now) < MOST_HANDLES }
        requires bytes { byte_count (call_of call.now) < 2 ^ 32 }
        requires keeps { changes (call_of call.now) ≡ false }
        requires ready { IsUnderWay caller step (call_of call.now) (generation_in (last_word seat.old))
            (list_seen seat.old) }
        ensures seat { IsHolding self.now caller seat.new }
        ensures placed { ArePlaced (name_of_port self.now).callers (sum (name_of_port self.now).counts)
            (list_seen seat.new) }
        ensures references { KeepsUse seat.old seat.new }
        ensures tried { IfOk result (λ tried. Turns caller step (call_of call.now) (generation_in (last_word seat.old))
            seat.old seat.new (tried_of tried)) }
        ensures generation { generation_of (list_seen seat.new) ≡ generation_in (last_word seat.old) }
        ensures err { OnErr result (MakesNone seat.old seat.new) }
        ensures full { IfErr result (λ d. IsFull (name_of_port self.now) d (list_seen seat.new)) }
    {
        let (mut turn, found) = self.begin_turn(rt, seat);
        let tried = turn.value().attempt(caller, step, call);
        self.end_turn(seat, turn, found, woken_by(call, &tried));
        tried
    }
}

/// Who may go on after an attempt. A call that waits, or is told that all wait, left everything as it was;
/// of the others some only ask, a write leaves less room, and a read leaves more of it to the flusher.
fn woken_by(call: &Call, tried: &Result<Tried, Denied>) -> Woken {
    match (tried, call) {
        (Ok(Tried::MustWait | Tried::Done(Answer::Idle)), _) => Woken::Nobody,
        (Ok(_), Call::Read { .. }) => Woken::Flusher,
        (
            Ok(_),
            Call::Write { .. }
            | Call::GetModes { .. }
            | Call::GetDisc { .. }
            | Call::Counts { .. }
            | Call::Inq { .. }
            | Call::Outq { .. },
        ) => Woken::Nobody,
        _ => Woken::All,
    }
}
