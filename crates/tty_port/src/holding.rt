//! References, and the mark of a seat that is about to change the generation.

ghost use Rattle.std.specs.Prelude.{◌≡◌, ◌<◌};
ghost use Rattle.port_cell.specs.Word.{changing_in, users_in};
ghost use Rattle.port_cell.specs.Knowledge.{number_of, last_word, step_count};
ghost use Rattle.port_cell.specs.Seats.{KeepsTurn, KeepsWord};
ghost use Rattle.tty_port.specs.Shared.{IsHere, IsHolding, IsMarking, IsByItself};

use crate::shared::{Seat, SharedPort};
use change_wait::ChangeCount;
use std::sync::Wait;

impl SharedPort {
    /// Waits for a reference.
    pub(crate) fn hold<R: Wait>(&self, rt: &R, seat: &mut Seat)
        requires { IsHere self.now (number_of seat.old) seat.old }
        ensures seat { IsHolding self.now (number_of seat.old) seat.new }
        ensures turn { KeepsTurn seat.old seat.new }
        ensures stepped { step_count seat.old < step_count seat.new }
        ensures clear { changing_in (last_word seat.new) ≡ 0 }
    {
        for _ in rt.forever() {
            let since = self.cell.for_change.changes();
            match self.cell.enter(seat) {
                Ok(_) => return,
                Err(_) => self.cell.park(rt, seat, since),
            }
        }
        unreachable!()
    }

    /// Gives the reference back.
    pub(crate) fn release(&self, seat: &mut Seat)
        requires { IsHolding self.now (number_of seat.old) seat.old }
        ensures seat { IsHere self.now (number_of seat.old) seat.new }
        ensures turn { KeepsTurn seat.old seat.new }
        ensures word { KeepsWord seat.old seat.new }
    {
        self.cell.leave(seat);
    }

    /// Gives the reference back for a while. Where a count of changes is given, it waits for one since. The
    /// first rest of a call is short: when it began to wait, nobody else was woken to see that all wait.
    pub(crate) fn rest<R: Wait>(&self, rt: &R, seat: &mut Seat, since: Option<ChangeCount>)
        requires { IsHolding self.now (number_of seat.old) seat.old }
        ensures seat { IsHolding self.now (number_of seat.old) seat.new }
        ensures turn { KeepsTurn seat.old seat.new }
        ensures stepped { step_count seat.old < step_count seat.new }
        ensures clear { changing_in (last_word seat.new) ≡ 0 }
    {
        self.release(seat);
        if let Some(since) = since {
            self.cell.park(rt, seat, since);
        }
        self.hold(rt, seat);
    }

    /// Waits for the mark, which keeps others from taking a reference.
    fn mark<R: Wait>(&self, rt: &R, seat: &mut Seat)
        requires { IsHere self.now (number_of seat.old) seat.old }
        ensures seat { IsMarking self.now (number_of seat.old) seat.new }
        ensures turn { KeepsTurn seat.old seat.new }
        ensures stepped { step_count seat.old < step_count seat.new }
    {
        for _ in rt.forever() {
            let since = self.cell.for_change.changes();
            match self.cell.mark(seat) {
                Ok(()) => return,
                Err(_) => self.cell.park(rt, seat, since),
            }
        }
        unreachable!()
    }

    /// Waits until those who had a reference have given it back.
    fn await_users<R: Wait>(&self, rt: &R, seat: &mut Seat)
        requires { IsMarking self.now (number_of seat.old) seat.old }
        ensures seat { IsByItself self.now (number_of seat.old) seat.new }
        ensures turn { KeepsTurn seat.old seat.new }
        ensures stepped { step_count seat.old < step_count seat.new }
        ensures unused { users_in (last_word seat.new) ≡ 0 }
    {
        for _ in rt.forever() {
            let since = self.cell.for_change.changes();
            match self.cell.settled(seat) {
                Ok(()) => return,
                Err(_) => self.cell.park(rt, seat, since),
            }
        }
        unreachable!()
    }

    /// Marks the generation, and waits until nobody holds a reference to it.
    pub(crate) fn mark_alone<R: Wait>(&self, rt: &R, seat: &mut Seat)
        requires { IsHere self.now (number_of seat.old) seat.old }
        ensures seat { IsByItself self.now (number_of seat.old) seat.new }
        ensures turn { KeepsTurn seat.old seat.new }
        ensures stepped { step_count seat.old < step_count seat.new }
        ensures unused { users_in (last_word seat.new) ≡ 0 }
    {
        self.mark(rt, seat);
        self.await_users(rt, seat);
    }
}
