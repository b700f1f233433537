//! Flush runs.

ghost use Rattle.std.specs.Prelude.{◌≡◌, ◌≤◌, ℕ, IfOk, IfErr, OnOk, OnErr, sum};
ghost use Rattle.tty_base.specs.Sizes.{MOST_ENTRIES};
ghost use Rattle.port_cell.specs.Word.{generation_in};
ghost use Rattle.port_cell.specs.Knowledge.{list_seen, last_word};
ghost use Rattle.port_cell.specs.Seats.{KeepsUse};
ghost use Rattle.tty_port.specs.Seen.{next_run, terminal_at};
ghost use Rattle.tty_port.specs.Placed.{ArePlaced};
ghost use Rattle.tty_port.specs.Adding.{IsFull};
ghost use Rattle.tty_port.specs.Flushing.{FlushesRun, HasNothingLeft, GoesOnAt};
ghost use Rattle.tty_port.specs.Lines.{MakesNone};
ghost use Rattle.tty_port.specs.Going.{FlushTurns, IsFlushing};
ghost use Rattle.tty_port.specs.Shared.{IsHere, IsHolding, name_of_port};

use crate::shared::{Seat, SharedPort};
use crate::waking::Woken;
use port_core::Flushed;
use std::sync::Wait;
use tty_calls::Denied;

impl SharedPort {
    /// Flushes what is sent and not taken, piece by piece under one reference, until a turn finds
    /// that no handle is live, that the discipline does not accept, or that nothing is left; and
    /// answers how many characters went.
    pub fn flush_run<R: Wait>(&self, rt: &R, seat: &mut Seat, run: u32) -> Result<u32, Denied>
        requires seat { IsHere self.now (name_of_port self.now).callers seat.old }
        requires next { run ≡ next_run (list_seen seat.old) }
        ensures seat { IsHere self.now (name_of_port self.now).callers seat.new }
        ensures placed { ArePlaced (name_of_port self.now).callers (sum (name_of_port self.now).counts)
            (list_seen seat.new) }
        ensures ok { IfOk result (λ n. FlushesRun (name_of_port self.now) run n seat.old seat.new) }
        ensures last { OnOk result (HasNothingLeft (terminal_at (name_of_port self.now) (list_seen seat.new))) }
        ensures err { OnErr result ((n : ℕ) × FlushesRun (name_of_port self.now) run n seat.old seat.new) }
        ensures full { IfErr result (λ d. IsFull (name_of_port self.now) d (list_seen seat.new)) }
        ensures few { next_run (list_seen seat.new) ≤ MOST_ENTRIES }
    {
        self.note_flusher_look();
        self.hold(rt, seat);
        let result = self.flush_held(rt, seat, run);
        self.release(seat);
        self.wake(woken_by_run(&result));
        result
    }

    /// The pieces of a flush run, under a reference.
    fn flush_held<R: Wait>(&self, rt: &R, seat: &mut Seat, run: u32) -> Result<u32, Denied>
        requires seat { IsHolding self.now (name_of_port self.now).callers seat.old }
        requires next { run ≡ next_run (list_seen seat.old) }
        ensures seat { IsHolding self.now (name_of_port self.now).callers seat.new }
        ensures placed { ArePlaced (name_of_port self.now).callers (sum (name_of_port self.now).counts)
            (list_seen seat.new) }
        ensures references { KeepsUse seat.old seat.new }
        ensures ok { IfOk result (λ n. (part : ℕ) × IsFlushing (name_of_port self.now) run part n seat.old seat.new) }
        ensures last { OnOk result (HasNothingLeft (terminal_at (name_of_port self.now) (list_seen seat.new))) }
        ensures err { OnErr result
            ((part : ℕ) × (n : ℕ) × IsFlushing (name_of_port self.now) run part n seat.old seat.new) }
        ensures full { IfErr result (λ d. IsFull (name_of_port self.now) d (list_seen seat.new)) }
        ensures few { next_run (list_seen seat.new) ≤ MOST_ENTRIES }
    {
        let mut count = 0;
        let mut part = 0;
        for _ in rt.forever() {
            match self.flush_once(rt, seat, run, part) {
                Ok(Flushed::Took(taken)) => {
                    count += taken;
                    part += 1;
                }
                Ok(Flushed::Nothing) => return Ok(count),
                Err(denied) => return Err(denied),
            }
        }
        unreachable!()
    }

    /// One piece.
    fn flush_once<R: Wait>(
        &self,
        rt: &R,
        seat: &mut Seat,
        run: u32,
        part: u32,
    ) -> Result<Flushed, Denied>
        requires seat { IsHolding self.now (name_of_port self.now).callers seat.old }
        requires piece { GoesOnAt run part (generation_in (last_word seat.old)) (list_seen seat.old) }
        ensures seat { IsHolding self.now (name_of_port self.now).callers seat.new }
        ensures placed { ArePlaced (name_of_port self.now).callers (sum (name_of_port self.now).counts)
            (list_seen seat.new) }
        ensures references { KeepsUse seat.old seat.new }
        ensures flushed { IfOk result (λ flushed. FlushTurns (name_of_port self.now) run part
            (generation_in (last_word seat.old)) seat.old seat.new flushed) }
        ensures err { OnErr result (MakesNone seat.old seat.new) }
        ensures next { OnErr result (next_run (list_seen seat.new) ≡ next_run (list_seen seat.old)) }
        ensures full { IfErr result (λ d. IsFull (name_of_port self.now) d (list_seen seat.new)) }
        ensures few { next_run (list_seen seat.new) ≤ MOST_ENTRIES }
    {
        let (mut turn, found) = self.begin_turn(rt, seat);
        let flushed = turn.value().flush_piece(run, part);
        self.end_turn(seat, turn, found, woken_by_piece(part, &flushed));
        flushed
    }
}

/// Who is woken by a piece: all by the first of a run, to take its characters while more come, and nobody
/// by each of the next, since all are woken once more at the end of the run.
fn woken_by_piece(part: u32, flushed: &Result<Flushed, Denied>) -> Woken {
    match flushed {
        Ok(Flushed::Took(_)) if part == 0 => Woken::All,
        _ => Woken::Nobody,
    }
}

/// Who is woken at the end of a run.
fn woken_by_run(run: &Result<u32, Denied>) -> Woken {
    match run {
        Ok(0) => Woken::Nobody,
        _ => Woken::All,
    }
}
