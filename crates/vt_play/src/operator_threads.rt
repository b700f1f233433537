//! How the operators' threads are made, and how all that work at the board are played side by side.

ghost use Rattle.std.specs.Prelude.{◌≡◌, IfOk};
ghost use Rattle.vt_text.specs.Sessions.{vt_phase_of};
ghost use Rattle.vt_play.specs.Stages.{BoardComes, CanPlayBoard, IsFresh, OperatorComes};

use crate::board_threads::{
    BoardBack, BoardHand, OperatorBack, operator_thread, press_keys, with_operator,
};
use crate::stage::Stage;
use core::thread::Stack;
use std::sync::Wait;
use std::thread::{Promise, PromisedHandle, Scope, Threads};
use tty_base::NoMemory;
use tty_port::Gate;
use vt_consoles::Seat;

/// The size of a thread's stack, as those of a port have it.
const STACK: usize = 1_048_576;

/// An operator's thread has the calls of the operator with this number.
#[derive(Drop)]
pub(crate) struct OperatorPromise<'s> {
    pub(crate) stage: Stage<'s>,
    pub(crate) number: u32,
}

impl<'s> Promise<Result<OperatorBack, NoMemory>> for OperatorPromise<'s> {
    ghost kept_by = { λ p r. IfOk r
        (OperatorComes p.stage.board.now p.stage.names.now (vt_phase_of p.stage.phase.now) p.number) };
}

/// Starts an operator's thread. What its closure captures is plain references: a struct with a lifetime among them
/// would take the closure's `ensures` away.
fn start_operator<'s, E, R: Wait + Sync>(
    scope: &Scope<'s, E>,
    rt: &'s R,
    seat: Seat,
    promise: OperatorPromise<'s>,
) -> Result<PromisedHandle<Result<OperatorBack, NoMemory>, OperatorPromise<'s>>, NoMemory>
    requires { IsFresh promise.stage.board.now promise.number seat }
    ensures { IfOk result (λ h. h.promise ≡ promise.entry) }
{
    let start = promise.stage.start;
    let board = promise.stage.board;
    let names = promise.stage.names;
    let phase = promise.stage.phase;
    let number = promise.number;
    let made = Stack::new().stack_size(STACK).spawn_scoped_with(
        scope,
        promise,
        move || -> Result<OperatorBack, NoMemory>
            requires { IsFresh board.now number seat }
            ensures { IfOk result
                (OperatorComes board.entry.now names.entry.now (vt_phase_of phase.entry.now) number) }
        { operator_thread(rt, start, board, names, phase, seat, number) },
    );
    match made {
        Ok(child) => Ok(child),
        Err(_) => Err(start.refuse(rt)),
    }
}

/// Plays all that work at the board: the operators, each on a thread of its own, and on this one the keyboard, which
/// opens the start once their threads are made.
pub(crate) fn play_board<'s, E, R: Threads + Wait + Sync, G: Gate + Sync>(
    scope: &Scope<'s, E>,
    rt: &'s R,
    gate: &'s G,
    stage: Stage<'s>,
    hand: BoardHand,
) -> Result<BoardBack, NoMemory>
    requires { CanPlayBoard stage hand }
    ensures { IfOk result (BoardComes stage.entry hand) }
{
    let BoardHand { mut seats, keys } = hand;
    let Some(seat) = seats.pop() else {
        let keys = press_keys(rt, gate, stage, keys)?;
        return Ok(BoardBack {
            seats,
            operated: Ok(()),
            keys,
        });
    };
    let number = seats.len() as u32;
    let child = start_operator(scope, rt, seat, OperatorPromise { stage, number })?;
    let others = play_board(scope, rt, gate, stage, BoardHand { seats, keys });
    let one = child.join(rt)?;
    with_operator(others?, one)
}
