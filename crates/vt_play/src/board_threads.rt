//! Who works at the board in a phase: the operators, each on a thread of its own, and the keyboard.

ghost use Rattle.std.specs.Prelude.{IfOk};
ghost use Rattle.vt_text.specs.Sessions.{vt_phase_of};
ghost use Rattle.vt_play.specs.Stages.{CanKey, IsFresh, IsWithOperator, KeyboardComes, OperatorComes};

use crate::stage::Stage;
use crate::taking::both;
use many_threads::Start;
use std::sync::Wait;
use tty_base::NoMemory;
use tty_calls::{Denied, Names};
use tty_port::Gate;
use vt_consoles::{Seat, SharedBoard};
use vt_keyboard::{KeyWork, Keyboard, operate, play_keyboard};
use vt_text::VtPhase;

/// What an operator's thread brings back.
#[derive(Drop)]
pub(crate) struct OperatorBack {
    pub(crate) seat: Seat,
    pub(crate) result: Result<(), Denied>,
}

/// What the keyboard has of a phase: its seat at the board, and the consoles' lines.
#[derive(Drop)]
pub(crate) struct KeyHand {
    pub(crate) seat: Seat,
    pub(crate) keyboard: Keyboard,
}

/// What it brings back.
#[derive(Drop)]
pub(crate) struct KeyBack {
    pub(crate) hand: KeyHand,
    pub(crate) result: Result<(), Denied>,
}

/// The seats of the operators by their numbers, and what the keyboard has.
#[derive(Drop)]
pub(crate) struct BoardHand {
    pub(crate) seats: Vec<Seat>,
    pub(crate) keys: KeyHand,
}

/// What all that work at the board bring back, and whether an operator was denied a call.
#[derive(Drop)]
pub(crate) struct BoardBack {
    pub(crate) seats: Vec<Seat>,
    pub(crate) operated: Result<(), Denied>,
    pub(crate) keys: KeyBack,
}

/// An operator's thread.
pub(crate) fn operator_thread<R: Wait>(
    rt: &R,
    start: &Start,
    board: &SharedBoard,
    names: &Names,
    phase: &VtPhase,
    mut seat: Seat,
    number: u32,
) -> Result<OperatorBack, NoMemory>
    requires { IsFresh board.now number seat }
    ensures { IfOk result (OperatorComes board.now names.now (vt_phase_of phase.now) number) }
{
    start.wait(rt)?;
    let operators = phase.operators.as_slice();
    let result = operate(rt, board, names, &mut seat, number, operators);
    Ok(OperatorBack { seat, result })
}

/// The keyboard, once all threads are made.
pub(crate) fn press_keys<R: Wait, G: Gate>(
    rt: &R,
    gate: &G,
    stage: Stage<'_>,
    keys: KeyHand,
) -> Result<KeyBack, NoMemory>
    requires { CanKey stage keys }
    ensures { IfOk result (KeyboardComes stage.entry keys) }
{
    stage.start.open(rt);
    stage.start.wait(rt)?;
    let KeyHand {
        mut seat,
        mut keyboard,
    } = keys;
    let work = KeyWork {
        number: stage.names.len() as u32,
        first: stage.first,
        keys: stage.phase.keys.as_slice(),
        phase: stage.number,
    };
    let result = play_keyboard(
        rt,
        gate,
        stage.board,
        stage.ports,
        &mut seat,
        &mut keyboard,
        work,
    );
    let hand = KeyHand { seat, keyboard };
    Ok(KeyBack { hand, result })
}

/// What came before, and one operator more.
pub(crate) fn with_operator(back: BoardBack, one: OperatorBack) -> Result<BoardBack, NoMemory>
    ensures { IfOk result (IsWithOperator back one) }
{
    let BoardBack {
        mut seats,
        operated,
        keys,
    } = back;
    seats.push(one.seat)?;
    Ok(BoardBack {
        seats,
        operated: both(operated, one.result),
        keys,
    })
}
