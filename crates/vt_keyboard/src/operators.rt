//! What an operator's thread does in a phase: its calls.

ghost use Rattle.std.specs.Prelude.{◌≡◌, ◌∷◌, [], IfErr, OnOk, OnErr};
ghost use Rattle.port_cell.specs.Knowledge.{list_seen};
ghost use Rattle.vt_consoles.specs.Boards.{IsDenied};
ghost use Rattle.vt_consoles.specs.Histories.{board_with};
ghost use Rattle.vt_consoles.specs.Seats.{MakesNone};
ghost use Rattle.vt_consoles.specs.Shared.{IsHere, name_of_board};
ghost use Rattle.vt_text.specs.Sessions.{operator_of, operators_of};
ghost use Rattle.vt_keyboard.specs.Operating.{AnswersCalls, AnswersFirst, SomeAccepted, calls_of_operator};
ghost use Rattle.vt_keyboard.specs.Operating.{calls_of_seat};

use std::sync::Wait;
use tty_calls::{Denied, Names};
use vt_consoles::{Seat, SharedBoard, VtFault};
use vt_text::{OpCall, OpScript};

/// Makes a console the active one, where there is one of that number. Else it makes no entry.
fn activate<R: Wait>(
    rt: &R,
    board: &SharedBoard,
    seat: &mut Seat,
    number: u32,
    n: u8,
) -> Result<(), Denied>
    requires { IsHere board.now number seat.old }
    ensures seat { IsHere board.now number seat.new }
    ensures ok { OnOk result
        (AnswersCalls (name_of_board board.now).consoles number (OpCall.Activate n ∷ []) seat.old seat.new) }
    ensures err { OnErr result (MakesNone number seat.old seat.new) }
    ensures accepted { OnErr result (SomeAccepted (name_of_board board.now).consoles (OpCall.Activate n ∷ [])) }
    ensures denied { IfErr result
        (λ denied. IsDenied (board_with (name_of_board board.now) (list_seen seat.new)) denied) }
{
    match board.activate(rt, seat, number, n) {
        Ok(()) => Ok(()),
        Err(VtFault::NoConsole) => Ok(()),
        Err(VtFault::Denied(denied)) => Err(denied),
    }
}

/// Makes a call of an operator. One that is refused makes no entry.
fn call_one<R: Wait>(
    rt: &R,
    board: &SharedBoard,
    seat: &mut Seat,
    number: u32,
    call: OpCall,
) -> Result<(), Denied>
    requires { IsHere board.now number seat.old }
    ensures seat { IsHere board.now number seat.new }
    ensures ok { OnOk result (AnswersCalls (name_of_board board.now).consoles number (call ∷ []) seat.old seat.new) }
    ensures err { OnErr result (MakesNone number seat.old seat.new) }
    ensures accepted { OnErr result (SomeAccepted (name_of_board board.now).consoles (call ∷ [])) }
    ensures denied { IfErr result
        (λ denied. IsDenied (board_with (name_of_board board.now) (list_seen seat.new)) denied) }
{
    match call {
        OpCall::Activate(n) => activate(rt, board, seat, number, n),
        OpCall::State => {
            let _active = board.state(rt, seat, number)?;
            Ok(())
        }
    }
}

/// Makes calls of an operator, one after the other.
fn call_all<R: Wait>(
    rt: &R,
    board: &SharedBoard,
    seat: &mut Seat,
    number: u32,
    calls: &[OpCall],
) -> Result<(), Denied>
    requires { IsHere board.now number seat.old }
    ensures seat { IsHere board.now number seat.new }
    ensures ok { OnOk result (AnswersCalls (name_of_board board.now).consoles number calls.now seat.old seat.new) }
    ensures err { OnErr result (AnswersFirst (name_of_board board.now).consoles number calls.now seat.old seat.new) }
    ensures denied { IfErr result
        (λ denied. IsDenied (board_with (name_of_board board.now) (list_seen seat.new)) denied) }
{
    for call in calls {
        call_one(rt, board, seat, number, *call)?;
    }
    Ok(())
}

/// The calls of an operator in a phase, where it has the seat with this number.
fn calls_of<'a>(operator: &'a OpScript, names: &Names, seat: u32) -> &'a [OpCall]
    ensures { result.now ≡ calls_of_operator names.now seat (operator_of operator.now) }
{
    match names.number(&operator.name) {
        Some(number) if number == seat as usize => operator.calls.as_slice(),
        _ => &[],
    }
}

/// Makes the calls of the operator that has the seat with this number, those of a phase with these operators, one after
/// the other. A call that is refused makes no entry.
pub fn operate<R: Wait>(
    rt: &R,
    board: &SharedBoard,
    names: &Names,
    seat: &mut Seat,
    number: u32,
    operators: &[OpScript],
) -> Result<(), Denied>
    requires { IsHere board.now number seat.old }
    ensures seat { IsHere board.now number seat.new }
    ensures ok { OnOk result (AnswersCalls (name_of_board board.now).consoles number
        (calls_of_seat names.now number (operators_of operators.now)) seat.old seat.new) }
    ensures err { OnErr result (AnswersFirst (name_of_board board.now).consoles number
        (calls_of_seat names.now number (operators_of operators.now)) seat.old seat.new) }
    ensures denied { IfErr result
        (λ denied. IsDenied (board_with (name_of_board board.now) (list_seen seat.new)) denied) }
{
    for operator in operators {
        call_all(rt, board, seat, number, calls_of(operator, names, number))?;
    }
    Ok(())
}
