//! What the keyboard and the operators of a session do to its board on one thread.

ghost use Rattle.std.specs.Prelude.{◌+◌, ◌<◌, ◌^◌, IfErr, OnOk, flat_map, length};
ghost use Rattle.vt_consoles.specs.Boards.{active_on};
ghost use Rattle.vt_text.specs.Sessions.{operator_of, operators_of, vt_phase_of};
ghost use Rattle.vt_account.specs.Account.{granted};
ghost use Rattle.vt_account.specs.InOrder.{key_entries, call_entries, operator_entries};
ghost use Rattle.vt_account.specs.InOrder.{operators_entries, phase_entries};
ghost use Rattle.vt_account.specs.Played.{AddsAll, LacksRoom};

use tty_calls::{Denied, Names};
use vt_consoles::{Board, VtFault};
use vt_text::{OpCall, OpScript, VtPhase};

/// The entries of a phase whose keys begin with this index.
pub(crate) fn play_phase(
    board: &mut Board,
    names: &Names,
    phase: &VtPhase,
    first: u32,
) -> Result<(), Denied>
    requires names { length names.now < 2 ^ 32 }
    requires keys { first + length (vt_phase_of phase.now).keys < 2 ^ 32 }
    ensures added { OnOk result (AddsAll
        (phase_entries names.now board.old.consoles (active_on board.old) first (vt_phase_of phase.now))
        board.old board.new) }
    ensures denied { IfErr result (λ denied. LacksRoom
        (phase_entries names.now board.old.consoles (active_on board.old) first (vt_phase_of phase.now))
        board.old denied) }
{
    let keyboard = names.len() as u32;
    press_all(board, keyboard, first, phase.keys.len() as u32)?;
    operate(board, names, phase.operators.as_slice())
}

/// So many keys, from this index on.
fn press_all(board: &mut Board, seat: u32, first: u32, count: u32) -> Result<(), Denied>
    requires { first + count < 2 ^ 32 }
    ensures added { OnOk result (AddsAll (key_entries seat (active_on board.old) first count) board.old board.new) }
    ensures denied { IfErr result
        (λ denied. LacksRoom (key_entries seat (active_on board.old) first count) board.old denied) }
{
    for place in 0..count {
        board.press(seat, first + place)?;
    }
    Ok(())
}

/// The calls of operators, one operator after the other.
fn operate(board: &mut Board, names: &Names, operators: &[OpScript]) -> Result<(), Denied>
    requires { length names.now < 2 ^ 32 }
    ensures added { OnOk result (AddsAll
        (operators_entries names.now board.old.consoles (active_on board.old) (operators_of operators.now))
        board.old board.new) }
    ensures denied { IfErr result (λ denied. LacksRoom
        (operators_entries names.now board.old.consoles (active_on board.old) (operators_of operators.now))
        board.old denied) }
{
    for operator in operators {
        call_by(board, names, operator)?;
    }
    Ok(())
}

/// The calls of an operator.
fn call_by(board: &mut Board, names: &Names, operator: &OpScript) -> Result<(), Denied>
    requires { length names.now < 2 ^ 32 }
    ensures added { OnOk result (AddsAll
        (operator_entries names.now board.old.consoles (active_on board.old) (operator_of operator.now))
        board.old board.new) }
    ensures denied { IfErr result (λ denied. LacksRoom
        (operator_entries names.now board.old.consoles (active_on board.old) (operator_of operator.now))
        board.old denied) }
{
    match names.number(&operator.name) {
        None => Ok(()),
        Some(seat) => call_all(board, seat as u32, operator.calls.as_slice()),
    }
}

/// Calls of a seat. One that is refused has no entry.
fn call_all(board: &mut Board, seat: u32, calls: &[OpCall]) -> Result<(), Denied>
    ensures added { OnOk result (AddsAll
        (call_entries seat (active_on board.old) (flat_map (granted board.old.consoles) calls.now))
        board.old board.new) }
    ensures denied { IfErr result (λ denied. LacksRoom
        (call_entries seat (active_on board.old) (flat_map (granted board.old.consoles) calls.now)) board.old denied) }
{
    for call in calls {
        call_one(board, seat, *call)?;
    }
    Ok(())
}

fn call_one(board: &mut Board, seat: u32, call: OpCall) -> Result<(), Denied>
    ensures added { OnOk result
        (AddsAll (call_entries seat (active_on board.old) (granted board.old.consoles call)) board.old board.new) }
    ensures denied { IfErr result (λ denied.
        LacksRoom (call_entries seat (active_on board.old) (granted board.old.consoles call)) board.old denied) }
{
    match call {
        OpCall::Activate(n) => activate(board, seat, n),
        OpCall::State => {
            board.state(seat)?;
            Ok(())
        }
    }
}

fn activate(board: &mut Board, seat: u32, n: u8) -> Result<(), Denied>
    ensures added { OnOk result (AddsAll
        (call_entries seat (active_on board.old) (granted board.old.consoles (OpCall.Activate n)))
        board.old board.new) }
    ensures denied { IfErr result (λ denied. LacksRoom
        (call_entries seat (active_on board.old) (granted board.old.consoles (OpCall.Activate n))) board.old denied) }
{
    match board.activate(seat, n) {
        Ok(()) => Ok(()),
        Err(VtFault::NoConsole) => Ok(()),
        Err(VtFault::Denied(denied)) => Err(denied),
    }
}
