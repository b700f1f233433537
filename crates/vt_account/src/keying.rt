//! The session that the consoles play: their keys come on lines.

ghost use Rattle.std.specs.Prelude.{◌≡◌, ◌<◌, ◌≤◌, ◌==◌, ◌^◌, [], IfErr, IfOk, OnOk, if◌then◌else◌, length, map};
ghost use Rattle.tty_base.specs.Sizes.{MOST_CONSOLES, MOST_ENTRIES};
ghost use Rattle.tty_calls.specs.Sessions.{phase_of, session_of};
ghost use Rattle.vt_consoles.specs.Boards.{active_on};
ghost use Rattle.vt_text.specs.Sessions.{vt_phase_of, vt_session_of};
ghost use Rattle.vt_account.specs.Seats.{operator_names};
ghost use Rattle.vt_account.specs.Keyed.{all_keys, key_line, keyed, IsWithinKeys};
ghost use Rattle.vt_account.specs.InOrder.{IsBoardDenied, entries_from, entries_in_order};
ghost use Rattle.vt_account.specs.Played.{AddsAll, LacksRoom, key_lines, phases_in_order};

use crate::board::play_phase;
use crate::seats::seats_of;
use line_steps::LineSteps;
use std::alloc::Global;
use std::mem;
use tty_base::sizes::MOST_ENTRIES;
use tty_base::{Buffer, Flag, LineStep, NoMemory};
use tty_calls::{Denied, Names, Phase};
use vt_consoles::Board;
use vt_text::{VtPhase, VtSession};

/// A line on which these keys come.
fn line_of(alloc: Global, keys: &[u8]) -> Result<LineSteps, NoMemory>
    ensures { IfOk result (λ line. line.items ≡ key_line keys.now) }
{
    let mut line = LineSteps::new(alloc);
    line.add(LineStep::Trigger(1))?;
    line.add_run(Flag::Normal, Vec::from_slice(alloc, keys)?)?;
    Ok(line)
}

/// The lines of so many consoles, where all these keys go to one.
fn lines_of(
    alloc: Global,
    consoles: u8,
    active: u8,
    keys: &[u8],
) -> Result<Buffer<LineSteps>, NoMemory>
    ensures { IfOk result (λ lines. map (λ line. line.items) lines.items ≡ key_lines consoles active keys.now) }
{
    let mut lines = Buffer::new(alloc);
    lines.reserve(usize::from(consoles))?;
    for p in 0..consoles {
        let line = line_of(alloc, keys_on(p, active, keys))?;
        lines.add(line);
    }
    Ok(lines)
}

/// All keys on the active console, and none on another.
fn keys_on(p: u8, active: u8, keys: &[u8]) -> &[u8]
    ensures { result.now ≡ (if active == p then keys.now else []) }
{
    if active == p { keys } else { &[] }
}

/// Puts the keys of a phase on the lines of the consoles: all go to the active one.
fn set_lines(alloc: Global, board: &Board, keys: &[u8], phase: &mut Phase) -> Result<(), Denied>
    ensures set { OnOk result (phase_of phase.new
        ≡ record (phase_of phase.old) { lines = key_lines board.now.consoles (active_on board.now) keys.now }) }
    ensures denied { IfErr result (λ denied. denied ≡ Denied.NoMemory) }
{
    match lines_of(alloc, board.consoles(), board.active(), keys) {
        Ok(lines) => {
            phase.lines = lines;
            Ok(())
        }
        Err(NoMemory) => Err(Denied::NoMemory),
    }
}

/// Plays the keyboard and the operators of phases on one thread, with the keys on the lines of the consoles.
fn play_phases(
    alloc: Global,
    board: &mut Board,
    names: &Names,
    keyboards: &[VtPhase],
    phases: &mut [Phase],
) -> Result<(), Denied>
    requires names { length names.now < 2 ^ 32 }
    requires each { length phases.old ≡ length keyboards.now }
    requires keys { length (all_keys (map vt_phase_of keyboards.now)) < 2 ^ 32 }
    ensures entries { OnOk result (AddsAll
        (entries_from names.now board.old.consoles (active_on board.old) 0 (map vt_phase_of keyboards.now))
        board.old board.new) }
    ensures denied { IfErr result (λ denied. LacksRoom
        (entries_from names.now board.old.consoles (active_on board.old) 0 (map vt_phase_of keyboards.now))
        board.old denied) }
    ensures phases { OnOk result (map phase_of phases.new
        ≡ phases_in_order names.now board.old.consoles (active_on board.old) 0 (map vt_phase_of keyboards.now)
        (map phase_of phases.old)) }
{
    let mut first = 0;
    for k in 0..keyboards.len() {
        let keyboard = &keyboards[k];
        let keys = keyboard.keys.as_slice();
        set_lines(alloc, board, keys, &mut phases[k])?;
        play_phase(board, names, keyboard, first)?;
        first += keys.len() as u32;
    }
    Ok(())
}

/// A board, with so many consoles and room for as many entries as a board may have.
fn new_board(alloc: Global, consoles: u8) -> Result<Board, Denied>
    requires { (0 < consoles) × (consoles ≤ MOST_CONSOLES) }
    ensures made { IfOk result (λ board. board ≡ record { consoles = consoles; limit = MOST_ENTRIES; entries = [] }) }
    ensures denied { IfErr result (λ denied. denied ≡ Denied.NoMemory) }
{
    match Board::new(alloc, consoles, MOST_ENTRIES) {
        Ok(board) => Ok(board),
        Err(NoMemory) => Err(Denied::NoMemory),
    }
}

/// Plays the keyboard and the operators of a session on one thread. Afterwards the session's calls are those of the
/// session that its consoles play: the keys come on their lines. `Full` comes exactly where the session has more
/// entries than a board may have.
pub fn play_board(alloc: Global, session: &mut VtSession) -> Result<Board, Denied>
    requires { IsWithinKeys (vt_session_of session.old) }
    ensures entries { IfOk result (λ board. board.entries ≡ entries_in_order (vt_session_of session.old)) }
    ensures room { OnOk result (length (entries_in_order (vt_session_of session.old)) ≤ MOST_ENTRIES) }
    ensures denied { IfErr result (λ denied. IsBoardDenied (vt_session_of session.old) denied) }
    ensures keyed { OnOk result (session_of session.new.calls
        ≡ keyed (vt_session_of session.old) (entries_in_order (vt_session_of session.old))) }
    ensures phases { session.new.phases ≡ session.old.phases }
{
    let mut board = new_board(alloc, session.calls.ports)?;
    let names = seats_or_denied(alloc, session.phases.as_slice())?;
    let mut phases = mem::replace(&mut session.calls.phases, Buffer::new(alloc)).into_vec();
    let keyboards = session.phases.as_slice();
    play_phases(alloc, &mut board, &names, keyboards, phases.as_mut_slice())?;
    let _entries = board.entries(); // known: the entries are a board run
    session.calls.version = 0;
    session.calls.phases = Buffer::from_vec(phases);
    Ok(board)
}

fn seats_or_denied(alloc: Global, phases: &[VtPhase]) -> Result<Names, Denied>
    ensures names { IfOk result (λ names. names ≡ operator_names (map vt_phase_of phases.now)) }
    ensures denied { IfErr result (λ denied. denied ≡ Denied.NoMemory) }
{
    match seats_of(alloc, phases) {
        Ok(names) => Ok(names),
        Err(NoMemory) => Err(Denied::NoMemory),
    }
}
