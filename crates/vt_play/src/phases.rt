//! A phase of all consoles and of their board: its sharing and its parts, where its threads meet, what they bring back,
//! and the end of the sharing.

ghost use Rattle.std.specs.Prelude.{◌≡◌, ◌+◌, ◌++◌, ◌∷◌, [], IfErr, IfOk, Some, length, slice_get, take};
ghost use Rattle.port_cell.specs.Knowledge.{number_of};
ghost use Rattle.port_cell.specs.Seats.{EachSeat, HasAll};
ghost use Rattle.vt_consoles.specs.Shared.{IsHere, opening_board, seats_of};
ghost use Rattle.vt_text.specs.Sessions.{PlainVtPhase, vt_session_of};
ghost use Rattle.vt_account.specs.InOrder.{IsBoardDenied};
ghost use Rattle.vt_account.specs.Keyed.{all_keys};
ghost use Rattle.vt_play.specs.declared.parts.AllParts.{AllParts};
ghost use Rattle.vt_play.specs.Stages.{SomeDenied, first_denied};
ghost use Rattle.vt_play.specs.Phases.{HasBegun, IsBoardBefore, IsClosed};
ghost use Rattle.vt_play.specs.Phases.{IsPhaseOf, IsStageOf, IsStaged, IsVtBefore, PhaseLeaves};

use crate::board_threads::{BoardBack, KeyBack, KeyHand};
use crate::console_threads::ThreadsBack;
use crate::parts::{AllBack, AllParts, Kept, part_all};
use crate::stage::{PhaseOf, Stage};
use crate::taking::{at, both};
use many_threads::{Start, beside};
use play_base::scripts_of;
use std::alloc::Global;
use tty_base::NoMemory;
use tty_calls::Denied;
use tty_port::SharedPort;
use vt_consoles::{Board, Seat, SharedBoard};
use vt_threads::{Casting, Console, close_board};

/// A session of consoles between two phases: its board and its consoles, and the index of the next key.
#[derive(Drop)]
pub(crate) struct VtInPlay {
    pub(crate) board: Board,
    pub(crate) consoles: Vec<Console>,
    pub(crate) first: u32,
}

/// What the threads of a phase leave: all seats of the board, and whether one of them was denied an entry; and all
/// consoles in their parts.
#[derive(Drop)]
pub(crate) struct PhaseBack {
    pub(crate) seats: Vec<Seat>,
    pub(crate) made: Result<(), Denied>,
    pub(crate) all: AllBack,
}

/// Shares the board for a phase, and parts all consoles.
pub(crate) fn share_all(
    alloc: Global,
    of: PhaseOf<'_>,
    board: Board,
    consoles: Vec<Console>,
) -> Result<(SharedBoard, Vec<Seat>, AllParts), NoMemory>
    requires phase { IsPhaseOf of }
    requires before { IsVtBefore (vt_session_of of.session.now) of.k
        (record { board = board; consoles = consoles; first = of.first }) }
    ensures staged { IfOk result (λ r. IsStaged of.entry r.0 r.1.items consoles.items r.2) }
    ensures opening { IfOk result (λ r. opening_board r.0 ≡ board) }
{
    let parted = part_all(alloc, of.session, of.k, consoles);
    let (board, parts) = beside(board, parted)?;
    let shared = SharedBoard::new(alloc, board, of.names.len() as u32 + 1);
    let (parts, (shared, seats)) = beside(parts, shared)?;
    Ok((shared, seats, parts))
}

/// Where the threads of a phase meet.
pub(crate) fn stage_of<'s>(
    of: PhaseOf<'s>,
    start: &'s Start,
    board: &'s SharedBoard,
    ports: &'s [Option<SharedPort>],
    castings: &'s [Casting],
) -> Stage<'s>
    requires { IsPhaseOf of }
    ensures { IsStageOf of.entry board.now ports.now castings.now result }
{
    Stage {
        start,
        board,
        ports,
        castings,
        scripts: scripts_of(&of.session.calls, of.k),
        names: of.names,
        phase: &of.session.phases.as_slice()[of.k],
        first: of.first,
        number: of.k as u32,
    }
}

/// Takes together what the threads brought back, and what they shared of the consoles.
pub(crate) fn take_together(
    ports: Vec<Option<SharedPort>>,
    castings: Vec<Casting>,
    kept: Vec<Kept>,
    back: ThreadsBack,
) -> Result<PhaseBack, NoMemory>
    ensures seats { IfOk result (λ r. r.seats.items ≡ back.board.seats.items ++ back.board.keys.hand.seat ∷ []) }
    ensures made { IfOk result (λ r. r.made ≡ first_denied back.board.operated back.board.keys.result) }
    ensures all { IfOk result (λ r.
        r.all
        ≡ record {
          ports = ports;
          keyboard = back.board.keys.hand.keyboard;
          owns = back.owns;
          castings = castings;
          kept = kept;
        }) }
{
    let ThreadsBack { owns, board } = back;
    let BoardBack {
        mut seats,
        operated,
        keys,
    } = board;
    let KeyBack { hand, result } = keys;
    let KeyHand { seat, keyboard } = hand;
    seats.push(seat)?;
    Ok(PhaseBack {
        seats,
        made: both(operated, result),
        all: AllBack {
            ports,
            keyboard,
            owns,
            castings,
            kept,
        },
    })
}

/// Ends the sharing of a board of which a seat was denied an entry. Where the board was full, the phases of the session
/// up to this one ask for more entries than it may have.
fn end_denied(of: PhaseOf<'_>, shared: SharedBoard, seats: Vec<Seat>, denied: Denied) -> Denied
    requires here { EachSeat (λ s. IsHere shared (number_of s) s) seats.items }
    requires all { HasAll (seats_of shared) seats.items }
    ensures same { result ≡ denied }
    ensures denied { IsBoardBefore (vt_session_of of.entry.session.now) of.entry.k of.entry.first (opening_board shared)
        → IsPhaseOf of.entry
        → seats_of shared ≡ length of.entry.names.now + 1
        → ((phase : PlainVtPhase)
        → slice_get (vt_session_of of.entry.session.now).phases of.entry.k ≡ Some phase
        → EachSeat (HasBegun of.entry.names.now phase shared) seats.items)
        → ((phase : PlainVtPhase)
        → slice_get (vt_session_of of.entry.session.now).phases of.entry.k ≡ Some phase
        → SomeDenied shared of.entry.names.now phase seats.items denied)
        → IsBoardDenied (vt_session_of of.entry.session.now) denied }
{
    let _of = of; // for the contract alone
    let board = shared.close(seats);
    let _entries = board.entries(); // known: the entries are a board run
    denied
}

/// Ends the sharing of the board.
pub(crate) fn close_all(
    of: PhaseOf<'_>,
    shared: SharedBoard,
    back: PhaseBack,
) -> Result<(Board, AllBack), Denied>
    requires { (parts : AllParts) × PhaseLeaves of shared parts back }
    ensures closed { IfOk result (λ r. IsClosed shared back r.0 r.1) }
    ensures denied { IsBoardBefore (vt_session_of of.entry.session.now) of.entry.k of.entry.first (opening_board shared)
        → IsPhaseOf of.entry
        → seats_of shared ≡ length of.entry.names.now + 1
        → IfErr result (IsBoardDenied (vt_session_of of.entry.session.now)) }
{
    let PhaseBack { seats, made, all } = back;
    match made {
        Ok(()) => Ok((close_board(shared, seats), all)),
        Err(denied) => Err(end_denied(of, shared, seats, denied)),
    }
}

/// The index of the first key of the next phase.
pub(crate) fn next_first(of: PhaseOf<'_>) -> u32
    requires phase { IsPhaseOf of }
    requires first { of.first ≡ length (all_keys (take of.k (vt_session_of of.session.now).phases)) }
    ensures { result ≡ length (all_keys (take (of.entry.k + 1) (vt_session_of of.entry.session.now).phases)) }
{
    let phases = of.session.phases.as_slice();
    let phase = at(phases, of.k);
    of.first + phase.keys.len() as u32
}
