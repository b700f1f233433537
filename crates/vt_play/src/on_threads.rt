//! The threads of a phase side by side: those of all consoles, and all that work at the board.

ghost use Rattle.std.specs.Prelude.{IfOk};
ghost use Rattle.vt_play.specs.Stages.{CanPlayBoard, CanPlayOwns, ThreadsCome};
ghost use Rattle.vt_play.specs.Phases.{CanPlayParts, PhaseLeaves};

use crate::board_threads::{BoardHand, KeyHand};
use crate::console_making::{ConsolePromise, start_console};
use crate::console_threads::{ThreadsBack, own_site, with_own};
use crate::operator_threads::play_board;
use crate::parts::AllParts;
use crate::phases::{PhaseBack, stage_of, take_together};
use crate::stage::{PhaseOf, Stage};
use crate::taking::take_last;
use many_threads::{Start, beside};
use std::alloc::Global;
use std::snapshot::Snapshot;
use std::sync::Wait;
use std::thread;
use std::thread::{Scope, Threads};
use tty_base::NoMemory;
use tty_port::Gate;
use vt_consoles::{Seat, SharedBoard};
use vt_threads::OwnSeats;

/// Plays consoles, each on a thread of its own, beside all that work at the board. They begin with console 0; once they
/// are made, so are the consoles' threads.
fn play_consoles<'s, E, R: Threads + Wait + Sync, G: Gate + Sync>(
    scope: &Scope<'s, E>,
    rt: &'s R,
    alloc: Global,
    gate: &'s G,
    stage: Stage<'s>,
    mut owns: Vec<Option<OwnSeats>>,
    hand: BoardHand,
) -> Result<ThreadsBack, NoMemory>
    requires owns { CanPlayOwns stage owns.items }
    requires board { CanPlayBoard stage hand }
    ensures { IfOk result (ThreadsCome stage.entry owns.items hand) }
{
    let Some(own) = owns.pop() else {
        let board = play_board(scope, rt, gate, stage, hand)?;
        return Ok(ThreadsBack {
            owns: Vec::new(alloc),
            board,
        });
    };
    let promise = ConsolePromise {
        site: own_site(stage, owns.len()),
        own: Snapshot::of(&own),
    };
    let child = start_console(scope, rt, alloc, gate, own, promise)?;
    let others = play_consoles(scope, rt, alloc, gate, stage, owns, hand);
    let one = child.join(rt);
    let (one, others) = beside(one, others)?;
    with_own(others, one?)
}

/// Runs the threads of a phase side by side, none of which acts before all are made. Where one cannot be made, nothing
/// is played.
fn play_threads<R: Threads + Wait + Sync, G: Gate + Sync>(
    rt: &R,
    alloc: Global,
    gate: &G,
    stage: Stage<'_>,
    owns: Vec<Option<OwnSeats>>,
    hand: BoardHand,
) -> Result<ThreadsBack, NoMemory>
    requires owns { CanPlayOwns stage owns.items }
    requires board { CanPlayBoard stage hand }
    ensures { IfOk result (ThreadsCome stage.entry owns.items hand) }
{
    thread::scope(
        thread::scope_env(),
        rt,
        move |scope| -> Result<ThreadsBack, NoMemory>
            requires { CanPlayOwns stage owns.items × CanPlayBoard stage hand }
            ensures { IfOk result (ThreadsCome stage.entry owns.items hand) }
        { play_consoles(scope, rt, alloc, gate, stage, owns, hand) },
    )
}

/// Plays a phase whose board is shared, and whose consoles are in their parts.
pub(crate) fn play_shared<R: Threads + Wait + Sync, G: Gate + Sync>(
    rt: &R,
    alloc: Global,
    gate: &G,
    of: PhaseOf<'_>,
    shared: &SharedBoard,
    mut seats: Vec<Seat>,
    parts: AllParts,
) -> Result<PhaseBack, NoMemory>
    requires { CanPlayParts of shared.now seats.items parts }
    ensures { IfOk result (PhaseLeaves of.entry shared.now parts) }
{
    let AllParts {
        ports,
        keyboard,
        owns,
        castings,
        kept,
    } = parts;
    let start = Start::of_all(ports.len() as u32 + 1);
    let stage = stage_of(of, &start, shared, ports.as_slice(), castings.as_slice());
    let seat = take_last(&mut seats);
    let hand = BoardHand {
        seats,
        keys: KeyHand { seat, keyboard },
    };
    let back = play_threads(rt, alloc, gate, stage, owns, hand);
    let (ports, back) = beside(ports, back)?;
    take_together(ports, castings, kept, back)
}
