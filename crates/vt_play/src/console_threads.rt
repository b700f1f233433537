//! What the threads of the consoles do, and what they bring back.

ghost use Rattle.std.specs.Prelude.{◌≡◌, ◌<◌, ◌++◌, ◌∷◌, [], IfOk, Some, length, slice_get};
ghost use Rattle.many_threads.specs.Callers.{plain_cast};
ghost use Rattle.vt_threads.specs.Parting.{OwnCame};
ghost use Rattle.vt_play.specs.Stages.{CanOwn, CanPlayOwn};

use crate::board_threads::BoardBack;
use crate::stage::Stage;
use crate::taking::{at, push_beside};
use many_threads::{CallersBack, CallersOfCrew, FlusherBack, FlusherOfCrew, Start};
use std::alloc::Global;
use std::sync::Wait;
use std::thread::Threads;
use threads_play::run_beside;
use tty_base::NoMemory;
use tty_calls::Script;
use tty_port::{Gate, SharedPort};
use vt_threads::{Casting, OwnSeats};

/// What a console's own threads bring back, where its port is shared.
pub(crate) type OwnBack = Option<(FlusherBack, CallersBack)>;

/// What the threads of a phase bring back: those of the consoles, and all that work at the board.
#[derive(Drop)]
pub(crate) struct ThreadsBack {
    pub(crate) owns: Vec<OwnBack>,
    pub(crate) board: BoardBack,
}

/// Where a console's own threads meet: at the start of the phase, and at the console's port, where that is shared; and
/// what they play.
#[derive(Clone, Copy)]
pub(crate) struct OwnSite<'s> {
    pub(crate) start: &'s Start,
    pub(crate) port: &'s Option<SharedPort>,
    pub(crate) casting: &'s Casting,
    pub(crate) scripts: &'s [Script],
}

/// Where the threads of the console with this number meet.
pub(crate) fn own_site<'s>(stage: Stage<'s>, number: usize) -> OwnSite<'s>
    requires port { number < length stage.ports.now }
    requires casting { number < length stage.castings.now }
    ensures port { slice_get stage.entry.ports.now number ≡ Some result.port.now }
    ensures casting { slice_get stage.entry.castings.now number ≡ Some result.casting.now }
    ensures scripts { result.scripts.now ≡ stage.entry.scripts.now }
{
    OwnSite {
        start: stage.start,
        port: at(stage.ports, number),
        casting: at(stage.castings, number),
        scripts: stage.scripts,
    }
}

/// The flusher and the callers of a console whose port is shared, each on a thread of its own.
fn run_own<R: Threads + Wait + Sync, G: Gate + Sync>(
    rt: &R,
    alloc: Global,
    gate: &G,
    site: OwnSite<'_>,
    shared: &SharedPort,
    own: OwnSeats,
) -> Result<OwnBack, NoMemory>
    requires { CanPlayOwn shared.now own site.scripts.now site.casting.now.cast.items }
    ensures { IfOk result (OwnCame (Some shared.now) (Some own)
        (plain_cast site.entry.scripts.now site.entry.casting.now.cast.items)) }
{
    let OwnSeats {
        flusher,
        run,
        callers,
    } = own;
    let flusher = FlusherOfCrew { seat: flusher, run };
    let callers = CallersOfCrew {
        seats: callers,
        cast: site.casting.cast.as_slice(),
        scripts: site.scripts,
    };
    let back = run_beside(rt, alloc, gate, shared, site.start, flusher, callers)?;
    Ok(Some(back))
}

/// A console's thread: it runs the console's own threads, where its port is shared, none of which acts before all
/// threads of the phase are made.
pub(crate) fn console_thread<R: Threads + Wait + Sync, G: Gate + Sync>(
    rt: &R,
    alloc: Global,
    gate: &G,
    site: OwnSite<'_>,
    own: Option<OwnSeats>,
) -> Result<OwnBack, NoMemory>
    requires { CanOwn site.port.now own site.scripts.now site.casting.now.cast.items }
    ensures { IfOk result (OwnCame site.entry.port.now own
        (plain_cast site.entry.scripts.now site.entry.casting.now.cast.items)) }
{
    let Some(shared) = site.port else {
        drop(own);
        site.start.open(rt);
        return Ok(None);
    };
    let Some(own) = own else {
        site.start.open(rt);
        return Ok(None);
    };
    run_own(rt, alloc, gate, site, shared, own)
}

/// What came before, and what the threads of one console more brought back.
pub(crate) fn with_own(back: ThreadsBack, one: OwnBack) -> Result<ThreadsBack, NoMemory>
    ensures owns { IfOk result (λ r. r.owns.items ≡ back.owns.items ++ one ∷ []) }
    ensures board { IfOk result (λ r. r.board ≡ back.board) }
{
    let ThreadsBack { mut owns, board } = back;
    let board = push_beside(&mut owns, one, board)?;
    Ok(ThreadsBack { owns, board })
}
