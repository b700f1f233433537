//! Sessions of consoles that are played on threads.

ghost use Rattle.std.specs.Prelude.{IfOk, IfSome, OnErr};
ghost use Rattle.tty_base.specs.Outside.{LeavesRest};
ghost use Rattle.vt_text.specs.Sessions.{vt_session_of};
ghost use Rattle.tty_one.specs.Consoles.{AreConsolesOnThreads};
ghost use Rattle.tty_one.specs.Endings.{IsShort, IsOfSource};
ghost use Rattle.tty_one.specs.Works.{brought, BoardAlone, CanBePlayed, IsConsolesWork, IsWork};
ghost use Rattle.tty_one.specs.declared.words.Command.TheVariants.{Vt};

use std::alloc::Global;
use std::sync::Wait;
use std::thread::Threads;
use tty_base::{NoMemory, Source};
use tty_calls::Denied;
use tty_one::{Reading, Work, read_consoles, work_of_consoles};
use tty_port::Gate;
use vt_play::play_vt;
use vt_text::VtSession;

/// Reads a session of consoles, plays it on threads and makes its report.
pub(crate) fn run_vt<R: Threads + Wait + Sync, S: Source, G: Gate + Sync>(
    rt: &R,
    alloc: Global,
    source: &mut S,
    gate: &G,
) -> Result<Work, NoMemory>
    ensures from { IfOk result (λ work.
        IsOfSource work.ending (S.faults source.old) (S.faults source.new) (S.left source.old) (S.left source.new)) }
    ensures work { IfOk result (λ work. IsWork Vt (S.left source.old) work.ending (brought work)) }
    ensures own { IfOk result (λ work. BoardAlone (brought work)) }
    ensures short { OnErr result (IsShort (S.left source.old) (S.left source.new)) }
    ensures rest { IfSome (S.left source.old) (λ bytes. LeavesRest bytes (S.left source.new)) }
{
    match read_consoles(alloc, source)? {
        Reading::Of(session) => play_consoles(rt, alloc, &session, gate),
        Reading::Ended(ending) => Ok(Work::ended(alloc, ending)),
    }
}

/// Plays a session of consoles on threads and makes its report.
fn play_consoles<R: Threads + Wait + Sync, G: Gate + Sync>(
    rt: &R,
    alloc: Global,
    session: &VtSession,
    gate: &G,
) -> Result<Work, NoMemory>
    requires { CanBePlayed (vt_session_of session.now) }
    ensures told { IfOk result (λ work.
        IsConsolesWork (AreConsolesOnThreads (vt_session_of session.now)) work.ending (brought work)) }
    ensures own { IfOk result (λ work. BoardAlone (brought work)) }
{
    match play_vt(rt, alloc, session, gate) {
        Ok(played) => work_of_consoles(alloc, session, played),
        Err(Denied::NoMemory) => Err(NoMemory),
        Err(Denied::Full) => unreachable!(),
    }
}
