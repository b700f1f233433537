//! Sessions that are played on threads.

ghost use Rattle.std.specs.Prelude.{IfOk, IfSome, OnErr};
ghost use Rattle.tty_base.specs.Outside.{LeavesRest};
ghost use Rattle.tty_calls.specs.Limits.{IsWithinLimits};
ghost use Rattle.tty_calls.specs.Sessions.{session_of};
ghost use Rattle.tty_one.specs.Endings.{IsShort, IsOfSource};
ghost use Rattle.tty_one.specs.Reported.{IsInAnyOrder};
ghost use Rattle.tty_one.specs.Works.{brought, IsWork, IsSessionWork, IsNeverFull, RunsAlone};
ghost use Rattle.tty_one.specs.declared.playing.Telling.TheVariants.{Report};
ghost use Rattle.tty_one.specs.declared.words.Command.TheVariants.{Run};

use std::alloc::Global;
use std::sync::Wait;
use std::thread::Threads;
use threads_play::play;
use tty_base::{Bytes, NoMemory, Source};
use tty_calls::Session;
use tty_one::{Reading, Telling, Work, read_session, work_of};
use tty_port::Gate;

/// Reads a session, plays it on threads and makes its report.
pub(crate) fn run<R: Threads + Wait + Sync, S: Source, G: Gate + Sync>(
    rt: &R,
    alloc: Global,
    source: &mut S,
    journals: bool,
    gate: &G,
) -> Result<Work, NoMemory>
    ensures from { IfOk result (λ work.
        IsOfSource work.ending (S.faults source.old) (S.faults source.new) (S.left source.old) (S.left source.new)) }
    ensures work { IfOk result (λ work. IsWork (Run journals) (S.left source.old) work.ending (brought work)) }
    ensures own { IfOk result (λ work. RunsAlone (brought work)) }
    ensures short { OnErr result (IsShort (S.left source.old) (S.left source.new)) }
    ensures rest { IfSome (S.left source.old) (λ bytes. LeavesRest bytes (S.left source.new)) }
{
    let mut text = Bytes::new(alloc);
    match read_session(alloc, source, &mut text)? {
        Reading::Of(session) => run_session(rt, alloc, text, &session, journals, gate),
        Reading::Ended(ending) => Ok(Work::ended(alloc, ending)),
    }
}

/// Plays a session on threads and makes its report, in the memory of `used`.
fn run_session<R: Threads + Wait + Sync, G: Gate + Sync>(
    rt: &R,
    alloc: Global,
    used: Bytes,
    session: &Session,
    journals: bool,
    gate: &G,
) -> Result<Work, NoMemory>
    requires { IsWithinLimits (session_of session.now) × IsNeverFull (session_of session.now) }
    ensures played { IfOk result
        (λ work. IsSessionWork IsInAnyOrder (Report journals) (session_of session.now) work.ending work.runs.items) }
    ensures own { IfOk result (λ work. RunsAlone (brought work)) }
{
    let played = play(rt, alloc, session, gate)?;
    work_of(alloc, used, session, played, Telling::Report { journals })
}
