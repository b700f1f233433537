//! Sessions that are played on one thread, and what is told of them.

ghost use Rattle.std.specs.Prelude.{◌≡◌, IfOk, IfSome, OnErr, map};
ghost use Rattle.tty_base.specs.Outside.{LeavesRest};
ghost use Rattle.tty_calls.specs.Limits.{IsWithinLimits};
ghost use Rattle.tty_calls.specs.Sessions.{session_of};
ghost use Rattle.session_gen.specs.Generated.{generated_session};
ghost use Rattle.session_print.specs.Ends.{end_of};
ghost use Rattle.tty_one.specs.Endings.{IsShort, IsOfSource};
ghost use Rattle.tty_one.specs.Reported.{IsOrdered, text_by as text_of_telling};
ghost use Rattle.tty_one.specs.declared.playing.Telling.TheVariants.{Summary};
ghost use Rattle.tty_one.specs.declared.words.Command.TheVariants.{RunOne, Gen};
ghost use Rattle.tty_one.specs.Works.{brought, IsWork, IsSessionWork, IsEndingOf, CanEndWith, IsNeverFull, RunsAlone};

use crate::reading::{Reading, read_session};
use crate::works::{Ending, JobLogs, ModemLogs, VtEntries, Work};
use one_thread::play;
use play_base::Played;
use session_gen::make;
use session_print::{play_text, summary};
use std::alloc::Global;
use tty_base::{Bytes, NoMemory, Source};
use tty_calls::Session;

/// What is told of a session that was played.
#[derive(Clone, Copy)]
pub enum Telling {
    /// Its report, with its journals or without them.
    Report { journals: bool },
    /// That it is the session of this number, and its sums.
    Summary(u32),
}

/// Reads a session, plays it on one thread and makes its report.
pub(crate) fn run_one<S: Source>(
    alloc: Global,
    source: &mut S,
    journals: bool,
) -> Result<Work, NoMemory>
    ensures from { IfOk result (λ work.
        IsOfSource work.ending (S.faults source.old) (S.faults source.new) (S.left source.old) (S.left source.new)) }
    ensures work { IfOk result (λ work. IsWork (RunOne journals) (S.left source.old) work.ending (brought work)) }
    ensures own { IfOk result (λ work. RunsAlone (brought work)) }
    ensures short { OnErr result (IsShort (S.left source.old) (S.left source.new)) }
    ensures rest { IfSome (S.left source.old) (λ bytes. LeavesRest bytes (S.left source.new)) }
{
    let mut text = Bytes::new(alloc);
    match read_session(alloc, source, &mut text)? {
        Reading::Of(session) => { run_session(alloc, text, &session, Telling::Report { journals }) }
        Reading::Ended(ending) => Ok(Work::ended(alloc, ending)),
    }
}

/// Makes the session of a number, plays it on one thread and makes its summary.
pub(crate) fn run_number(alloc: Global, number: u32) -> Result<Work, NoMemory>
    ensures played { IfOk result
        (λ work. IsSessionWork IsOrdered (Summary number) (generated_session number) work.ending work.runs.items) }
    ensures can { IfOk result (λ work. CanEndWith (Gen number) work.ending) }
    ensures own { IfOk result (λ work. RunsAlone (brought work)) }
{
    let session = make(alloc, number)?;
    run_session(alloc, Bytes::new(alloc), &session, Telling::Summary(number))
}

/// Plays a session on one thread and tells of it, in the memory of `used`.
fn run_session(
    alloc: Global,
    used: Bytes,
    session: &Session,
    telling: Telling,
) -> Result<Work, NoMemory>
    requires { IsWithinLimits (session_of session.now) × IsNeverFull (session_of session.now) }
    ensures played { IfOk result
        (λ work. IsSessionWork IsOrdered telling (session_of session.now) work.ending work.runs.items) }
    ensures own { IfOk result (λ work. RunsAlone (brought work)) }
{
    let played = play(alloc, session)?;
    work_of(alloc, used, session, played, telling)
}

/// The work on a session that was played: what is told of it. A report takes the memory of `used`, and what
/// stood there is gone.
pub fn work_of(
    alloc: Global,
    used: Bytes,
    session: &Session,
    played: Played,
    telling: Telling,
) -> Result<Work, NoMemory>
    ensures ending { IfOk result (λ work. IsEndingOf telling (session_of session.now) played work.ending) }
    ensures runs { IfOk result (λ work. work.runs ≡ played.runs) }
    ensures own { IfOk result (λ work. RunsAlone (brought work)) }
{
    let text = text_by(alloc, used, session, &played, telling)?;
    let Played { runs, ends: _ } = played;
    let ending = Ending::Done(text);
    Ok(Work {
        ending,
        runs,
        vt: VtEntries::new(alloc),
        modem: ModemLogs::new(alloc),
        jobs: JobLogs::new(alloc),
        derived: None,
    })
}

fn text_by(
    alloc: Global,
    used: Bytes,
    session: &Session,
    played: &Played,
    telling: Telling,
) -> Result<Bytes, NoMemory>
    ensures { IfOk result (λ text.
        text.items
        ≡ text_of_telling telling (session_of session.now) played.now.runs.items (map end_of played.now.ends.items)) }
{
    let runs = played.runs.as_slice();
    let ends = played.ends.as_slice();
    match telling {
        Telling::Report { journals } => play_text(alloc, used, session, runs, ends, journals),
        Telling::Summary(number) => summary(alloc, number, session, runs, ends),
    }
}
