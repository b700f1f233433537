//! Sessions of processes that are read and played on one thread, and what is told of them.

ghost use Rattle.std.specs.Prelude.{◌≡◌, ◌≤◌, [], Some, IfOk, IfSome, OnErr, length};
ghost use Rattle.tty_base.specs.Sizes.{MOST_TEXT};
ghost use Rattle.tty_base.specs.Outside.{LeavesRest};
ghost use Rattle.tty_calls.specs.Sessions.{session_of};
ghost use Rattle.job_text.specs.Sessions.{jobs_session_of};
ghost use Rattle.tty_one.specs.declared.words.Command.TheVariants.{Jobs};
ghost use Rattle.tty_one.specs.Endings.{IsShort, IsOfSource};
ghost use Rattle.tty_one.specs.Works.{brought, AreProcessesWork, CanProcessesBePlayed, HasOwn};
ghost use Rattle.tty_one.specs.Works.{IsProcessesText, IsReportOfProcesses, IsWork};

use crate::reading::{Reading, read_text, refusal_line};
use crate::works::{Ending, ModemLogs, VtEntries, Work};
use further_report::jobs_report;
use job_ports::{JobsRan, jobs_run};
use job_text::{JobsSession, parse_jobs};
use session_text::TextFault;
use std::alloc::Global;
use tty_base::{NoMemory, Source};

/// Reads a session of processes, plays it on one thread and makes its report.
pub(crate) fn run_jobs<S: Source>(alloc: Global, source: &mut S) -> Result<Work, NoMemory>
    ensures from { IfOk result (λ work.
        IsOfSource work.ending (S.faults source.old) (S.faults source.new) (S.left source.old) (S.left source.new)) }
    ensures work { IfOk result (λ work. IsWork Jobs (S.left source.old) work.ending (brought work)) }
    ensures own { IfOk result (λ work. HasOwn Jobs (brought work)) }
    ensures short { OnErr result (IsShort (S.left source.old) (S.left source.new)) }
    ensures rest { IfSome (S.left source.old) (λ bytes. LeavesRest bytes (S.left source.new)) }
{
    match read_text(alloc, source)? {
        Reading::Of(text) => work_on_text(alloc, text.as_slice()),
        Reading::Ended(ending) => Ok(Work::ended(alloc, ending)),
    }
}

/// What comes of a text of processes.
fn work_on_text(alloc: Global, text: &[u8]) -> Result<Work, NoMemory>
    requires { length text.now ≤ MOST_TEXT }
    ensures told { IfOk result (λ work. IsProcessesText text.now work.ending (brought work)) }
    ensures own { IfOk result (λ work. HasOwn Jobs (brought work)) }
{
    match parse_jobs(alloc, text) {
        Ok(session) => run_session(alloc, &session),
        Err(TextFault::Bad(bad)) => {
            let line = refusal_line(alloc, bad)?;
            Ok(Work::ended(alloc, Ending::BadSession(line)))
        }
        Err(TextFault::NoMemory) => Err(NoMemory),
    }
}

/// Plays a session of processes on one thread and makes its report.
fn run_session(alloc: Global, session: &JobsSession) -> Result<Work, NoMemory>
    requires { CanProcessesBePlayed (jobs_session_of session.now) }
    ensures told { IfOk result (λ work. AreProcessesWork (jobs_session_of session.now) work.ending (brought work)) }
    ensures own { IfOk result (λ work. HasOwn Jobs (brought work)) }
{
    let ran = jobs_run(alloc, session)?;
    work_of(alloc, session, ran)
}

/// The work on a session of processes that was played: its report, with the runs and the log.
fn work_of(alloc: Global, session: &JobsSession, ran: JobsRan) -> Result<Work, NoMemory>
    ensures ending { IfOk result (λ work. IsReportOfProcesses session.now ran work.ending) }
    ensures brought { IfOk result (λ work. brought work ≡ record {
      runs = ran.runs.items;
      entries = [];
      modem_log = [];
      log = ran.log.items;
      derived = Some (session_of ran.derived);
    }) }
    ensures own { IfOk result (λ work. HasOwn Jobs (brought work)) }
{
    let JobsRan {
        log,
        runs,
        ends,
        derived,
    } = ran;
    let text = jobs_report(
        alloc,
        session,
        log.as_slice(),
        runs.as_slice(),
        ends.as_slice(),
    )?;
    let ending = Ending::Done(text);
    Ok(Work {
        ending,
        runs,
        vt: VtEntries::new(alloc),
        modem: ModemLogs::new(alloc),
        jobs: log,
        derived: Some(derived),
    })
}
