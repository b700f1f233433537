//! Sessions of ports with modem lines that are read and played on one thread, and what is told of them.

ghost use Rattle.std.specs.Prelude.{◌≡◌, [], Some, IfOk, IfSome, OnErr};
ghost use Rattle.tty_base.specs.Outside.{LeavesRest};
ghost use Rattle.tty_calls.specs.Sessions.{session_of};
ghost use Rattle.modem_text.specs.Sessions.{modem_session_of};
ghost use Rattle.tty_one.specs.declared.words.Command.TheVariants.{Modem};
ghost use Rattle.tty_one.specs.Endings.{IsShort, IsOfSource};
ghost use Rattle.tty_one.specs.Works.{brought, AreModemLinesIn, AreModemLinesRead, AreModemLinesWork};
ghost use Rattle.tty_one.specs.Works.{CanModemLinesBePlayed, HasOwn, IsReportOfModemLines, IsWork};

use crate::reading::{Reading, read_text, refusal_line};
use crate::works::{Ending, JobLogs, VtEntries, Work};
use further_report::modem_report;
use modem_ports::{ModemRan, modem_run};
use modem_text::{ModemSession, parse_modem};
use session_text::TextFault;
use std::alloc::Global;
use tty_base::{NoMemory, Source};

/// Reads a session of ports with modem lines, plays it on one thread and makes its report.
pub(crate) fn run_modem<S: Source>(alloc: Global, source: &mut S) -> Result<Work, NoMemory>
    ensures from { IfOk result (λ work.
        IsOfSource work.ending (S.faults source.old) (S.faults source.new) (S.left source.old) (S.left source.new)) }
    ensures work { IfOk result (λ work. IsWork Modem (S.left source.old) work.ending (brought work)) }
    ensures own { IfOk result (λ work. HasOwn Modem (brought work)) }
    ensures short { OnErr result (IsShort (S.left source.old) (S.left source.new)) }
    ensures rest { IfSome (S.left source.old) (λ bytes. LeavesRest bytes (S.left source.new)) }
{
    match read_modem(alloc, source)? {
        Reading::Of(session) => run_session(alloc, &session),
        Reading::Ended(ending) => Ok(Work::ended(alloc, ending)),
    }
}

/// Reads a session of ports with modem lines.
fn read_modem<S: Source>(alloc: Global, source: &mut S) -> Result<Reading<ModemSession>, NoMemory>
    ensures read { IfOk result (λ reading.
        AreModemLinesRead reading (S.faults source.old) (S.faults source.new) (S.left source.old) (S.left source.new)) }
    ensures short { OnErr result (IsShort (S.left source.old) (S.left source.new)) }
    ensures rest { IfSome (S.left source.old) (λ bytes. LeavesRest bytes (S.left source.new)) }
{
    match read_text(alloc, source)? {
        Reading::Of(text) => modem_in(alloc, text.as_slice()),
        Reading::Ended(ending) => Ok(Reading::Ended(ending)),
    }
}

/// The session of ports with modem lines that a text spells.
fn modem_in(alloc: Global, text: &[u8]) -> Result<Reading<ModemSession>, NoMemory>
    ensures { IfOk result (λ reading. AreModemLinesIn text.now reading) }
{
    match parse_modem(alloc, text) {
        Ok(session) => Ok(Reading::Of(session)),
        Err(TextFault::Bad(bad)) => {
            let line = refusal_line(alloc, bad)?;
            Ok(Reading::Ended(Ending::BadSession(line)))
        }
        Err(TextFault::NoMemory) => Err(NoMemory),
    }
}

/// Plays a session of ports with modem lines on one thread and makes its report.
fn run_session(alloc: Global, session: &ModemSession) -> Result<Work, NoMemory>
    requires { CanModemLinesBePlayed (modem_session_of session.now) }
    ensures told { IfOk result (λ work. AreModemLinesWork (modem_session_of session.now) work.ending (brought work)) }
    ensures own { IfOk result (λ work. HasOwn Modem (brought work)) }
{
    let ran = modem_run(alloc, session)?;
    work_of(alloc, session, ran)
}

/// The work on a session of ports with modem lines that was played: its report, with the runs, the log and the session
/// that was derived.
fn work_of(alloc: Global, session: &ModemSession, ran: ModemRan) -> Result<Work, NoMemory>
    ensures ending { IfOk result (λ work. IsReportOfModemLines (modem_session_of session.now) ran work.ending) }
    ensures brought { IfOk result (λ work. brought work ≡ record {
      runs = ran.runs.items;
      entries = [];
      modem_log = ran.log.items;
      log = [];
      derived = Some (session_of ran.derived);
    }) }
    ensures own { IfOk result (λ work. HasOwn Modem (brought work)) }
{
    let ModemRan {
        log,
        runs,
        ends,
        derived,
    } = ran;
    let text = modem_report(
        alloc,
        session,
        log.as_slice(),
        runs.as_slice(),
        ends.as_slice(),
    )?;
    let ending = Ending::Done(text);
    Ok(Work {
        ending,
        runs,
        vt: VtEntries::new(alloc),
        modem: log,
        jobs: JobLogs::new(alloc),
        derived: Some(derived),
    })
}
