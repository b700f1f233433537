//! Sessions of consoles that are read and played on one thread, and what is told of them.

ghost use Rattle.std.specs.Prelude.{◌≡◌, IfOk, IfSome, OnErr};
ghost use Rattle.tty_base.specs.Outside.{LeavesRest};
ghost use Rattle.vt_text.specs.Sessions.{vt_session_of};
ghost use Rattle.tty_one.specs.declared.words.Command.TheVariants.{VtOne};
ghost use Rattle.tty_one.specs.Consoles.{AreConsolesInOrder};
ghost use Rattle.tty_one.specs.Endings.{IsShort, IsOfSource};
ghost use Rattle.tty_one.specs.Works.{brought, AreConsolesIn, AreConsolesRead, BoardAlone, CanBePlayed};
ghost use Rattle.tty_one.specs.Works.{IsConsolesWork, IsReportOf, IsWork, of_consoles};

use crate::reading::{Reading, read_text, refusal_line};
use crate::works::{Ending, JobLogs, ModemLogs, VtEntries, Work};
use play_base::Played;
use session_text::TextFault;
use std::alloc::Global;
use tty_base::{NoMemory, Source};
use tty_calls::Denied;
use vt_one::{VtPlayed, play_vt};
use vt_report::{a_played_session_has_the_same_report, vt_report};
use vt_text::{VtSession, parse_vt};

/// Reads a session of consoles, plays it on one thread and makes its report.
pub(crate) fn run_vt<S: Source>(alloc: Global, source: &mut S) -> Result<Work, NoMemory>
    ensures from { IfOk result (λ work.
        IsOfSource work.ending (S.faults source.old) (S.faults source.new) (S.left source.old) (S.left source.new)) }
    ensures work { IfOk result (λ work. IsWork VtOne (S.left source.old) work.ending (brought work)) }
    ensures own { IfOk result (λ work. BoardAlone (brought work)) }
    ensures short { OnErr result (IsShort (S.left source.old) (S.left source.new)) }
    ensures rest { IfSome (S.left source.old) (λ bytes. LeavesRest bytes (S.left source.new)) }
{
    match read_consoles(alloc, source)? {
        Reading::Of(mut session) => run_session(alloc, &mut session),
        Reading::Ended(ending) => Ok(Work::ended(alloc, ending)),
    }
}

/// Reads a session of consoles.
pub fn read_consoles<S: Source>(
    alloc: Global,
    source: &mut S,
) -> Result<Reading<VtSession>, NoMemory>
    ensures read { IfOk result (λ reading.
        AreConsolesRead reading (S.faults source.old) (S.faults source.new) (S.left source.old) (S.left source.new)) }
    ensures short { OnErr result (IsShort (S.left source.old) (S.left source.new)) }
    ensures rest { IfSome (S.left source.old) (λ bytes. LeavesRest bytes (S.left source.new)) }
{
    match read_text(alloc, source)? {
        Reading::Of(text) => consoles_in(alloc, text.as_slice()),
        Reading::Ended(ending) => Ok(Reading::Ended(ending)),
    }
}

/// The session of consoles that a text spells.
fn consoles_in(alloc: Global, text: &[u8]) -> Result<Reading<VtSession>, NoMemory>
    ensures { IfOk result (λ reading. AreConsolesIn text.now reading) }
{
    match parse_vt(alloc, text) {
        Ok(session) => Ok(Reading::Of(session)),
        Err(TextFault::Bad(bad)) => {
            let line = refusal_line(alloc, bad)?;
            Ok(Reading::Ended(Ending::BadSession(line)))
        }
        Err(TextFault::NoMemory) => Err(NoMemory),
    }
}

/// Plays a session of consoles on one thread and makes its report.
fn run_session(alloc: Global, session: &mut VtSession) -> Result<Work, NoMemory>
    requires { CanBePlayed (vt_session_of session.old) }
    ensures told { IfOk result (λ work.
        IsConsolesWork (AreConsolesInOrder (vt_session_of session.old)) work.ending (brought work)) }
    ensures own { IfOk result (λ work. BoardAlone (brought work)) }
{
    a_played_session_has_the_same_report();
    match play_vt(alloc, session) {
        Ok(played) => work_of_consoles(alloc, session, played),
        Err(Denied::NoMemory) => Err(NoMemory),
        Err(Denied::Full) => unreachable!(),
    }
}

/// The work on a session of consoles that was played: its report, with the runs and the entries.
pub fn work_of_consoles(
    alloc: Global,
    session: &VtSession,
    played: VtPlayed,
) -> Result<Work, NoMemory>
    ensures ending { IfOk result (λ work. IsReportOf (vt_session_of session.now) played work.ending) }
    ensures brought { IfOk result (λ work.
        brought work ≡ of_consoles played.consoles.runs.items played.board.entries) }
    ensures own { IfOk result (λ work. BoardAlone (brought work)) }
{
    let VtPlayed { board, consoles } = played;
    let Played { runs, ends } = consoles;
    let entries = board.entries();
    let text = vt_report(alloc, session, entries, runs.as_slice(), ends.as_slice())?;
    let vt = VtEntries::from_vec(Vec::from_slice(alloc, entries)?);
    let ending = Ending::Done(text);
    Ok(Work {
        ending,
        runs,
        vt,
        modem: ModemLogs::new(alloc),
        jobs: JobLogs::new(alloc),
        derived: None,
    })
}
