//! The report of a session of consoles.

ghost use Rattle.std.specs.Prelude.{◌≡◌, ◌++◌, ◌-◌, IfOk, OnOk, map, string_bytes};
ghost use Rattle.tty_calls.specs.Sessions.{session_of};
ghost use Rattle.session_print.specs.Ends.{end_of};
ghost use Rattle.session_print.specs.Report.{calls_from};
ghost use Rattle.vt_text.specs.Sessions.{vt_session_of};
ghost use Rattle.vt_report.specs.Report.{behind_callers, report_text};

use crate::consoles::put_consoles;
use crate::operators::put_operators;
use session_print::report;
use std::alloc::Global;
use tty_base::{Bytes, NoMemory};
use tty_calls::{PortEnd, PortRun, Session};
use vt_consoles::VtEntry;
use vt_print::put_active;
use vt_text::VtSession;

/// How many bytes the last line of a report has.
const LAST_LINE: usize = 5;

/// The report of a session of consoles: each call of a caller and of an operator with its answer, then what became of
/// each console, and which one is active. There is one run, and one end, for each console.
pub fn vt_report(
    alloc: Global,
    session: &VtSession,
    entries: &[VtEntry],
    runs: &[PortRun],
    ends: &[PortEnd],
) -> Result<Bytes, NoMemory>
    ensures { IfOk result
        (λ text. text.items ≡ report_text (vt_session_of session.now) entries.now runs.now (map end_of ends.now)) }
{
    let mut bytes = callers_text(alloc, &session.calls, runs)?;
    let mut text = String::new(alloc);
    put_rest(alloc, &mut text, session, entries, runs, ends)?;
    bytes.extend_from_slice(text.as_bytes())?;
    Ok(Bytes::from_vec(bytes))
}

/// The lines of the callers: those of a report in which no port has an end, but for the last line.
fn callers_text(alloc: Global, session: &Session, runs: &[PortRun]) -> Result<Vec<u8>, NoMemory>
    ensures { IfOk result (λ text. text.items ≡ calls_from 0 (session_of session.now) runs.now) }
{
    let mut text = report(alloc, session, runs, &[])?.into_vec();
    let calls = text.len().saturating_sub(LAST_LINE);
    text.truncate(calls);
    Ok(text)
}

/// Adds what stands behind the callers' lines.
fn put_rest(
    alloc: Global,
    text: &mut String,
    session: &VtSession,
    entries: &[VtEntry],
    runs: &[PortRun],
    ends: &[PortEnd],
) -> Result<(), NoMemory>
    ensures { OnOk result (string_bytes text.new
        ≡ string_bytes text.old
        ++ behind_callers (vt_session_of session.now) entries.now runs.now (map end_of ends.now)) }
{
    put_operators(alloc, text, session, entries)?;
    put_consoles(alloc, text, entries, runs, ends)?;
    put_active(text, entries)?;
    Ok(text.push_str("done\n")?)
}
