//! What a report says of ports.

ghost use Rattle.std.specs.Prelude.{◌≡◌, IfOk, map};
ghost use Rattle.session_print.specs.Ends.{end_of};
ghost use Rattle.session_print.specs.Report.{ports_from};
ghost use Rattle.further_report.specs.Ports.{without_phases};

use session_print::report;
use std::alloc::Global;
use tty_base::{Buffer, NoMemory};
use tty_calls::{PortEnd, PortRun, Session};

/// How many bytes the last line of a report has.
const LAST_LINE: usize = 5;

/// The lines of ports: those of the report of a session without phases, but for the last line.
pub(crate) fn ports_lines(
    alloc: Global,
    session: &Session,
    runs: &[PortRun],
    ends: &[PortEnd],
) -> Result<Vec<u8>, NoMemory>
    ensures { IfOk result (λ text.
        text.items
        ≡ ports_from 0 (without_phases session.now.version session.now.ports session.now.flips.items) runs.now
        (map end_of ends.now)) }
{
    let bare = Session {
        version: session.version,
        ports: session.ports,
        flips: session.flips.copy(alloc)?,
        phases: Buffer::new(alloc),
    };
    let mut text = report(alloc, &bare, runs, ends)?.into_vec();
    let lines = text.len().saturating_sub(LAST_LINE);
    text.truncate(lines);
    Ok(text)
}
