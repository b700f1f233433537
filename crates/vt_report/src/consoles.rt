//! What a report says of all consoles.

ghost use Rattle.std.specs.Prelude.{◌≡◌, ◌++◌, IfOk, OnOk, map, string_bytes};
ghost use Rattle.session_print.specs.Ends.{end_of};
ghost use Rattle.vt_print.specs.Consoles.{console_text};
ghost use Rattle.vt_report.specs.Report.{consoles_from, tally_of};

use crate::counts::counted_in;
use std::alloc::Global;
use tty_base::NoMemory;
use tty_calls::{PortEnd, PortRun};
use vt_consoles::VtEntry;
use vt_print::{Tally, put_console};

/// Adds what is told of the consoles.
pub(crate) fn put_consoles(
    alloc: Global,
    text: &mut String,
    entries: &[VtEntry],
    runs: &[PortRun],
    ends: &[PortEnd],
) -> Result<(), NoMemory>
    ensures { OnOk result
        (string_bytes text.new ≡ string_bytes text.old ++ consoles_from 0 entries.now runs.now (map end_of ends.now)) }
{
    for (console, run) in runs.iter().enumerate() {
        if let Some(end) = ends.get(console) {
            put_counted(alloc, text, console, entries, run, end)?;
        }
    }
    Ok(())
}

fn put_counted(
    alloc: Global,
    text: &mut String,
    console: usize,
    entries: &[VtEntry],
    run: &PortRun,
    end: &PortEnd,
) -> Result<(), NoMemory>
    ensures { OnOk result (string_bytes text.new
        ≡ string_bytes text.old
        ++ console_text console entries.now (tally_of run.now (end_of end.now)) end.now.wire.items) }
{
    let tally = tally_of(run, end)?;
    put_console(alloc, text, console, entries, &tally, end.wire.as_slice())
}

fn tally_of(run: &PortRun, end: &PortEnd) -> Result<Tally, NoMemory>
    ensures { IfOk result (λ tally. tally ≡ tally_of run.now (end_of end.now)) }
{
    let counted = counted_in(&run.journal)?;
    Ok(Tally {
        overrun: run.line.overruns.len() as u64,
        taken: counted.flushed,
        dropped: counted.dropped,
        generation: end.generation,
    })
}
