//! Reads a text that is checked: its session, and then the run of each port, or its first wrong line.

ghost use Rattle.std.specs.Prelude.{◌≡◌, ◌≤◌, ◌⊎◌, All, Some, IfOk, length, map};
ghost use Rattle.tty_calls.specs.Sessions.{session_of};
ghost use Rattle.session_text.specs.Reading.{GivesRead};
ghost use Rattle.session_text.specs.Refusals.{lines_in};
ghost use Rattle.check_text.specs.Grammar.{Spells};
ghost use Rattle.check_text.specs.Journals.{first_journals, runs_from};
ghost use Rattle.check_text.specs.Reading.{check_in, refusal};
ghost use Rattle.check_text.specs.Runs.{run_of};
ghost use Rattle.check_text.specs.Views.{check_of, journals_of};

use super::journals::Journals;
use session_text::{BadLine, TextFault, parse_front};
use std::alloc::Global;
use text_lines::split_line;
use tty_calls::{PortRun, Session};

/// The session that a text spells, and after it the run of each of its ports, whose journals have no
/// more entries than the text has bytes. `Bad` comes exactly
/// where it spells none, and names its first wrong line, counted from 1 and as far as 32 bits count,
/// and why that line is wrong.
pub fn parse_check(alloc: Global, text: &[u8]) -> Result<(Session, Vec<PortRun>), TextFault>
    ensures ok { IfOk result (λ check. Spells text.now (session_of check.0) (map run_of check.1.items)) }
    ensures short { IfOk result (λ check. All (λ run. length run.journal.items ≤ length text.now) check.1.items) }
    ensures bad { (line : BadLine) → result ≡ Err (TextFault.Bad line) → refusal text.now ≡ Some line }
    ensures refused { (line : BadLine)
        → refusal text.now ≡ Some line
        → (result ≡ Err (TextFault.Bad line)) ⊎ (result ≡ Err TextFault.NoMemory) }
{
    read_check(alloc, text)
}

fn read_check(alloc: Global, text: &[u8]) -> Result<(Session, Vec<PortRun>), TextFault>
    ensures { GivesRead (λ check. check_of check.0 check.1.items) result (check_in text.now) }
{
    let (session, number, rest) = parse_front(alloc, text)?;
    let runs = read_journals(alloc, &session, number, rest)?;
    Ok((session, runs))
}

/// The runs of a session's ports, which the lines from this number on write.
fn read_journals(
    alloc: Global,
    session: &Session,
    first: u32,
    text: &[u8],
) -> Result<Vec<PortRun>, TextFault>
    ensures { GivesRead (λ runs. map run_of runs.items) result
        (runs_from (first_journals (session_of session.now)) first (lines_in text.now)) }
{
    let mut journals = Journals::new(alloc, session)?;
    read_lines(alloc, &mut journals, first, text)
}

/// The runs that are read by the end of these lines.
fn read_lines(
    alloc: Global,
    journals: &mut Journals,
    first: u32,
    text: &[u8],
) -> Result<Vec<PortRun>, TextFault>
    ensures { GivesRead (λ runs. map run_of runs.items) result
        (runs_from (journals_of journals.old) first (lines_in text.now)) }
{
    let mut rest = text;
    let mut number = first;
    while let Some((line, after)) = split_line(rest) {
        journals.read_line(alloc, number, line)?;
        rest = after;
        number = number.saturating_add(1);
    }
    journals.finish(number)
}
