//! Journals that are read and judged.

ghost use Rattle.std.specs.Prelude.{◌≡◌, ◌≤◌, [], IfOk, IfSome, OnErr, length};
ghost use Rattle.tty_base.specs.Sizes.{MOST_TEXT};
ghost use Rattle.tty_base.specs.Outside.{LeavesRest};
ghost use Rattle.tty_one.specs.Endings.{verdict_line, IsShort, IsOfSource};
ghost use Rattle.tty_one.specs.declared.words.Command.TheVariants.{Check};
ghost use Rattle.tty_one.specs.Works.{brought, IsWork, IsJudgedText, IsVerdictEnding, RunsAlone};

use crate::reading::{Reading, read_text, refusal_line};
use crate::works::{Ending, Work};
use check_text::parse_check;
use journal_check::{Verdict, check};
use session_text::TextFault;
use std::alloc::Global;
use tty_base::{Bytes, NoMemory, Source};

/// Reads a session with its journals, and judges these.
pub(crate) fn run_check<S: Source>(alloc: Global, source: &mut S) -> Result<Work, NoMemory>
    ensures from { IfOk result (λ work.
        IsOfSource work.ending (S.faults source.old) (S.faults source.new) (S.left source.old) (S.left source.new)) }
    ensures work { IfOk result (λ work. IsWork Check (S.left source.old) work.ending (brought work)) }
    ensures none { IfOk result (λ work. work.runs.items ≡ []) }
    ensures own { IfOk result (λ work. RunsAlone (brought work)) }
    ensures short { OnErr result (IsShort (S.left source.old) (S.left source.new)) }
    ensures rest { IfSome (S.left source.old) (λ bytes. LeavesRest bytes (S.left source.new)) }
{
    match read_text(alloc, source)? {
        Reading::Of(text) => {
            let ending = judged_text(alloc, text.as_slice())?;
            Ok(Work::ended(alloc, ending))
        }
        Reading::Ended(ending) => Ok(Work::ended(alloc, ending)),
    }
}

/// What is told of the journals of a text.
fn judged_text(alloc: Global, text: &[u8]) -> Result<Ending, NoMemory>
    requires { length text.now ≤ MOST_TEXT }
    ensures { IfOk result (λ ending. IsJudgedText text.now ending) }
{
    match parse_check(alloc, text) {
        Ok((session, runs)) => {
            let verdict = check(alloc, &session, runs.as_slice())?;
            verdict_ending(alloc, verdict)
        }
        Err(TextFault::Bad(bad)) => {
            let line = refusal_line(alloc, bad)?;
            Ok(Ending::BadSession(line))
        }
        Err(TextFault::NoMemory) => Err(NoMemory),
    }
}

fn verdict_ending(alloc: Global, verdict: Verdict) -> Result<Ending, NoMemory>
    ensures { IfOk result (λ ending. IsVerdictEnding verdict ending) }
{
    let line = line_of(alloc, verdict)?;
    match verdict {
        Verdict::Legal => Ok(Ending::Done(line)),
        Verdict::Wrong { .. } | Verdict::Account { .. } => Ok(Ending::NotLegal(line)),
    }
}

/// The line that tells a verdict.
fn line_of(alloc: Global, verdict: Verdict) -> Result<Bytes, NoMemory>
    ensures { IfOk result (λ line. line.items ≡ verdict_line verdict) }
{
    let mut line = String::new(alloc);
    match verdict {
        Verdict::Legal => write!(line, "legal\n")?,
        Verdict::Wrong { port, entry } => write!(line, "not legal port {port} entry {entry}\n")?,
        Verdict::Account { port } => write!(line, "not legal port {port} account\n")?,
    }
    Ok(Bytes::from_vec(line.into_bytes()))
}
