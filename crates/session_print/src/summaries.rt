//! The summary of a session: how many calls, characters, bytes that were read, and generations there are over all
//! ports.

ghost use Rattle.std.specs.Prelude.{◌≡◌, ◌++◌, IfOk, OnOk, map, sum_by, length, string_bytes};
ghost use Rattle.tty_calls.specs.Limits.{call_count};
ghost use Rattle.tty_calls.specs.Plain.{answer_lent, event_of};
ghost use Rattle.tty_calls.specs.Sessions.{script_of, phase_of, session_of};
ghost use Rattle.session_print.specs.Ends.{end_of};
ghost use Rattle.session_print.specs.Lines.{flushed_count};
ghost use Rattle.session_print.specs.Summary.{summary_text, all_arrived, all_flushed, all_got, all_generations};
ghost use Rattle.session_print.specs.Summary.{got_count, got_in as got_by_event, got_by as got_by_answer};

use super::fields::put_fields;
use super::sums::{flushed_in, sum_of};
use std::alloc::Global;
use tty_base::{Bytes, NoMemory};
use tty_calls::{AnswerRef, Event, Journal, Phase, PortEnd, PortRun, Script, Session};

/// The summary of a session that a number gives: its calls, the characters that arrived and that were
/// flushed, the bytes that reads were answered, and the generations, over all ports. There is one run,
/// and one end, for each port. More than can be counted are want of memory.
pub fn summary(
    alloc: Global,
    number: u32,
    session: &Session,
    runs: &[PortRun],
    ends: &[PortEnd],
) -> Result<Bytes, NoMemory>
    ensures { IfOk result
        (λ text. text.items ≡ summary_text number (session_of session.now) runs.now (map end_of ends.now)) }
{
    let mut text = String::new(alloc);
    put_summary(&mut text, number, session, runs, ends)?;
    Ok(Bytes::from_vec(text.into_bytes()))
}

fn put_summary(
    text: &mut String,
    number: u32,
    session: &Session,
    runs: &[PortRun],
    ends: &[PortEnd],
) -> Result<(), NoMemory>
    ensures { OnOk result (string_bytes text.new
        ≡ string_bytes text.old ++ summary_text number (session_of session.now) runs.now (map end_of ends.now)) }
{
    let totals = totals_of(runs)?;
    let fields = [
        ("gen ", u64::from(number)),
        ("\ncalls ", calls_in(session.phases.as_slice())?),
        ("\narrived ", totals.arrived),
        ("\ntaken ", totals.flushed),
        ("\nbytes ", totals.got),
        ("\ngenerations ", generations_of(ends)?),
    ];
    Ok(put_fields(text, &fields, "\ndone\n")?)
}

fn calls_in(phases: &[Phase]) -> Result<u64, NoMemory>
    ensures { IfOk result (λ count. count ≡ call_count (map phase_of phases.now)) }
{
    let mut count = 0u64;
    for phase in phases {
        let more = calls_of(phase.callers.as_slice())?;
        count = sum_of(count, more)?;
    }
    Ok(count)
}

fn calls_of(scripts: &[Script]) -> Result<u64, NoMemory>
    ensures { IfOk result (λ count. count ≡ sum_by (λ script. length script.calls) (map script_of scripts.now)) }
{
    let mut count = 0u64;
    for script in scripts {
        count = sum_of(count, script.calls.len() as u64)?;
    }
    Ok(count)
}

/// How many characters a journal flushes, and how many bytes it answers.
#[derive(Clone, Copy)]
struct Handed {
    flushed: u64,
    got: u64,
}

/// How many characters arrived and were flushed, and how many bytes were answered, on all ports.
#[derive(Clone, Copy)]
struct Totals {
    arrived: u64,
    flushed: u64,
    got: u64,
}

/// What arrived, was flushed and was answered on all ports.
fn totals_of(runs: &[PortRun]) -> Result<Totals, NoMemory>
    ensures arrived { IfOk result (λ totals. totals.arrived ≡ all_arrived runs.now) }
    ensures flushed { IfOk result (λ totals. totals.flushed ≡ all_flushed runs.now) }
    ensures got { IfOk result (λ totals. totals.got ≡ all_got runs.now) }
{
    let mut arrived = 0u64;
    let mut flushed = 0u64;
    let mut got = 0u64;
    for run in runs {
        let more = handed_in(&run.journal)?;
        arrived = sum_of(arrived, u64::from(run.line.arrived))?;
        flushed = sum_of(flushed, more.flushed)?;
        got = sum_of(got, more.got)?;
    }
    Ok(Totals {
        arrived,
        flushed,
        got,
    })
}

/// What a journal flushes and answers, counted in one walk.
fn handed_in(journal: &Journal) -> Result<Handed, NoMemory>
    ensures flushed { IfOk result (λ handed. handed.flushed ≡ flushed_count journal.now.items) }
    ensures got { IfOk result (λ handed. handed.got ≡ got_count journal.now.items) }
{
    let mut flushed = 0u64;
    let mut got = 0u64;
    for place in 0..journal.len() {
        let entry = journal.at(place);
        let more = flushed_in(&entry.event);
        flushed = sum_of(flushed, more)?;
        got = sum_of(got, got_in(&entry.event))?;
    }
    Ok(Handed { flushed, got })
}

fn got_in(event: &Event) -> u64
    ensures { result ≡ got_by_event (event_of event.now) }
{
    match event {
        Event::Answer { answer, .. } => got_by(answer),
        _ => 0,
    }
}

fn got_by(answer: &AnswerRef) -> u64
    ensures { result ≡ got_by_answer (answer_lent answer.now) }
{
    match answer {
        AnswerRef::Got(bytes) => bytes.len() as u64,
        _ => 0,
    }
}

fn generations_of(ends: &[PortEnd]) -> Result<u64, NoMemory>
    ensures { IfOk result (λ count. count ≡ all_generations (map end_of ends.now)) }
{
    let mut count = 0u64;
    for end in ends {
        count = sum_of(count, u64::from(end.generation))?;
    }
    Ok(count)
}
