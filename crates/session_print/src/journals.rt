//! The text of the journals: for each port its entries, its overruns, and the numbers of its line.

ghost use Rattle.std.specs.Prelude.{◌≡◌, ◌++◌, IfOk, OnOk, codes, decimal, flat_map, string_bytes};
ghost use Rattle.tty_base.specs.declared.characters.Flagged.{Flagged};
ghost use Rattle.tty_calls.specs.Plain.{answer_lent, answered, entry_of, event_of};
ghost use Rattle.tty_calls.specs.Sessions.{session_of, scripts_over, names_of};
ghost use Rattle.session_print.specs.Journals.{journals_text, journal_on, entry_line, event_text};
ghost use Rattle.session_print.specs.Journals.{chars_text, beside_text, overrun_line, line_numbers};
ghost use Rattle.session_print.specs.Lines.{newline};
ghost use Rattle.session_print.specs.Printing.{Fronts, entry_rest};

use super::characters::put_each_character;
use super::digits::put_number;
use super::fields::put_fields;
use super::fronts::Front;
use super::parts::put_places;
use super::words::put_answer;
use std::alloc::{AllocError, Global};
use tty_base::{Bytes, Flagged, LineReport, NoMemory, Overrun};
use tty_calls::{AnswerRef, Entry, Event, Journal, Names, PortRun, Session};

/// The journals of a session's ports: for each port, of which there is one run each, its entries, its
/// overruns, and the numbers of its line.
pub fn journal_text(alloc: Global, session: &Session, runs: &[PortRun]) -> Result<Bytes, NoMemory>
    ensures { IfOk result (λ text. text.items ≡ journals_text (session_of session.now) runs.now) }
{
    let mut text = String::new(alloc);
    put_journals(alloc, &mut text, session, runs)?;
    Ok(Bytes::from_vec(text.into_bytes()))
}

/// Adds the journals of all ports.
pub(crate) fn put_journals(
    alloc: Global,
    text: &mut String,
    session: &Session,
    runs: &[PortRun],
) -> Result<(), NoMemory>
    ensures { OnOk result
        (string_bytes text.new ≡ string_bytes text.old ++ journals_text (session_of session.now) runs.now) }
{
    text.push_str("journals\n")?;
    for (port, run) in runs.iter().enumerate() {
        put_journal(alloc, text, port, session, run)?;
    }
    Ok(())
}

fn put_journal(
    alloc: Global,
    text: &mut String,
    port: usize,
    session: &Session,
    run: &PortRun,
) -> Result<(), NoMemory>
    ensures { OnOk result
        (string_bytes text.new ≡ string_bytes text.old ++ journal_on port (session_of session.now) run.now) }
{
    let names = Names::on_port(alloc, session, port)?;
    let put = put_run(text, port, session, &names, run);
    drop(names);
    Ok(put?)
}

/// Adds the journal of a port whose callers have these names.
fn put_run(
    text: &mut String,
    port: usize,
    session: &Session,
    names: &Names,
    run: &PortRun,
) -> Result<(), AllocError>
    requires { names.now ≡ names_of (scripts_over port (session_of session.now).phases) }
    ensures { OnOk result
        (string_bytes text.new ≡ string_bytes text.old ++ journal_on port (session_of session.now) run.now) }
{
    let _ = session; // for the contract alone
    put_heading(text, "journal ", port, run.journal.len())?;
    put_entries(text, names, &run.journal)?;
    put_heading(text, "overruns ", port, run.line.overruns.len())?;
    put_overruns(text, run.line.overruns.as_slice())?;
    put_line_numbers(text, port, &run.line)
}

fn put_heading(text: &mut String, word: &str, port: usize, lines: usize) -> Result<(), AllocError>
    ensures { OnOk result (string_bytes text.new
        ≡ string_bytes text.old ++ (word.now ++ (decimal port ++ (codes " " ++ (decimal lines ++ newline))))) }
{
    put_fields(text, &[(word, port as u64), (" ", lines as u64)], "\n")
}

fn put_entries(text: &mut String, names: &Names, journal: &Journal) -> Result<(), AllocError>
    ensures { OnOk result
        (string_bytes text.new ≡ string_bytes text.old ++ flat_map (entry_line names.now) journal.now.items) }
{
    let mut front = Front::new(*text.allocator(), names)?;
    put_each_entry(text, names, &mut front, journal)
}

fn put_each_entry(
    text: &mut String,
    names: &Names,
    front: &mut Front,
    journal: &Journal,
) -> Result<(), AllocError>
    requires { Fronts names.now front.old }
    ensures { OnOk result
        (string_bytes text.new ≡ string_bytes text.old ++ flat_map (entry_line names.now) journal.now.items) }
{
    for place in 0..journal.len() {
        let entry = journal.at(place);
        front.turn_to(names, entry.who, entry.step)?;
        put_entry(text, front.as_str(), &entry)?;
    }
    Ok(())
}

/// Adds the line of an entry, whose head lacks the last digit of the step.
#[inline(always)]
fn put_entry(text: &mut String, head: &str, entry: &Entry) -> Result<(), AllocError>
    ensures { OnOk result
        (string_bytes text.new ≡ string_bytes text.old ++ (head.now ++ entry_rest (entry_of entry.now))) }
{
    let digit = (entry.step % 10) as u8;
    text.push_str(head)?;
    put_places(text, digit, entry.part, entry.generation)?;
    put_event(text, &entry.event)
}

/// Adds an event and the end of its line.
#[inline(always)]
fn put_event(text: &mut String, event: &Event) -> Result<(), AllocError>
    ensures { OnOk result
        (string_bytes text.new ≡ string_bytes text.old ++ (event_text (event_of event.now) ++ newline)) }
{
    match *event {
        Event::Answer { answer, dropped } => put_answered(text, &answer, dropped),
        Event::Part(taken) => put_counted(text, "part ", u64::from(taken)),
        Event::Wait => text.push_str("wait\n"),
        Event::Flush(characters) => put_listed(text, "flush ", characters),
        Event::Tick => text.push_str("tick\n"),
        Event::LineEnd(sent) => put_counted(text, "line_end ", sent),
        Event::ClockEnd => text.push_str("clock_end\n"),
        Event::CallerEnd => text.push_str("caller_end\n"),
        Event::PhaseEnd => text.push_str("phase_end\n"),
        Event::Hangup(dropped) => put_listed(text, "hangup ", dropped),
    }
}

/// Adds a word, a number and the end of a line.
#[inline(always)]
fn put_counted(text: &mut String, word: &str, number: u64) -> Result<(), AllocError>
    ensures { OnOk result (string_bytes text.new ≡ string_bytes text.old ++ (word.now ++ (decimal number ++ newline))) }
{
    text.push_str(word)?;
    put_number(text, number)?;
    text.push_str("\n")
}

/// Adds an answer, the characters that were dropped with it, and the end of the line.
#[inline(always)]
fn put_answered(
    text: &mut String,
    answer: &AnswerRef,
    dropped: &[Flagged],
) -> Result<(), AllocError>
    ensures { OnOk result (string_bytes text.new
        ≡ string_bytes text.old ++ (event_text (answered (answer_lent answer.now) dropped.now) ++ newline)) }
{
    text.push_str("answer ")?;
    put_answer(text, answer)?;
    put_beside(text, dropped)?;
    text.push_str("\n")
}

/// Adds the characters that were dropped beside an answer, where there are any.
#[inline(always)]
fn put_beside(text: &mut String, dropped: &[Flagged]) -> Result<(), AllocError>
    ensures { OnOk result (string_bytes text.new ≡ string_bytes text.old ++ beside_text dropped.now) }
{
    if dropped.is_empty() {
        return Ok(());
    }
    text.push_str(" drop ")?;
    put_each_character(text, dropped)
}

/// Adds a word, characters or a sign where there are none, and the end of a line.
#[inline(never)]
fn put_listed(text: &mut String, word: &str, characters: &[Flagged]) -> Result<(), AllocError>
    ensures { OnOk result
        (string_bytes text.new ≡ string_bytes text.old ++ (word.now ++ (chars_text characters.now ++ newline))) }
{
    text.push_str(word)?;
    if characters.is_empty() {
        return text.push_str("-\n");
    }
    put_each_character(text, characters)?;
    text.push_str("\n")
}

fn put_overruns(text: &mut String, overruns: &[Overrun]) -> Result<(), AllocError>
    ensures { OnOk result (string_bytes text.new ≡ string_bytes text.old ++ flat_map overrun_line overruns.now) }
{
    for overrun in overruns {
        let Overrun { at, sent, seen } = *overrun;
        put_fields(text, &[("", u64::from(at)), (" ", sent), (" ", seen)], "\n")?;
    }
    Ok(())
}

fn put_line_numbers(text: &mut String, port: usize, line: &LineReport) -> Result<(), AllocError>
    ensures { OnOk result (string_bytes text.new ≡ string_bytes text.old ++ line_numbers port line.now) }
{
    put_fields(
        text,
        &[
            ("line ", port as u64),
            (" ", u64::from(line.arrived)),
            (" ", u64::from(line.fifo_lost)),
            (" ", line.sent),
        ],
        "\n",
    )
}
