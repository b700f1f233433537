//! The report of a session whose callers are processes.

ghost use Rattle.std.specs.Prelude.{◌≡◌, ◌++◌, ◌<◌, ◌==◌, [], IfOk, OnOk, if◌then◌else◌};
ghost use Rattle.std.specs.Prelude.{length, map, replicate, string_bytes};
ghost use Rattle.session_print.specs.Ends.{end_of};
ghost use Rattle.tty_calls.specs.Sessions.{phase_of};
ghost use Rattle.job_print.specs.Lines.{answer_text as text_of_answer};
ghost use Rattle.job_text.specs.Events.{event_of, logged_of};
ghost use Rattle.job_text.specs.Sessions.{bare_session_of, own_of};
ghost use Rattle.further_report.specs.Jobs.{all_calls, all_signals, jobs_report_text, own_verb};
ghost use Rattle.further_report.specs.Jobs.{port_calls, port_signals, signal_in, signals_on};
ghost use Rattle.further_report.specs.Printing.{bytes_of, learned_over, noted, scripts_beside, scripts_text};

use crate::answers::{Answering, answers_on, note, note_answer};
use crate::names::learn_all;
use crate::ports::ports_lines;
use crate::scripts::{Teller, first_steps};
use crate::verbs::FurtherCall;
use job_control::{JobAnswer, Proc};
use job_print::{answer_text, put_signal};
use job_text::{JobEvent, JobLog, JobsPart, JobsSession, OwnCall, own_in, procs_on};
use std::alloc::Global;
use tty_base::{Bytes, NoMemory};
use tty_calls::{Names, Phase, PortEnd, PortRun};

impl FurtherCall for OwnCall {
    ghost use Rattle.further_report.specs.Jobs.{own_verb};

    ghost verb_text = { own_verb };

    fn verb(self) -> &'static str {
        match self {
            OwnCall::Sctty { .. } => "sctty",
            OwnCall::Notty { .. } => "notty",
            OwnCall::Gpgrp { .. } => "gpgrp",
            OwnCall::Spgrp { .. } => "spgrp",
            OwnCall::Exit => "exit",
        }
    }
}

impl Answering for JobEvent {
    ghost use Rattle.job_text.specs.Events.{event_of};
    ghost use Rattle.further_report.specs.Jobs.{told_in};

    ghost told = { λ event. told_in (event_of event) };

    fn note(&self, alloc: Global, answers: &mut [Vec<Bytes>]) -> Result<(), NoMemory> {
        match self {
            JobEvent::Own { caller, answer, .. } => { note_own(alloc, answers, *caller, *answer) }
            JobEvent::Passed { caller, answer, .. } => {
                note_answer(alloc, answers, *caller, answer)
            }
            _ => Ok(()),
        }
    }
}

/// Notes an answer that the port did not give.
fn note_own(
    alloc: Global,
    answers: &mut [Vec<Bytes>],
    caller: u16,
    answer: JobAnswer,
) -> Result<(), NoMemory>
    ensures { OnOk result (map (λ texts. bytes_of texts.items) answers.new
        ≡ noted (map (λ texts. bytes_of texts.items) answers.old)
        (record { caller = caller; text = text_of_answer answer })) }
{
    let text = answer_text(alloc, answer)?;
    note(answers, caller, text)
}

/// The report of a session whose callers are processes: each call with its answer, as the log tells it, then what
/// became of each port, and which signals were sent. There is one run, and one end, for each port.
pub fn jobs_report(
    alloc: Global,
    session: &JobsSession,
    log: &[JobLog],
    runs: &[PortRun],
    ends: &[PortEnd],
) -> Result<Bytes, NoMemory>
    ensures { IfOk result (λ text.
        text.items
        ≡ jobs_report_text (bare_session_of session.now) (map logged_of log.now) runs.now (map end_of ends.now)) }
{
    let mut text = Vec::new(alloc);
    put_all(alloc, &mut text, session, log)?;
    let ports = ports_lines(alloc, &session.session, runs, ends)?;
    text.extend_from_slice(ports.as_slice())?;
    let mut signals = String::new(alloc);
    put_signals(alloc, &mut signals, session, log)?;
    signals.push_str("done\n")?;
    text.extend_from_slice(signals.as_bytes())?;
    Ok(Bytes::from_vec(text))
}

/// Adds the lines of the calls of all ports.
fn put_all(
    alloc: Global,
    text: &mut Vec<u8>,
    session: &JobsSession,
    log: &[JobLog],
) -> Result<(), NoMemory>
    ensures { OnOk result
        (text.new.items ≡ text.old.items ++ all_calls (bare_session_of session.now) (map logged_of log.now)) }
{
    for port in 0..session.session.ports {
        put_port(alloc, text, session, log, port)?;
    }
    Ok(())
}

/// Adds the lines of the calls of a port.
fn put_port(
    alloc: Global,
    text: &mut Vec<u8>,
    session: &JobsSession,
    log: &[JobLog],
    port: u8,
) -> Result<(), NoMemory>
    ensures { OnOk result
        (text.new.items ≡ text.old.items ++ port_calls (bare_session_of session.now) (map logged_of log.now) port) }
{
    let phases = session.session.phases.as_slice();
    let names = names_of(alloc, port, phases)?;
    let answers = answers_on(alloc, port, names.len(), log)?;
    let teller = Teller {
        port,
        names,
        answers,
    };
    put_phases(alloc, text, &teller, phases, session.parts.as_slice())
}

/// Adds the lines of the scripts of phases.
fn put_phases(
    alloc: Global,
    text: &mut Vec<u8>,
    teller: &Teller,
    phases: &[Phase],
    parts: &[JobsPart],
) -> Result<(), NoMemory>
    requires { length teller.now.answers.items ≡ length teller.now.names }
    ensures { OnOk result (text.new.items
        ≡ text.old.items
        ++ scripts_text own_verb teller.now.port teller.now.names
        (map (λ texts. bytes_of texts.items) teller.now.answers.items) (replicate (length teller.now.names) 0)
        (scripts_beside (map own_of parts.now) 0 (map phase_of phases.now))) }
{
    let mut steps = first_steps(alloc, teller.names.len())?;
    for (place, phase) in phases.iter().enumerate() {
        let placed = own_in(parts, place);
        teller.put_scripts(alloc, text, &mut steps, phase.callers.as_slice(), placed)?;
    }
    Ok(())
}

/// The names of a port's callers.
fn names_of(alloc: Global, port: u8, phases: &[Phase]) -> Result<Names, NoMemory>
    ensures { IfOk result (λ names. names ≡ learned_over [] port (map phase_of phases.now)) }
{
    let mut names = Names::new(alloc);
    for phase in phases {
        learn_all(&mut names, port, phase.callers.as_slice())?;
    }
    Ok(names)
}

/// Adds the lines of the signals of all ports.
fn put_signals(
    alloc: Global,
    text: &mut String,
    session: &JobsSession,
    log: &[JobLog],
) -> Result<(), NoMemory>
    ensures { OnOk result (string_bytes text.new
        ≡ string_bytes text.old ++ all_signals (bare_session_of session.now) (map logged_of log.now)) }
{
    for port in 0..session.session.ports {
        put_signals_on(alloc, text, session, log, port)?;
    }
    Ok(())
}

/// Adds the lines of the signals of a port.
fn put_signals_on(
    alloc: Global,
    text: &mut String,
    session: &JobsSession,
    log: &[JobLog],
    port: u8,
) -> Result<(), NoMemory>
    requires { port < session.now.session.ports }
    ensures { OnOk result (string_bytes text.new
        ≡ string_bytes text.old ++ port_signals (bare_session_of session.now) (map logged_of log.now) port) }
{
    let procs = procs_on(alloc, session.procs.as_slice(), port)?;
    put_port_signals(text, port, procs.as_slice(), log)
}

/// Adds the lines of the signals of a port, which has these processes.
fn put_port_signals(
    text: &mut String,
    port: u8,
    procs: &[Proc],
    log: &[JobLog],
) -> Result<(), NoMemory>
    ensures { OnOk result
        (string_bytes text.new ≡ string_bytes text.old ++ signals_on port procs.now (map logged_of log.now)) }
{
    for logged in log {
        put_logged(text, port, procs, logged)?;
    }
    Ok(())
}

/// Adds the line of a signal, where this is one that was sent on the port.
fn put_logged(text: &mut String, port: u8, procs: &[Proc], logged: &JobLog) -> Result<(), NoMemory>
    ensures { OnOk result (string_bytes text.new
        ≡ string_bytes text.old
        ++ (if logged.now.port == port then signal_in port procs.now (event_of logged.now.event) else [])) }
{
    if logged.port == port {
        put_event(text, port, procs, &logged.event)
    } else {
        Ok(())
    }
}

fn put_event(text: &mut String, port: u8, procs: &[Proc], event: &JobEvent) -> Result<(), NoMemory>
    ensures { OnOk result
        (string_bytes text.new ≡ string_bytes text.old ++ signal_in port procs.now (event_of event.now)) }
{
    match event {
        JobEvent::Sent { signal, target } => put_signal(text, port, procs, *signal, *target),
        _ => Ok(()),
    }
}
