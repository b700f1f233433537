//! The report of a session of ports with modem lines.

ghost use Rattle.std.specs.Prelude.{◌≡◌, ◌++◌, ◌<◌, [], IfOk, OnOk, length, map, replicate, slice_index_or};
ghost use Rattle.tty_calls.specs.Sessions.{phase_of};
ghost use Rattle.session_print.specs.Ends.{end_of};
ghost use Rattle.modem_text.specs.Events.{logged_of};
ghost use Rattle.modem_text.specs.Sessions.{carrier_name, modem_session_of};
ghost use Rattle.further_report.specs.Modem.{all_calls, modem_report_text, own_verb, port_calls};
ghost use Rattle.further_report.specs.Printing.{bytes_of, learned_with_carrier, own_in, scripts_beside, scripts_text};

use crate::answers::{Answering, answers_on, note_answer};
use crate::names::learn_all;
use crate::ports::ports_lines;
use crate::scripts::{Teller, first_steps};
use crate::verbs::FurtherCall;
use arrayvec::ArrayString;
use modem_text::{ModemEvent, ModemLog, ModemPart, ModemSession, OwnCall};
use passed_calls::PlacedCall;
use std::alloc::Global;
use tty_base::{Bytes, NoMemory};
use tty_calls::{Names, Phase, PortEnd, PortRun};

impl FurtherCall for OwnCall {
    ghost use Rattle.further_report.specs.Modem.{own_verb};

    ghost verb_text = { own_verb };

    fn verb(self) -> &'static str {
        match self {
            OwnCall::Mget { .. } => "mget",
            OwnCall::Mset { .. } => "mset",
            OwnCall::Mbis { .. } => "mbis",
            OwnCall::Mbic { .. } => "mbic",
            OwnCall::Softcar { .. } => "softcar",
            OwnCall::Getcar { .. } => "getcar",
            OwnCall::Hupcl { .. } => "hupcl",
            OwnCall::Msr { .. } => "msr",
        }
    }
}

impl Answering for ModemEvent {
    ghost use Rattle.modem_text.specs.Events.{event_of};
    ghost use Rattle.further_report.specs.Modem.{told_in};

    ghost told = { λ event. told_in (event_of event) };

    fn note(&self, alloc: Global, answers: &mut [Vec<Bytes>]) -> Result<(), NoMemory> {
        match self {
            ModemEvent::Own { caller, answer, .. } => {
                note_answer(alloc, answers, *caller, answer)
            }
            ModemEvent::Passed { caller, answer, .. } => {
                note_answer(alloc, answers, *caller, answer)
            }
            _ => Ok(()),
        }
    }
}

/// The report of a session of ports with modem lines: each call with its answer, as the log tells it, then what became
/// of each port. There is one run, and one end, for each port.
pub fn modem_report(
    alloc: Global,
    session: &ModemSession,
    log: &[ModemLog],
    runs: &[PortRun],
    ends: &[PortEnd],
) -> Result<Bytes, NoMemory>
    ensures { IfOk result (λ text.
        text.items
        ≡ modem_report_text (modem_session_of session.now) (map logged_of log.now) runs.now (map end_of ends.now)) }
{
    let mut text = Vec::new(alloc);
    put_all(alloc, &mut text, session, log)?;
    let ports = ports_lines(alloc, &session.session, runs, ends)?;
    text.extend_from_slice(ports.as_slice())?;
    text.extend_from_slice(b"done\n".as_slice())?;
    Ok(Bytes::from_vec(text))
}

/// Adds the lines of the calls of all ports.
fn put_all(
    alloc: Global,
    text: &mut Vec<u8>,
    session: &ModemSession,
    log: &[ModemLog],
) -> Result<(), NoMemory>
    ensures { OnOk result
        (text.new.items ≡ text.old.items ++ all_calls (modem_session_of session.now) (map logged_of log.now)) }
{
    for port in 0..session.session.ports {
        put_port(alloc, text, session, log, port)?;
    }
    Ok(())
}

/// Adds the lines of the calls of a port.
fn put_port(
    alloc: Global,
    text: &mut Vec<u8>,
    session: &ModemSession,
    log: &[ModemLog],
    port: u8,
) -> Result<(), NoMemory>
    requires { port < session.now.session.ports }
    ensures { OnOk result
        (text.new.items ≡ text.old.items ++ port_calls (modem_session_of session.now) (map logged_of log.now) port) }
{
    let phases = session.session.phases.as_slice();
    let names = names_of(alloc, port, phases)?;
    let answers = answers_on(alloc, port, names.len(), log)?;
    let teller = Teller {
        port,
        names,
        answers,
    };
    put_phases(alloc, text, &teller, phases, session.parts.as_slice())
}

/// Adds the lines of the scripts of phases.
fn put_phases(
    alloc: Global,
    text: &mut Vec<u8>,
    teller: &Teller,
    phases: &[Phase],
    parts: &[ModemPart],
) -> Result<(), NoMemory>
    requires { length teller.now.answers.items ≡ length teller.now.names }
    ensures { OnOk result (text.new.items
        ≡ text.old.items
        ++ scripts_text own_verb teller.now.port teller.now.names
        (map (λ texts. bytes_of texts.items) teller.now.answers.items) (replicate (length teller.now.names) 0)
        (scripts_beside (map own_in parts.now) 0 (map phase_of phases.now))) }
{
    let mut steps = first_steps(alloc, teller.names.len())?;
    for (place, phase) in phases.iter().enumerate() {
        let placed = placed_in(parts, place);
        teller.put_scripts(alloc, text, &mut steps, phase.callers.as_slice(), placed)?;
    }
    Ok(())
}

/// The calls of modem lines in the phase at a place.
fn placed_in(parts: &[ModemPart], place: usize) -> &[PlacedCall<OwnCall>]
    ensures { result.now ≡ slice_index_or (map own_in parts.now) place [] }
{
    match parts.get(place) {
        None => &[],
        Some(part) => part.own.as_slice(),
    }
}

/// The names of a port's callers. In each phase the last is the one that hangs the port up.
fn names_of(alloc: Global, port: u8, phases: &[Phase]) -> Result<Names, NoMemory>
    ensures { IfOk result (λ names. names ≡ learned_with_carrier [] port (map phase_of phases.now)) }
{
    let carrier = carrier_name();
    let mut names = Names::new(alloc);
    for phase in phases {
        learn_all(&mut names, port, phase.callers.as_slice())?;
        names.learn(&carrier)?;
    }
    Ok(names)
}

/// The name of the caller that hangs a port up.
fn carrier_name() -> ArrayString<16>
    ensures { result.bytes ≡ carrier_name }
{
    let mut name = ArrayString::new();
    name.push_str("carrier");
    name
}
