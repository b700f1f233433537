//! The report of a session, with the journals of its ports where they are asked for, and the text of an answer.

ghost use Rattle.std.specs.Prelude.{◌≡◌, [], ◌++◌, IfOk, OnOk, map, string_bytes};
ghost use Rattle.tty_calls.specs.Plain.{answer_of};
ghost use Rattle.tty_calls.specs.Sessions.{session_of};
ghost use Rattle.session_print.specs.Ends.{end_of};
ghost use Rattle.session_print.specs.Report.{report_text, play_text as text_of_play, calls_from, ports_from};
ghost use Rattle.session_print.specs.Printing.{sums_on};
ghost use Rattle.session_print.specs.Words.{answer_text as text_of_answer};

use super::calls::put_calls;
use super::journals::put_journals;
use super::ports::put_port;
use super::sums::Sums;
use super::words::put_answer;
use std::alloc::{AllocError, Global};
use tty_base::{Bytes, NoMemory};
use tty_calls::{Answer, PortEnd, PortRun, Session};

/// The report of a session: each call with its answer, then what became of each port. There is one
/// run, and one end, for each port.
pub fn report(
    alloc: Global,
    session: &Session,
    runs: &[PortRun],
    ends: &[PortEnd],
) -> Result<Bytes, NoMemory>
    ensures { IfOk result (λ text. text.items ≡ report_text (session_of session.now) runs.now (map end_of ends.now)) }
{
    play_text(alloc, Bytes::new(alloc), session, runs, ends, false)
}

/// Room for a report at first, in bytes: so large a block is moved by its pages where it grows.
const ROOM: usize = 262_144;

/// An empty text in the memory of `used`.
fn blank(used: Bytes) -> String
    ensures { string_bytes result ≡ [] }
{
    let mut bytes = used.into_vec();
    bytes.clear();
    match String::from_utf8(bytes) {
        Ok(text) => text,
        Err(_) => unreachable!(),
    }
}

/// The report of a session, and within it the journals of its ports where they are asked for. It takes the
/// memory of `used`, and what stood there is gone.
pub fn play_text(
    alloc: Global,
    used: Bytes,
    session: &Session,
    runs: &[PortRun],
    ends: &[PortEnd],
    journals: bool,
) -> Result<Bytes, NoMemory>
    ensures { IfOk result
        (λ text. text.items ≡ text_of_play journals (session_of session.now) runs.now (map end_of ends.now)) }
{
    let mut text = blank(used);
    put_play(alloc, &mut text, session, runs, ends, journals)?;
    Ok(Bytes::from_vec(text.into_bytes()))
}

fn put_play(
    alloc: Global,
    text: &mut String,
    session: &Session,
    runs: &[PortRun],
    ends: &[PortEnd],
    journals: bool,
) -> Result<(), NoMemory>
    ensures { OnOk result (string_bytes text.new
        ≡ string_bytes text.old ++ text_of_play journals (session_of session.now) runs.now (map end_of ends.now)) }
{
    text.reserve(ROOM)?;
    put_calls_and_ports(alloc, text, session, runs, ends)?;
    if journals {
        put_journals(alloc, text, session, runs)?;
    }
    Ok(text.push_str("done\n")?)
}

/// Adds the lines of all calls, and then those of all ports.
fn put_calls_and_ports(
    alloc: Global,
    text: &mut String,
    session: &Session,
    runs: &[PortRun],
    ends: &[PortEnd],
) -> Result<(), NoMemory>
    ensures { OnOk result (string_bytes text.new
        ≡ string_bytes text.old
        ++ (calls_from 0 (session_of session.now) runs.now
        ++ ports_from 0 (session_of session.now) runs.now (map end_of ends.now))) }
{
    let sums = put_all_calls(alloc, text, session, runs)?;
    Ok(put_ports(text, session, runs, sums.as_slice(), ends)?)
}

/// The text of an answer, as it stands in a report and in a journal.
pub fn answer_text(alloc: Global, answer: &Answer) -> Result<Bytes, NoMemory>
    ensures { IfOk result (λ text. text.items ≡ text_of_answer (answer_of answer.now)) }
{
    let mut text = String::new(alloc);
    put_answer(&mut text, &answer.lent())?;
    Ok(Bytes::from_vec(text.into_bytes()))
}

/// Adds the lines of the calls of all ports, and gives the sums of each port's journal.
fn put_all_calls(
    alloc: Global,
    text: &mut String,
    session: &Session,
    runs: &[PortRun],
) -> Result<Vec<Sums>, NoMemory>
    ensures text { OnOk result
        (string_bytes text.new ≡ string_bytes text.old ++ calls_from 0 (session_of session.now) runs.now) }
    ensures sums { IfOk result (λ sums. sums.items ≡ map sums_on runs.now) }
{
    let mut sums = Vec::new(alloc);
    put_each_call(alloc, text, session, runs, &mut sums)?;
    Ok(sums)
}

/// Adds the lines of the calls of all ports, and the sums of each port's journal to none.
fn put_each_call(
    alloc: Global,
    text: &mut String,
    session: &Session,
    runs: &[PortRun],
    sums: &mut Vec<Sums>,
) -> Result<(), NoMemory>
    requires { sums.old.items ≡ [] }
    ensures text { OnOk result
        (string_bytes text.new ≡ string_bytes text.old ++ calls_from 0 (session_of session.now) runs.now) }
    ensures sums { OnOk result (sums.new.items ≡ map sums_on runs.now) }
{
    for (port, run) in runs.iter().enumerate() {
        let summed = put_calls(alloc, text, port, session, run)?;
        sums.push(summed)?;
    }
    Ok(())
}

/// Adds the lines of all ports, of whose journals these are the sums.
fn put_ports(
    text: &mut String,
    session: &Session,
    runs: &[PortRun],
    sums: &[Sums],
    ends: &[PortEnd],
) -> Result<(), AllocError>
    requires { sums.now ≡ map sums_on runs.now }
    ensures { OnOk result (string_bytes text.new
        ≡ string_bytes text.old ++ ports_from 0 (session_of session.now) runs.now (map end_of ends.now)) }
{
    for (port, run) in runs.iter().enumerate() {
        if let Some(end) = ends.get(port) {
            put_port(text, port, session, run, sums[port], end)?;
        }
    }
    Ok(())
}
