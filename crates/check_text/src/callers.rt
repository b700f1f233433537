//! The callers of a port: the number that each name has, and the kind of each caller's call at a step.

ghost use Rattle.std.specs.Prelude.{◌≡◌, ◌≤◌, [], ◌++◌, IfOk, OnOk, length, map, replicate};
ghost use Rattle.tty_base.specs.Sizes.{MOST_NUMBERED};
ghost use Rattle.tty_calls.specs.Sessions.{session_of, script_of, scripts_over};
ghost use Rattle.check_text.specs.Callers.{answer_kind as kind_of_call, callers_on, caller_named, kind_at};
ghost use Rattle.check_text.specs.Building.{rows_after, rows_then, scripts_for};

use super::kinds::{AnswerKind, answer_kind};
use std::alloc::Global;
use text_lines::{is_name, name_of};
use tty_base::NoMemory;
use tty_base::sizes::MOST_NUMBERED;
use tty_calls::{Calls, Names, Script, Session};

/// The callers of a port. A caller's number is the place of its name.
#[derive(Drop)]
pub(crate) struct Callers {
    names: Names,
    /// For each caller the kinds of its calls, by their steps.
    kinds: Vec<Vec<AnswerKind>>,
    ghost few: { length names ≤ MOST_NUMBERED },
}

impl Callers {
    ghost use Rattle.check_text.specs.Views.{callers_of};

    /// The callers of a port in a session. More than 65,536 are refused as want of memory; a session
    /// that a text spells has at most 1,024.
    pub(crate) fn on_port(
        alloc: Global,
        session: &Session,
        port: usize,
    ) -> Result<Callers, NoMemory>
        ensures { IfOk result (λ callers. callers_of callers ≡ callers_on port (session_of session.now)) }
    {
        let names = Names::on_port(alloc, session, port)?;
        if names.len() > MOST_NUMBERED {
            return Err(NoMemory);
        }
        let kinds = kinds_on(alloc, &names, session, port)?;
        Ok(Callers { names, kinds })
    }

    /// The number of the caller that a word names.
    pub(crate) fn number(&self, word: &[u8]) -> Option<u16>
        ensures { result ≡ caller_named (callers_of self.now).names word.now }
    {
        if !is_name(word) {
            return None;
        }
        let number = self.names.number(&name_of(word))?;
        Some(number as u16)
    }

    /// The kind of a caller's call, where its script has this step.
    pub(crate) fn kind(&self, caller: u16, step: u32) -> Option<AnswerKind>
        ensures { result ≡ kind_at (callers_of self.now) caller step }
    {
        let row = self.kinds.get(usize::from(caller))?;
        row.get(step as usize).copied()
    }
}

/// For each of a port's names the kinds of its calls.
fn kinds_on(
    alloc: Global,
    names: &Names,
    session: &Session,
    port: usize,
) -> Result<Vec<Vec<AnswerKind>>, NoMemory>
    ensures { IfOk result (λ rows.
        map (λ row. row.items) rows.items
        ≡ rows_after names.now (replicate (length names.now) []) (scripts_over port (session_of session.now).phases)) }
{
    let mut rows = empty_rows(alloc, names.len())?;
    for phase in session.phases.as_slice() {
        add_scripts(names, rows.as_mut_slice(), port, phase.callers.as_slice())?;
    }
    Ok(rows)
}

fn empty_rows(alloc: Global, count: usize) -> Result<Vec<Vec<AnswerKind>>, NoMemory>
    ensures { IfOk result (λ rows. map (λ row. row.items) rows.items ≡ replicate count []) }
{
    let mut rows = Vec::new(alloc);
    for _ in 0..count {
        rows.push(Vec::new(alloc))?;
    }
    Ok(rows)
}

/// Adds the calls of the port's scripts among these, each to its caller's row.
fn add_scripts(
    names: &Names,
    rows: &mut [Vec<AnswerKind>],
    port: usize,
    scripts: &[Script],
) -> Result<(), NoMemory>
    requires { length rows.old ≡ length names.now }
    ensures { OnOk result (map (λ row. row.items) rows.new
        ≡ rows_after names.now (map (λ row. row.items) rows.old) (scripts_for port scripts.now)) }
{
    for script in scripts {
        if usize::from(script.port) == port {
            add_script(names, rows, script)?;
        }
    }
    Ok(())
}

fn add_script(names: &Names, rows: &mut [Vec<AnswerKind>], script: &Script) -> Result<(), NoMemory>
    requires { length rows.old ≡ length names.now }
    ensures { OnOk result (map (λ row. row.items) rows.new
        ≡ rows_then names.now (map (λ row. row.items) rows.old) (script_of script.now)) }
{
    match names.number(&script.name) {
        None => Ok(()),
        Some(caller) => {
            add_kinds(&mut rows[caller], &script.calls)?;
            Ok(())
        }
    }
}

fn add_kinds(row: &mut Vec<AnswerKind>, calls: &Calls) -> Result<(), NoMemory>
    ensures { OnOk result (row.new.items ≡ row.old.items ++ map kind_of_call calls.now.items) }
{
    for place in 0..calls.len() {
        row.push(answer_kind(&calls.at(place)))?;
    }
    Ok(())
}
