//! The lines of the operators' calls.

ghost use Rattle.std.specs.Prelude.{◌≡◌, ◌++◌, ◌<◌, IfOk, OnOk, length, map, replicate, string_bytes, []};
ghost use Rattle.tty_calls.specs.Sessions.{number_in};
ghost use Rattle.vt_text.specs.Sessions.{operator_of, operators_of, vt_session_of};
ghost use Rattle.vt_report.specs.Report.{activation_answer, call_line, line_of};
ghost use Rattle.vt_report.specs.Report.{lines_from, operators_text, state_line};
ghost use Rattle.vt_report.specs.Printing.{AreStates, block_text, blocks_in, blocks_text, cursor_next, cursor_then};
ghost use Rattle.vt_report.specs.Printing.{cursors_after, cursors_then, first_cursor, states_after, states_then};

use std::alloc::{AllocError, Global};
use tty_base::NoMemory;
use tty_calls::Names;
use vt_account::seats_of;
use vt_consoles::{VtEntry, VtEvent};
use vt_text::{OpCall, OpScript, VtPhase, VtSession};

/// Adds the lines of all operators' calls, phase by phase.
pub(crate) fn put_operators(
    alloc: Global,
    text: &mut String,
    session: &VtSession,
    entries: &[VtEntry],
) -> Result<(), NoMemory>
    ensures { OnOk result
        (string_bytes text.new ≡ string_bytes text.old ++ operators_text (vt_session_of session.now) entries.now) }
{
    let phases = session.phases.as_slice();
    let names = seats_of(alloc, phases)?;
    let states = states_of(alloc, names.len(), entries)?;
    let teller = Teller {
        names,
        consoles: session.calls.ports,
        states,
    };
    teller.put_phases(alloc, text, phases)
}

/// Where a seat stands: its next step, and how often it was told which console is active.
#[derive(Clone, Copy)]
struct Cursor {
    step: usize,
    told: usize,
}

/// Where a seat stands after a call. More steps than can be counted are want of memory.
fn next_of(cursor: Cursor, call: OpCall) -> Result<Cursor, NoMemory>
    ensures { IfOk result (λ next. next ≡ cursor_next cursor call) }
{
    let step = cursor.step.checked_add(1).ok_or(NoMemory)?;
    let told = match call {
        OpCall::Activate(_) => cursor.told,
        OpCall::State => cursor.told.checked_add(1).ok_or(NoMemory)?,
    };
    Ok(Cursor { step, told })
}

/// What the lines of operators are told from: the names of the operators, the number of consoles, and what each seat
/// was told.
#[derive(Drop)]
struct Teller {
    names: Names,
    consoles: u8,
    states: Vec<Vec<u8>>,
}

impl Teller {
    /// Adds the lines of the blocks of phases.
    fn put_phases(
        &self,
        alloc: Global,
        text: &mut String,
        phases: &[VtPhase],
    ) -> Result<(), NoMemory>
        requires { length self.now.states.items ≡ length self.now.names }
        ensures { OnOk result (string_bytes text.new
            ≡ string_bytes text.old
            ++ blocks_text self.now.names self.now.consoles (map (λ told. told.items) self.now.states.items)
            (replicate (length self.now.names) first_cursor) (blocks_in phases.now)) }
    {
        let mut cursors = first_cursors(alloc, self.names.len())?;
        for phase in phases {
            self.put_blocks(text, &mut cursors, phase.operators.as_slice())?;
        }
        Ok(())
    }

    /// Adds the lines of blocks, one behind the other. `cursors` has where each seat stands.
    fn put_blocks(
        &self,
        text: &mut String,
        cursors: &mut Vec<Cursor>,
        operators: &[OpScript],
    ) -> Result<(), NoMemory>
        requires seats { length cursors.old.items ≡ length self.now.names }
        requires told { length self.now.states.items ≡ length self.now.names }
        ensures text { OnOk result (string_bytes text.new
            ≡ string_bytes text.old
            ++ blocks_text self.now.names self.now.consoles (map (λ told. told.items) self.now.states.items)
            cursors.old.items (operators_of operators.now)) }
        ensures cursors { OnOk result
            (cursors.new.items ≡ cursors_after self.now.names cursors.old.items (operators_of operators.now)) }
        ensures each { OnOk result (length cursors.new.items ≡ length cursors.old.items) }
    {
        for operator in operators {
            self.put_block(text, cursors, operator)?;
        }
        Ok(())
    }

    fn put_block(
        &self,
        text: &mut String,
        cursors: &mut Vec<Cursor>,
        operator: &OpScript,
    ) -> Result<(), NoMemory>
        requires seats { length cursors.old.items ≡ length self.now.names }
        requires told { length self.now.states.items ≡ length self.now.names }
        ensures text { OnOk result (string_bytes text.new
            ≡ string_bytes text.old
            ++ block_text self.now.consoles (map (λ told. told.items) self.now.states.items) cursors.old.items
            (operator_of operator.now) (number_in self.now.names operator.now.name.bytes)) }
        ensures cursors { OnOk result (cursors.new.items
            ≡ cursors_then cursors.old.items operator.now.calls.items
            (number_in self.now.names operator.now.name.bytes)) }
        ensures each { OnOk result (length cursors.new.items ≡ length cursors.old.items) }
    {
        match self.names.number(&operator.name) {
            None => Ok(()),
            Some(seat) => {
                let from = cursors[seat];
                let states = self.states[seat].as_slice();
                let name = operator.name.as_str();
                let calls = operator.calls.as_slice();
                cursors[seat] = put_calls(text, self.consoles, states, name, from, calls)?;
                Ok(())
            }
        }
    }
}

/// Adds the lines of calls of a seat, and gives where it stands then.
fn put_calls(
    text: &mut String,
    consoles: u8,
    states: &[u8],
    name: &str,
    from: Cursor,
    calls: &[OpCall],
) -> Result<Cursor, NoMemory>
    ensures text { OnOk result (string_bytes text.new
        ≡ string_bytes text.old ++ lines_from consoles states.now name.now from.step from.told calls.now) }
    ensures cursor { IfOk result (λ now. now ≡ cursor_then from calls.now) }
{
    let mut cursor = from;
    for call in calls {
        put_call(text, consoles, states, name, cursor, *call)?;
        cursor = next_of(cursor, *call)?;
    }
    Ok(cursor)
}

/// Adds the line of a call.
fn put_call(
    text: &mut String,
    consoles: u8,
    states: &[u8],
    name: &str,
    cursor: Cursor,
    call: OpCall,
) -> Result<(), AllocError>
    ensures { OnOk result (string_bytes text.new
        ≡ string_bytes text.old ++ line_of consoles states.now name.now cursor.step cursor.told call) }
{
    match call {
        OpCall::Activate(n) => put_activation(text, name, cursor.step, consoles, n),
        OpCall::State => put_state(text, name, cursor.step, states.get(cursor.told).copied()),
    }
}

fn put_activation(
    text: &mut String,
    name: &str,
    step: usize,
    consoles: u8,
    n: u8,
) -> Result<(), AllocError>
    ensures { OnOk result (string_bytes text.new
        ≡ string_bytes text.old ++ call_line name.now step (OpCall.Activate n) (activation_answer consoles n)) }
{
    let answer = if n < consoles { "ok" } else { "ENXIO" };
    write!(text, "vt.{name}.{step} activate {answer}\n")
}

fn put_state(text: &mut String, name: &str, step: usize, told: Option<u8>) -> Result<(), AllocError>
    ensures { OnOk result (string_bytes text.new ≡ string_bytes text.old ++ state_line name.now step told) }
{
    match told {
        None => Ok(()),
        Some(n) => write!(text, "vt.{name}.{step} state {n}\n"),
    }
}

/// What each of so many seats was told, in order.
fn states_of(alloc: Global, seats: usize, entries: &[VtEntry]) -> Result<Vec<Vec<u8>>, NoMemory>
    ensures { IfOk result (λ states. AreStates (map (λ told. told.items) states.items) seats entries.now) }
{
    let mut states = no_states(alloc, seats)?;
    note_states(states.as_mut_slice(), entries)?;
    Ok(states)
}

/// Notes what entries tell their seats.
fn note_states(states: &mut [Vec<u8>], entries: &[VtEntry]) -> Result<(), NoMemory>
    ensures { OnOk result
        (map (λ told. told.items) states.new ≡ states_after (map (λ told. told.items) states.old) entries.now) }
{
    for entry in entries {
        note_state(states, entry)?;
    }
    Ok(())
}

/// So many seats that stand at the beginning.
fn first_cursors(alloc: Global, seats: usize) -> Result<Vec<Cursor>, NoMemory>
    ensures { IfOk result (λ cursors. cursors.items ≡ replicate seats first_cursor) }
{
    let mut cursors = Vec::new(alloc);
    while cursors.len() < seats {
        cursors.push(Cursor { step: 0, told: 0 })?;
    }
    Ok(cursors)
}

/// For each of so many seats nothing.
fn no_states(alloc: Global, seats: usize) -> Result<Vec<Vec<u8>>, NoMemory>
    ensures { IfOk result (λ states. map (λ told. told.items) states.items ≡ replicate seats []) }
{
    let mut states = Vec::new(alloc);
    while states.len() < seats {
        states.push(Vec::new(alloc))?;
    }
    Ok(states)
}

/// Notes what an entry tells its seat.
fn note_state(states: &mut [Vec<u8>], entry: &VtEntry) -> Result<(), NoMemory>
    ensures { OnOk result
        (map (λ told. told.items) states.new ≡ states_then (map (λ told. told.items) states.old) entry.now) }
{
    let seat = entry.seat as usize;
    if let VtEvent::State(n) = entry.event {
        if seat < states.len() {
            states[seat].push(n)?;
        }
    }
    Ok(())
}
