//! The lines of a report that tell the calls of a port, each with its answer.

ghost use Rattle.std.specs.Prelude.{◌≡◌, [], ◌++◌, ◌+◌, ◌<◌, ◌^◌, ℕ, Some, IfOk, OnOk};
ghost use Rattle.std.specs.Prelude.{flat_map, length, map, replicate, string_bytes};
ghost use Rattle.tty_calls.specs.Plain.{call_of, answer_lent};
ghost use Rattle.tty_calls.specs.Sessions.{script_of, phase_of, number_in, scripts_over, session_of};
ghost use Rattle.session_print.specs.Report.{calls_text, told_line, told_from, told_on};
ghost use Rattle.session_print.specs.Printing.{sums_on, place_in, call_head, call_rest, tens, noted_answer};
ghost use Rattle.session_print.specs.Printing.{scripts_for, told_script, steps_then, told_scripts, steps_after};

use super::answers::{Answers, walk};
use super::digits::{digit_text, put_tens};
use super::places::{Places, Turn};
use super::sums::Sums;
use super::words::{put_answer, verb_of};
use std::alloc::{AllocError, Global};
use tty_base::NoMemory;
use tty_calls::{AnswerRef, Call, Calls, Names, Phase, PortRun, Script, Session};

/// Adds a line for each call of a port that its journal answers, script by script, and gives the sums of the journal.
pub(crate) fn put_calls(
    alloc: Global,
    text: &mut String,
    port: usize,
    session: &Session,
    run: &PortRun,
) -> Result<Sums, NoMemory>
    ensures text { OnOk result
        (string_bytes text.new ≡ string_bytes text.old ++ calls_text port (session_of session.now) run.now) }
    ensures sums { IfOk result (λ sums. sums ≡ sums_on run.now) }
{
    let mut places = Places::new(alloc);
    put_walked_calls(alloc, text, port, session, run, &mut places)
}

/// Adds these lines, and notes the places of the journal's answers among none.
fn put_walked_calls(
    alloc: Global,
    text: &mut String,
    port: usize,
    session: &Session,
    run: &PortRun,
    places: &mut Places,
) -> Result<Sums, NoMemory>
    requires { (c step : ℕ) → place_in places.old c step ≡ 0 }
    ensures text { OnOk result
        (string_bytes text.new ≡ string_bytes text.old ++ calls_text port (session_of session.now) run.now) }
    ensures sums { IfOk result (λ sums. sums ≡ sums_on run.now) }
{
    let journal = &run.journal;
    let sums = walk(alloc, journal, places)?;
    put_answered_calls(alloc, text, port, session, Answers { journal, places })?;
    Ok(sums)
}

/// Adds a line for each call of a port that is among these answers.
fn put_answered_calls(
    alloc: Global,
    text: &mut String,
    port: usize,
    session: &Session,
    answers: Answers,
) -> Result<(), NoMemory>
    ensures { OnOk result (string_bytes text.new
        ≡ string_bytes text.old
        ++ flat_map (told_line port (noted_answer answers.entry)) (told_on port (session_of session.now))) }
{
    let names = Names::on_port(alloc, session, port)?;
    let teller = Teller {
        port,
        names: &names,
        answers,
    };
    let told = teller.put_phases(alloc, text, session.phases.as_slice());
    drop(names);
    told
}

/// What the calls of a port are told from: the names of its callers, and the answers of its journal.
#[derive(Clone, Copy)]
struct Teller<'a> {
    port: usize,
    names: &'a Names,
    answers: Answers<'a>,
}

impl Teller<'_> {
    /// Adds the lines of the port's scripts in all phases.
    fn put_phases(&self, alloc: Global, text: &mut String, phases: &[Phase]) -> Result<(), NoMemory>
        ensures { OnOk result (string_bytes text.new
            ≡ string_bytes text.old
            ++ flat_map (told_line self.now.port (noted_answer self.now.answers))
            (told_scripts self.now.names.now (replicate (length self.now.names.now) 0)
            (scripts_over self.now.port (map phase_of phases.now)))) }
    {
        let mut steps = vec![in alloc; 0usize; self.names.len()]?;
        for phase in phases {
            self.put_scripts(text, &mut steps, phase.callers.as_slice())?;
        }
        Ok(())
    }

    /// Adds the lines of the port's scripts among these. `steps` has each caller's next step.
    fn put_scripts(
        &self,
        text: &mut String,
        steps: &mut Vec<usize>,
        scripts: &[Script],
    ) -> Result<(), NoMemory>
        requires { length steps.old.items ≡ length self.now.names.now }
        ensures text { OnOk result (string_bytes text.new
            ≡ string_bytes text.old
            ++ flat_map (told_line self.now.port (noted_answer self.now.answers))
            (told_scripts self.now.names.now steps.old.items (scripts_for self.now.port scripts.now))) }
        ensures steps { OnOk result
            (steps.new.items ≡ steps_after self.now.names.now steps.old.items (scripts_for self.now.port scripts.now)) }
        ensures each { OnOk result (length steps.new.items ≡ length steps.old.items) }
    {
        for script in scripts {
            if usize::from(script.port) == self.port {
                self.put_script(text, steps, script)?;
            }
        }
        Ok(())
    }

    /// Adds the lines of a script. More steps than can be counted are want of memory.
    fn put_script(
        &self,
        text: &mut String,
        steps: &mut Vec<usize>,
        script: &Script,
    ) -> Result<(), NoMemory>
        requires { length steps.old.items ≡ length self.now.names.now }
        ensures text { OnOk result (string_bytes text.new
            ≡ string_bytes text.old
            ++ flat_map (told_line self.now.port (noted_answer self.now.answers))
            (told_script steps.old.items (script_of script.now) (number_in self.now.names.now script.now.name.bytes))) }
        ensures steps { OnOk result (steps.new.items
            ≡ steps_then steps.old.items (script_of script.now) (number_in self.now.names.now script.now.name.bytes)) }
    {
        let calls = &script.calls;
        match self.names.number(&script.name) {
            None => Ok(()),
            Some(caller) => {
                let step = steps[caller];
                steps[caller] = step.checked_add(calls.len()).ok_or(NoMemory)?;
                self.put_steps(text, script.name.as_str(), Turn { caller, step }, calls)?;
                Ok(())
            }
        }
    }

    /// Adds the lines of a caller's calls, from this turn on.
    fn put_steps(
        &self,
        text: &mut String,
        name: &str,
        first: Turn,
        calls: &Calls,
    ) -> Result<(), AllocError>
        requires { first.step + length calls.now.items < 2 ^ 64 }
        ensures { OnOk result (string_bytes text.new
            ≡ string_bytes text.old
            ++ flat_map (told_line self.now.port (noted_answer self.now.answers))
            (told_from name.now (Some first.caller) first.step calls.now.items)) }
    {
        let mut head = Head::new(*text.allocator());
        self.put_under(text, &mut head, name, first, calls)
    }

    /// Adds these lines, with what each begins with.
    fn put_under(
        &self,
        text: &mut String,
        head: &mut Head,
        name: &str,
        first: Turn,
        calls: &Calls,
    ) -> Result<(), AllocError>
        requires head { string_bytes head.old.front ≡ [] }
        requires few { first.step + length calls.now.items < 2 ^ 64 }
        ensures { OnOk result (string_bytes text.new
            ≡ string_bytes text.old
            ++ flat_map (told_line self.now.port (noted_answer self.now.answers))
            (told_from name.now (Some first.caller) first.step calls.now.items)) }
    {
        head.begin(self.port, name, first.step)?;
        let mut turn = first;
        for place in 0..calls.len() {
            if let Some(answer) = self.answers.get(turn) {
                head.put_call(text, turn.step, &calls.at(place), &answer)?;
            }
            head.pass(turn.step)?;
            turn.step += 1;
        }
        Ok(())
    }
}

/// What the lines of a caller's calls begin with.
#[derive(Drop)]
struct Head {
    /// The part that all lines have.
    front: String,
    /// The part that all lines have, and what ten steps share of their number: its digits before the last.
    shared: String,
}

impl Head {
    /// That of no line yet.
    fn new(alloc: Global) -> Head
        ensures { string_bytes result.front ≡ [] }
    {
        Head {
            front: String::new(alloc),
            shared: String::new(alloc),
        }
    }

    /// Becomes, from that of no line, what the line of this step begins with.
    fn begin(&mut self, port: usize, name: &str, step: usize) -> Result<(), AllocError>
        requires { string_bytes self.old.front ≡ [] }
        ensures front { OnOk result (string_bytes self.new.front ≡ call_head port name.now) }
        ensures shared { OnOk result (string_bytes self.new.shared ≡ string_bytes self.new.front ++ tens step) }
    {
        write!(self.front, "{port}.{name}.")?;
        set_tens(&mut self.shared, self.front.as_str(), step)
    }

    /// Goes on from this step to the next.
    #[inline(always)]
    fn pass(&mut self, step: usize) -> Result<(), AllocError>
        requires shared { string_bytes self.old.shared ≡ string_bytes self.old.front ++ tens step }
        requires counted { step + 1 < 2 ^ 64 }
        ensures front { string_bytes self.new.front ≡ string_bytes self.old.front }
        ensures shared { OnOk result (string_bytes self.new.shared ≡ string_bytes self.new.front ++ tens (step + 1)) }
    {
        if step % 10 < 9 {
            return Ok(());
        }
        set_tens(&mut self.shared, self.front.as_str(), step + 1)
    }

    /// Adds the line of a call and its answer.
    fn put_call(
        &self,
        text: &mut String,
        step: usize,
        call: &Call,
        answer: &AnswerRef,
    ) -> Result<(), AllocError>
        requires { string_bytes self.now.shared ≡ string_bytes self.now.front ++ tens step }
        ensures { OnOk result (string_bytes text.new
            ≡ string_bytes text.old
            ++ (string_bytes self.now.front ++ call_rest step (call_of call.now) (answer_lent answer.now))) }
    {
        put_call(text, self.shared.as_str(), step as u64 % 10, call, answer)
    }
}

/// Makes of a text a front and the digits of a step before its last.
#[inline(never)]
fn set_tens(head: &mut String, front: &str, step: usize) -> Result<(), AllocError>
    ensures { OnOk result (string_bytes head.new ≡ front.now ++ tens step) }
{
    head.clear();
    head.push_str(front)?;
    put_tens(head, step as u64)
}

/// Adds the line of a call and its answer, whose head lacks the last digit of the step.
#[inline(always)]
fn put_call(
    text: &mut String,
    head: &str,
    digit: u64,
    call: &Call,
    answer: &AnswerRef,
) -> Result<(), AllocError>
    requires { digit < 10 }
    ensures { OnOk result (string_bytes text.new
        ≡ string_bytes text.old ++ (head.now ++ call_rest digit (call_of call.now) (answer_lent answer.now))) }
{
    text.push_str(head)?;
    text.push_str(digit_text(digit))?;
    text.push_str(verb_of(call))?;
    put_answer(text, answer)?;
    text.push_str("\n")
}
