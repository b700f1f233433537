//! What callers were answered, each by itself.

ghost use Rattle.std.specs.Prelude.{◌≡◌, ◌==◌, IfOk, OnOk, [], flat_map, if◌then◌else◌, map, replicate};
ghost use Rattle.tty_calls.specs.Plain.{answer_of};
ghost use Rattle.session_print.specs.Words.{answer_text as text_of_answer};
ghost use Rattle.further_report.specs.Printing.{all_noted, bytes_of, noted};

use passed_calls::Logged;
use session_print::answer_text;
use std::alloc::Global;
use tty_base::{Bytes, NoMemory};
use tty_calls::Answer;

/// An event that may answer a caller.
pub(crate) trait Answering {
    ghost use Rattle.std.specs.Prelude.{◌≡◌, OnOk, List, map};
    ghost use Rattle.further_report.specs.Calls.{ToldAnswer};
    ghost use Rattle.further_report.specs.Printing.{all_noted, bytes_of};

    /// Whom it answers, and what.
    ghost told: { Self → List ToldAnswer };

    /// Notes what it answers with the texts that callers were answered.
    fn note(&self, alloc: Global, answers: &mut [Vec<Bytes>]) -> Result<(), NoMemory>
        ensures { OnOk result (map (λ texts. bytes_of texts.items) answers.new
            ≡ all_noted (map (λ texts. bytes_of texts.items) answers.old) (told self.now)) };
}

/// What each of so many callers of a port was answered.
pub(crate) fn answers_on<E: Answering>(
    alloc: Global,
    port: u8,
    callers: usize,
    log: &[Logged<E>],
) -> Result<Vec<Vec<Bytes>>, NoMemory>
    ensures { IfOk result (λ answers.
        map (λ texts. bytes_of texts.items) answers.items
        ≡ all_noted (replicate callers []) (flat_map (λ l. if l.port == port then E.told l.event else []) log.now)) }
{
    let mut answers = no_answers(alloc, callers)?;
    note_all(alloc, port, answers.as_mut_slice(), log)?;
    Ok(answers)
}

fn note_all<E: Answering>(
    alloc: Global,
    port: u8,
    answers: &mut [Vec<Bytes>],
    log: &[Logged<E>],
) -> Result<(), NoMemory>
    ensures { OnOk result (map (λ texts. bytes_of texts.items) answers.new
        ≡ all_noted (map (λ texts. bytes_of texts.items) answers.old)
        (flat_map (λ l. if l.port == port then E.told l.event else []) log.now)) }
{
    for logged in log {
        note_on(alloc, port, answers, logged)?;
    }
    Ok(())
}

/// Notes what an event answers, where it is of this port.
fn note_on<E: Answering>(
    alloc: Global,
    port: u8,
    answers: &mut [Vec<Bytes>],
    logged: &Logged<E>,
) -> Result<(), NoMemory>
    ensures { OnOk result (map (λ texts. bytes_of texts.items) answers.new
        ≡ all_noted (map (λ texts. bytes_of texts.items) answers.old)
        (if logged.now.port == port then E.told logged.now.event else [])) }
{
    if logged.port == port {
        logged.event.note(alloc, answers)
    } else {
        Ok(())
    }
}

/// For each of so many callers nothing.
fn no_answers(alloc: Global, callers: usize) -> Result<Vec<Vec<Bytes>>, NoMemory>
    ensures { IfOk result (λ answers. map (λ texts. bytes_of texts.items) answers.items ≡ replicate callers []) }
{
    let mut answers = Vec::new(alloc);
    while answers.len() < callers {
        answers.push(Vec::new(alloc))?;
    }
    Ok(answers)
}

/// Notes an answer of the port.
pub(crate) fn note_answer(
    alloc: Global,
    answers: &mut [Vec<Bytes>],
    caller: u16,
    answer: &Answer,
) -> Result<(), NoMemory>
    ensures { OnOk result (map (λ texts. bytes_of texts.items) answers.new
        ≡ noted (map (λ texts. bytes_of texts.items) answers.old)
        (record { caller = caller; text = text_of_answer (answer_of answer.now) })) }
{
    let text = answer_text(alloc, answer)?;
    note(answers, caller, text)
}

/// Notes what a caller was answered. One that is not there has no list.
pub(crate) fn note(answers: &mut [Vec<Bytes>], caller: u16, text: Bytes) -> Result<(), NoMemory>
    ensures { OnOk result (map (λ texts. bytes_of texts.items) answers.new
        ≡ noted (map (λ texts. bytes_of texts.items) answers.old) (record { caller = caller; text = text.items })) }
{
    let caller = caller as usize;
    if caller < answers.len() {
        answers[caller].push(text)?;
    }
    Ok(())
}
