//! What the words of the program ask for.

ghost use Rattle.std.specs.Prelude.{◌≡◌, ◌↔◌, ℕ, IfSome, IfNone, IsTrue};
ghost use Rattle.tty_one.specs.Endings.{Ask, IsOfOne, IsOnThreads, AreOfOne, AreOnThreads};
ghost use Rattle.tty_one.specs.Endings.{AreRunOne, AreGen, IsNumberOf, texts_of};
ghost use Rattle.tty_one.specs.declared.words.Command.TheVariants.{Gen, RunOne};

use text_lines::{is_number, number_of};

/// What the words ask for.
#[derive(Clone, Copy)]
pub enum Command {
    /// A session is read and played on threads, and told with its journals or without them. The crate above
    /// does that.
    Run { journals: bool },
    /// A session is read and played on one thread, and told likewise.
    RunOne { journals: bool },
    /// A session of ports with modem lines is read and played on one thread, and told.
    Modem,
    /// A session of processes is read and played on one thread, and told.
    Jobs,
    /// The session of a number is played and summed up.
    Gen(u32),
    /// A session is read with its journals, and these are judged.
    Check,
    /// A session of consoles is read and played on threads, and told. The crate above does that.
    Vt,
    /// A session of consoles is read and played on one thread, and told.
    VtOne,
}

/// The command of the words, if it is one that needs no thread.
pub(crate) fn command_of(words: &[&str]) -> Option<Command>
    ensures known { IfSome result (λ command. IsOfOne command × Ask command (texts_of words.now)) }
    ensures other { IfNone result (AreOfOne (texts_of words.now) → ⊥) }
{
    if are(words, &["check"]) {
        return Some(Command::Check);
    }
    if are(words, &["modem"]) {
        return Some(Command::Modem);
    }
    if are(words, &["jobs"]) {
        return Some(Command::Jobs);
    }
    if are(words, &["vt", "--one"]) {
        return Some(Command::VtOne);
    }
    if let Some(journals) = journals_on_one(words) {
        return Some(Command::RunOne { journals });
    }
    match number_in(words) {
        Some(number) => Some(Command::Gen(number)),
        None => None,
    }
}

/// The command of the words, if it is one that needs threads.
pub fn command_on_threads(words: &[&str]) -> Option<Command>
    ensures known { IfSome result (λ command. IsOnThreads command × Ask command (texts_of words.now)) }
    ensures other { IfNone result (AreOnThreads (texts_of words.now) → ⊥) }
{
    if are(words, &["run"]) {
        return Some(Command::Run { journals: false });
    }
    if are(words, &["run", "--journal"]) {
        return Some(Command::Run { journals: true });
    }
    if are(words, &["vt"]) {
        return Some(Command::Vt);
    }
    None
}

/// Whether journals are asked for, by the words `run --one` with `--journal` before or after `--one` or
/// without it.
fn journals_on_one(words: &[&str]) -> Option<bool>
    ensures known { IfSome result (λ journals. Ask (RunOne journals) (texts_of words.now)) }
    ensures other { IfNone result (AreRunOne (texts_of words.now) → ⊥) }
{
    if are(words, &["run", "--one"]) {
        return Some(false);
    }
    if are(words, &["run", "--one", "--journal"]) || are(words, &["run", "--journal", "--one"]) {
        return Some(true);
    }
    None
}

/// The number after `gen`.
fn number_in(words: &[&str]) -> Option<u32>
    ensures known { IfSome result (λ number. Ask (Gen number) (texts_of words.now)) }
    ensures other { IfNone result (AreGen (texts_of words.now) → ⊥) }
{
    let [_, word] = words else {
        return None;
    };
    if !are(words, &["gen", *word]) {
        return None;
    }
    number_by(word.as_bytes())
}

/// The number of 32 bits that digits write.
fn number_by(digits: &[u8]) -> Option<u32>
    ensures some { IfSome result (λ number. IsNumberOf digits.now number) }
    ensures none { IfNone result ((number : ℕ) → IsNumberOf digits.now number → ⊥) }
{
    if !is_number(digits) {
        return None;
    }
    match u32::try_from(number_of(digits)) {
        Ok(number) => Some(number),
        Err(_) => None,
    }
}

fn are(words: &[&str], known: &[&str]) -> bool
    ensures { IsTrue result ↔ (texts_of words.now ≡ texts_of known.now) }
{
    words == known
}
