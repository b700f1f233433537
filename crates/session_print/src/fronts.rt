//! What the line of an entry begins with: who made it, and its step but for the last digit.

ghost use Rattle.std.specs.Prelude.{◌≡◌, IfOk, OnOk, string_bytes};
ghost use Rattle.session_print.specs.Journals.{who_text};
ghost use Rattle.session_print.specs.Printing.{Fronts, entry_front};

use super::digits::put_tens;
use std::alloc::{AllocError, Global};
use tty_calls::{Names, Who};

/// What the line of an entry begins with, but for the last digit of its step. Ten steps of one caller
/// share it, so it is mostly there already.
#[derive(Drop)]
pub(crate) struct Front {
    who: Who,
    step: u32,
    text: String,
}

impl Front {
    /// That of the session's own entry in the first phase.
    pub(crate) fn new(alloc: Global, names: &Names) -> Result<Front, AllocError>
        ensures { IfOk result (λ front. Fronts names.now front) }
    {
        let mut front = Front {
            who: Who::Session,
            step: 0,
            text: String::new(alloc),
        };
        front.make(names)?;
        Ok(front)
    }

    /// Goes to an entry of this caller and step.
    #[inline(always)]
    pub(crate) fn turn_to(&mut self, names: &Names, who: Who, step: u32) -> Result<(), AllocError>
        requires { Fronts names.now self.old }
        ensures front { OnOk result (Fronts names.now self.new) }
        ensures text { OnOk result (string_bytes self.new.text ≡ entry_front names.now who step) }
    {
        if self.who == who && self.step / 10 == step / 10 {
            return Ok(());
        }
        self.who = who;
        self.step = step;
        self.make(names)
    }

    /// The text.
    #[inline(always)]
    pub(crate) fn as_str(&self) -> &str
        ensures { result.now ≡ string_bytes self.now.text }
    {
        self.text.as_str()
    }

    /// Makes the text anew.
    #[inline(never)]
    fn make(&mut self, names: &Names) -> Result<(), AllocError>
        ensures who { self.new.who ≡ self.old.who }
        ensures step { self.new.step ≡ self.old.step }
        ensures front { OnOk result (Fronts names.now self.new) }
    {
        self.text.clear();
        self.text.push_str(who_of(names, self.who))?;
        self.text.push_str(" ")?;
        put_tens(&mut self.text, u64::from(self.step))
    }
}

/// Who made an entry: the name of a caller, or a fixed word.
fn who_of(names: &Names, who: Who) -> &str
    ensures { result.now ≡ who_text names.now who }
{
    match who {
        Who::Caller(number) => names.name(usize::from(number)).unwrap_or(""),
        Who::Flusher => "*flush",
        Who::Line => "*line",
        Who::Clock => "*clock",
        Who::Session => "*session",
    }
}
