//! What follows from the definitions alone: where a run answers every call of a port, the report has one line for each.

ghost use Rattle.std.specs.Prelude.{ℕ};
ghost use Rattle.tty_calls.specs.Sessions.{PlainSession};
ghost use Rattle.session_print.specs.Laws.{ToldAreAll, TellsEachCall};

/// The calls that a report tells are all calls of the port, in the text's order, each with its caller and
/// step. Where a run answers every one of them, the report has one line for each, with the answer that the
/// journal has for that caller and step.
pub fn each_call_has_its_line()
    ensures all { (p : ℕ) (session : PlainSession) → ToldAreAll p session }
    ensures lines { TellsEachCall }
{}
