//! What follows from the definitions alone.

ghost use Rattle.std.specs.Prelude.{◌≡◌, ℕ, List, Ok, Err, map};
ghost use Rattle.session_text.specs.Grammar.{Spells};
ghost use Rattle.vt_text.specs.Left.{callers_text};
ghost use Rattle.vt_text.specs.Limits.{IsVtWithin};
ghost use Rattle.vt_text.specs.Reading.{vt_in};
ghost use Rattle.vt_text.specs.Rows.{refused_rows, two_consoles_text, two_consoles};
ghost use Rattle.vt_text.specs.Sessions.{PlainVtSession};

/// A law: the first wrong line of worked texts, and why it is wrong.
pub fn worked_texts_are_refused_at_their_lines()
    ensures { map (λ row. vt_in row.text) refused_rows ≡ map (λ row. Err row.line) refused_rows }
{}

/// A law: the session of a worked text.
pub fn a_worked_text_is_read()
    ensures { vt_in two_consoles_text ≡ Ok two_consoles }
{}

/// A law: the session of a text keeps the limits of every session of consoles.
pub fn sessions_that_are_read_are_within_limits()
    ensures { (text : List ℕ) (session : PlainVtSession) → vt_in text ≡ Ok session → IsVtWithin session }
{}

/// A law: the callers' session of a text that is read is what is left of it, as a text, spells.
pub fn what_is_left_is_the_callers_session()
    ensures { (text : List ℕ) (session : PlainVtSession)
        → vt_in text ≡ Ok session → Spells (callers_text text) session.calls }
{}
