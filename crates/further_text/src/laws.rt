//! What is left of a text without the lines that only texts of its kind have, as laws.

ghost use Rattle.std.specs.Prelude.{◌≡◌, ℕ, List, Bool, filter};
ghost use Rattle.session_text.specs.Refusals.{lines_in};
ghost use Rattle.further_text.specs.Left.{is_shared, text_left};

/// A law: what is left of a text has its lines that may stand in the text of any session, in their order.
pub fn what_is_left_has_the_shared_lines()
    ensures { (is_own : List ℕ → Bool) (text : List ℕ)
        → lines_in (text_left is_own text) ≡ filter (is_shared is_own) (lines_in text) }
{}
