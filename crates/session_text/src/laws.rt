//! The laws of the texts of sessions: which are refused, that a text spells one session within the limits, and how
//! long it is.

ghost use Rattle.std.specs.Prelude.{◌≡◌, ◌≤◌, ℕ, List, None, Some, length, map};
ghost use Rattle.std.specs.List.{AllByRecursion};
ghost use Rattle.tty_calls.specs.Limits.{IsWithinLimits};
ghost use Rattle.tty_calls.specs.Sessions.{PlainSession};
ghost use Rattle.session_text.specs.Asked.{asked_of};
ghost use Rattle.session_text.specs.Refusals.{refusal};
ghost use Rattle.session_text.specs.Grammar.{Spells};
ghost use Rattle.session_text.specs.Writable.{IsWrittenPhase};
ghost use Rattle.session_text.specs.Rows.{refused_rows, three_bytes_text, three_bytes_session, empty_text};
ghost use Rattle.session_text.specs.Rows.{empty_session, items_text, items_session, calls_text, calls_session};

/// A law: a text has no refusal exactly where it spells a session.
pub fn a_text_is_refused_exactly_where_it_spells_no_session()
    ensures spelled { (text : List ℕ) (session : PlainSession) → Spells text session → refusal text ≡ None }
    ensures refused { (text : List ℕ) → refusal text ≡ None → (session : PlainSession) × Spells text session }
{}

/// A law: a text spells at most one session.
pub fn spells_one_session()
    ensures { (text : List ℕ) (one other : PlainSession) → Spells text one → Spells text other → one ≡ other }
{}

/// A law: a session that a text spells keeps the limits of every session.
pub fn spelled_sessions_are_within_limits()
    ensures { (text : List ℕ) (session : PlainSession) → Spells text session → IsWithinLimits session }
{}

/// A law: a session that a text spells has what words write: a name for each caller, bytes that arrive, and mode words.
pub fn spelled_sessions_are_written_in_words()
    ensures { (text : List ℕ) (session : PlainSession)
        → Spells text session
        → AllByRecursion IsWrittenPhase session.phases }
{}

/// A law: a text is as long as what its session asks of a port: two digits for each byte that a call hands
/// over and each character that arrives, and three letters for each call.
pub fn a_text_is_as_long_as_what_it_asks()
    ensures { (text : List ℕ) (session : PlainSession) (p : ℕ)
        → Spells text session
        → asked_of p session.phases ≤ length text }
{}

/// A law: the first wrong line of worked texts, and why it is wrong.
pub fn worked_texts_are_refused_at_their_lines()
    ensures { map (λ row. refusal row.text) refused_rows ≡ map (λ row. Some row.line) refused_rows }
{}

/// A law: what worked texts spell, which have each item and each call.
pub fn worked_texts_spell_their_sessions()
    ensures three_bytes { Spells three_bytes_text three_bytes_session }
    ensures empty { Spells empty_text empty_session }
    ensures items { Spells items_text items_session }
    ensures calls { Spells calls_text calls_session }
{}
