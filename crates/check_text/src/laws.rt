//! The laws of the texts that are checked: which are refused, that a text spells one session and its runs, and that
//! what is printed of runs is read back.

ghost use Rattle.std.specs.Prelude.{◌≡◌, ℕ, List, None, Some, Ok, ◌++◌, map, option_map};
ghost use Rattle.tty_calls.specs.Plain.{PlainEntry};
ghost use Rattle.tty_calls.specs.Sessions.{PlainSession, call_at};
ghost use Rattle.tty_calls.specs.declared.journals.PortRun.{PortRun};
ghost use Rattle.session_print.specs.Lines.{newline};
ghost use Rattle.session_text.specs.Grammar.{Spells as SpellsSession};
ghost use Rattle.check_text.specs.Grammar.{Spells};
ghost use Rattle.check_text.specs.Callers.{PlainCallers, answer_kind, callers_on, kind_at};
ghost use Rattle.check_text.specs.Entries.{entry_in};
ghost use Rattle.check_text.specs.Journals.{callers_by_port};
ghost use Rattle.check_text.specs.Printed.{AreRunsOf, text_after, IsEntryLine};
ghost use Rattle.check_text.specs.Reading.{refusal};
ghost use Rattle.check_text.specs.Rows.{refused_rows};
ghost use Rattle.check_text.specs.Runs.{PlainRun, run_of};

/// A law: a text has no refusal exactly where it spells a session and its runs.
pub fn a_text_is_refused_exactly_where_it_spells_no_runs()
    ensures spelled { (text : List ℕ) (session : PlainSession) (runs : List PlainRun)
        → Spells text session runs
        → refusal text ≡ None }
    ensures refused { (text : List ℕ)
        → refusal text ≡ None
        → (session : PlainSession) × (runs : List PlainRun) × Spells text session runs }
{}

/// A law: a text spells at most one session and its runs.
pub fn spells_one_session_and_its_runs()
    ensures { (text : List ℕ) (one other : PlainSession) (runs others : List PlainRun)
        → Spells text one runs
        → Spells text other others
        → (one ≡ other) × (runs ≡ others) }
{}

/// A law: the first wrong line of worked texts, and why it is wrong.
pub fn worked_texts_are_refused_at_their_lines()
    ensures { map (λ row. refusal row.text) refused_rows ≡ map (λ row. Some row.line) refused_rows }
{}

/// A law: what is printed of a session's runs after a text of the session is read back as that session
/// and those runs. There is one run for each port; its entries are of the port's callers and their calls,
/// each answer is one that its call may be given, and its numbers have 32 bits.
pub fn printed_journals_are_read_back()
    ensures { (text : List ℕ) (session : PlainSession) (runs : List PortRun)
        → SpellsSession text session
        → AreRunsOf (callers_by_port session) (map run_of runs)
        → Spells (text ++ (newline ++ text_after session runs)) session (map run_of runs) }
{}

/// A law: an entry is read from the words alone that are printed of it, but for the case of its
/// characters, and for `drop -` beside an answer.
pub fn entries_are_read_as_they_are_printed()
    ensures { (callers : PlainCallers) (words : List (List ℕ)) (entry : PlainEntry)
        → entry_in callers words ≡ Ok entry
        → IsEntryLine callers.names words entry }
{}

/// A law: an answer is read by the verb of the call that its caller and step have in the session.
pub fn answers_are_read_by_their_calls()
    ensures { (port : ℕ) (session : PlainSession) (caller step : ℕ)
        → kind_at (callers_on port session) caller step ≡ option_map answer_kind (call_at port session caller step) }
{}
