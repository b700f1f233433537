//! Laws of the reports and journals of sessions: each call has one line, a session has one report, no journal is
//! ever full, and journals that are printed are legal.

ghost use Rattle.std.specs.Prelude.{◌≡◌, ◌<◌, ◌≤◌, ℕ, List, Bool, true, Ok, Option, Some, length};
ghost use Rattle.tty_base.specs.Sizes.{MOST_ENTRIES, MOST_TEXT};
ghost use Rattle.tty_calls.specs.declared.journals.PortRun.{PortRun};
ghost use Rattle.tty_calls.specs.Plain.{PlainCall};
ghost use Rattle.tty_calls.specs.Sessions.{PlainSession, call_at};
ghost use Rattle.tty_base.specs.Characters.{good_characters};
ghost use Rattle.tty_terminal.specs.Terminals.{Terminal};
ghost use Rattle.tty_terminal.specs.Runs.{chars_of};
ghost use Rattle.uart_line.specs.Offered.{kept_list};
ghost use Rattle.session_text.specs.Grammar.{Spells};
ghost use Rattle.legal_runs.specs.Legal.{IsLegal};
ghost use Rattle.legal_runs.specs.Short.{IsCutShort};
ghost use Rattle.tty_one.specs.declared.playing.Telling.{Telling};
ghost use Rattle.tty_one.specs.declared.playing.Telling.TheVariants.{Report};
ghost use Rattle.vt_consoles.specs.declared.entries.VtEntry.{VtEntry};
ghost use Rattle.passed_calls.specs.Within.{ArePassedWithin};
ghost use Rattle.job_text.specs.Events.{JobLog};
ghost use Rattle.job_text.specs.Reading.{jobs_in};
ghost use Rattle.job_text.specs.Sessions.{JobsSession};
ghost use Rattle.job_one.specs.Played.{derived_with};
ghost use Rattle.modem_text.specs.Events.{ModemLog};
ghost use Rattle.modem_text.specs.Sessions.{ModemSession};
ghost use Rattle.modem_one.specs.Played.{derived_with as derived_with_lines};
ghost use Rattle.vt_text.specs.Sessions.{PlainVtSession};
ghost use Rattle.vt_account.specs.Account.{IsAccount};
ghost use Rattle.vt_account.specs.Keyed.{keyed, keys_of};
ghost use Rattle.tty_one.specs.Endings.{AreRunOne, AreGen, AskJobs, AskJournals, AskModem, AskVtOne};
ghost use Rattle.tty_one.specs.Reported.{Returned, IsReported, IsOrdered, IsInAnyOrder};
ghost use Rattle.tty_one.specs.Processes.{bare_of, given_to, AreProcessesPlayed};
ghost use Rattle.tty_one.specs.ModemLines.{SpellsModemLines, AreModemLinesPlayed, given_to as given_with_lines};
ghost use Rattle.tty_one.specs.Consoles.{AreConsolesInOrder, EachKeyGoes, SpellsConsoles};
ghost use Rattle.tty_one.specs.Outcome.{IsAnsweredOnce, IsDone, GaveTheSame, TellsEachOnce, IsReadBack, GaveJournals};

use session_print::each_call_has_its_line;

/// A law: in a legal run each call of the session is answered by one entry; and a report of legal runs has
/// one line for each call of each port, in the text's order, with the answer of that entry.
pub fn each_call_has_one_line()
    ensures answered { (p : ℕ) (session : PlainSession) (run : PortRun) (t : Terminal)
        → IsLegal p session run t
        → (c step : ℕ) (call : PlainCall)
        → call_at p session c step ≡ Some call
        → IsAnsweredOnce run.journal.items c step }
    ensures in_any_order { (journals : Bool) (session : PlainSession) (runs : List PortRun) (text : List ℕ)
        → IsReported IsInAnyOrder (Report journals) session runs text → TellsEachOnce journals session runs text }
    ensures in_one_order { (journals : Bool) (session : PlainSession) (runs : List PortRun) (text : List ℕ)
        → IsReported IsOrdered (Report journals) session runs text → TellsEachOnce journals session runs text }
{
    each_call_has_its_line();
}

/// A law: a session has one report on one thread, with its journals or without them, and the session of a
/// number one summary. So two calls of `tty_one` that ended with 0 gave the same bytes: by `run --one` where
/// they read the same text, and by `gen` with the same number.
pub fn a_session_has_one_report()
    ensures report { (telling : Telling) (session : PlainSession) (runs others : List PortRun) (text other : List ℕ)
        → IsReported IsOrdered telling session runs text
        → IsReported IsOrdered telling session others other
        → text ≡ other }
    ensures read { (words : List (List ℕ)) (bytes before before' : List ℕ) (now now' : Option (List ℕ))
        (back other : Returned)
        → AreRunOne words
        → IsDone words (Some bytes) (Some before) now back
        → IsDone words (Some bytes) (Some before') now' other
        → GaveTheSame before before' now now' }
    ensures made { (words : List (List ℕ)) (left left' : Option (List ℕ)) (before before' : List ℕ)
        (now now' : Option (List ℕ)) (back other : Returned)
        → AreGen words
        → IsDone words left (Some before) now back
        → IsDone words left' (Some before') now' other
        → GaveTheSame before before' now now' }
{}

/// A law: no journal is ever full. A run of a session that a text of at most 4,194,304 bytes spells, as far
/// as it went, has fewer entries than that.
pub fn no_journal_is_ever_full()
    ensures { (text : List ℕ) (session : PlainSession) (p : ℕ) (run : PortRun) (t : Terminal)
        → Spells text session
        → length text ≤ MOST_TEXT
        → IsCutShort p session run t
        → length run.journal.items < MOST_ENTRIES }
{}

/// A law: no journal of a console is ever full. A run of a console of a session that a text of at most 4,194,304 bytes
/// spells, as far as it went, has fewer entries than that, whatever the entries of the board.
pub fn no_journal_of_a_console_is_ever_full()
    ensures { (text : List ℕ) (session : PlainVtSession) (entries : List VtEntry) (p : ℕ) (run : PortRun) (t : Terminal)
        → SpellsConsoles text session
        → length text ≤ MOST_TEXT
        → IsCutShort p (keyed session entries) run t
        → length run.journal.items < MOST_ENTRIES }
{}

/// A law: no journal of a session of processes is ever full. A run of the session that its ports were played, as far as
/// it went, has fewer entries than that, where at most one call was passed down for each call of a process.
pub fn no_journal_of_processes_is_ever_full()
    ensures { (text : List ℕ) (session : JobsSession) (log : JobLog) (runs : List PortRun) (p : ℕ) (run : PortRun)
        (t : Terminal)
        → jobs_in text ≡ Ok (bare_of session)
        → length text ≤ MOST_TEXT
        → ArePassedWithin (given_to session log runs)
        → IsCutShort p (derived_with session log runs) run t
        → length run.journal.items < MOST_ENTRIES }
{}

/// A law: no journal of a session of ports with modem lines is ever full. A run of the session that its ports were
/// played, as far as it went, has fewer entries than that, where at most one call was passed down for each call of a
/// caller, and for each item of a modem block.
pub fn no_journal_with_modem_lines_is_ever_full()
    ensures { (text : List ℕ) (session : ModemSession) (log : ModemLog) (runs : List PortRun) (p : ℕ) (run : PortRun)
        (t : Terminal)
        → SpellsModemLines text session
        → length text ≤ MOST_TEXT
        → ArePassedWithin (given_with_lines session log runs)
        → IsCutShort p (derived_with_lines session log runs) run t
        → length run.journal.items < MOST_ENTRIES }
{}

/// A law: each key goes to one console, and is received there once. By the account of its board each key of a session
/// went to one of the consoles; and the characters of a legal run of a console, flushed and dropped, are in order the
/// keys that went there, without its overruns.
pub fn keys_are_received_once()
    ensures goes { (text : List ℕ) (session : PlainVtSession) (entries : List VtEntry)
        → SpellsConsoles text session
        → IsAccount session entries
        → EachKeyGoes session entries }
    ensures received { (text : List ℕ) (session : PlainVtSession) (entries : List VtEntry) (p : ℕ) (run : PortRun)
        (t : Terminal)
        → SpellsConsoles text session
        → p < session.calls.ports
        → IsLegal p (keyed session entries) run t
        → chars_of run.journal.items
        ≡ kept_list (good_characters (keys_of session entries p)) run.line.overruns.items }
{}

/// A law: a session of consoles has one report on one thread. So two calls of `tty_one` that ended with 0 gave the same
/// bytes by `vt --one` where they read the same text.
pub fn consoles_have_one_report()
    ensures report { (session : PlainVtSession) (back other : Returned) (text told : List ℕ)
        → AreConsolesInOrder session back text
        → AreConsolesInOrder session other told
        → text ≡ told }
    ensures read { (words : List (List ℕ)) (bytes before before' : List ℕ) (now now' : Option (List ℕ))
        (back other : Returned)
        → AskVtOne words
        → IsDone words (Some bytes) (Some before) now back
        → IsDone words (Some bytes) (Some before') now' other
        → GaveTheSame before before' now now' }
{}

/// A law: a session of processes has one report on one thread, whatever stands in the room behind the names of its
/// processes. So two calls of `tty_one` that ended with 0 gave the same bytes by `jobs` where they read the same text.
pub fn processes_have_one_report()
    ensures report { (session again : JobsSession) (back other : Returned) (text told : List ℕ)
        → bare_of session ≡ bare_of again
        → AreProcessesPlayed session back text
        → AreProcessesPlayed again other told
        → text ≡ told }
    ensures read { (words : List (List ℕ)) (bytes before before' : List ℕ) (now now' : Option (List ℕ))
        (back other : Returned)
        → AskJobs words
        → IsDone words (Some bytes) (Some before) now back
        → IsDone words (Some bytes) (Some before') now' other
        → GaveTheSame before before' now now' }
{}

/// A law: a session of ports with modem lines has one report on one thread. So two calls of `tty_one` that ended with 0
/// gave the same bytes by `modem` where they read the same text.
pub fn modem_sessions_have_one_report()
    ensures report { (session : ModemSession) (back other : Returned) (text told : List ℕ)
        → AreModemLinesPlayed session back text
        → AreModemLinesPlayed session other told
        → text ≡ told }
    ensures read { (words : List (List ℕ)) (bytes before before' : List ℕ) (now now' : Option (List ℕ))
        (back other : Returned)
        → AskModem words
        → IsDone words (Some bytes) (Some before) now back
        → IsDone words (Some bytes) (Some before') now' other
        → GaveTheSame before before' now now' }
{}

/// A law: journals that are printed are legal. What `run --journal` tells of a session, from the line
/// `journals` on, put on lines of its own behind the session's text, spells that session and the runs that it
/// is told of; and `check` tells `legal` to it, wherever it can read that text and give its line. So it is
/// with what was given by each call with these words that ended with 0.
pub fn printed_journals_are_legal()
    ensures in_any_order { (text : List ℕ) (session : PlainSession) (runs : List PortRun) (report : List ℕ)
        → Spells text session
        → IsReported IsInAnyOrder (Report true) session runs report
        → IsReadBack text session runs report }
    ensures in_one_order { (text : List ℕ) (session : PlainSession) (runs : List PortRun) (report : List ℕ)
        → Spells text session
        → IsReported IsOrdered (Report true) session runs report
        → IsReadBack text session runs report }
    ensures given { (words : List (List ℕ)) (bytes before : List ℕ) (now : Option (List ℕ)) (back : Returned)
        → AskJournals words
        → IsDone words (Some bytes) (Some before) now back
        → GaveJournals bytes before now back.runs }
{}
