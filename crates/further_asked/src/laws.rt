//! What is asked, as laws.

ghost use Rattle.std.specs.Prelude.{◌≡◌, ◌≤◌, ◌+◌, ℕ, List, Ok, length};
ghost use Rattle.tty_calls.specs.Sessions.{PlainSession};
ghost use Rattle.session_text.specs.Asked.{asked_of};
ghost use Rattle.passed_calls.specs.Derived.{Passed, passed_phases};
ghost use Rattle.passed_calls.specs.Within.{ArePassedWithin};
ghost use Rattle.job_text.specs.Events.{JobLog};
ghost use Rattle.job_text.specs.Reading.{jobs_in};
ghost use Rattle.job_text.specs.Sessions.{JobsSession};
ghost use Rattle.job_steps.specs.Derived.{passings_on as passed_by_processes};
ghost use Rattle.modem_text.specs.Events.{ModemLog};
ghost use Rattle.modem_text.specs.Reading.{modem_in};
ghost use Rattle.modem_text.specs.Sessions.{ModemSession};
ghost use Rattle.modem_text.specs.Within.{IsModemSessionWithin};
ghost use Rattle.modem_steps.specs.Derived.{passings_on as passed_with_lines};
ghost use Rattle.further_asked.specs.Asked.{AskedPhase, AskNoMore, asked_on, block_phases};
ghost use Rattle.further_asked.specs.Jobs.{asked_phases as asked_by_processes};
ghost use Rattle.further_asked.specs.Modem.{asked_phases as asked_with_lines};

/// A law: a text is as long as what its session asks of a port, but for one letter.
pub fn a_text_is_as_long_as_its_session_asks()
    ensures processes { (text : List ℕ) (session : JobsSession) (p : ℕ)
        → jobs_in text ≡ Ok session
        → asked_on p (asked_by_processes session) ≤ length text + 1 }
    ensures modem_lines { (text : List ℕ) (session : ModemSession) (p : ℕ)
        → modem_in text ≡ Ok session
        → asked_on p (asked_with_lines session) ≤ length text + 1 }
{}

/// A law: a session that a port was played asks no more than the session whose calls were passed down, where at most
/// one was passed for each call, and that one asks no more than the call.
pub fn what_is_passed_asks_no_more()
    ensures { (phases : List AskedPhase) (given : Passed) (played : PlainSession) (p : ℕ)
        → played.phases ≡ passed_phases given (block_phases phases)
        → ArePassedWithin given
        → AskNoMore p phases (given p)
        → asked_of p played.phases ≤ asked_on p phases }
{}

/// A law: what a log passes down asks no more than the calls that it is passed for.
pub fn what_is_logged_asks_no_more()
    ensures processes { (session : JobsSession) (log : JobLog) (p : ℕ)
        → AskNoMore p (asked_by_processes session) (passed_by_processes session log p) }
    ensures modem_lines { (session : ModemSession) (log : ModemLog) (p : ℕ)
        → IsModemSessionWithin session
        → AskNoMore p (asked_with_lines session) (passed_with_lines session log p) }
{}
