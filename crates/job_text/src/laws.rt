//! Worked texts, as laws: what each says, or why it is wrong.

ghost use Rattle.std.specs.Prelude.{◌≡◌, ℕ, List, Ok, Err, map};
ghost use Rattle.job_text.specs.Left.{IsLeft};
ghost use Rattle.job_text.specs.Reading.{jobs_in};
ghost use Rattle.job_text.specs.Rows.{refused_rows, shell_text, shell_session};
ghost use Rattle.job_text.specs.Sessions.{JobsSession};
ghost use Rattle.job_text.specs.Within.{IsJobsSessionWithin};

/// A law: the first wrong line of worked texts, and why it is wrong.
pub fn worked_texts_are_refused_at_their_lines()
    ensures { map (λ row. jobs_in row.text) refused_rows ≡ map (λ row. Err row.line) refused_rows }
{}

/// A law: the session of a worked text.
pub fn a_worked_text_is_read()
    ensures { jobs_in shell_text ≡ Ok shell_session }
{}

/// A law: what is left of a text that is read, without the lines that only it has, spells a session of ports, and what
/// is read is that session with its processes and what its phases have beside: the calls that its own lines say, in
/// their order.
pub fn what_is_left_is_a_session()
    ensures { (text : List ℕ) (session : JobsSession) → jobs_in text ≡ Ok session → IsLeft text session }
{}

/// A law: a session that is read keeps the limits of every session of processes.
pub fn parsed_sessions_are_within_limits()
    ensures { (text : List ℕ) (session : JobsSession) → jobs_in text ≡ Ok session → IsJobsSessionWithin session }
{}
