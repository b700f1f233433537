//! The session that the ports were played, by their log and their journals.

ghost use Rattle.std.specs.Prelude.{◌≡◌, ◌<◌, ◌++◌, ◌==◌, [], ◌∷◌, ℕ, All, IfOk, OnOk, if◌then◌else◌, length, map};
ghost use Rattle.std.specs.Prelude.{slice_index_or};
ghost use Rattle.tty_calls.specs.Sessions.{session_of};
ghost use Rattle.passed_calls.specs.Within.{ArePassedWithin};
ghost use Rattle.job_text.specs.Events.{event_of, events_on, logged_of};
ghost use Rattle.job_text.specs.Sessions.{jobs_session_of, own_of};
ghost use Rattle.job_text.specs.Within.{IsJobsSessionWithin};
ghost use Rattle.job_one.specs.Played.{derived_with, all_passed};
ghost use Rattle.job_ports.specs.Walked.{all_down, down_on, first_walk, walked_by, walked_over};
ghost use Rattle.order_laws.specs.Sessions.{journal_on};
ghost use Rattle.derived_session.specs.Begun.{one_more};

use derived_session::{Down, PassedDown, add_begun, derive};
use job_text::{JobEvent, JobLog, JobsPart, JobsSession, OwnCall};
use passed_calls::PlacedCall;
use std::alloc::Global;
use std::marker::Model;
use tty_base::NoMemory;
use tty_calls::{Journal, Names, PortRun, Session};

/// The session that the ports were played, which have these runs.
pub(crate) fn derive_session(
    alloc: Global,
    session: &JobsSession,
    log: &[JobLog],
    runs: &[PortRun],
) -> Result<Session, NoMemory>
    requires within { IsJobsSessionWithin (jobs_session_of session.now) }
    requires log { All (λ l. l.port < (jobs_session_of session.now).ports) (map logged_of log.now) }
    requires runs { length runs.now ≡ (jobs_session_of session.now).ports }
    requires passed { ArePassedWithin (λ p.
        all_passed (jobs_session_of session.now) (map logged_of log.now) p (journal_on runs.now p)) }
    ensures { IfOk result (λ derived. session_of derived
        ≡ derived_with (jobs_session_of session.now) (map logged_of log.now) runs.now) }
{
    let placed = placed_in(alloc, session.parts.as_slice())?;
    let passed = passed_in(alloc, &session.session, log, runs)?;
    derive(
        alloc,
        &session.session,
        placed.as_slice(),
        &[],
        passed.as_slice(),
    )
}

/// The calls of job control of each phase.
fn placed_in(alloc: Global, parts: &[JobsPart]) -> Result<Vec<&[PlacedCall<OwnCall>]>, NoMemory>
    ensures { IfOk result (λ placed. map (λ s. s.now) placed.items ≡ map own_of parts.now) }
{
    let mut placed = Vec::new(alloc);
    for part in parts {
        placed.push(part.own.as_slice())?;
    }
    Ok(placed)
}

/// What each port was passed.
fn passed_in(
    alloc: Global,
    session: &Session,
    log: &[JobLog],
    runs: &[PortRun],
) -> Result<Vec<Vec<PassedDown>>, NoMemory>
    ensures many { IfOk result (λ passed. length passed.items ≡ length runs.now) }
    ensures each { IfOk result (λ passed. (p : ℕ)
        → p < length runs.now
        → slice_index_or (map (λ d. d.items) passed.items) p []
        ≡ down_on (session_of session.now) (map logged_of log.now) runs.now p) }
{
    let mut passed = Vec::new(alloc);
    for (port, run) in runs.iter().enumerate() {
        let names = Names::on_port(alloc, session, port)?;
        let own = passed_by(alloc, names.len(), port, log, &run.journal)?;
        passed.push(own)?;
    }
    Ok(passed)
}

/// What a port of so many callers was passed: what was logged of it, and the calls that it has begun.
fn passed_by(
    alloc: Global,
    callers: usize,
    port: usize,
    log: &[JobLog],
    journal: &Journal,
) -> Result<Vec<PassedDown>, NoMemory>
    ensures { IfOk result (λ passed.
        passed.items ≡ all_down callers (events_on port (map logged_of log.now)) journal.now.items) }
{
    let mut walk = Walk::new(alloc, callers)?;
    walk.note_all(port, log)?;
    let Walk {
        mut passed,
        answered,
        latest: _,
    } = walk;
    add_begun(alloc, &mut passed, journal, answered.as_slice())?;
    Ok(passed)
}

/// What was passed down so far, how many calls of each caller were answered, and the latest step that was answered
/// without the port.
#[derive(Drop)]
struct Walk {
    passed: Vec<PassedDown>,
    answered: Vec<u32>,
    latest: u32,
}

impl Model for Walk {
    ghost use Rattle.job_ports.specs.Walked.{Walked};

    ghost Value = { Walked };

    ghost view = { λ w. record { passed = w.passed.items; answered = w.answered.items; latest = w.latest } };
}

impl Walk {
    /// Of a port of so many callers, of which nothing was logged.
    fn new(alloc: Global, callers: usize) -> Result<Walk, NoMemory>
        ensures { IfOk result (λ walk. walk ≡ first_walk callers) }
    {
        let answered = vec![in alloc; 0; callers]?;
        Ok(Walk {
            passed: Vec::new(alloc),
            answered,
            latest: 0,
        })
    }

    /// Notes what was logged of a port.
    fn note_all(&mut self, port: usize, log: &[JobLog]) -> Result<(), NoMemory>
        ensures { OnOk result (self.new ≡ walked_over self.old (events_on port (map logged_of log.now))) }
    {
        for logged in log {
            self.note_on(port, logged)?;
        }
        Ok(())
    }

    fn note_on(&mut self, port: usize, logged: &JobLog) -> Result<(), NoMemory>
        ensures { OnOk result (self.new
            ≡ (if logged.now.port == port then walked_by self.old (event_of logged.now.event) else self.old)) }
    {
        if logged.port as usize == port {
            self.note(&logged.event)
        } else {
            Ok(())
        }
    }

    fn note(&mut self, event: &JobEvent) -> Result<(), NoMemory>
        ensures { OnOk result (self.new ≡ walked_by self.old (event_of event.now)) }
    {
        match *event {
            JobEvent::Own { caller, step, .. } => {
                self.answer(caller)?;
                self.latest = step;
                Ok(())
            }
            JobEvent::Passed { caller, step, .. } => {
                self.answer(caller)?;
                self.pass(caller, step, Down::Call)
            }
            JobEvent::Down { caller, h } => self.pass(caller, self.latest, Down::Hangup(h)),
            JobEvent::Sent { .. } => Ok(()),
        }
    }

    fn pass(&mut self, caller: u16, step: u32, down: Down) -> Result<(), NoMemory>
        ensures { OnOk result (self.new
            ≡ record self.old {
              passed = self.old.passed ++ record { caller = caller; step = step; down = down } ∷ [];
            }) }
    {
        self.passed.push(PassedDown { caller, step, down })?;
        Ok(())
    }

    /// One more call of a caller was answered.
    fn answer(&mut self, caller: u16) -> Result<(), NoMemory>
        ensures { OnOk result (self.new ≡ record self.old { answered = one_more self.old.answered caller }) }
    {
        count_one(self.answered.as_mut_slice(), caller as usize)
    }
}

/// Adds one at a place, where it is one. More than can be counted are want of memory.
fn count_one(counts: &mut [u32], place: usize) -> Result<(), NoMemory>
    ensures { OnOk result (counts.new ≡ one_more counts.old place) }
{
    if place < counts.len() {
        counts[place] = counts[place].checked_add(1).ok_or(NoMemory)?;
    }
    Ok(())
}
