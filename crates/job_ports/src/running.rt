//! A session of processes played on one thread, and what became of it.

ghost use Rattle.std.specs.Prelude.{◌≡◌, ◌++◌, IfOk, OnOk, map};
ghost use Rattle.tty_calls.specs.Sessions.{session_of};
ghost use Rattle.job_text.specs.Events.{logged_of};
ghost use Rattle.job_text.specs.Sessions.{jobs_session_of};
ghost use Rattle.job_text.specs.Within.{IsJobsSessionWithin};
ghost use Rattle.job_steps.specs.Derived.{passings_on};
ghost use Rattle.job_one.specs.Played.{AreJobsPlayed, begun_in};
ghost use Rattle.passed_calls.specs.Within.{ArePassedWithin};
ghost use Rattle.job_ports.specs.Ports.{AreFirstPlayed};
ghost use Rattle.order_laws.specs.Sessions.{journal_on};

use crate::passing::derive_session;
use crate::ports::play_port;
use job_text::{JobLog, JobsSession};
use std::alloc::Global;
use tty_base::{Buffer, NoMemory};
use tty_calls::{PortEnd, PortRun, Session};

/// What became of a session of processes: what was logged of its ports, of each the run and what a report prints of
/// its end, and the session that they were played.
#[derive(Drop)]
pub struct JobsRan {
    pub log: Buffer<JobLog>,
    pub runs: Buffer<PortRun>,
    pub ends: Buffer<PortEnd>,
    pub derived: Session,
}

/// The log, the runs and the ends of ports.
#[derive(Drop)]
struct PortsRan {
    log: Vec<JobLog>,
    runs: Buffer<PortRun>,
    ends: Buffer<PortEnd>,
}

/// Plays a session of processes on one thread (termios(3), ioctl_tty(2)), its ports one after the other. A port whose
/// journal is full is played no further.
pub fn jobs_run(alloc: Global, session: &JobsSession) -> Result<JobsRan, NoMemory>
    requires { IsJobsSessionWithin (jobs_session_of session.now) }
    ensures played { IfOk result (λ ran. AreJobsPlayed (jobs_session_of session.now) (map logged_of ran.log.items)
        ran.runs.items ran.ends.items (session_of ran.derived)) }
    ensures within { IfOk result (λ ran. ArePassedWithin (λ p.
        passings_on (jobs_session_of session.now) (map logged_of ran.log.items) p
        ++ begun_in (jobs_session_of session.now) (map logged_of ran.log.items) p (journal_on ran.runs.items p))) }
{
    let ran = run_ports(alloc, session)?;
    let derived = derive_session(alloc, session, ran.log.as_slice(), ran.runs.as_slice())?;
    Ok(JobsRan {
        log: Buffer::from_vec(ran.log),
        runs: ran.runs,
        ends: ran.ends,
        derived,
    })
}

/// Plays the ports of a session, one after the other.
fn run_ports(alloc: Global, session: &JobsSession) -> Result<PortsRan, NoMemory>
    requires { IsJobsSessionWithin (jobs_session_of session.now) }
    ensures { IfOk result (λ ran. AreFirstPlayed (jobs_session_of session.now) (jobs_session_of session.now).ports
        (map logged_of ran.log.items) ran.runs.items ran.ends.items) }
{
    let ports = session.session.ports;
    let count = usize::from(ports);
    let mut log = Vec::new(alloc);
    let mut runs = Buffer::new(alloc);
    runs.reserve(count)?;
    let mut ends = Buffer::new(alloc);
    ends.reserve(count)?;
    for number in 0..ports {
        let played = play_port(alloc, session, number)?;
        add_log(&mut log, played.log)?;
        runs.add(played.run);
        ends.add(played.end);
    }
    Ok(PortsRan { log, runs, ends })
}

/// Adds what was logged of a port.
fn add_log(log: &mut Vec<JobLog>, mut more: Vec<JobLog>) -> Result<(), NoMemory>
    ensures { OnOk result (log.new.items ≡ log.old.items ++ more.items) }
{
    log.append(&mut more)?;
    Ok(())
}
