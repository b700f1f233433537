//! The calls of job control: what each is answered, and what is due then.

ghost use Rattle.std.specs.Prelude.{◌≡◌, ◌<◌, ℕ, Option, length, position};
ghost use Rattle.handle_table.specs.Handles.{is_live};
ghost use Rattle.tty_terminal.specs.Terminals.{handle_at};
ghost use Rattle.job_control.specs.Control.{JobState, after_sctty, sctty_refusal, no_terminal, after_notty};
ghost use Rattle.job_control.specs.Control.{gpgrp_answer, after_spgrp, spgrp_refusal, after_exit};
ghost use Rattle.job_control.specs.declared.answers.JobAnswer.TheVariants as told;
ghost use Rattle.job_steps.specs.Steps.{ControlOutcome, done_or, number_or, outcome_of, refusal_answer};
ghost use Rattle.job_steps.specs.Steps.{foreground_target, notty_due, spgrp_outcome, through};
ghost use Rattle.job_text.specs.declared.calls.OwnCall.TheVariants as own;
ghost use Rattle.passed_calls.specs.Scripts.{further};
ghost use Rattle.job_one.specs.Controls.{came_to, due_events, ended_due, hangup_due, told_by, refused_or};

use job_control::{JobAct, JobAnswer, JobRefusal, JobSignal, Jobs, Judged, Target};
use job_text::OwnCall;
use live_handles::least_live;
use port_core::Port;
use tty_base::Errno;
use tty_modes::places::TOSTOP;

/// What is due behind a call.
#[derive(Clone, Copy)]
pub enum Due {
    Nothing,
    /// A signal to this target.
    Signal(JobSignal, Target),
    /// HUP and CONT to this target.
    Left(Target),
    /// HUP to this target, and a hangup through the least live handle.
    Ended(Target),
}

fn refused(refusal: JobRefusal) -> JobAnswer
    ensures { result ≡ refusal_answer refusal }
{
    match refusal {
        JobRefusal::EPERM => JobAnswer::NotPermitted,
        JobRefusal::ENOTTY => JobAnswer::Refused(Errno::ENOTTY),
    }
}

fn told_as(tried: Result<(), JobRefusal>) -> JobAnswer
    ensures { result ≡ told_by tried }
{
    match tried {
        Ok(()) => JobAnswer::Done,
        Err(refusal) => refused(refusal),
    }
}

/// The group in the foreground, as a target.
pub(crate) fn foreground(jobs: &Jobs) -> Target
    ensures { result ≡ foreground_target jobs.now }
{
    match jobs.foreground() {
        Some(group) => Target::Group(group),
        None => Target::Nobody,
    }
}

/// Why a call through a handle is refused: there is none, or it is dead.
pub(crate) fn refusal_through(port: &Port, h: u8, dead: Errno) -> Option<JobAnswer>
    ensures { (jobs : JobState) (outcome : ControlOutcome)
        → through jobs (handle_at port.now.terminal h) (told.Refused dead) outcome ≡ refused_or jobs result outcome }
{
    match port.handle(h) {
        None => Some(JobAnswer::Refused(Errno::EBADF)),
        Some(handle) if !handle.live => Some(JobAnswer::Refused(dead)),
        Some(_) => None,
    }
}

/// A process makes the port its controlling terminal.
pub(crate) fn sctty(jobs: &mut Jobs, proc: u16) -> JobAnswer
    ensures answer { result ≡ done_or (sctty_refusal jobs.old proc) }
    ensures left { jobs.new ≡ after_sctty jobs.old proc }
{
    told_as(jobs.sctty(proc))
}

/// A process gives up its controlling terminal.
pub(crate) fn notty(jobs: &mut Jobs, proc: u16) -> (JobAnswer, Due)
    requires { proc < length jobs.old.procs }
    ensures answer { result.0 ≡ done_or (no_terminal jobs.old proc) }
    ensures left { jobs.new ≡ after_notty jobs.old proc }
    ensures due { (c : ℕ) (least : Option ℕ) → due_events result.1 c least ≡ notty_due jobs.old proc }
{
    let due = due_at_notty(jobs, proc);
    (told_as(jobs.notty(proc)), due)
}

fn due_at_notty(jobs: &Jobs, proc: u16) -> Due
    ensures { (c : ℕ) (least : Option ℕ) → due_events result c least ≡ notty_due jobs.now proc }
{
    if jobs.leads(proc) && jobs.controls(proc) {
        Due::Left(foreground(jobs))
    } else {
        Due::Nothing
    }
}

/// The group in the foreground, as a process is told it.
pub(crate) fn gpgrp(jobs: &Jobs, proc: u16) -> JobAnswer
    ensures { result ≡ number_or (gpgrp_answer jobs.now proc) }
{
    match jobs.gpgrp(proc) {
        Ok(group) => JobAnswer::Number(u32::from(group)),
        Err(refusal) => refused(refusal),
    }
}

/// A process puts a group into the foreground, once the background check has let it go on.
pub(crate) fn spgrp(jobs: &mut Jobs, proc: u16, group: u16) -> JobAnswer
    ensures answer { result ≡ done_or (spgrp_refusal jobs.old proc group) }
    ensures left { jobs.new ≡ after_spgrp jobs.old proc group }
{
    told_as(jobs.spgrp(proc, group))
}

/// A process ends.
pub(crate) fn exit(jobs: &mut Jobs, proc: u16) -> Due
    requires { proc < length jobs.old.procs }
    ensures left { jobs.new ≡ after_exit jobs.old proc }
    ensures due { (c : ℕ) (least : Option ℕ) → due_events result c least ≡ ended_due jobs.old proc c least }
{
    let due = if jobs.leads(proc) {
        Due::Ended(foreground(jobs))
    } else {
        Due::Nothing
    };
    jobs.exit(proc);
    due
}

/// A call of job control by a process.
pub(crate) fn control(jobs: &mut Jobs, port: &Port, proc: u16, call: OwnCall) -> (JobAnswer, Due)
    requires { proc < length jobs.old.procs }
    ensures { (c : ℕ)
        → outcome_of jobs.old port.now.terminal proc c (further call)
        ≡ came_to port.now.terminal c result.0 jobs.new result.1 }
{
    match call {
        OwnCall::Sctty { h } => sctty_through(jobs, port, proc, h),
        OwnCall::Notty { h } => notty_through(jobs, port, proc, h),
        OwnCall::Gpgrp { h } => gpgrp_through(jobs, port, proc, h),
        OwnCall::Spgrp { h, group } => spgrp_through(jobs, port, proc, h, group),
        OwnCall::Exit => (JobAnswer::Done, exit(jobs, proc)),
    }
}

fn sctty_through(jobs: &mut Jobs, port: &Port, proc: u16, h: u8) -> (JobAnswer, Due)
    ensures { (c : ℕ)
        → outcome_of jobs.old port.now.terminal proc c (further (own.Sctty h))
        ≡ came_to port.now.terminal c result.0 jobs.new result.1 }
{
    match refusal_through(port, h, Errno::EIO) {
        Some(answer) => (answer, Due::Nothing),
        None => (sctty(jobs, proc), Due::Nothing),
    }
}

fn notty_through(jobs: &mut Jobs, port: &Port, proc: u16, h: u8) -> (JobAnswer, Due)
    requires { proc < length jobs.old.procs }
    ensures { (c : ℕ)
        → outcome_of jobs.old port.now.terminal proc c (further (own.Notty h))
        ≡ came_to port.now.terminal c result.0 jobs.new result.1 }
{
    match refusal_through(port, h, Errno::EIO) {
        Some(answer) => (answer, Due::Nothing),
        None => notty(jobs, proc),
    }
}

fn gpgrp_through(jobs: &Jobs, port: &Port, proc: u16, h: u8) -> (JobAnswer, Due)
    ensures { (c : ℕ)
        → outcome_of jobs.now port.now.terminal proc c (further (own.Gpgrp h))
        ≡ came_to port.now.terminal c result.0 jobs.now result.1 }
{
    match refusal_through(port, h, Errno::EIO) {
        Some(answer) => (answer, Due::Nothing),
        None => (gpgrp(jobs, proc), Due::Nothing),
    }
}

fn spgrp_through(jobs: &mut Jobs, port: &Port, proc: u16, h: u8, group: u16) -> (JobAnswer, Due)
    ensures { (c : ℕ)
        → outcome_of jobs.old port.now.terminal proc c (further (own.Spgrp h group))
        ≡ came_to port.now.terminal c result.0 jobs.new result.1 }
{
    match refusal_through(port, h, Errno::ENOTTY) {
        Some(answer) => (answer, Due::Nothing),
        None => spgrp_checked(jobs, port, proc, group),
    }
}

/// It is a change of the port: so the background check comes before the group is looked for.
fn spgrp_checked(jobs: &mut Jobs, port: &Port, proc: u16, group: u16) -> (JobAnswer, Due)
    ensures { (c : ℕ)
        → spgrp_outcome jobs.old port.now.terminal proc group ≡ came_to port.now.terminal c result.0 jobs.new result.1 }
{
    if !jobs.controls(proc) {
        return (JobAnswer::Refused(Errno::ENOTTY), Due::Nothing);
    }
    let tostop = port.modes().has(TOSTOP);
    match jobs.check(proc, JobAct::Change, tostop) {
        Judged::Pass => (spgrp(jobs, proc, group), Due::Nothing),
        Judged::Eio => (JobAnswer::Refused(Errno::ENOTTY), Due::Nothing),
        Judged::Stop(signal) => {
            let target = Target::Group(jobs.group(proc));
            (JobAnswer::Stopped(signal), Due::Signal(signal, target))
        }
    }
}

/// The handle through which the port is hung up, where that is due.
pub(crate) fn hangup_through(port: &Port, due: Due) -> Option<u8>
    ensures { result ≡ hangup_due due (position is_live port.now.terminal.handles) }
{
    match due {
        Due::Ended(_) => least_live(port),
        _ => None,
    }
}
