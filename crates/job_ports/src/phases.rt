//! The phases of a session of processes on a port.

ghost use Rattle.std.specs.Prelude.{◌≡◌, ◌+◌, ◌<◌, [], IfOk, IfErr};
ghost use Rattle.std.specs.Prelude.{length, map, slice_index_or};
ghost use Rattle.tty_calls.specs.declared.answers.Denied.TheVariants as denied;
ghost use Rattle.tty_calls.specs.declared.sessions.Script.{Script};
ghost use Rattle.tty_calls.specs.Sessions.{session_of};
ghost use Rattle.play_base.specs.Roles.{scene_of};
ghost use Rattle.job_text.specs.Sessions.{jobs_session_of, own_of};
ghost use Rattle.job_text.specs.Within.{IsJobsSessionWithin};
ghost use Rattle.calls_left.specs.Remaining.{calls_of_port};
ghost use Rattle.job_ports.specs.Between.{BeginsPhase, IsBetween, IsStoppedBy, Setting, setting_of};

use calls_left::Remaining;
use job_one::{Desk, play_after_line, play_line};
use job_text::{JobsPart, JobsSession, OwnCall};
use line_steps::LineSteps;
use one_thread::Stand;
use passed_calls::PlacedCall;
use passed_ports::{cast_in, take_steps};
use play_base::{Role, Station, scripts_of, steps_of, ticks_of};
use std::alloc::Global;
use tty_base::NoMemory;
use tty_calls::{Denied, Names, Script};

/// A port that is played, the names of its callers, and its desk.
#[derive(Drop)]
pub struct JobStation {
    pub names: Names,
    pub station: Station,
    pub desk: Desk,
}

/// Plays a phase: its line, and what comes after it. Answers the number of the next flush run.
pub(crate) fn play_phase(
    alloc: Global,
    session: &JobsSession,
    number: u8,
    k: usize,
    at: &mut JobStation,
    run: u32,
) -> Result<u32, Denied>
    ghost setting: { Setting }
    requires setting { setting ≡ setting_of number session.now k }
    requires within { IsJobsSessionWithin (jobs_session_of session.now) }
    requires port { number < (session_of session.now.session).ports }
    requires phase { k < length (session_of session.now.session).phases }
    requires before { IsBetween (scene_of number session.now.session) (jobs_session_of session.now) k run at.old }
    ensures ok { IfOk result
        (λ next. IsBetween (scene_of number session.now.session) (jobs_session_of session.now) (k + 1) next at.new) }
    ensures err { IfErr result
        (λ d. IsStoppedBy d (scene_of number session.now.session) (jobs_session_of session.now) at.new) }
{
    let port = usize::from(number);
    let scripts = scripts_of(&session.session, k);
    let placed = own_in(session.parts.as_slice(), k);
    take_steps(&at.station.port, at.station.steps.as_mut_slice());
    let roles = cast_in(alloc, scripts, port, &at.names, at.station.steps.as_slice())?;
    let mut calls = calls_in(alloc, scripts, placed, number)?;
    play_parts(
        at,
        roles.as_slice(),
        &mut calls,
        steps_of(&session.session, port, k),
        ticks_of(&session.session, port, k),
        run,
        session.session.version == 0,
    )
}

/// What the callers of a port have to call in a phase.
fn calls_in<'a>(
    alloc: Global,
    scripts: &'a [Script],
    placed: &'a [PlacedCall<OwnCall>],
    port: u8,
) -> Result<Remaining<'a, OwnCall>, Denied>
    ensures ok { IfOk result (λ calls. calls ≡ calls_of_port port scripts.now placed.now) }
    ensures err { IfErr result (λ d. d ≡ denied.NoMemory) }
{
    match Remaining::of(alloc, scripts, placed, port) {
        Ok(calls) => Ok(calls),
        Err(NoMemory) => Err(Denied::NoMemory),
    }
}

/// The line of a phase, and what comes after it. Answers the number of the next flush run.
fn play_parts(
    at: &mut JobStation,
    roles: &[Role],
    calls: &mut Remaining<OwnCall>,
    steps: &LineSteps,
    ticks: u32,
    run: u32,
    clock_first: bool,
) -> Result<u32, Denied>
    ghost setting: { Setting }
    requires { BeginsPhase setting roles.now at.old at.old.station.port.terminal.phase
        run calls.old steps.now.items ticks clock_first }
    ensures ok { IfOk result
        (λ next. IsBetween setting.first setting.session (at.old.station.port.terminal.phase + 1) next at.new) }
    ensures err { IfErr result (λ d. IsStoppedBy d setting.first setting.session at.new) }
{
    let played = play_line(
        &mut at.station.port,
        &mut at.station.putter,
        &mut at.station.line,
        &mut at.desk,
        steps,
        run,
    );
    at.station.port.known();
    let run = played?;
    let stand = Stand {
        run,
        part: 0,
        ticks,
        going: None,
    };
    let ended = play_after_line(
        &mut at.station.port,
        &mut at.station.putter,
        &mut at.desk,
        roles,
        calls,
        stand,
        clock_first,
    );
    let _end = at.station.port.journal(); // known: the journal is a run
    ended
}

/// The calls of job control in a phase.
fn own_in(parts: &[JobsPart], k: usize) -> &[PlacedCall<OwnCall>]
    ensures { result.now ≡ slice_index_or (map own_of parts.now) k [] }
{
    match parts.get(k) {
        None => &[],
        Some(part) => part.own.as_slice(),
    }
}
