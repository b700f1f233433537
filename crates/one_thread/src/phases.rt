//! The phases of a session on a port.

ghost use Rattle.std.specs.Prelude.{◌≡◌, ◌+◌, ◌<◌, IfOk, IfErr, OnOk, IsTrue, All, length, map};
ghost use Rattle.tty_base.specs.Lines.{is_step};
ghost use Rattle.tty_calls.specs.Limits.{IsWithinLimits};
ghost use Rattle.tty_calls.specs.Sessions.{session_of, line_on, ticks_on};
ghost use Rattle.legal_runs.specs.Legal.{phase_at};
ghost use Rattle.legal_runs.specs.Order.{is_of_consoles};
ghost use Rattle.play_base.specs.Roles.{Scene, scene_of, names_in, role_in, AreRolesOf};
ghost use Rattle.play_base.specs.Beginning.{IsAtPhase};
ghost use Rattle.play_base.specs.Phases.{HavePlayedInOrder, IsBeforePhase, IsStopped};

use crate::after_line::play_after_line;
use crate::followers::Nobody;
use crate::line::play_line;
use line_steps::LineSteps;
use play_base::{Role, Station, move_on, roles_of, scripts_of, steps_of, ticks_of};
use std::alloc::Global;
use tty_base::NoMemory;
use tty_calls::{Denied, Names, Script, Session};

/// The line of a phase, and what comes after it.
fn play_parts(
    station: &mut Station,
    roles: &[Role],
    scripts: &[Script],
    steps: &LineSteps,
    ticks: u32,
    run: u32,
    clock_first: bool,
) -> Result<u32, Denied>
    ghost scene: { Scene }
    requires within { station.old.port.terminal.phase < length scene.session.phases }
    requires before { IsAtPhase scene station.old.port.terminal.phase
        station.old.port station.old.putter station.old.line run }
    requires played { HavePlayedInOrder scene station.old.port.terminal.phase station.old.port.journal
        station.old.line.report.overruns.items }
    requires steps { steps.now.items ≡ line_on scene.port (phase_at scene.session station.old.port.terminal.phase) }
    requires good { All (λ step. IsTrue (is_step step)) steps.now.items }
    requires roles { AreRolesOf scene station.old.port.terminal.phase (map (role_in scripts.now) roles.now) }
    requires ticks { ticks ≡ ticks_on scene.port (phase_at scene.session station.old.port.terminal.phase) }
    requires first { clock_first ≡ is_of_consoles scene.session }
    ensures at_phase { IfOk result (λ next. IsAtPhase scene (station.old.port.terminal.phase + 1)
        station.new.port station.new.putter station.new.line next) }
    ensures played { OnOk result (HavePlayedInOrder scene (station.old.port.terminal.phase + 1) station.new.port.journal
        station.new.line.report.overruns.items) }
    ensures steps { station.new.steps ≡ station.old.steps }
    ensures err { IfErr result (λ d. IsStopped d scene station.new) }
{
    let next = play_line(
        &mut station.port,
        &mut station.putter,
        &mut station.line,
        &mut Nobody,
        steps,
        run,
    )?;
    play_after_line(
        &mut station.port,
        &mut station.putter,
        roles,
        scripts,
        ticks,
        next,
        clock_first,
    )
}

/// Plays a phase: its line, and what comes after it. Answers the number of the next flush run.
pub(crate) fn play_phase(
    alloc: Global,
    session: &Session,
    number: usize,
    k: usize,
    names: &Names,
    station: &mut Station,
    run: u32,
) -> Result<u32, Denied>
    ghost scene: { Scene }
    requires scene { scene ≡ scene_of number session.now }
    requires within { IsWithinLimits (session_of session.now) }
    requires phase { k < length (session_of session.now).phases }
    requires port { number < (session_of session.now).ports }
    requires names { names.now ≡ names_in (scene_of number session.now) }
    requires before { IsBeforePhase scene k station.old run }
    ensures ok { IfOk result (λ next. IsBeforePhase scene (k + 1) station.new next) }
    ensures err { IfErr result (λ d. IsStopped d scene station.new) }
{
    let roles = match roles_of(alloc, session, number, k, names, station.steps.as_slice()) {
        Ok(roles) => roles,
        Err(NoMemory) => return Err(Denied::NoMemory),
    };
    let scripts = scripts_of(session, k);
    let next = play_parts(
        station,
        roles.as_slice(),
        scripts,
        steps_of(session, number, k),
        ticks_of(session, number, k),
        run,
        session.version == 0,
    )?;
    move_on(roles.as_slice(), scripts, station.steps.as_mut_slice());
    Ok(next)
}
