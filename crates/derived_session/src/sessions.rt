//! A session that is derived.

ghost use Rattle.std.specs.Prelude.{◌≡◌, ◌≤◌, ◌<◌, ℕ, All, IfOk, OnOk, [], length, map, slice_index_or};
ghost use Rattle.tty_calls.specs.Sessions.{phase_of, session_of};
ghost use Rattle.passed_calls.specs.Derived.{by_caller, calls_at};
ghost use Rattle.derived_session.specs.Steps.{derived_of, passings_of, phase_steps, phases_steps, scripts_in};
ghost use Rattle.derived_session.specs.Making.{AreFirstPorts, phase_made, phases_made, ports_after};

use crate::copies::lines_of;
use crate::passed::{FurtherBlock, PassedDown};
use crate::ports::PortSteps;
use crate::scripts::make_scripts;
use passed_calls::PlacedCall;
use std::alloc::Global;
use tty_base::{Buffer, NoMemory};
use tty_calls::{Phase, Session};

/// The session that ports were played. Of each phase `placed` has the calls that no port ever sees, and `others` blocks
/// of further callers; of each port `passed` has what it was passed, which is one call at most at each step.
pub fn derive<C: Copy>(
    alloc: Global,
    session: &Session,
    placed: &[&[PlacedCall<C>]],
    others: &[Vec<FurtherBlock>],
    passed: &[Vec<PassedDown>],
) -> Result<Session, NoMemory>
    requires scripts { All (λ phase. All (λ s. s.port < (session_of session.now).ports) phase.callers)
        (session_of session.now).phases }
    requires others { All (λ blocks. All (λ b. b.port < (session_of session.now).ports) blocks.items) others.now }
    requires single { (p c step : ℕ)
        → length (calls_at (by_caller c (passings_of (scripts_in (phases_steps (map (λ s. s.now) placed.now)
        (map (λ b. b.items) others.now) 0 (session_of session.now).phases)) (map (λ d. d.items) passed.now) p)) step)
        ≤ 1 }
    ensures { IfOk result (λ derived. session_of derived
        ≡ derived_of (session_of session.now)
        (phases_steps (map (λ s. s.now) placed.now) (map (λ b. b.items) others.now) 0 (session_of session.now).phases)
        (map (λ d. d.items) passed.now)) }
{
    let mut ports = ports_of(alloc, session.ports, passed)?;
    let phases = make_phases(alloc, &mut ports, session.phases.as_slice(), placed, others)?;
    Ok(Session {
        version: session.version,
        ports: session.ports,
        flips: session.flips.copy(alloc)?,
        phases,
    })
}

/// So many ports that were passed this, of which no script is made.
fn ports_of(
    alloc: Global,
    count: u8,
    passed: &[Vec<PassedDown>],
) -> Result<Vec<PortSteps>, NoMemory>
    ensures { IfOk result (λ ports. AreFirstPorts count (map (λ d. d.items) passed.now) ports.items) }
{
    let mut ports = Vec::new(alloc);
    for number in 0..count {
        let port = PortSteps::new(alloc, passed_on(passed, number as usize))?;
        ports.push(port)?;
    }
    Ok(ports)
}

/// The phases, one after the other, each with what it has beside.
fn make_phases<C: Copy>(
    alloc: Global,
    ports: &mut [PortSteps],
    phases: &[Phase],
    placed: &[&[PlacedCall<C>]],
    others: &[Vec<FurtherBlock>],
) -> Result<Buffer<Phase>, NoMemory>
    requires scripts { All (λ phase. All (λ s. s.port < length ports.old) phase.callers) (map phase_of phases.now) }
    requires others { All (λ blocks. All (λ b. b.port < length ports.old) blocks.items) others.now }
    ensures { IfOk result (λ made. map phase_of made.items ≡ phases_made ports.old
        (phases_steps (map (λ s. s.now) placed.now) (map (λ b. b.items) others.now) 0 (map phase_of phases.now))) }
{
    let mut made = Buffer::new(alloc);
    made.reserve(phases.len())?;
    for (k, phase) in phases.iter().enumerate() {
        let one = make_phase(
            alloc,
            ports,
            phase,
            placed_in(placed, k),
            others_in(others, k),
        )?;
        made.add(one);
    }
    Ok(made)
}

fn make_phase<C: Copy>(
    alloc: Global,
    ports: &mut [PortSteps],
    phase: &Phase,
    placed: &[PlacedCall<C>],
    others: &[FurtherBlock],
) -> Result<Phase, NoMemory>
    requires scripts { All (λ s. s.port < length ports.old) (phase_of phase.now).callers }
    requires others { All (λ b. b.port < length ports.old) others.now }
    ensures made { IfOk result
        (λ made. phase_of made ≡ phase_made ports.old (phase_steps (phase_of phase.now) placed.now others.now)) }
    ensures after { OnOk result (ports.new
        ≡ ports_after ports.old (phase_steps (phase_of phase.now) placed.now others.now).callers) }
{
    let lines = lines_of(alloc, phase.lines.as_slice())?;
    let ticks = phase.ticks.copy(alloc)?;
    let callers = make_scripts(alloc, ports, phase.callers.as_slice(), placed, others)?;
    Ok(Phase {
        lines,
        ticks,
        callers,
    })
}

fn placed_in<'a, C: Copy>(placed: &[&'a [PlacedCall<C>]], k: usize) -> &'a [PlacedCall<C>]
    ensures { result.now ≡ slice_index_or (map (λ s. s.now) placed.now) k [] }
{
    match placed.get(k) {
        None => &[],
        Some(placed) => placed,
    }
}

fn others_in(others: &[Vec<FurtherBlock>], k: usize) -> &[FurtherBlock]
    ensures { result.now ≡ slice_index_or (map (λ b. b.items) others.now) k [] }
{
    match others.get(k) {
        None => &[],
        Some(blocks) => blocks.as_slice(),
    }
}

fn passed_on(passed: &[Vec<PassedDown>], port: usize) -> &[PassedDown]
    ensures { result.now ≡ slice_index_or (map (λ d. d.items) passed.now) port [] }
{
    match passed.get(port) {
        None => &[],
        Some(passed) => passed.as_slice(),
    }
}
