//! Who calls in a phase, and at which step each caller stands.

ghost use Rattle.std.specs.Prelude.{◌≡◌, ◌+◌, ◌<◌, ◌≤◌, ◌^◌, List, Some, IfOk, All};
ghost use Rattle.std.specs.Prelude.{length, map, slice_get, slice_index, slice_set};
ghost use Rattle.tty_base.specs.Sizes.{MOST_CALLERS, MOST_NUMBERED};
ghost use Rattle.tty_calls.specs.declared.sessions.Script.{Script};
ghost use Rattle.tty_calls.specs.Limits.{IsWithinLimits};
ghost use Rattle.tty_calls.specs.Sessions.{session_of, counts_on, number_in, phase_of, script_of, scripts_on};
ghost use Rattle.play_base.specs.Roles.{scene_of, names_in, role_in, calls_in, AreRolesOf, AreFirstSteps};
ghost use Rattle.play_base.specs.Casting.{scripts_at, cast_of, steps_after, HaveSameCallers, IsNumbered, AreNumbered};

use std::alloc::Global;
use tty_base::NoMemory;
use tty_calls::{Names, Phase, Script, Session};

/// A caller of a phase: its number, its first step in the phase, and the place of its script among
/// those of the phase.
#[derive(Clone, Copy)]
pub struct Role {
    pub number: u16,
    pub first: u32,
    pub place: usize,
}

/// How many callers a port has in each phase.
pub fn counts_of(alloc: Global, session: &Session, port: usize) -> Result<Vec<u8>, NoMemory>
    requires { IsWithinLimits (session_of session.now) }
    ensures { IfOk result (λ counts. counts.items ≡ counts_on port (session_of session.now)) }
{
    let mut counts = Vec::new(alloc);
    for phase in session.phases.as_slice() {
        counts.push(count_on(phase, port))?;
    }
    Ok(counts)
}

/// How many callers a port has in a phase.
fn count_on(phase: &Phase, port: usize) -> u8
    requires { length (scripts_on port (phase_of phase.now)) ≤ MOST_CALLERS }
    ensures { result ≡ length (scripts_on port (phase_of phase.now)) }
{
    let mut count = 0;
    for script in phase.callers.as_slice() {
        if usize::from(script.port) == port {
            count += 1;
        }
    }
    count
}

/// The callers of a phase on a port, in the text's order, by their names and their next steps.
pub fn roles_of(
    alloc: Global,
    session: &Session,
    port: usize,
    k: usize,
    names: &Names,
    steps: &[u32],
) -> Result<Vec<Role>, NoMemory>
    requires within { IsWithinLimits (session_of session.now) }
    requires phase { k < length (session_of session.now).phases }
    requires names { names.now ≡ names_in (scene_of port session.now) }
    requires steps { AreFirstSteps (scene_of port session.now) k steps.now }
    ensures { IfOk result
        (λ roles. AreRolesOf (scene_of port session.now) k (map (role_in (scripts_at session.now k)) roles.items)) }
{
    let scripts = session.phases.as_slice()[k].callers.as_slice();
    cast(alloc, scripts, port, names, steps)
}

/// The roles of a port's scripts: by their callers alone, so that they are those of any scripts of these callers.
pub fn cast(
    alloc: Global,
    scripts: &[Script],
    port: usize,
    names: &Names,
    steps: &[u32],
) -> Result<Vec<Role>, NoMemory>
    requires numbered { AreNumbered names.now port (map script_of scripts.now) }
    requires few { length names.now < MOST_NUMBERED }
    requires steps { length steps.now ≡ length names.now }
    ensures { IfOk result (λ roles.
        (others : List Script)
        → HaveSameCallers others scripts.now
        → map (role_in others) roles.items ≡ cast_of names.now steps.now port (map script_of others)) }
{
    let mut roles = Vec::new(alloc);
    for (place, script) in scripts.iter().enumerate() {
        if usize::from(script.port) == port {
            roles.push(role_of(script, place, names, steps))?;
        }
    }
    Ok(roles)
}

/// The role of a script.
fn role_of(script: &Script, place: usize, names: &Names, steps: &[u32]) -> Role
    requires numbered { IsNumbered names.now (script_of script.now) }
    requires few { length names.now < MOST_NUMBERED }
    requires steps { length steps.now ≡ length names.now }
    ensures number { number_in names.now script.now.name.bytes ≡ Some result.number }
    ensures first { result.first ≡ slice_index steps.now result.number }
    ensures place { result.place ≡ place }
{
    match names.number(&script.name) {
        Some(number) => Role {
            number: number as u16,
            first: steps[number],
            place,
        },
        None => unreachable!(),
    }
}

/// Moves the next step of each caller of these roles past its calls.
pub fn move_on(roles: &[Role], scripts: &[Script], steps: &mut [u32])
    requires within { All (λ r. r.number < length steps.old) (map (role_in scripts.now) roles.now) }
    requires few { All (λ r. r.first + length r.calls < 2 ^ 32) (map (role_in scripts.now) roles.now) }
    ensures { steps.new ≡ steps_after (map (role_in scripts.now) roles.now) steps.old }
{
    for role in roles {
        set_step(
            steps,
            role.number,
            role.first + call_count(scripts, role.place),
        );
    }
}

fn set_step(steps: &mut [u32], number: u16, step: u32)
    requires { number < length steps.old }
    ensures { steps.new ≡ slice_set steps.old number step }
{
    steps[usize::from(number)] = step;
}

/// How many calls the script at a place has.
fn call_count(scripts: &[Script], place: usize) -> u32
    requires { length (calls_in (slice_get scripts.now place)) < 2 ^ 32 }
    ensures { result ≡ length (calls_in (slice_get scripts.now place)) }
{
    match scripts.get(place) {
        Some(script) => script.calls.len() as u32,
        None => 0,
    }
}
