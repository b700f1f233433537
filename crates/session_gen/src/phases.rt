//! The session of a number, phase by phase.

ghost use Rattle.std.specs.Prelude.{◌≡◌, ◌+◌, ◌*◌, ◌-◌, ◌<◌, ◌≤◌, ℕ, ◌∷◌, map, replicate, IfOk, OnOk};
ghost use Rattle.std.specs.List.{range_with_len};
ghost use Rattle.tty_calls.specs.Sessions.{script_of, phase_of, session_of};
ghost use Rattle.session_gen.specs.Draws.{number_after, drawn_line};
ghost use Rattle.session_gen.specs.Generated.{opening_calls, opening_phase, reading_calls};
ghost use Rattle.session_gen.specs.Generated.{reading_phase, caller_script, generated_session};

use crate::draws::draw_line;
use arrayvec::ArrayString;
use line_steps::LineSteps;
use std::alloc::Global;
use tty_base::sizes::DEFAULT_FLIP;
use tty_base::{Buffer, NoMemory};
use tty_calls::{Access, Call, Calls, Phase, Script, Session, When};
use tty_modes::Word;

const PORTS: u8 = 4;

const PHASES: u8 = 16;

/// How many bytes a read asks for.
const READ: u32 = 4000;

/// The session of a number: four ports, each with a caller, and sixteen phases. In the first each caller opens its
/// port without ever waiting and makes it raw. In each later phase each port's line brings 4,000 bytes drawn from the
/// number, and its caller reads as many; some callers then go over to SLIP and back.
pub fn make(alloc: Global, number: u32) -> Result<Session, NoMemory>
    ensures session { IfOk result (λ session. session_of session ≡ generated_session number) }
{
    let mut flips = Buffer::new(alloc);
    flips.reserve(usize::from(PORTS))?;
    for _ in 0..PORTS {
        flips.add(DEFAULT_FLIP);
    }
    Ok(Session {
        version: 1,
        ports: PORTS,
        flips,
        phases: all_phases(alloc, number)?,
    })
}

fn all_phases(alloc: Global, number: u32) -> Result<Buffer<Phase>, NoMemory>
    ensures { IfOk result
        (λ phases. map phase_of phases.items ≡ opening_phase ∷ map (reading_phase number) (range_with_len 1 15)) }
{
    let mut phases = Buffer::new(alloc);
    phases.reserve(usize::from(PHASES))?;
    phases.add(first_phase(alloc)?);
    let mut drawn = number;
    for phase in 1..PHASES {
        phases.add(later_phase(alloc, number, phase, &mut drawn)?);
    }
    Ok(phases)
}

fn first_phase(alloc: Global) -> Result<Phase, NoMemory>
    ensures { IfOk result (λ phase. phase_of phase ≡ opening_phase) }
{
    let mut lines = Buffer::new(alloc);
    lines.reserve(usize::from(PORTS))?;
    let mut callers = Buffer::new(alloc);
    callers.reserve(usize::from(PORTS))?;
    for port in 0..PORTS {
        lines.add(LineSteps::new(alloc));
        callers.add(script(port, calls_to_open(alloc)?));
    }
    Ok(Phase {
        lines,
        ticks: no_ticks(alloc)?,
        callers,
    })
}

fn later_phase(alloc: Global, number: u32, phase: u8, drawn: &mut u32) -> Result<Phase, NoMemory>
    requires later { 1 ≤ phase }
    requires within { phase < 16 }
    requires drawn { drawn.old ≡ number_after number (16000 * (phase - 1)) }
    ensures phase { IfOk result (λ made. phase_of made ≡ reading_phase number phase) }
    ensures drawn { OnOk result (drawn.new ≡ number_after number (16000 * phase)) }
{
    Ok(Phase {
        lines: draw_lines(alloc, drawn)?,
        ticks: no_ticks(alloc)?,
        callers: readers(alloc, number, phase)?,
    })
}

/// A drawn line for each port.
fn draw_lines(alloc: Global, drawn: &mut u32) -> Result<Buffer<LineSteps>, NoMemory>
    ensures lines { IfOk result (λ lines.
        (seed first : ℕ)
        → drawn.old ≡ number_after seed first
        → map (λ line. line.items) lines.items
        ≡ map (λ port. drawn_line seed (first + 4000 * port) 4000) (range_with_len 0 4)) }
    ensures after { OnOk result
        ((seed first : ℕ) → drawn.old ≡ number_after seed first → drawn.new ≡ number_after seed (first + 16000)) }
{
    let mut lines = Buffer::new(alloc);
    lines.reserve(usize::from(PORTS))?;
    for _ in 0..PORTS {
        lines.add(draw_line(alloc, drawn)?);
    }
    Ok(lines)
}

/// The callers of a phase after the first.
fn readers(alloc: Global, number: u32, phase: u8) -> Result<Buffer<Script>, NoMemory>
    requires { phase < 16 }
    ensures { IfOk result (λ callers. map script_of callers.items
        ≡ map (λ port. caller_script port (reading_calls number phase port)) (range_with_len 0 4)) }
{
    let mut callers = Buffer::new(alloc);
    callers.reserve(usize::from(PORTS))?;
    for port in 0..PORTS {
        callers.add(script(port, calls_to_read(alloc, number, phase, port)?));
    }
    Ok(callers)
}

fn no_ticks(alloc: Global) -> Result<Buffer<u32>, NoMemory>
    ensures { IfOk result (λ ticks. ticks.items ≡ replicate 4 0) }
{
    let mut ticks = Buffer::new(alloc);
    ticks.reserve(usize::from(PORTS))?;
    for _ in 0..PORTS {
        ticks.add(0);
    }
    Ok(ticks)
}

/// The caller of a port, with its calls in a phase.
fn script(port: u8, calls: Calls) -> Script
    ensures { script_of result ≡ caller_script port calls.items }
{
    let mut name = ArrayString::new();
    name.push_str("c");
    Script { port, name, calls }
}

fn calls_to_open(alloc: Global) -> Result<Calls, NoMemory>
    ensures { IfOk result (λ calls. calls.items ≡ opening_calls) }
{
    let mut calls = Calls::new(alloc);
    calls.add(&Call::Open {
        h: 0,
        access: Access::Rw,
        nonblock: true,
    })?;
    calls.add(&Call::SetModes {
        h: 0,
        when: When::Now,
        words: &[Word::Raw],
    })?;
    Ok(calls)
}

fn calls_to_read(alloc: Global, number: u32, phase: u8, port: u8) -> Result<Calls, NoMemory>
    requires phase { phase < 16 }
    requires port { port < 4 }
    ensures { IfOk result (λ calls. calls.items ≡ reading_calls number phase port) }
{
    let mut calls = Calls::new(alloc);
    calls.add(&Call::Read { h: 0, n: READ })?;
    if (u64::from(number) + u64::from(phase) + u64::from(port)) % 4 == 0 {
        calls.add(&Call::SetDisc { h: 0, number: 1 })?;
        calls.add(&Call::SetDisc { h: 0, number: 0 })?;
    }
    Ok(calls)
}
