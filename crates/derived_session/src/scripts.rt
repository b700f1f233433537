//! The scripts of a phase.

ghost use Rattle.std.specs.Prelude.{◌≡◌, ◌≤◌, ◌++◌, ◌-◌, ◌<◌, All, IfOk, OnOk, length, map};
ghost use Rattle.tty_calls.specs.Sessions.{script_of};
ghost use Rattle.passed_calls.specs.Scripts.{count_in, mixed_scripts};
ghost use Rattle.derived_session.specs.Steps.{further_steps, steps_in};
ghost use Rattle.derived_session.specs.Making.{ports_after, scripts_made};

use crate::passed::FurtherBlock;
use crate::ports::PortSteps;
use passed_calls::{PlacedCall, count_in};
use std::alloc::Global;
use tty_base::{Buffer, NoMemory};
use tty_calls::Script;

/// The scripts of a phase, and behind them those of other blocks.
pub(crate) fn make_scripts<C: Copy>(
    alloc: Global,
    ports: &mut [PortSteps],
    scripts: &[Script],
    placed: &[PlacedCall<C>],
    others: &[FurtherBlock],
) -> Result<Buffer<Script>, NoMemory>
    requires scripts { All (λ s. s.port < length ports.old) scripts.now }
    requires others { All (λ b. b.port < length ports.old) others.now }
    ensures made { IfOk result (λ made. map script_of made.items
        ≡ scripts_made ports.old
        (map steps_in (mixed_scripts 0 (map script_of scripts.now) placed.now) ++ map further_steps others.now)) }
    ensures after { OnOk result (ports.new
        ≡ ports_after ports.old
        (map steps_in (mixed_scripts 0 (map script_of scripts.now) placed.now) ++ map further_steps others.now)) }
{
    let mut made = Buffer::new(alloc);
    made.reserve(scripts.len())?;
    add_scripts(alloc, ports, &mut made, scripts, placed)?;
    made.reserve(others.len())?;
    add_others(alloc, ports, &mut made, others)?;
    Ok(made)
}

/// Adds the scripts of a phase, each with the calls that are placed in it.
fn add_scripts<C: Copy>(
    alloc: Global,
    ports: &mut [PortSteps],
    made: &mut Buffer<Script>,
    scripts: &[Script],
    placed: &[PlacedCall<C>],
) -> Result<(), NoMemory>
    requires ports { All (λ s. s.port < length ports.old) scripts.now }
    requires room { length scripts.now ≤ made.old.spare }
    ensures made { OnOk result (map script_of made.new.items
        ≡ map script_of made.old.items
        ++ scripts_made ports.old (map steps_in (mixed_scripts 0 (map script_of scripts.now) placed.now))) }
    ensures after { OnOk result (ports.new
        ≡ ports_after ports.old (map steps_in (mixed_scripts 0 (map script_of scripts.now) placed.now))) }
{
    let mut rest = placed;
    for (number, script) in scripts.iter().enumerate() {
        let count = count_in(number, rest);
        let port = &mut ports[script.port as usize];
        made.add(port.make_script(alloc, script, &rest[..count])?);
        rest = &rest[count..];
    }
    Ok(())
}

/// Adds scripts of blocks of which the ports see no call.
fn add_others(
    alloc: Global,
    ports: &mut [PortSteps],
    made: &mut Buffer<Script>,
    others: &[FurtherBlock],
) -> Result<(), NoMemory>
    requires ports { All (λ b. b.port < length ports.old) others.now }
    requires room { length others.now ≤ made.old.spare }
    ensures made { OnOk result (map script_of made.new.items
        ≡ map script_of made.old.items ++ scripts_made ports.old (map further_steps others.now)) }
    ensures after { OnOk result (ports.new ≡ ports_after ports.old (map further_steps others.now)) }
{
    for block in others {
        let port = &mut ports[block.port as usize];
        made.add(port.make_further(alloc, block)?);
    }
    Ok(())
}
