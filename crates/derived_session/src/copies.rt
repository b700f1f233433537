//! What a derived session has word for word.

ghost use Rattle.std.specs.Prelude.{◌≡◌, ◌++◌, IfOk, OnOk, map};
ghost use Rattle.line_steps.specs.Steps.{steps_of};

use line_steps::{LinePart, LineSteps};
use std::alloc::Global;
use tty_base::{Buffer, NoMemory};

/// The lines of a phase.
pub(crate) fn lines_of(alloc: Global, lines: &[LineSteps]) -> Result<Buffer<LineSteps>, NoMemory>
    ensures { IfOk result (λ copies. map (λ s. s.items) copies.items ≡ map (λ s. s.items) lines.now) }
{
    let mut copies = Buffer::new(alloc);
    copies.reserve(lines.len())?;
    for line in lines {
        let copy = line_of(alloc, line)?;
        copies.add(copy);
    }
    Ok(copies)
}

fn line_of(alloc: Global, line: &LineSteps) -> Result<LineSteps, NoMemory>
    ensures { IfOk result (λ copy. copy.items ≡ line.now.items) }
{
    let mut copy = LineSteps::new(alloc);
    for part in line.parts() {
        add_part(alloc, &mut copy, part)?;
    }
    Ok(copy)
}

fn add_part(alloc: Global, steps: &mut LineSteps, part: &LinePart) -> Result<(), NoMemory>
    ensures { OnOk result (steps.new.items ≡ steps.old.items ++ steps_of part.now) }
{
    match part {
        LinePart::Run(flag, bytes) => {
            let mut run = Vec::new(alloc);
            run.extend_from_slice(bytes.as_slice())?;
            steps.add_run(*flag, run)
        }
        LinePart::One(step) => steps.add(*step),
    }
}
