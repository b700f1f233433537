//! Bytes that are drawn from a number.

ghost use Rattle.std.specs.Prelude.{◌≡◌, ◌+◌, ℕ, IfOk, OnOk};
ghost use Rattle.session_gen.specs.Draws.{next_number, high_byte, number_after, drawn_line};

use line_steps::LineSteps;
use std::alloc::Global;
use tty_base::{Buffer, Flag, NoMemory};

/// How many characters a line brings in a phase.
pub const LINE_LEN: u32 = 4000;

/// Draws the next byte: a linear congruence modulo 2^32, of whose number the high byte is given.
fn draw(number: &mut u32) -> u8
    ensures after { number.new ≡ next_number number.old }
    ensures byte { result ≡ high_byte number.new }
{
    let next = (u64::from(*number) * 1_664_525 + 1_013_904_223) % 0x1_0000_0000;
    *number = next as u32;
    (next / 0x100_0000) as u8
}

/// A line of [`LINE_LEN`] good characters with the next bytes.
pub fn draw_line(alloc: Global, number: &mut u32) -> Result<LineSteps, NoMemory>
    ensures line { IfOk result
        (λ line. (seed first : ℕ) → number.old ≡ number_after seed first → line.items ≡ drawn_line seed first 4000) }
    ensures after { OnOk result
        ((seed first : ℕ) → number.old ≡ number_after seed first → number.new ≡ number_after seed (first + 4000)) }
{
    let mut bytes = Buffer::new(alloc);
    bytes.reserve(LINE_LEN as usize)?;
    for _ in 0..LINE_LEN {
        bytes.add(draw(number));
    }
    let mut line = LineSteps::new(alloc);
    line.add_run(Flag::Normal, bytes.into_vec())?;
    Ok(line)
}
