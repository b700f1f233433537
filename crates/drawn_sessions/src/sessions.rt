//! Whole sessions.

ghost use Rattle.std.specs.Prelude.{◌≡◌, ℕ, List, [], ◌∷◌, ◌++◌, IfOk, string_bytes};

use super::calls::put_call;
use super::draws::Draws;
use super::lines::{put_number, put_step};
use std::alloc::{AllocError, Global};

/// The text of the session that is drawn from a number. Its last line is `end`.
pub fn drawn_session(alloc: Global, number: u32) -> Result<String, AllocError>
    ensures { IfOk result (λ text. (before : List ℕ) × (string_bytes text ≡ before ++ 101 ∷ 110 ∷ 100 ∷ 10 ∷ [])) }
{
    let mut draws = Draws::new(number);
    let mut text = String::new(alloc);
    let ports = draws.number_from(1, 3);
    put_heading(&mut text, &mut draws, ports)?;
    put_opening(&mut text, &mut draws, ports)?;
    for _ in 0..draws.number_from(1, 4) {
        put_phase(&mut text, &mut draws, ports)?;
    }
    text.push_str("end\n")?;
    Ok(text)
}

/// Adds the version and the number of ports, and in version 2 some flip buffers.
fn put_heading(text: &mut String, draws: &mut Draws, ports: u32) -> Result<(), AllocError> {
    let version = draws.number_from(1, 2);
    put_number(text, "tty-session ", version)?;
    put_number(text, "ports ", ports)?;
    for port in 0..ports {
        if version == 2 && draws.once_in(2) {
            let capacity = draws.number_from(64, 40);
            write!(text, "flip {port} {capacity}\n")?;
        }
    }
    Ok(())
}

/// Adds a phase in which a caller opens each port.
fn put_opening(text: &mut String, draws: &mut Draws, ports: u32) -> Result<(), AllocError> {
    text.push_str("phase\n")?;
    for port in 0..ports {
        put_number(text, "caller a ", port)?;
        let wait = draws.one_of(&["", "", " nonblock"]);
        write!(text, "open 0 rw{wait}\n")?;
        text.push_str(draws.one_of(&["", "", "setd 0 1\n", "modes 0 now raw\n"]))?;
        text.push_str(draws.one_of(&["", "open 1 rw nonblock\n", "open 1 r\n"]))?;
    }
    Ok(())
}

/// Adds a phase with blocks of each port.
fn put_phase(text: &mut String, draws: &mut Draws, ports: u32) -> Result<(), AllocError> {
    text.push_str("phase\n")?;
    for port in 0..ports {
        put_line(text, draws, port)?;
        put_clock(text, draws, port)?;
        for name in ["a", "b", "c", "d"] {
            if draws.once_in(2) {
                put_caller(text, draws, name, port)?;
            }
        }
    }
    Ok(())
}

fn put_line(text: &mut String, draws: &mut Draws, port: u32) -> Result<(), AllocError> {
    if draws.once_in(4) {
        return Ok(());
    }
    put_number(text, "line ", port)?;
    for _ in 0..draws.below(8) {
        put_step(text, draws)?;
    }
    Ok(())
}

fn put_clock(text: &mut String, draws: &mut Draws, port: u32) -> Result<(), AllocError> {
    if draws.once_in(2) {
        return Ok(());
    }
    put_number(text, "clock ", port)?;
    for _ in 0..draws.below(4) {
        put_number(text, "tick ", draws.number_from(1, 5))?;
    }
    Ok(())
}

/// Adds a caller's block. At times it opens the port anew before its other calls.
fn put_caller(
    text: &mut String,
    draws: &mut Draws,
    name: &str,
    port: u32,
) -> Result<(), AllocError> {
    write!(text, "caller {name} {port}\n")?;
    if draws.once_in(4) {
        text.push_str("close 0\nopen 0 rw\n")?;
    }
    for _ in 0..draws.number_from(1, 5) {
        put_call(text, draws)?;
    }
    Ok(())
}
