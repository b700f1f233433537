//! Prints the session that is drawn from the number that is given.
#![tactic(auto)]

use drawn_sessions::drawn_session;
use std::env;
use std::process::ExitCode;

fn main(rt: HostRuntime) -> ExitCode {
    let Some(number) = number_given(&rt) else {
        return ExitCode::from(2);
    };
    let Ok(session) = drawn_session(rt.alloc(), number) else {
        return ExitCode::from(5);
    };
    match print!(rt; "{session}") {
        Ok(()) => ExitCode::SUCCESS,
        Err(_) => ExitCode::from(4),
    }
}

/// The number of the first word.
fn number_given(rt: &HostRuntime) -> Option<u32> {
    let mut words = env::args(rt).ok()?;
    let word = words.nth(1)?;
    word.parse().ok()
}
