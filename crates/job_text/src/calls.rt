//! The calls of job control.

ghost use Rattle.std.specs.Prelude.{◌≡◌, ◌≤◌};
ghost use Rattle.job_text.specs.Calls.{call_of, count_of, group_in, read_call};

use crate::verbs::JobVerb;
use further_text::{handle_in, has_count, ranged};
use session_text::Reason;
use text_lines::FirstTwo;
use tty_base::sizes::LAST_GROUP;

/// A call of job control (ioctl_tty(2), termios(3), exit(2)).
#[derive(Clone, Copy)]
pub enum OwnCall {
    /// Makes the port the controlling terminal (TIOCSCTTY).
    Sctty { h: u8 },
    /// Gives the controlling terminal up (TIOCNOTTY).
    Notty { h: u8 },
    /// Asks for the group in the foreground (TIOCGPGRP).
    Gpgrp { h: u8 },
    /// Puts a group into the foreground (TIOCSPGRP).
    Spgrp { h: u8, group: u16 },
    /// Ends the process.
    Exit,
}

/// The call that a line is whose first word is this verb, or why it is wrong. A verb of no call is read as an end.
pub(crate) fn call_of(verb: JobVerb, arguments: &FirstTwo) -> Result<OwnCall, Reason>
    ensures { result ≡ call_of verb arguments.now }
{
    if !has_count(arguments, count_of(verb)) {
        return Err(Reason::Word);
    }
    let arguments = arguments.whole();
    read_call(verb, arguments.first(), arguments.second())
}

fn count_of(verb: JobVerb) -> usize
    ensures count { result ≡ count_of verb }
    ensures few { result ≤ 2 }
{
    match verb {
        JobVerb::Sctty | JobVerb::Notty | JobVerb::Gpgrp => 1,
        JobVerb::Spgrp => 2,
        _ => 0,
    }
}

fn read_call(verb: JobVerb, first: &[u8], second: &[u8]) -> Result<OwnCall, Reason>
    ensures { result ≡ read_call verb first.now second.now }
{
    match verb {
        JobVerb::Sctty => Ok(OwnCall::Sctty {
            h: handle_in(first)?,
        }),
        JobVerb::Notty => Ok(OwnCall::Notty {
            h: handle_in(first)?,
        }),
        JobVerb::Gpgrp => Ok(OwnCall::Gpgrp {
            h: handle_in(first)?,
        }),
        JobVerb::Spgrp => {
            let h = handle_in(first)?;
            let group = group_in(second)?;
            Ok(OwnCall::Spgrp { h, group })
        }
        _ => Ok(OwnCall::Exit),
    }
}

/// The number of a session or group that a word is.
pub(crate) fn group_in(word: &[u8]) -> Result<u16, Reason>
    ensures { result ≡ group_in word.now }
{
    Ok(ranged(1, LAST_GROUP as u64, word)? as u16)
}
