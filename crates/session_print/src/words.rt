//! The texts of answers and counts, and the words for calls, errors and signals.

ghost use Rattle.std.specs.Prelude.{◌≡◌, ◌++◌, OnOk, codes, string_bytes};
ghost use Rattle.tty_calls.specs.Plain.{call_of, answer_lent};
ghost use Rattle.session_print.specs.Words.{verb_of as verb_in, errno_name as name_of_errno};
ghost use Rattle.session_print.specs.Words.{signal_name as name_of_signal, counts_text, got_text, answer_text};

use super::digits::{put_hex, put_number};
use super::fields::put_fields;
use super::modes::put_modes;
use std::alloc::AllocError;
use tty_base::{Counts, Errno, Signal};
use tty_calls::{AnswerRef, Call};

/// Adds the text of an answer.
#[inline(always)]
pub(crate) fn put_answer(text: &mut String, answer: &AnswerRef) -> Result<(), AllocError>
    ensures { OnOk result (string_bytes text.new ≡ string_bytes text.old ++ answer_text (answer_lent answer.now)) }
{
    match *answer {
        AnswerRef::Done => text.push_str("ok"),
        AnswerRef::Count(taken) => put_number(text, u64::from(taken)),
        AnswerRef::Got(bytes) => put_got(text, bytes),
        AnswerRef::Number(number) => put_number(text, u64::from(number)),
        AnswerRef::ModesAre(modes) => put_modes(text, modes),
        AnswerRef::CountsAre(counts) => put_counts(text, counts),
        AnswerRef::Refused(errno) => text.push_str(errno_name(errno)),
        AnswerRef::Idle => text.push_str("idle"),
    }
}

/// Adds how many bytes there are, and the bytes in hexadecimal.
#[inline(never)]
fn put_got(text: &mut String, bytes: &[u8]) -> Result<(), AllocError>
    ensures { OnOk result (string_bytes text.new ≡ string_bytes text.old ++ got_text bytes.now) }
{
    if bytes.is_empty() {
        return text.push_str("0");
    }
    put_number(text, bytes.len() as u64)?;
    text.push_str(" ")?;
    put_hex(text, bytes)
}

/// Adds the ten counts by their names.
#[inline(never)]
pub(crate) fn put_counts(text: &mut String, counts: &Counts) -> Result<(), AllocError>
    ensures { OnOk result (string_bytes text.new ≡ string_bytes text.old ++ counts_text counts.now) }
{
    put_fields(
        text,
        &[
            ("mark=", counts.mark),
            (" parity=", counts.parity),
            (" frame=", counts.frame),
            (" break=", counts.breaks),
            (" cut=", counts.cut),
            (" echo=", counts.echo),
            (" pin=", counts.pin),
            (" pout=", counts.pout),
            (" pbad=", counts.pbad),
            (" pfull=", counts.pfull),
        ],
        "",
    )
}

/// The verb of a call, between blanks.
pub(crate) fn verb_of(call: &Call) -> &'static str
    ensures { result.now ≡ codes " " ++ (verb_in (call_of call.now) ++ codes " ") }
{
    match call {
        Call::Open { .. } => " open ",
        Call::Close { .. } => " close ",
        Call::Read { .. } => " read ",
        Call::Write { .. } => " write ",
        Call::GetModes { .. } => " getm ",
        Call::SetModes { .. } => " modes ",
        Call::GetDisc { .. } => " getd ",
        Call::SetDisc { .. } => " setd ",
        Call::Flush { .. } => " flush ",
        Call::Xonc { .. } => " xonc ",
        Call::Inq { .. } => " inq ",
        Call::Outq { .. } => " outq ",
        Call::Excl { .. } => " excl ",
        Call::Nxcl { .. } => " nxcl ",
        Call::Drain { .. } => " drain ",
        Call::Counts { .. } => " counts ",
        Call::Vhangup { .. } => " vhangup ",
        Call::SendPacket { .. } => " send ",
        Call::TakePacket { .. } => " take ",
    }
}

fn errno_name(errno: Errno) -> &'static str
    ensures { result.now ≡ name_of_errno errno }
{
    match errno {
        Errno::EBADF => "EBADF",
        Errno::EEXIST => "EEXIST",
        Errno::EBUSY => "EBUSY",
        Errno::EAGAIN => "EAGAIN",
        Errno::EIO => "EIO",
        Errno::EINVAL => "EINVAL",
        Errno::ENOTTY => "ENOTTY",
        Errno::EMSGSIZE => "EMSGSIZE",
    }
}

/// The name of a signal, after a blank.
pub(crate) fn spaced_signal(signal: Signal) -> &'static str
    ensures { result.now ≡ codes " " ++ name_of_signal signal }
{
    match signal {
        Signal::Int => " INT",
        Signal::Quit => " QUIT",
        Signal::Susp => " SUSP",
    }
}
