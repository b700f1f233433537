//! What a line's items and calls mean: the steps of an item, and the call that a verb and its arguments are.

ghost use Rattle.std.specs.Prelude.{◌≡◌, [], ◌++◌, ◌+◌, ◌≤◌, ◌<◌, IfOk, OnOk, IsTrue, length};
ghost use Rattle.std.specs.List.{filter_map};
ghost use Rattle.tty_modes.specs.Reading.{word_of as mode_in};
ghost use Rattle.tty_calls.specs.Plain.{call_of as call_view};
ghost use Rattle.text_lines.specs.Lines.{words_of};
ghost use Rattle.text_lines.specs.Values.{is_hex, is_number, number_at, word_at};
ghost use Rattle.session_text.specs.Kinds.{modes_in};
ghost use Rattle.session_text.specs.Stands.{is_good};
ghost use Rattle.session_text.specs.Meaning.{characters, steps_in, bare_call};
ghost use Rattle.session_text.specs.Meaning.{call_in, hands_over, bytes_handed};

use super::verbs::{CallVerb, LineVerb, Verb};
use super::words::{access_of, act_of, mode_of, queue_of, when_of};
use line_steps::LineSteps;
use std::alloc::Global;
use text_lines::{Arguments, FirstTwo, bytes_in, number_of, split_word};
use tty_base::{Flag, LineStep, NoMemory};
use tty_calls::{Access, Act, Call, Queue, When};
use tty_modes::Word;

/// Adds what a line's item does.
pub(crate) fn add_steps(
    alloc: Global,
    line: &mut LineSteps,
    ports: u8,
    verb: LineVerb,
    arguments: &Arguments,
) -> Result<(), NoMemory>
    requires { IsTrue (is_good ports (Verb.Step verb) arguments.now) }
    ensures { OnOk result (line.new.items ≡ line.old.items ++ steps_in verb arguments.now) }
{
    match verb {
        LineVerb::Rx => add_characters(alloc, line, Flag::Normal, arguments.first()),
        LineVerb::Rxp => add_characters(alloc, line, Flag::Parity, arguments.first()),
        LineVerb::Rxf => add_characters(alloc, line, Flag::Frame, arguments.first()),
        LineVerb::Break => line.add(LineStep::Break),
        LineVerb::Mask => line.add(LineStep::Mask),
        LineVerb::Unmask => line.add(LineStep::Unmask),
        LineVerb::Idle => line.add(LineStep::Idle(arguments.first_number() as u16)),
        LineVerb::Trigger => line.add(LineStep::Trigger(arguments.first_number() as u8)),
    }
}

/// Adds the characters that HEX writes.
fn add_characters(
    alloc: Global,
    line: &mut LineSteps,
    flag: Flag,
    digits: &[u8],
) -> Result<(), NoMemory>
    requires { IsTrue (is_hex digits.now) }
    ensures { OnOk result (line.new.items ≡ line.old.items ++ characters flag digits.now) }
{
    let bytes = bytes_in(alloc, digits)?;
    line.add_run(flag, bytes)
}

/// The call that a verb and its arguments are, which have these mode words and hand over these bytes.
#[inline(always)]
pub(crate) fn call_of<'a>(
    ports: u8,
    verb: CallVerb,
    arguments: &Arguments,
    modes: &'a [Word],
    bytes: &'a [u8],
) -> Call<'a>
    requires good { IsTrue (is_good ports (Verb.Call verb) arguments.now) }
    requires modes { modes.now ≡ modes_in arguments.now }
    requires bytes { bytes.now ≡ bytes_handed verb arguments.now }
    ensures { call_view result ≡ call_in verb arguments.now }
{
    let h = arguments.first_number() as u8;
    let word = arguments.second();
    match verb {
        CallVerb::Open => Call::Open {
            h,
            access: access_of(word).unwrap_or(Access::Rw),
            nonblock: arguments.count() == 3,
        },
        CallVerb::Read => Call::Read {
            h,
            n: second_of(arguments) as u32,
        },
        CallVerb::Write => Call::Write { h, bytes },
        CallVerb::SetModes => Call::SetModes {
            h,
            when: when_of(word).unwrap_or(When::Now),
            words: modes,
        },
        CallVerb::SetDisc => Call::SetDisc {
            h,
            number: second_of(arguments) as u32,
        },
        CallVerb::Flush => Call::Flush {
            h,
            queue: queue_of(word).unwrap_or(Queue::Both),
        },
        CallVerb::Xonc => Call::Xonc {
            h,
            act: act_of(word).unwrap_or(Act::Ion),
        },
        CallVerb::Send => Call::SendPacket { h, bytes },
        _ => bare_call(verb, h),
    }
}

/// Whether a call hands over bytes, which its second argument writes.
#[inline(always)]
pub(crate) fn hands_over(verb: CallVerb) -> bool
    ensures { result ≡ hands_over verb }
{
    matches!(verb, CallVerb::Write | CallVerb::Send)
}

/// The number that is the second argument, which was judged to be one.
#[inline(always)]
fn second_of(arguments: &Arguments) -> u64
    requires { IsTrue (is_number (word_at arguments.now 1)) }
    ensures { result ≡ number_at arguments.now 1 }
{
    number_of(arguments.second())
}

/// A call that has its handle alone.
#[inline(always)]
fn bare_call<'a>(verb: CallVerb, h: u8) -> Call<'a>
    ensures { call_view result ≡ bare_call verb h }
{
    match verb {
        CallVerb::GetModes => Call::GetModes { h },
        CallVerb::GetDisc => Call::GetDisc { h },
        CallVerb::Inq => Call::Inq { h },
        CallVerb::Outq => Call::Outq { h },
        CallVerb::Excl => Call::Excl { h },
        CallVerb::Nxcl => Call::Nxcl { h },
        CallVerb::Drain => Call::Drain { h },
        CallVerb::Counts => Call::Counts { h },
        CallVerb::Vhangup => Call::Vhangup { h },
        CallVerb::Take => Call::TakePacket { h },
        _ => Call::Close { h },
    }
}

/// Makes a list the mode words among the arguments behind the second, and answers how many arguments
/// there are. Each word is parted once, for both.
pub(crate) fn modes_into(modes: &mut Vec<Word>, arguments: &FirstTwo) -> Result<usize, NoMemory>
    requires { 2 < length arguments.now }
    ensures words { OnOk result (modes.new.items ≡ modes_in arguments.now) }
    ensures count { IfOk result (λ count. count ≡ length arguments.now) }
{
    modes.clear();
    add_modes(modes, arguments.more())
}

/// The mode words where nothing stands behind the second argument.
#[inline(always)]
pub(crate) fn no_modes<'a>(arguments: &FirstTwo) -> &'a [Word]
    requires { length arguments.now ≤ 2 }
    ensures { result.now ≡ modes_in arguments.now }
{
    &[]
}

/// Adds the mode words of a line, and counts its words from two on.
fn add_modes(modes: &mut Vec<Word>, line: &[u8]) -> Result<usize, NoMemory>
    ensures words { OnOk result (modes.new.items ≡ modes.old.items ++ filter_map mode_in (words_of line.now)) }
    ensures count { IfOk result (λ count. count ≡ length (words_of line.now) + 2) }
{
    let mut count = 2;
    let mut rest = line;
    while let Some((word, after)) = split_word(rest) {
        if let Some(mode) = mode_of(word) {
            modes.push(mode)?;
        }
        rest = after;
        count += 1;
    }
    Ok(count)
}
