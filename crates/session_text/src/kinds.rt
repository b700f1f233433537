//! How many arguments an item may have, of which kind each is, and what is wrong with the first that is wrong.

ghost use Rattle.std.specs.Prelude.{◌≡◌, ◌/◌, is_some, drop, length};
ghost use Rattle.text_lines.specs.Lines.{words_of};
ghost use Rattle.text_lines.specs.Values.{word_at};
ghost use Rattle.session_text.specs.Kinds.{modes_in, may_have, line_may_have, call_may_have};
ghost use Rattle.session_text.specs.Kinds.{kind_at, line_kind, call_kind, fault_of, fault_from};
ghost use Rattle.session_text.specs.Kinds.{word_fault, limit_fault, hex_fault, is_trigger};

use super::faults::Reason;
use super::verbs::{CallVerb, LineVerb, Verb};
use super::words::{access_of, act_of, is_mode, is_nonblock, queue_of, when_of};
use text_lines::{Arguments, is_hex, is_name, read_number, split_word};
use tty_base::sizes::{
    LAST_HANDLE, LEAST_FLIP, MOST_ARRIVALS, MOST_ASKED, MOST_FLIP, MOST_IDLE, MOST_PORTS,
    MOST_TICKS,
};

/// What an argument may be.
#[derive(Clone, Copy)]
pub(crate) enum ArgumentKind {
    Name,
    /// A number below the number of ports.
    Port,
    Number { least: u64, most: u64 },
    /// 1, 4, 8 or 14.
    Trigger,
    /// At most so many bytes in hexadecimal digits.
    Hex { most: u64 },
    Access,
    Nonblock,
    When,
    Queue,
    Act,
    Mode,
}

/// Whether an item may have so many arguments.
#[inline(always)]
pub(crate) fn may_have(verb: Verb, count: usize) -> bool
    ensures { result ≡ may_have verb count }
{
    match verb {
        Verb::Phase | Verb::End => count == 0,
        Verb::Session | Verb::Ports | Verb::Line | Verb::Clock | Verb::Tick => count == 1,
        Verb::Flip | Verb::Caller => count == 2,
        Verb::Step(verb) => line_may_have(verb, count),
        Verb::Call(verb) => call_may_have(verb, count),
    }
}

fn line_may_have(verb: LineVerb, count: usize) -> bool
    ensures { result ≡ line_may_have verb count }
{
    match verb {
        LineVerb::Break | LineVerb::Mask | LineVerb::Unmask => count == 0,
        _ => count == 1,
    }
}

#[inline(always)]
fn call_may_have(verb: CallVerb, count: usize) -> bool
    ensures { result ≡ call_may_have verb count }
{
    match verb {
        CallVerb::Open => count == 2 || count == 3,
        CallVerb::SetModes => count >= 3,
        CallVerb::Read | CallVerb::Write | CallVerb::SetDisc => count == 2,
        CallVerb::Flush | CallVerb::Xonc | CallVerb::Send => count == 2,
        _ => count == 1,
    }
}

/// The kind of an item's argument at a place, counted from 0. Of an item without arguments any kind may be said.
#[inline(always)]
pub(crate) fn kind_at(verb: Verb, place: usize) -> ArgumentKind
    ensures { result ≡ kind_at verb place }
{
    match verb {
        Verb::Phase | Verb::End => ArgumentKind::Name,
        Verb::Session => ArgumentKind::Number { least: 1, most: 2 },
        Verb::Ports => ArgumentKind::Number {
            least: 1,
            most: MOST_PORTS as u64,
        },
        Verb::Flip if place == 0 => ArgumentKind::Port,
        Verb::Flip => ArgumentKind::Number {
            least: LEAST_FLIP as u64,
            most: MOST_FLIP as u64,
        },
        Verb::Line | Verb::Clock => ArgumentKind::Port,
        Verb::Caller if place == 0 => ArgumentKind::Name,
        Verb::Caller => ArgumentKind::Port,
        Verb::Tick => ArgumentKind::Number {
            least: 1,
            most: MOST_TICKS as u64,
        },
        Verb::Step(verb) => line_kind(verb),
        Verb::Call(_) if place == 0 => ArgumentKind::Number {
            least: 0,
            most: LAST_HANDLE as u64,
        },
        Verb::Call(verb) => call_kind(verb, place),
    }
}

fn line_kind(verb: LineVerb) -> ArgumentKind
    ensures { result ≡ line_kind verb }
{
    match verb {
        LineVerb::Rx | LineVerb::Rxp | LineVerb::Rxf => ArgumentKind::Hex {
            most: MOST_ARRIVALS as u64,
        },
        LineVerb::Break | LineVerb::Mask | LineVerb::Unmask => ArgumentKind::Name,
        LineVerb::Idle => ArgumentKind::Number {
            least: 1,
            most: MOST_IDLE as u64,
        },
        LineVerb::Trigger => ArgumentKind::Trigger,
    }
}

/// The kind of an argument after the handle.
#[inline(always)]
fn call_kind(verb: CallVerb, place: usize) -> ArgumentKind
    ensures { result ≡ call_kind verb place }
{
    match verb {
        CallVerb::Open if place == 1 => ArgumentKind::Access,
        CallVerb::Open => ArgumentKind::Nonblock,
        CallVerb::Read => ArgumentKind::Number {
            least: 1,
            most: MOST_ASKED as u64,
        },
        CallVerb::Write | CallVerb::Send => ArgumentKind::Hex {
            most: MOST_ASKED as u64,
        },
        CallVerb::SetModes if place == 1 => ArgumentKind::When,
        CallVerb::SetModes => ArgumentKind::Mode,
        CallVerb::SetDisc => ArgumentKind::Number {
            least: 0,
            most: 4_294_967_295,
        },
        CallVerb::Flush => ArgumentKind::Queue,
        CallVerb::Xonc => ArgumentKind::Act,
        _ => ArgumentKind::Name,
    }
}

/// What is wrong with the first wrong argument, if one is. So many of the arguments behind the second are mode words.
#[inline(always)]
pub(crate) fn fault_in(ports: u8, verb: Verb, arguments: &Arguments, modes: usize) -> Option<Reason>
    requires { modes ≡ length (modes_in arguments.now) }
    ensures { result ≡ fault_from ports verb 0 arguments.now }
{
    let count = arguments.count();
    if count == 0 {
        return None;
    }
    if let Some(reason) = first_fault(ports, kind_at(verb, 0), arguments) {
        return Some(reason);
    }
    if count == 1 {
        return None;
    }
    if let Some(reason) = fault_of(ports, kind_at(verb, 1), arguments.second()) {
        return Some(reason);
    }
    fault_past_two(ports, verb, arguments, modes)
}

/// What is wrong with the first wrong argument behind the second, if one is. So many of those behind the
/// second are mode words.
#[inline(always)]
fn fault_past_two(ports: u8, verb: Verb, arguments: &Arguments, modes: usize) -> Option<Reason>
    requires { modes ≡ length (modes_in arguments.now) }
    ensures { result ≡ fault_from ports verb 2 (drop 2 arguments.now) }
{
    if arguments.count() <= 2 {
        return None;
    }
    match verb {
        Verb::Call(call) => call_fault_past_two(ports, call, arguments, modes),
        _ => fault_behind(ports, verb, arguments.more()),
    }
}

/// What is wrong with a call's first wrong argument behind the second, if one is. Those of a `modes` call
/// are good where all are mode words.
#[inline(always)]
fn call_fault_past_two(
    ports: u8,
    call: CallVerb,
    arguments: &Arguments,
    modes: usize,
) -> Option<Reason>
    requires { modes ≡ length (modes_in arguments.now) }
    ensures { result ≡ fault_from ports (Verb.Call call) 2 (drop 2 arguments.now) }
{
    match call {
        CallVerb::SetModes => word_fault(modes == arguments.count().saturating_sub(2)),
        _ => fault_behind(ports, Verb::Call(call), arguments.more()),
    }
}

/// What is wrong with the first wrong word of a line, whose words are those behind the second.
fn fault_behind(ports: u8, verb: Verb, line: &[u8]) -> Option<Reason>
    ensures { result ≡ fault_from ports verb 2 (words_of line.now) }
{
    let mut rest = line;
    let mut place = 2;
    while let Some((word, after)) = split_word(rest) {
        if let Some(reason) = fault_of(ports, kind_at(verb, place), word) {
            return Some(reason);
        }
        rest = after;
        place += 1;
    }
    None
}

/// What is wrong with the first argument, if something is. Its number was read before.
#[inline(always)]
fn first_fault(ports: u8, kind: ArgumentKind, arguments: &Arguments) -> Option<Reason>
    ensures { result ≡ fault_of ports kind (word_at arguments.now 0) }
{
    match kind {
        ArgumentKind::Number { least, most } => match arguments.first_read() {
            None => Some(Reason::Number),
            Some(number) => limit_fault(least <= number && number <= most),
        },
        _ => fault_of(ports, kind, arguments.first()),
    }
}

#[inline(always)]
fn fault_of(ports: u8, kind: ArgumentKind, word: &[u8]) -> Option<Reason>
    ensures { result ≡ fault_of ports kind word.now }
{
    match kind {
        ArgumentKind::Name => word_fault(is_name(word)),
        ArgumentKind::Port => port_fault(ports, word),
        ArgumentKind::Number { least, most } => range_fault(least, most, word),
        ArgumentKind::Trigger => trigger_fault(word),
        ArgumentKind::Hex { most } => hex_fault(word, most),
        ArgumentKind::Access => word_fault(access_of(word).is_some()),
        ArgumentKind::Nonblock => word_fault(is_nonblock(word)),
        ArgumentKind::When => word_fault(when_of(word).is_some()),
        ArgumentKind::Queue => word_fault(queue_of(word).is_some()),
        ArgumentKind::Act => word_fault(act_of(word).is_some()),
        ArgumentKind::Mode => word_fault(is_mode(word)),
    }
}

fn word_fault(fits: bool) -> Option<Reason>
    ensures { result ≡ word_fault fits }
{
    if fits { None } else { Some(Reason::Word) }
}

fn limit_fault(fits: bool) -> Option<Reason>
    ensures { result ≡ limit_fault fits }
{
    if fits { None } else { Some(Reason::Limit) }
}

fn port_fault(ports: u8, word: &[u8]) -> Option<Reason>
    ensures { result ≡ fault_of ports ArgumentKind.Port word.now }
{
    match read_number(word) {
        None => Some(Reason::Number),
        Some(number) => limit_fault(number < u64::from(ports)),
    }
}

fn range_fault(least: u64, most: u64, word: &[u8]) -> Option<Reason>
    ensures { result ≡ fault_of 0 (ArgumentKind.Number least most) word.now }
{
    match read_number(word) {
        None => Some(Reason::Number),
        Some(number) => limit_fault(least <= number && number <= most),
    }
}

fn trigger_fault(word: &[u8]) -> Option<Reason>
    ensures { result ≡ fault_of 0 ArgumentKind.Trigger word.now }
{
    match read_number(word) {
        None => Some(Reason::Number),
        Some(number) => limit_fault(is_trigger(number)),
    }
}

fn is_trigger(number: u64) -> bool
    ensures { result ≡ is_trigger number }
{
    number == 1 || number == 4 || number == 8 || number == 14
}

#[inline(always)]
fn hex_fault(word: &[u8], most: u64) -> Option<Reason>
    ensures { result ≡ hex_fault word.now most }
{
    if !is_hex(word) {
        return Some(Reason::Hex);
    }
    limit_fault(word.len() as u64 / 2 <= most)
}
