//! The verbs of lines, of line blocks and of calls, and which verb a word is in a text of a version.

ghost use Rattle.std.specs.Prelude.{◌≡◌, ◌<◌, slice_index, slice_index_or, bytes_eq};
ghost use Rattle.session_text.specs.Verbs.{line_text, call_text, verb_text, verb_of, is_call};
ghost use Rattle.session_text.specs.VerbSlots.{slot_of};

use tty_modes::is_same;

/// The first word of a line of a session.
#[derive(Clone, Copy)]
pub enum Verb {
    Session,
    Ports,
    Flip,
    Phase,
    Line,
    Clock,
    Caller,
    Tick,
    End,
    Step(LineVerb),
    Call(CallVerb),
}

/// The first word of a line of a line block.
#[derive(Clone, Copy)]
pub enum LineVerb {
    Rx,
    Rxp,
    Rxf,
    Break,
    Mask,
    Unmask,
    Idle,
    Trigger,
}

/// The first word of a call.
#[derive(Clone, Copy)]
pub enum CallVerb {
    Open,
    Close,
    Read,
    Write,
    GetModes,
    SetModes,
    GetDisc,
    SetDisc,
    Flush,
    Xonc,
    Inq,
    Outq,
    Excl,
    Nxcl,
    Drain,
    Counts,
    Vhangup,
    Send,
    Take,
}

static VERBS: [Verb; 36] = [
    Verb::Session,
    Verb::Ports,
    Verb::Flip,
    Verb::Phase,
    Verb::Line,
    Verb::Clock,
    Verb::Caller,
    Verb::Tick,
    Verb::End,
    Verb::Step(LineVerb::Rx),
    Verb::Step(LineVerb::Rxp),
    Verb::Step(LineVerb::Rxf),
    Verb::Step(LineVerb::Break),
    Verb::Step(LineVerb::Mask),
    Verb::Step(LineVerb::Unmask),
    Verb::Step(LineVerb::Idle),
    Verb::Step(LineVerb::Trigger),
    Verb::Call(CallVerb::Open),
    Verb::Call(CallVerb::Close),
    Verb::Call(CallVerb::Read),
    Verb::Call(CallVerb::Write),
    Verb::Call(CallVerb::GetModes),
    Verb::Call(CallVerb::SetModes),
    Verb::Call(CallVerb::GetDisc),
    Verb::Call(CallVerb::SetDisc),
    Verb::Call(CallVerb::Flush),
    Verb::Call(CallVerb::Xonc),
    Verb::Call(CallVerb::Inq),
    Verb::Call(CallVerb::Outq),
    Verb::Call(CallVerb::Excl),
    Verb::Call(CallVerb::Nxcl),
    Verb::Call(CallVerb::Drain),
    Verb::Call(CallVerb::Counts),
    Verb::Call(CallVerb::Vhangup),
    Verb::Call(CallVerb::Send),
    Verb::Call(CallVerb::Take),
];

/// The place in `VERBS` of the verb whose text has this slot. Where none has it, any may stand there.
const VERB_SLOTS: [u8; 128] = [
    0, 0, 0, 13, 0, 0, 0, 0, 0, 0, 31, 1, 0, 0, 6, 0, 0, 0, 0, 0, 0, 0, 0, 0, 0, 15, 0, 0, 0, 28,
    0, 0, 24, 0, 0, 0, 29, 18, 0, 0, 8, 0, 0, 5, 0, 20, 16, 12, 0, 3, 0, 0, 0, 0, 0, 0, 19, 35, 0,
    0, 0, 4, 0, 0, 9, 0, 0, 0, 0, 0, 0, 0, 30, 0, 0, 0, 0, 0, 0, 0, 0, 0, 0, 0, 33, 0, 0, 22, 34,
    0, 0, 14, 0, 0, 0, 7, 0, 27, 0, 0, 0, 0, 17, 0, 0, 0, 0, 26, 0, 0, 0, 0, 23, 0, 0, 0, 2, 0, 11,
    0, 10, 21, 0, 32, 25, 0, 0, 0,
];

/// The verb that a word is in a text of this version.
#[inline(always)]
pub(crate) fn verb_of(version: u8, word: &[u8]) -> Option<Verb>
    ensures { result ≡ verb_of version word.now }
{
    let verb = verb_near(slot_of(word));
    if is_text(verb, word) {
        in_version(version, verb)
    } else {
        None
    }
}

/// Whether a word is the verb of a call.
pub fn is_call(word: &[u8]) -> bool
    ensures { result ≡ is_call (verb_of 1 word.now) }
{
    matches!(verb_of(1, word), Some(Verb::Call(_)))
}

/// A number below 128 that three bytes of a word give: another one for each verb.
fn slot_of(word: &[u8]) -> usize
    ensures value { result ≡ slot_of word.now }
    ensures small { result < 128 }
{
    let last = byte_at(word, word.len().saturating_sub(1));
    (byte_at(word, 0) * 4 + byte_at(word, 2) * 12 + last) % 128
}

fn byte_at(word: &[u8], place: usize) -> usize
    ensures value { result ≡ slice_index word.now place }
    ensures small { result < 256 }
{
    usize::from(word.get(place).copied().unwrap_or(0))
}

/// The verb whose text may have this slot.
fn verb_near(slot: usize) -> Verb
    requires { slot < 128 }
    ensures { result ≡ slice_index_or VERBS (slice_index VERB_SLOTS slot) Verb.Session }
{
    VERBS[usize::from(place_near(slot))]
}

fn place_near(slot: usize) -> u8
    requires { slot < 128 }
    ensures value { result ≡ slice_index VERB_SLOTS slot }
    ensures small { result < 36 }
{
    VERB_SLOTS[slot]
}

/// The verb itself, if a text of this version has it.
fn in_version(version: u8, verb: Verb) -> Option<Verb>
    ensures { result ≡ verb_of version (verb_text verb) }
{
    if matches!(verb, Verb::Flip) && version != 2 {
        return None;
    }
    Some(verb)
}

/// Whether a word is a verb's text. Each text is known where it is compared, which takes half the time.
#[inline(always)]
fn is_text(verb: Verb, word: &[u8]) -> bool
    ensures { result ≡ bytes_eq (verb_text verb) word.now }
{
    match verb {
        Verb::Session => is_same(b"tty-session".as_slice(), word),
        Verb::Ports => is_same(b"ports".as_slice(), word),
        Verb::Flip => is_same(b"flip".as_slice(), word),
        Verb::Phase => is_same(b"phase".as_slice(), word),
        Verb::Line => is_same(b"line".as_slice(), word),
        Verb::Clock => is_same(b"clock".as_slice(), word),
        Verb::Caller => is_same(b"caller".as_slice(), word),
        Verb::Tick => is_same(b"tick".as_slice(), word),
        Verb::End => is_same(b"end".as_slice(), word),
        Verb::Step(verb) => is_line_text(verb, word),
        Verb::Call(verb) => is_call_text(verb, word),
    }
}

#[inline(always)]
fn is_line_text(verb: LineVerb, word: &[u8]) -> bool
    ensures { result ≡ bytes_eq (line_text verb) word.now }
{
    match verb {
        LineVerb::Rx => is_same(b"rx".as_slice(), word),
        LineVerb::Rxp => is_same(b"rxp".as_slice(), word),
        LineVerb::Rxf => is_same(b"rxf".as_slice(), word),
        LineVerb::Break => is_same(b"break".as_slice(), word),
        LineVerb::Mask => is_same(b"mask".as_slice(), word),
        LineVerb::Unmask => is_same(b"unmask".as_slice(), word),
        LineVerb::Idle => is_same(b"idle".as_slice(), word),
        LineVerb::Trigger => is_same(b"trigger".as_slice(), word),
    }
}

#[inline(always)]
fn is_call_text(verb: CallVerb, word: &[u8]) -> bool
    ensures { result ≡ bytes_eq (call_text verb) word.now }
{
    match verb {
        CallVerb::Open => is_same(b"open".as_slice(), word),
        CallVerb::Close => is_same(b"close".as_slice(), word),
        CallVerb::Read => is_same(b"read".as_slice(), word),
        CallVerb::Write => is_same(b"write".as_slice(), word),
        CallVerb::GetModes => is_same(b"getm".as_slice(), word),
        CallVerb::SetModes => is_same(b"modes".as_slice(), word),
        CallVerb::GetDisc => is_same(b"getd".as_slice(), word),
        CallVerb::SetDisc => is_same(b"setd".as_slice(), word),
        CallVerb::Flush => is_same(b"flush".as_slice(), word),
        CallVerb::Xonc => is_same(b"xonc".as_slice(), word),
        CallVerb::Inq => is_same(b"inq".as_slice(), word),
        CallVerb::Outq => is_same(b"outq".as_slice(), word),
        CallVerb::Excl => is_same(b"excl".as_slice(), word),
        CallVerb::Nxcl => is_same(b"nxcl".as_slice(), word),
        CallVerb::Drain => is_same(b"drain".as_slice(), word),
        CallVerb::Counts => is_same(b"counts".as_slice(), word),
        CallVerb::Vhangup => is_same(b"vhangup".as_slice(), word),
        CallVerb::Send => is_same(b"send".as_slice(), word),
        CallVerb::Take => is_same(b"take".as_slice(), word),
    }
}
