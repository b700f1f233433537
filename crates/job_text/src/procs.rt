//! What the line of a process says.

ghost use Rattle.std.specs.Prelude.{◌≡◌, IfOk, IsTrue};
ghost use Rattle.text_lines.specs.Lines.{words_of};
ghost use Rattle.text_lines.specs.Values.{is_name};
ghost use Rattle.further_text.specs.Faults.{Reads};
ghost use Rattle.job_text.specs.Procs.{after_flag, few_flags, flags_in, found, has_flag, name_in, parent_in};
ghost use Rattle.job_text.specs.Procs.{parted, proc_of, rest_of, words_in};
ghost use Rattle.job_text.specs.Sessions.{bare};
ghost use Rattle.job_text.specs.Views.{proc_words_of};

use crate::calls::group_in;
use crate::sessions::PortProc;
use crate::table::ProcTable;
use arrayvec::ArrayString;
use further_text::port_in;
use job_control::Proc;
use session_text::Reason;
use text_lines::{is_name, name_of, split_word};
use tty_base::sizes::MOST_PROCESSES;
use tty_modes::is_same;

/// The words of a process's line.
#[derive(Drop)]
pub(crate) struct ProcWords<'a> {
    name: &'a [u8],
    port: &'a [u8],
    session: &'a [u8],
    group: &'a [u8],
    parent: &'a [u8],
    /// What stands behind them.
    flags: &'a [u8],
}

/// The first word, and what stands behind it.
fn parted(line: &[u8]) -> Result<(&[u8], &[u8]), Reason>
    ensures { Reads (λ parts. record { word = parts.0.now; rest = words_of parts.1.now }) result
        (parted (words_of line.now)) }
{
    match split_word(line) {
        None => Err(Reason::Word),
        Some(parts) => Ok(parts),
    }
}

/// The words of a process's line, where they are as many as they may be.
pub(crate) fn words_in(line: &[u8]) -> Result<ProcWords<'_>, Reason>
    ensures { Reads proc_words_of result (words_in (words_of line.now)) }
{
    let (name, rest) = parted(line)?;
    let (port, rest) = parted(rest)?;
    let (session, rest) = parted(rest)?;
    let (group, rest) = parted(rest)?;
    let (parent, flags) = parted(rest)?;
    if !are_few(flags) {
        return Err(Reason::Word);
    }
    Ok(ProcWords {
        name,
        port,
        session,
        group,
        parent,
        flags,
    })
}

/// Whether there are at most three words.
fn are_few(line: &[u8]) -> bool
    ensures { result ≡ few_flags (words_of line.now) }
{
    match split_word(past_word(past_word(past_word(line)))) {
        None => true,
        Some(_) => false,
    }
}

/// What stands behind the first word.
fn past_word(line: &[u8]) -> &[u8]
    ensures { words_of result.now ≡ rest_of (words_of line.now) }
{
    match split_word(line) {
        None => line,
        Some((_, rest)) => rest,
    }
}

/// The process that a line says, in a session with so many ports and these processes before it.
pub(crate) fn proc_of(ports: u8, procs: &ProcTable, words: &ProcWords) -> Result<PortProc, Reason>
    ensures proc { Reads bare result (proc_of ports procs.now (proc_words_of words.now)) }
    ensures name { IfOk result (λ q. IsTrue (is_name q.proc.name.bytes)) }
{
    let name = name_in(words.name)?;
    let port = port_in(ports, words.port)?;
    let session = group_in(words.session)?;
    let group = group_in(words.group)?;
    let parent = parent_in(procs, port, words.parent)?;
    let flags = flags_in(words.flags)?;
    let proc = Proc {
        name,
        session,
        group,
        parent,
        leader: flags.leader,
        nottin: flags.nottin,
        nottou: flags.nottou,
    };
    Ok(PortProc { port, proc })
}

fn name_in(word: &[u8]) -> Result<ArrayString<16>, Reason>
    ensures word { Reads (λ name. name.bytes) result (name_in word.now) }
    ensures name { IfOk result (λ name. IsTrue (is_name name.bytes)) }
{
    if is_name(word) {
        Ok(name_of(word))
    } else {
        Err(Reason::Word)
    }
}

fn parent_in(procs: &ProcTable, port: u8, word: &[u8]) -> Result<Option<u16>, Reason>
    ensures { result ≡ parent_in procs.now port word.now }
{
    if is_same(word, b"-".as_slice()) {
        return Ok(None);
    }
    found(procs.place_named(u64::from(port), word))
}

/// The place as it is kept: a port has 1,024 processes at most.
fn found(place: Option<usize>) -> Result<Option<u16>, Reason>
    ensures { result ≡ found place }
{
    match place {
        None => Err(Reason::Word),
        Some(place) => {
            if place < MOST_PROCESSES {
                Ok(Some(place as u16))
            } else {
                Err(Reason::Word)
            }
        }
    }
}

/// What a process's line says behind its parent.
#[derive(Clone, Copy)]
pub(crate) struct Flags {
    leader: bool,
    nottin: bool,
    nottou: bool,
}

fn flags_in(line: &[u8]) -> Result<Flags, Reason>
    ensures { Reads (λ f. record { leader = f.leader; nottin = f.nottin; nottou = f.nottou }) result
        (flags_in (words_of line.now)) }
{
    let (leader, rest) = take_flag(line, b"leader".as_slice());
    let (nottin, rest) = take_flag(rest, b"nottin".as_slice());
    let (nottou, rest) = take_flag(rest, b"nottou".as_slice());
    match split_word(rest) {
        Some(_) => Err(Reason::Word),
        None => Ok(Flags {
            leader,
            nottin,
            nottou,
        }),
    }
}

/// Whether a line begins with a flag, and what stands behind it.
fn take_flag<'a>(line: &'a [u8], flag: &[u8]) -> (bool, &'a [u8])
    ensures has { result.0 ≡ has_flag flag.now (words_of line.now) }
    ensures rest { words_of result.1.now ≡ after_flag flag.now (words_of line.now) }
{
    match split_word(line) {
        None => (false, line),
        Some((word, after)) => {
            if is_same(word, flag) {
                (true, after)
            } else {
                (false, line)
            }
        }
    }
}
