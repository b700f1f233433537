//! Texts that are read, and what is told of those that are refused.

ghost use Rattle.std.specs.Prelude.{◌≡◌, ℕ, List, Option, IfOk, IfSome, OnErr};
ghost use Rattle.tty_base.specs.Outside.{LeavesRest};
ghost use Rattle.session_text.specs.declared.faults.BadLine.{BadLine as WrongLine};
ghost use Rattle.tty_one.specs.Endings.{reason_name, bad_session_line, IsShort};
ghost use Rattle.tty_one.specs.Works.{IsTextRead, IsShortText, IsSessionRead, IsSessionIn};

use crate::works::Ending;
use session_text::{BadLine, Reason, TextFault, parse};
use std::alloc::Global;
use tty_base::sizes::MOST_TEXT;
use tty_base::{Bytes, NoMemory, Source, TakeFault, read_all};
use tty_calls::Session;

/// What reading came to: what was read, or how the work ended for want of it.
#[derive(Drop)]
pub enum Reading<T> {
    Of(T),
    Ended(Ending),
}

/// Reads all that the source has left, as far as the longest text.
pub(crate) fn read_text<S: Source>(
    alloc: Global,
    source: &mut S,
) -> Result<Reading<Bytes>, NoMemory>
    ensures read { (first_wrong : List ℕ → Option WrongLine)
        → IfOk result (λ reading. IsTextRead first_wrong reading (S.faults source.old) (S.faults source.new)
        (S.left source.old) (S.left source.new)) }
    ensures few { IfOk result IsShortText }
    ensures short { OnErr result (IsShort (S.left source.old) (S.left source.new)) }
    ensures rest { IfSome (S.left source.old) (λ bytes. LeavesRest bytes (S.left source.new)) }
{
    match read_all(alloc, source, MOST_TEXT) {
        Ok(text) => Ok(Reading::Of(text)),
        Err(TakeFault::ReadFault) => Ok(Reading::Ended(Ending::ReadFault)),
        Err(TakeFault::TooLong) => Ok(Reading::Ended(Ending::TooLong)),
        Err(TakeFault::NoMemory) => Err(NoMemory),
    }
}

/// Reads a session. Its text stays in `text`, for the caller to let go.
pub fn read_session<S: Source>(
    alloc: Global,
    source: &mut S,
    text: &mut Bytes,
) -> Result<Reading<Session>, NoMemory>
    ensures read { IfOk result (λ reading.
        IsSessionRead reading (S.faults source.old) (S.faults source.new) (S.left source.old) (S.left source.new)) }
    ensures short { OnErr result (IsShort (S.left source.old) (S.left source.new)) }
    ensures rest { IfSome (S.left source.old) (λ bytes. LeavesRest bytes (S.left source.new)) }
{
    match read_text(alloc, source)? {
        Reading::Of(read) => {
            *text = read;
            session_in(alloc, text.as_slice())
        }
        Reading::Ended(ending) => Ok(Reading::Ended(ending)),
    }
}

/// The session that a text spells.
fn session_in(alloc: Global, text: &[u8]) -> Result<Reading<Session>, NoMemory>
    ensures { IfOk result (λ reading. IsSessionIn text.now reading) }
{
    match parse(alloc, text) {
        Ok(session) => Ok(Reading::Of(session)),
        Err(TextFault::Bad(bad)) => {
            let line = refusal_line(alloc, bad)?;
            Ok(Reading::Ended(Ending::BadSession(line)))
        }
        Err(TextFault::NoMemory) => Err(NoMemory),
    }
}

/// The line that tells the first wrong line of a text.
pub(crate) fn refusal_line(alloc: Global, bad: BadLine) -> Result<Bytes, NoMemory>
    ensures { IfOk result (λ line. line.items ≡ bad_session_line bad) }
{
    let number = bad.line;
    let reason = name_of(bad.reason);
    let mut line = String::new(alloc);
    write!(line, "bad session line {number}: {reason}\n")?;
    Ok(Bytes::from_vec(line.into_bytes()))
}

fn name_of(reason: Reason) -> &'static str
    ensures { result.now ≡ reason_name reason }
{
    match reason {
        Reason::Header => "header",
        Reason::Word => "word",
        Reason::Number => "number",
        Reason::Hex => "hex",
        Reason::Order => "order",
        Reason::Limit => "limit",
    }
}
