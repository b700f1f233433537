//! Tables of refused texts, and how they are tried. A table is a text with a row in each line. In all texts
//! `[61*4095]` stands for 4,095 times 61, and `|` for a line feed.

use std::alloc::{AllocError, Global};
use std::process::Abort;
use tty_rows::{told_of, written_out};

pub(crate) const ONE: &[&str] = &["run", "--one"];

pub(crate) const CHECK: &[&str] = &["check"];

pub(crate) const MODEM: &[&str] = &["modem"];

pub(crate) const JOBS: &[&str] = &["jobs"];

/// One line item of each kind, for `{line items}` in a row.
const LINE_ITEMS: &str = "rx 61
rxp 61
rxf 61
break
mask
unmask
idle 1
trigger 1";

/// One call of each kind, for `{calls}` in a row.
const CALLS: &str = "open 0 rw
close 0
read 0 1
write 0 61
getm 0
modes 0 now raw
getd 0
setd 0 1
flush 0 in
xonc 0 ooff
inq 0
outq 0
excl 0
nxcl 0
drain 0
counts 0
vhangup 0
send 0 61
take 0";

/// The lines that the text of a row stands for.
fn lines_for(text: &str) -> &str {
    match text {
        "{line items}" => LINE_ITEMS,
        "{calls}" => CALLS,
        _ => text,
    }
}

/// The first word of a row, and what stands behind the blank after it.
fn parted(row: &str) -> (&str, &str) {
    match row.split_once(' ') {
        Some(parts) => parts,
        None => (row, ""),
    }
}

/// Whether a text is refused at this line for this reason.
fn is_refused(
    alloc: Global,
    words: &[&str],
    text: &str,
    line: &str,
    reason: &str,
) -> Result<bool, AllocError> {
    let told = told_of(alloc, words, written_out(alloc, text)?)?;
    let wanted = format!(in alloc; "bad session line {line}: {reason}\n")?;
    Ok(told.status == 1 && told.text.as_slice() == wanted.as_bytes())
}

/// Whether a line is refused that stands behind two texts.
fn is_refused_behind(
    alloc: Global,
    words: &[&str],
    before: (&str, &str),
    text: &str,
    line: &str,
    reason: &str,
) -> Result<bool, AllocError> {
    let (first, second) = before;
    let whole = format!(in alloc; "{first}{second}{text}\n")?;
    is_refused(alloc, words, whole.as_str(), line, reason)
}

/// Each line of a table is refused behind the text `first`. A row `REASON LINE` has such a line; `= NUMBER TEXT` says
/// which line of the whole the rows below are, and what stands between; and `#` begins a comment.
pub(crate) fn are_refused(
    rt: &impl Abort,
    alloc: Global,
    words: &[&str],
    first: &str,
    table: &str,
) {
    let mut place = ("", "");
    for row in table.lines() {
        let (reason, text) = parted(row);
        if reason == "=" {
            place = parted(text);
        } else if reason != "#" {
            for line in lines_for(text).lines() {
                let before = (first, place.1);
                let refused = is_refused_behind(alloc, words, before, line, place.0, reason);
                assert!(rt; refused == Ok(true), "at {line}");
            }
        }
    }
}

/// Each text of a table of rows `NUMBER REASON TEXT` is refused at the line of this number, behind the text `first`.
pub(crate) fn texts_are_refused(
    rt: &impl Abort,
    alloc: Global,
    words: &[&str],
    first: &str,
    table: &str,
) {
    for row in table.lines() {
        let (line, rest) = parted(row);
        let (reason, text) = parted(rest);
        let refused = is_text_refused(alloc, words, (first, text), line, reason);
        assert!(rt; refused == Ok(true), "at {text}");
    }
}

/// Whether a text is refused that stands behind another.
fn is_text_refused(
    alloc: Global,
    words: &[&str],
    texts: (&str, &str),
    line: &str,
    reason: &str,
) -> Result<bool, AllocError> {
    let (first, second) = texts;
    let whole = format!(in alloc; "{first}{second}")?;
    is_refused(alloc, words, whole.as_str(), line, reason)
}
