//! The journal of three bytes with one field of an entry altered, and with two entries exchanged.

use super::three_bytes::{JOURNALS, SESSION};
use super::told::status_of;
use std::alloc::{AllocError, Global};

/// The lines of the journal before its first entry, and the number of entries.
const BEFORE: usize = 2;

const ENTRIES: usize = 14;

/// Whose an entry may be said to be; one of them has no calls.
const OTHERS: &str = "a
b
*flush
*line
*clock
*session";

/// What may be said to have happened.
const KINDS: &str = "answer ok
answer idle
answer EIO
part 1
wait
flush -
flush n68
tick
line_end 0
line_end 3
clock_end
caller_end
phase_end
hangup -";

/// The fields of an entry.
#[derive(Clone, Copy)]
struct Fields<'a> {
    who: &'a str,
    step: &'a str,
    part: &'a str,
    generation: &'a str,
    kind: &'a str,
}

fn fields_of(line: &str) -> Option<Fields<'_>> {
    let (who, rest) = line.split_once(' ')?;
    let (step, rest) = rest.split_once(' ')?;
    let (part, rest) = rest.split_once(' ')?;
    let (generation, kind) = rest.split_once(' ')?;
    Some(Fields {
        who,
        step,
        part,
        generation,
        kind,
    })
}

/// The next number.
fn next_of(digit: &str) -> &'static str {
    match digit {
        "0" => "1",
        "1" => "2",
        "2" => "3",
        "3" => "4",
        _ => "5",
    }
}

/// Adds a line to a text.
fn put_line(text: &mut String, line: &str) -> Result<(), AllocError> {
    text.push_str(line)?;
    text.push('\n')
}

fn put_entry(text: &mut String, entry: Fields) -> Result<(), AllocError> {
    let Fields {
        who,
        step,
        part,
        generation,
        kind,
    } = entry;
    write!(text, "{who} {step} {part} {generation} {kind}\n")
}

/// Adds the session and its journal, with this entry at a place.
fn put_with_entry(text: &mut String, place: usize, entry: Fields) -> Result<(), AllocError> {
    text.push_str(SESSION)?;
    for (number, line) in JOURNALS.lines().enumerate() {
        if number == BEFORE.saturating_add(place) {
            put_entry(text, entry)?;
        } else {
            put_line(text, line)?;
        }
    }
    Ok(())
}

/// Whether a text with such an entry is refused, or not legal.
fn is_wrong(alloc: Global, place: usize, entry: Fields) -> Result<bool, AllocError> {
    let mut text = String::new(alloc);
    put_with_entry(&mut text, place, entry)?;
    let status = status_of(alloc, &["check"], text.into_bytes())?;
    Ok(status == 1 || status == 7)
}

/// Whether an entry that another is said to have made, or of another kind, is wrong at a place.
fn others_are_wrong(alloc: Global, place: usize, entry: Fields) -> Result<bool, AllocError> {
    for who in OTHERS.lines() {
        if who != entry.who && !is_wrong(alloc, place, Fields { who, ..entry })? {
            return Ok(false);
        }
    }
    for kind in KINDS.lines() {
        if kind != entry.kind && !is_wrong(alloc, place, Fields { kind, ..entry })? {
            return Ok(false);
        }
    }
    Ok(true)
}

/// Whether an entry that has the next number in a field is wrong at a place.
fn next_are_wrong(alloc: Global, place: usize, entry: Fields) -> Result<bool, AllocError> {
    let step = next_of(entry.step);
    let part = next_of(entry.part);
    let generation = next_of(entry.generation);
    let step = is_wrong(alloc, place, Fields { step, ..entry })?;
    let part = is_wrong(alloc, place, Fields { part, ..entry })?;
    let generation = Fields {
        generation,
        ..entry
    };
    Ok(step && part && is_wrong(alloc, place, generation)?)
}

/// Whether the entry in this line is wrong once a field is altered.
fn is_wrong_altered(alloc: Global, place: usize, line: &str) -> Result<bool, AllocError> {
    match fields_of(line) {
        Some(entry) => {
            Ok(others_are_wrong(alloc, place, entry)? && next_are_wrong(alloc, place, entry)?)
        }
        None => Ok(false),
    }
}

#[test]
fn each_altered_entry_is_not_legal(rt: HostRuntime) {
    let mut entries = 0;
    for (place, line) in JOURNALS.lines().skip(BEFORE).take(ENTRIES).enumerate() {
        let wrong = is_wrong_altered(rt.alloc(), place, line);
        assert!(rt; wrong == Ok(true), "at {line}");
        entries = place;
    }
    assert!(rt; entries == 13);
}

/// Whether two entries may change places: the ends of line, clock and caller of a phase are in no order, and a line may
/// end before its characters are flushed and after they are read.
fn are_free(first: usize, second: usize) -> bool {
    match (first, second) {
        (0, 1) | (0, 4) | (3, 4) | (6, 7) | (7, 8) | (10, 11) => true,
        _ => false,
    }
}

/// Adds the session and its journal, with two lines exchanged.
fn put_with_exchange(
    text: &mut String,
    lines: &[&str],
    first: usize,
    second: usize,
) -> Result<(), AllocError> {
    text.push_str(SESSION)?;
    for number in 0..lines.len() {
        let from = match number {
            _ if number == first => second,
            _ if number == second => first,
            _ => number,
        };
        if let Some(line) = lines.get(from) {
            put_line(text, line)?;
        }
    }
    Ok(())
}

/// With which status the text with two entries exchanged ends.
fn status_exchanged(
    alloc: Global,
    lines: &[&str],
    first: usize,
    second: usize,
) -> Result<u8, AllocError> {
    let mut text = String::new(alloc);
    let (first, second) = (BEFORE.saturating_add(first), BEFORE.saturating_add(second));
    put_with_exchange(&mut text, lines, first, second)?;
    status_of(alloc, &["check"], text.into_bytes())
}

/// The first two entries that are exchanged and judged otherwise than they are to be.
fn first_other(alloc: Global, lines: &[&str]) -> Result<Option<(usize, usize)>, AllocError> {
    for first in 0..ENTRIES {
        for second in first + 1..ENTRIES {
            let wanted = if are_free(first, second) { 0 } else { 7 };
            if status_exchanged(alloc, lines, first, second)? != wanted {
                return Ok(Some((first, second)));
            }
        }
    }
    Ok(None)
}

#[test]
fn exchanged_entries_are_legal_where_they_are_free(rt: HostRuntime) {
    let mut lines = Vec::new(rt.alloc());
    for line in JOURNALS.lines() {
        let _added = lines.push(line);
    }
    let (count, other) = (lines.len(), first_other(rt.alloc(), lines.as_slice()));
    drop(lines);
    assert!(rt; count == 19 && other == Ok(None));
}
