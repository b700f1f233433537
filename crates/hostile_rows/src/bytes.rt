//! Bytes that no text has: 0 and 255 in each place, and what parts words.

use super::tables::{CHECK, ONE};
use std::alloc::{AllocError, Global};
use std::process::Abort;
use std::test::Fail;
use tty_rows::three_bytes::{JOURNALS, SESSION};
use tty_rows::{status_of, told_of};

/// These pieces in one text.
fn joined(alloc: Global, pieces: &[&[u8]]) -> Result<Vec<u8>, AllocError> {
    let mut text = Vec::new(alloc);
    for piece in pieces {
        text.extend_from_slice(piece)?;
    }
    Ok(text)
}

/// Whether a text is refused at this line.
fn is_refused_at(
    alloc: Global,
    words: &[&str],
    text: Vec<u8>,
    line: u32,
) -> Result<bool, AllocError> {
    let told = told_of(alloc, words, text)?;
    let wanted = format!(in alloc; "bad session line {line}: ")?;
    Ok(told.status == 1 && told.text.starts_with(wanted.as_bytes()))
}

/// The text with another byte at a place.
fn with_byte(alloc: Global, text: &[u8], place: usize, byte: u8) -> Result<Vec<u8>, AllocError> {
    let mut changed = text.to_vec(alloc)?;
    if let Some(old) = changed.get_mut(place) {
        *old = byte;
    }
    Ok(changed)
}

/// Whether the text with another byte at a place is refused at this line.
fn is_refused_with(
    alloc: Global,
    words: &[&str],
    text: &[u8],
    at: (usize, u32),
    byte: u8,
) -> Result<bool, AllocError> {
    let (place, line) = at;
    is_refused_at(alloc, words, with_byte(alloc, text, place, byte)?, line)
}

/// With another byte at any place the text is refused at the line of that place.
fn are_refused_with(rt: &impl Abort, alloc: Global, words: &[&str], text: &[u8], byte: u8) {
    let mut line = 1u32;
    for (place, old) in text.iter().enumerate() {
        let refused = is_refused_with(alloc, words, text, (place, line), byte);
        assert!(rt; refused == Ok(true), "with {byte} at {place}");
        if *old == b'\n' {
            line = line.saturating_add(1);
        }
    }
}

#[test]
fn no_text_has_a_byte_0_or_255(rt: HostRuntime) -> Result<(), Fail> {
    let checked = joined(rt.alloc(), &[SESSION.as_bytes(), JOURNALS.as_bytes()])?;
    for byte in [0, 255] {
        are_refused_with(&rt, rt.alloc(), ONE, SESSION.as_bytes(), byte);
        are_refused_with(&rt, rt.alloc(), CHECK, checked.as_slice(), byte);
    }
    Ok(())
}

/// The status of the session between two comments with this byte.
fn status_between(alloc: Global, byte: u8) -> Result<u8, AllocError> {
    let comment = [b'#', b' ', byte, b' ', b'#', b'\n'];
    let pieces = [comment.as_slice(), SESSION.as_bytes(), comment.as_slice()];
    status_of(alloc, ONE, joined(alloc, &pieces)?)
}

#[test]
fn but_a_comment_may_have_any_byte(rt: HostRuntime) {
    for byte in 0..=255 {
        let status = status_between(rt.alloc(), byte);
        assert!(rt; byte == b'\n' || status == Ok(0), "with {byte}");
    }
}

/// Whether a header whose words this byte parts is told as it is to be.
fn is_told_with(alloc: Global, byte: u8) -> Result<bool, AllocError> {
    let header = [b"tty-session".as_slice(), &[byte], b"1\nports 1\nend\n"];
    let told = told_of(alloc, ONE, joined(alloc, &header)?)?;
    let refusal = b"bad session line 1: header\n".as_slice();
    let is_refused = told.status == 1 && told.text.as_slice() == refusal;
    Ok(match byte {
        b' ' | b'\t' | b'\r' => told.status == 0,
        _ => is_refused,
    })
}

#[test]
fn blank_tab_and_cr_alone_part_words(rt: HostRuntime) {
    for byte in 0..=255 {
        assert!(rt; is_told_with(rt.alloc(), byte) == Ok(true), "with {byte}");
    }
}

/// Whether a text is refused at this length, behind another.
fn is_refused_cut<'a>(
    alloc: Global,
    words: &[&str],
    before: &'a str,
    text: &'a str,
    length: usize,
) -> Result<bool, AllocError> {
    let front = text.as_bytes().get(..length).unwrap_or(b"");
    let status = status_of(alloc, words, joined(alloc, &[before.as_bytes(), front])?)?;
    Ok(status == 1)
}

/// Behind a text another is refused at each length. Without its last line feed it is whole.
fn are_refused_cut(rt: &impl Abort, alloc: Global, words: &[&str], before: &str, text: &str) {
    for length in 0..text.len().saturating_sub(1) {
        let refused = is_refused_cut(alloc, words, before, text, length);
        assert!(rt; refused == Ok(true), "at {length}");
    }
}

#[test]
fn a_text_that_is_cut_is_refused(rt: HostRuntime) {
    are_refused_cut(&rt, rt.alloc(), ONE, "", SESSION);
    are_refused_cut(&rt, rt.alloc(), CHECK, SESSION, JOURNALS);
}
