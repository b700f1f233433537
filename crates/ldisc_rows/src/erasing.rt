//! What ERASE and WERASE take from a line that is edited, and the columns of what ERASE takes.

use n_tty_edit::{Edit, Gone};
use std::alloc::Global;
use tty_base::NoMemory;
use tty_modes::places::IUTF8;
use tty_modes::{Modes, Word};

fn line_of(alloc: Global, bytes: &[u8]) -> Result<Edit, NoMemory> {
    let mut line = Edit::new(alloc)?;
    for b in bytes {
        let _ = line.add(*b);
    }
    Ok(line)
}

fn gone(first: u8, bytes: usize, width: usize) -> Option<Gone> {
    Some(Gone {
        first,
        bytes,
        width,
    })
}

/// Whether ERASE takes this from a line of these bytes, which begins in this column.
fn erases(
    alloc: Global,
    bytes: &[u8],
    start: usize,
    modes: &Modes,
    wanted: Option<Gone>,
) -> Result<bool, NoMemory> {
    let mut line = line_of(alloc, bytes)?;
    Ok(line.erase(start, modes) == wanted)
}

#[test]
fn erase_takes_a_byte_or_a_character(rt: HostRuntime) {
    let plain = Modes::sane();
    let mut utf8 = plain;
    utf8.apply(Word::On(IUTF8));
    let rows = [
        (b"ab".as_slice(), 0, gone(b'b', 1, 1), gone(b'b', 1, 1)),
        (b"", 0, None, None),
        (b"a\xc3\xa9", 0, gone(0xa9, 1, 1), gone(0xc3, 2, 1)),
        (b"\xa9\xa9", 0, gone(0xa9, 1, 1), None),
        (b"\x03", 0, gone(3, 1, 2), gone(3, 1, 2)),
        (b"abc\t", 0, gone(9, 1, 5), gone(9, 1, 5)),
        (b"a\t", 4, gone(9, 1, 3), gone(9, 1, 3)),
        (b"a\tb\t", 4, gone(9, 1, 7), gone(9, 1, 7)),
        (b"\xc3\xa9\t", 0, gone(9, 1, 6), gone(9, 1, 7)),
    ];
    for (bytes, start, by_byte, by_character) in rows {
        let byte = erases(rt.alloc(), bytes, start, &plain, by_byte);
        let character = erases(rt.alloc(), bytes, start, &utf8, by_character);
        assert!(rt; byte == Ok(true) && character == Ok(true), "{bytes:?}");
    }
}

/// Whether WERASE leaves this of a line, and takes as much as it says before and after.
fn leaves(alloc: Global, bytes: &[u8], left: &[u8]) -> Result<bool, NoMemory> {
    let mut line = line_of(alloc, bytes)?;
    let len = line.word_len();
    Ok(line.erase_word() == len && line.bytes() == left)
}

#[test]
fn erase_word_takes_a_word_and_what_follows_it(rt: HostRuntime) {
    for (bytes, left) in [
        (b"foo bar".as_slice(), b"foo ".as_slice()),
        (b"foo_1 .. ", b""),
        (b"a.b\xa9", b"a."),
    ] {
        assert!(rt; leaves(rt.alloc(), bytes, left) == Ok(true), "{bytes:?}");
    }
}
