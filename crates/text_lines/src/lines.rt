//! The lines of a text, and the blanks in a line.

ghost use Rattle.std.specs.Prelude.{◌≡◌, ◌<◌, [], ◌∷◌, nat_lt, position, not, length, slice_index_or, MatchOption};
ghost use Rattle.std.specs.List.{list_any};
ghost use Rattle.text_lines.specs.Lines.{is_newline, is_blank, is_low, first_is, lines_of, words_of};

/// From this length on a line is searched by vectors.
const LONG: usize = 64;

/// How many bytes of a long line are searched at a time.
const PIECE: usize = 128;

/// The first line of a text, and what follows it; `None` where the text is empty.
#[inline(always)]
pub fn split_line(text: &[u8]) -> Option<(&[u8], &[u8])>
    ensures lines { MatchOption result (lines_of text.now ≡ [])
        (λ parts. lines_of text.now ≡ parts.0.now ∷ lines_of parts.1.now) }
    ensures shorter { MatchOption result (text.now ≡ []) (λ parts. length parts.1.now < length text.now) }
{
    if text.is_empty() {
        return None;
    }
    match newline_in(text) {
        Some(at) => Some((&text[..at], &text[at + 1..])),
        None => Some((text, &text[text.len()..])),
    }
}

#[inline(always)]
fn newline_in(text: &[u8]) -> Option<usize>
    ensures { result ≡ position is_newline text.now }
{
    memchr::memchr(b'\n', text)
}

fn is_blank(byte: u8) -> bool
    ensures { result ≡ is_blank byte }
{
    byte <= b' ' && (byte == b' ' || byte == b'\t' || byte == b'\r')
}

#[inline(always)]
fn blank_in(line: &[u8]) -> Option<usize>
    ensures { result ≡ position is_blank line.now }
{
    if line.len() < LONG {
        blank_near(line)
    } else {
        blank_far(line)
    }
}

/// The first blank of a long line. Apart from that of a short one, so that what splits short lines
/// stays small. Pieces without a blank are passed over whole.
#[inline(never)]
fn blank_far(line: &[u8]) -> Option<usize>
    ensures { result ≡ position is_blank line.now }
{
    let mut rest = line;
    let mut passed = 0;
    while rest.len() > PIECE {
        let (piece, after) = rest.split_at(PIECE);
        if has_low(piece) {
            break;
        }
        rest = after;
        passed += PIECE;
    }
    match first_blank(rest) {
        Some(at) => Some(passed + at),
        None => None,
    }
}

/// Whether a byte is as low as a blank, which no piece without one has to be asked further. No byte
/// ends the walk early, so that many are tested at once.
#[inline(never)]
fn has_low(piece: &[u8]) -> bool
    ensures { result ≡ list_any is_low piece.now }
{
    let mut found = false;
    for byte in piece {
        found = found | (*byte <= b' ');
    }
    found
}

fn first_blank(line: &[u8]) -> Option<usize>
    ensures { result ≡ position is_blank line.now }
{
    memchr::memchr3(b' ', b'\t', b'\r', line)
}

/// The first blank of a short line, byte by byte.
#[inline(always)]
fn blank_near(line: &[u8]) -> Option<usize>
    ensures { result ≡ position is_blank line.now }
{
    line.iter().position(|byte| is_blank(*byte))
}

#[inline(always)]
fn word_in(line: &[u8]) -> Option<usize>
    ensures { result ≡ position (λ byte. not (is_blank byte)) line.now }
{
    line.iter().position(|byte| !is_blank(*byte))
}

/// The first word of a line, and what follows it; `None` where the line has no word.
#[inline(always)]
pub fn split_word(line: &[u8]) -> Option<(&[u8], &[u8])>
    ensures words { MatchOption result (words_of line.now ≡ [])
        (λ parts. words_of line.now ≡ parts.0.now ∷ words_of parts.1.now) }
    ensures shorter { MatchOption result (words_of line.now ≡ []) (λ parts. length parts.1.now < length line.now) }
{
    match word_in(line) {
        None => None,
        Some(start) => {
            let begun = &line[start..];
            match blank_in(begun) {
                Some(at) => Some((&begun[..at], &begun[at + 1..])),
                None => Some((begun, &begun[begun.len()..])),
            }
        }
    }
}

/// Whether a line has a word.
#[inline(always)]
pub(crate) fn has_word(line: &[u8]) -> bool
    ensures { result ≡ nat_lt 0 (length (words_of line.now)) }
{
    word_in(line).is_some()
}

/// The word at a place of a line, counted from 0, and no bytes past the last word.
pub fn word_at(line: &[u8], place: usize) -> &[u8]
    ensures { result.now ≡ slice_index_or (words_of line.now) place [] }
{
    let mut rest = line;
    for _ in 0..place {
        match split_word(rest) {
            Some((_, after)) => rest = after,
            None => return &[],
        }
    }
    match split_word(rest) {
        Some((word, _)) => word,
        None => &[],
    }
}

/// Whether a word begins with `#`.
pub fn is_comment(word: &[u8]) -> bool
    ensures { result ≡ first_is 35 word.now }
{
    word.first() == Some(&b'#')
}
