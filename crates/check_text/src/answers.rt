//! The answer that words mean, by the kind of its call. It is read only where the words are what is printed of it.

ghost use Rattle.std.specs.Prelude.{◌≡◌, ◌+◌, ◌*◌, ◌<◌, ◌==◌, IfOk, option_map, position};
ghost use Rattle.std.specs.List.{after_first};
ghost use Rattle.tty_calls.specs.Plain.{answer_of};
ghost use Rattle.text_lines.specs.Lines.{words_of};
ghost use Rattle.text_lines.specs.Values.{choice_of};
ghost use Rattle.session_print.specs.Words.{errno_name};
ghost use Rattle.check_text.specs.Fields.{in_front};
ghost use Rattle.check_text.specs.Answers.{errno_of as errno_named, named_answer as answer_named};
ghost use Rattle.check_text.specs.Answers.{small_at as small_number, no_flags as cleared_modes};
ghost use Rattle.check_text.specs.Answers.{modes_from as modes_by_words, count_of as count_by_digits};
ghost use Rattle.check_text.specs.Answers.{count_at as count_by_place, counts_in as counts_by_words};
ghost use Rattle.check_text.specs.Answers.{answer_by, answer_meaning as meant_answer, answer_as};
ghost use Rattle.check_text.specs.Answers.{later_errnos, words_after as words_past, answer_in as read_answer};
ghost use Rattle.check_text.specs.Building.{count_with};
ghost use Rattle.check_text.specs.Results.{ReadsAs};

use super::faults::LineFault;
use super::kinds::AnswerKind;
use session_print::answer_text;
use session_text::Reason;
use std::alloc::Global;
use text_lines::{bytes_of, number_at, split_word, word_at};
use tty_base::{Counts, Errno, NoMemory};
use tty_calls::Answer;
use tty_modes::places::FLAG_COUNT;
use tty_modes::{Modes, Word, set_word_bytes};

/// The answer to a call of this kind, and the words that follow it. It is read where it is, word for
/// word, what is printed of the answer that the words mean.
pub(crate) fn answer_in(
    alloc: Global,
    kind: AnswerKind,
    words: &[u8],
) -> Result<(Answer, &[u8]), LineFault>
    ensures { ReadsAs (λ parts. in_front (words_of parts.1.now) (answer_of parts.0)) result
        (read_answer kind (words_of words.now)) }
{
    let answer = answer_meaning(alloc, kind, words)?;
    let rest = after_answer(alloc, &answer, words)?;
    Ok((answer, rest))
}

/// What follows the words of an answer, where these are the first words.
fn after_answer<'a>(alloc: Global, answer: &Answer, words: &'a [u8]) -> Result<&'a [u8], LineFault>
    ensures { ReadsAs (λ rest. in_front (words_of rest.now) (answer_of answer.now)) result
        (answer_as (answer_of answer.now) (words_of words.now)) }
{
    let text = answer_text(alloc, answer)?;
    words_after(text.as_slice(), words).ok_or(LineFault::Wrong(Reason::Word))
}

/// What follows the words of a text, where these are the first words.
fn words_after<'a>(text: &[u8], words: &'a [u8]) -> Option<&'a [u8]>
    ensures { option_map (λ rest. words_of rest.now) result ≡ words_past (words_of text.now) (words_of words.now) }
{
    let mut printed = text;
    let mut rest = words;
    while let Some((expected, more)) = split_word(printed) {
        match split_word(rest) {
            Some((word, after)) if word == expected => rest = after,
            _ => return None,
        }
        printed = more;
    }
    Some(rest)
}

/// The answer that words mean.
fn answer_meaning(alloc: Global, kind: AnswerKind, words: &[u8]) -> Result<Answer, NoMemory>
    ensures { IfOk result (λ answer. answer_of answer ≡ meant_answer kind (words_of words.now)) }
{
    match named_answer(word_at(words, 0)) {
        Some(answer) => Ok(answer),
        None => answer_by(alloc, kind, words),
    }
}

/// An error, or idle: what any call may be answered.
fn named_answer(word: &[u8]) -> Option<Answer>
    ensures { option_map answer_of result ≡ answer_named word.now }
{
    if word == b"idle".as_slice() {
        return Some(Answer::Idle);
    }
    match errno_of(word) {
        Some(errno) => Some(Answer::Refused(errno)),
        None => None,
    }
}

fn errno_of(word: &[u8]) -> Option<Errno>
    ensures { result ≡ errno_named word.now }
{
    if word == b"EBADF".as_slice() {
        Some(Errno::EBADF)
    } else if word == b"EEXIST".as_slice() {
        Some(Errno::EEXIST)
    } else if word == b"EBUSY".as_slice() {
        Some(Errno::EBUSY)
    } else if word == b"EAGAIN".as_slice() {
        Some(Errno::EAGAIN)
    } else {
        later_errno_of(word)
    }
}

fn later_errno_of(word: &[u8]) -> Option<Errno>
    ensures { result ≡ choice_of errno_name later_errnos word.now }
{
    if word == b"EIO".as_slice() {
        Some(Errno::EIO)
    } else if word == b"EINVAL".as_slice() {
        Some(Errno::EINVAL)
    } else if word == b"ENOTTY".as_slice() {
        Some(Errno::ENOTTY)
    } else if word == b"EMSGSIZE".as_slice() {
        Some(Errno::EMSGSIZE)
    } else {
        None
    }
}

fn answer_by(alloc: Global, kind: AnswerKind, words: &[u8]) -> Result<Answer, NoMemory>
    ensures { IfOk result (λ answer. answer_of answer ≡ answer_by kind (words_of words.now)) }
{
    match kind {
        AnswerKind::Done => Ok(Answer::Done),
        AnswerKind::Count => Ok(Answer::Count(small_at(words))),
        AnswerKind::Got => Ok(Answer::Got(bytes_of(alloc, word_at(words, 1))?)),
        AnswerKind::Number => Ok(Answer::Number(small_at(words))),
        AnswerKind::Modes => Ok(Answer::ModesAre(modes_from(words))),
        AnswerKind::Counts => Ok(Answer::CountsAre(Box::new(alloc, counts_in(words))?)),
    }
}

/// The first word as a number of 32 bits, and 0 where it is none.
fn small_at(words: &[u8]) -> u32
    ensures { result ≡ small_number (words_of words.now) }
{
    match u32::try_from(number_at(words, 0)) {
        Ok(number) => number,
        Err(_) => 0,
    }
}

/// The modes that mode words make, up to the first word that is none.
fn modes_from(words: &[u8]) -> Modes
    ensures { result ≡ modes_by_words cleared_modes (words_of words.now) }
{
    let mut modes = no_flags();
    let mut rest = words;
    while let Some((word, after)) = split_word(rest) {
        match set_word_bytes(word) {
            Ok(mode) => modes.apply(mode),
            Err(_) => return modes,
        }
        rest = after;
    }
    modes
}

/// Modes without a flag.
fn no_flags() -> Modes
    ensures { result ≡ cleared_modes }
{
    let mut modes = Modes::sane();
    for flag in 0..FLAG_COUNT {
        modes.apply(Word::Off(flag));
    }
    modes
}

fn counts_in(words: &[u8]) -> Counts
    ensures { result ≡ counts_by_words (words_of words.now) }
{
    Counts {
        mark: count_at(words, 0),
        parity: count_at(words, 1),
        frame: count_at(words, 2),
        breaks: count_at(words, 3),
        cut: count_at(words, 4),
        echo: count_at(words, 5),
        pin: count_at(words, 6),
        pout: count_at(words, 7),
        pbad: count_at(words, 8),
        pfull: count_at(words, 9),
    }
}

/// The number after the `=` of the word at a place.
fn count_at(words: &[u8], place: usize) -> u64
    ensures { result ≡ count_by_place (words_of words.now) place }
{
    count_of(after_equals(word_at(words, place)))
}

fn after_equals(word: &[u8]) -> &[u8]
    ensures { result.now ≡ after_first (λ byte. byte == 61) word.now }
{
    match equals_in(word) {
        Some(at) => &word[at + 1..],
        None => &word[word.len()..],
    }
}

fn equals_in(word: &[u8]) -> Option<usize>
    ensures { result ≡ position (λ byte. byte == 61) word.now }
{
    word.iter().position(|byte| *byte == b'=')
}

/// The number of 64 bits that digits write, and 0 where they write none.
fn count_of(digits: &[u8]) -> u64
    ensures { result ≡ count_by_digits digits.now }
{
    let mut value = 0u64;
    for digit in digits {
        match with_digit(value, *digit) {
            Some(next) => value = next,
            None => return 0,
        }
    }
    value
}

/// A number with a further digit, where there is one and the number still has 64 bits.
fn with_digit(value: u64, digit: u8) -> Option<u64>
    ensures { result ≡ count_with value digit }
{
    if digit < b'0' || b'9' < digit {
        return None;
    }
    value.checked_mul(10)?.checked_add(u64::from(digit - b'0'))
}
