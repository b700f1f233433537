//! Takes the word or the number that is due off the front of a line, or says why the line is wrong.

ghost use Rattle.std.specs.Prelude.{◌≡◌, Ok, Err, MatchResult};
ghost use Rattle.text_lines.specs.Lines.{words_of};
ghost use Rattle.check_text.specs.Fields.{number_of_word, word_in as first_word, number_in as first_number};
ghost use Rattle.check_text.specs.Fields.{port_in as words_after_port, after_first as words_after_first};
ghost use Rattle.check_text.specs.Fields.{no_more as nothing_more, in_front};

use session_text::Reason;
use text_lines::{is_number, number_of, split_word};

/// The first of some words, and what follows it.
pub(crate) fn word_in(words: &[u8]) -> Result<(&[u8], &[u8]), Reason>
    ensures { MatchResult result
        (λ parts. first_word (words_of words.now) ≡ Ok (in_front (words_of parts.1.now) parts.0.now))
        (λ reason. first_word (words_of words.now) ≡ Err reason) }
{
    split_word(words).ok_or(Reason::Word)
}

/// The number of 32 bits that is the first of some words, and what follows it.
pub(crate) fn number_in(words: &[u8]) -> Result<(u32, &[u8]), Reason>
    ensures { MatchResult result
        (λ parts. first_number (words_of words.now) ≡ Ok (in_front (words_of parts.1.now) parts.0))
        (λ reason. first_number (words_of words.now) ≡ Err reason) }
{
    let (word, rest) = word_in(words)?;
    Ok((number_of_word(word)?, rest))
}

fn number_of_word(word: &[u8]) -> Result<u32, Reason>
    ensures { result ≡ number_of_word word.now }
{
    if !is_number(word) {
        return Err(Reason::Number);
    }
    match u32::try_from(number_of(word)) {
        Ok(number) => Ok(number),
        Err(_) => Err(Reason::Limit),
    }
}

/// What follows the number of the port that is due.
pub(crate) fn port_in(port: usize, words: &[u8]) -> Result<&[u8], Reason>
    ensures { MatchResult result (λ rest. words_after_port port (words_of words.now) ≡ Ok (words_of rest.now))
        (λ reason. words_after_port port (words_of words.now) ≡ Err reason) }
{
    let (number, rest) = number_in(words)?;
    if number as usize == port {
        Ok(rest)
    } else {
        Err(Reason::Limit)
    }
}

/// What follows the word that is due as the first.
pub(crate) fn after_first<'a>(text: &[u8], words: &'a [u8]) -> Result<&'a [u8], Reason>
    ensures { MatchResult result (λ rest. words_after_first text.now (words_of words.now) ≡ Ok (words_of rest.now))
        (λ reason. words_after_first text.now (words_of words.now) ≡ Err reason) }
{
    match split_word(words) {
        Some((word, rest)) if word == text => Ok(rest),
        _ => Err(Reason::Order),
    }
}

/// That no word follows.
pub(crate) fn no_more(words: &[u8]) -> Result<(), Reason>
    ensures { result ≡ nothing_more (words_of words.now) }
{
    match split_word(words) {
        None => Ok(()),
        Some(_) => Err(Reason::Word),
    }
}
