//! The words that stand for an access, a time, a queue or an act, `nonblock`, and the mode words.

ghost use Rattle.std.specs.Prelude.{◌≡◌, is_some};
ghost use Rattle.tty_modes.specs.Reading.{word_of};
ghost use Rattle.session_text.specs.Kinds.{access_of, when_of, queue_of, act_of, is_nonblock};

use tty_calls::{Access, Act, Queue, When};
use tty_modes::{Word, is_same, set_word_bytes};

pub(crate) fn access_of(word: &[u8]) -> Option<Access>
    ensures { result ≡ access_of word.now }
{
    if is_same(word, b"r".as_slice()) {
        Some(Access::R)
    } else if is_same(word, b"w".as_slice()) {
        Some(Access::W)
    } else if is_same(word, b"rw".as_slice()) {
        Some(Access::Rw)
    } else {
        None
    }
}

pub(crate) fn when_of(word: &[u8]) -> Option<When>
    ensures { result ≡ when_of word.now }
{
    if is_same(word, b"now".as_slice()) {
        Some(When::Now)
    } else if is_same(word, b"drain".as_slice()) {
        Some(When::Drain)
    } else if is_same(word, b"flush".as_slice()) {
        Some(When::Flush)
    } else {
        None
    }
}

pub(crate) fn queue_of(word: &[u8]) -> Option<Queue>
    ensures { result ≡ queue_of word.now }
{
    if is_same(word, b"in".as_slice()) {
        Some(Queue::Input)
    } else if is_same(word, b"out".as_slice()) {
        Some(Queue::Output)
    } else if is_same(word, b"both".as_slice()) {
        Some(Queue::Both)
    } else {
        None
    }
}

pub(crate) fn act_of(word: &[u8]) -> Option<Act>
    ensures { result ≡ act_of word.now }
{
    if is_same(word, b"ooff".as_slice()) {
        Some(Act::Ooff)
    } else if is_same(word, b"oon".as_slice()) {
        Some(Act::Oon)
    } else if is_same(word, b"ioff".as_slice()) {
        Some(Act::Ioff)
    } else if is_same(word, b"ion".as_slice()) {
        Some(Act::Ion)
    } else {
        None
    }
}

pub(crate) fn is_nonblock(word: &[u8]) -> bool
    ensures { result ≡ is_nonblock word.now }
{
    is_same(word, b"nonblock".as_slice())
}

/// The mode word that a word is.
#[inline(always)]
pub(crate) fn mode_of(word: &[u8]) -> Option<Word>
    ensures { result ≡ word_of word.now }
{
    set_word_bytes(word).ok()
}

/// Whether a word is a mode word. Where mode words are wanted they are read, and seldom asked alone.
#[inline(never)]
pub(crate) fn is_mode(word: &[u8]) -> bool
    ensures { result ≡ is_some (word_of word.now) }
{
    mode_of(word).is_some()
}
