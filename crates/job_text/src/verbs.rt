//! The verbs that only a session of processes has, read from words.

ghost use Rattle.std.specs.Prelude.{◌≡◌};
ghost use Rattle.job_text.specs.Verbs.{verb_of};

use tty_modes::is_same;

/// The first word of a line that only a session of processes has.
#[derive(Clone, Copy)]
pub(crate) enum JobVerb {
    /// Says that a process is there.
    Proc,
    Sctty,
    Notty,
    Gpgrp,
    Spgrp,
    Exit,
}

/// The verb that a word is, if it is one.
pub(crate) fn verb_of(word: &[u8]) -> Option<JobVerb>
    ensures { result ≡ verb_of word.now }
{
    if is_same(word, b"proc".as_slice()) {
        Some(JobVerb::Proc)
    } else if is_same(word, b"sctty".as_slice()) {
        Some(JobVerb::Sctty)
    } else if is_same(word, b"notty".as_slice()) {
        Some(JobVerb::Notty)
    } else if is_same(word, b"gpgrp".as_slice()) {
        Some(JobVerb::Gpgrp)
    } else if is_same(word, b"spgrp".as_slice()) {
        Some(JobVerb::Spgrp)
    } else if is_same(word, b"exit".as_slice()) {
        Some(JobVerb::Exit)
    } else {
        None
    }
}
