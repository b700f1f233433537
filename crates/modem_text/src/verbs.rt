//! The verbs that only a session with modem lines has, read from words.

ghost use Rattle.std.specs.Prelude.{◌≡◌};
ghost use Rattle.modem_text.specs.Verbs.{verb_of};

use tty_modes::is_same;

/// The first word of a line that only a session with modem lines has.
#[derive(Clone, Copy)]
pub enum ModemVerb {
    /// Begins the modem block of a port.
    Modem,
    Dcd,
    Dsr,
    Cts,
    Ri,
    Mget,
    Mset,
    Mbis,
    Mbic,
    Softcar,
    Getcar,
    Hupcl,
    Msr,
}

/// The verb that a word is, if it is one.
pub fn verb_of(word: &[u8]) -> Option<ModemVerb>
    ensures { result ≡ verb_of word.now }
{
    if is_same(word, b"modem".as_slice()) {
        Some(ModemVerb::Modem)
    } else if is_same(word, b"dcd".as_slice()) {
        Some(ModemVerb::Dcd)
    } else if is_same(word, b"dsr".as_slice()) {
        Some(ModemVerb::Dsr)
    } else if is_same(word, b"cts".as_slice()) {
        Some(ModemVerb::Cts)
    } else if is_same(word, b"ri".as_slice()) {
        Some(ModemVerb::Ri)
    } else if is_same(word, b"mget".as_slice()) {
        Some(ModemVerb::Mget)
    } else if is_same(word, b"mset".as_slice()) {
        Some(ModemVerb::Mset)
    } else if is_same(word, b"mbis".as_slice()) {
        Some(ModemVerb::Mbis)
    } else if is_same(word, b"mbic".as_slice()) {
        Some(ModemVerb::Mbic)
    } else if is_same(word, b"softcar".as_slice()) {
        Some(ModemVerb::Softcar)
    } else if is_same(word, b"getcar".as_slice()) {
        Some(ModemVerb::Getcar)
    } else if is_same(word, b"hupcl".as_slice()) {
        Some(ModemVerb::Hupcl)
    } else if is_same(word, b"msr".as_slice()) {
        Some(ModemVerb::Msr)
    } else {
        None
    }
}
