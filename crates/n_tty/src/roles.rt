//! What a character is for.

ghost use Rattle.std.specs.Prelude.{◌≡◌, ◌≤◌, ℕ, IsTrue, true, false};
ghost use Rattle.tty_modes.specs.Settings.{has_flag};
ghost use Rattle.tty_modes.specs.declared.places.TheConstants.{ICANON, ECHO};
ghost use Rattle.n_tty.specs.Roles.{is_character, is_extended, signal_of, mapped_byte, role_of, is_raw, IsPlain};

use n_tty_edit::is_printed;
use tty_base::Signal;
use tty_modes::Modes;
use tty_modes::places::{
    ECHO, ICANON, ICRNL, IEXTEN, IGNCR, INLCR, ISIG, ISTRIP, IXANY, IXON, PARMRK, VEOF, VEOL,
    VEOL2, VERASE, VINTR, VKILL, VLNEXT, VQUIT, VSUSP, VWERASE,
};

pub const NL: u8 = b'\n';

const CR: u8 = b'\r';

/// What a character does in canonical mode.
#[derive(Clone, Copy, Debug, PartialEq, Eq)]
pub enum Role {
    /// Erases the last character.
    Erase,
    /// Erases the line.
    Kill,
    /// Erases the last word.
    WordErase,
    /// Quotes the next character.
    Quote,
    /// NL, which ends the line.
    Newline,
    /// Ends the line without a byte.
    Eof,
    /// Ends the line, as its last byte.
    Delimiter,
    /// Joins the line.
    Ordinary,
}

/// Whether good bytes are stored as they come, and nothing else is done with them.
pub fn is_raw(modes: &Modes) -> bool
    ensures { result ≡ is_raw modes.now }
{
    !modes.has(ISTRIP)
        && !modes.has(IXON)
        && !modes.has(ISIG)
        && !modes.has(INLCR)
        && !modes.has(IGNCR)
        && !modes.has(ICRNL)
        && !modes.has(ICANON)
        && !modes.has(PARMRK)
        && !modes.has(ECHO)
}

/// Whether a byte is from blank to tilde, and no rule but those of storing and echo concerns it, where it is not
/// quoted.
pub fn is_plain(b: u8, modes: &Modes) -> bool
    ensures { IsTrue result → IsPlain modes.now b }
{
    is_printed(b) && leaves_printed(modes)
}

/// Whether no rule but those of storing and echo concerns a byte from blank to tilde, where it is not quoted.
pub fn leaves_printed(modes: &Modes) -> bool
    ensures { IsTrue result → (byte : ℕ) → 32 ≤ byte → byte ≤ 126 → IsPlain modes.now byte }
{
    modes.are_unprinted() && !modes.has(IXANY)
}

/// Whether bytes from blank to tilde join the edited line and are echoed, and no other rule concerns them.
pub fn are_typed(modes: &Modes) -> bool
    ensures canonical { IsTrue result → has_flag modes.now ICANON ≡ true }
    ensures echoes { IsTrue result → has_flag modes.now ECHO ≡ true }
    ensures plain { IsTrue result → (byte : ℕ) → 32 ≤ byte → byte ≤ 126 → IsPlain modes.now byte }
{
    modes.has(ICANON) && modes.has(ECHO) && leaves_printed(modes)
}

/// Whether bytes from blank to tilde join the edited line without an echo, and no other rule concerns them.
pub fn are_joined(modes: &Modes) -> bool
    ensures canonical { IsTrue result → has_flag modes.now ICANON ≡ true }
    ensures silent { IsTrue result → has_flag modes.now ECHO ≡ false }
    ensures plain { IsTrue result → (byte : ℕ) → 32 ≤ byte → byte ≤ 126 → IsPlain modes.now byte }
{
    modes.has(ICANON) && !modes.has(ECHO) && leaves_printed(modes)
}

/// Whether a byte is the control character at a place. One of 0 is disabled.
pub fn is_character(place: u8, b: u8, modes: &Modes) -> bool
    ensures { result ≡ is_character modes.now place b }
{
    b != 0 && b == modes.cc(place)
}

/// Whether a byte is the control character at a place, and iexten is set.
fn is_extended(place: u8, b: u8, modes: &Modes) -> bool
    ensures { result ≡ is_extended modes.now place b }
{
    modes.has(IEXTEN) && is_character(place, b, modes)
}

/// The signal that a byte raises.
pub fn signal_of(b: u8, modes: &Modes) -> Option<Signal>
    ensures { result ≡ signal_of modes.now b }
{
    if !modes.has(ISIG) {
        None
    } else if is_character(VINTR, b, modes) {
        Some(Signal::Int)
    } else if is_character(VQUIT, b, modes) {
        Some(Signal::Quit)
    } else if is_character(VSUSP, b, modes) {
        Some(Signal::Susp)
    } else {
        None
    }
}

/// What becomes of CR and NL. There is none for a CR that is dropped.
pub fn mapped_byte(b: u8, modes: &Modes) -> Option<u8>
    ensures { result ≡ mapped_byte modes.now b }
{
    if b == CR {
        if modes.has(IGNCR) {
            None
        } else if modes.has(ICRNL) {
            Some(NL)
        } else {
            Some(CR)
        }
    } else if b == NL && modes.has(INLCR) {
        Some(CR)
    } else {
        Some(b)
    }
}

/// What a byte is for in canonical mode: the first that fits.
pub fn role_of(b: u8, modes: &Modes) -> Role
    ensures { result ≡ role_of modes.now b }
{
    if is_character(VERASE, b, modes) {
        Role::Erase
    } else if is_character(VKILL, b, modes) {
        Role::Kill
    } else if is_extended(VWERASE, b, modes) {
        Role::WordErase
    } else if is_extended(VLNEXT, b, modes) {
        Role::Quote
    } else if b == NL {
        Role::Newline
    } else if is_character(VEOF, b, modes) {
        Role::Eof
    } else if is_character(VEOL, b, modes) || is_extended(VEOL2, b, modes) {
        Role::Delimiter
    } else {
        Role::Ordinary
    }
}
