//! Modes: which flags are set, and the control characters.

ghost use Rattle.std.specs.Prelude.{◌≡◌, ◌≢◌, ◌↔◌, ◌<◌, ℕ, List, IsTrue, length, slice_set};
ghost use Rattle.tty_modes.specs.Settings.{has_flag, character, sane_modes};
ghost use Rattle.tty_modes.specs.Printed.{is_printed, are_unprinted};

use crate::bits::{ModeBits, bit};
use crate::places::{CHARACTER_COUNT, FLAG_COUNT};
use crate::words::Word;
use bitflags::Flags;
use std::marker::Model;

/// The modes of a terminal: which flags are set, and the control characters (termios(3)).
///
/// A character of 0 is disabled. MIN counts bytes, and TIME tenths of a second.
#[derive(Clone, Copy, Debug)]
pub struct Modes {
    bits: ModeBits,
    characters: [u8; 15],
    unprinted: bool,
}

impl Model for Modes {
    ghost use Rattle.std.proofs.Common.{ap, sym, ◌∙◌};
    ghost use Rattle.tty_modes.specs.Bits.{flags_of, bits_of, bits_of-flags_of};
    ghost use Rattle.tty_modes.specs.Settings.{Settings};
    ghost use Rattle.tty_modes.specs.Printed.{are_unprinted, IsKept};

    ghost Value = { Settings };

    ghost view = { λ m. record { flags = flags_of 29 m.bits.0; characters = m.characters } };

    ghost invariant = { λ m. IsKept m.bits.0 m.characters m.unprinted };

    ghost inverse = { λ s. record {
      bits = record { 0 = bits_of s.flags };
      characters = s.characters;
      unprinted = are_unprinted s.characters;
    } };

    ghost inverse_ok = { λ m kept.
        ap (λ bits.
        record { bits = record { 0 = bits }; characters = m.characters; unprinted = are_unprinted m.characters })
        (bits_of-flags_of 29 m.bits.0 kept.fits)
        ∙ ap (λ unprinted. record { bits = m.bits; characters = m.characters; unprinted = unprinted })
        (sym kept.unprinted) };
}

impl PartialEq for Modes {
    ghost use Rattle.std.specs.Cmp.{decided, partial_equiv_from_equiv};
    ghost use Rattle.tty_modes.specs.Settings.{same_modes, same_modes-Decides};

    ghost eq = { same_modes };

    ghost laws = { partial_equiv_from_equiv (decided same_modes same_modes-Decides) };

    fn eq(&self, other: &Modes) -> bool
        ensures value { result ≡ same_modes self.now other.now }
        ensures same { IsTrue result ↔ (self.now ≡ other.now) }
    {
        self.bits == other.bits && self.characters == other.characters
    }
}

impl Eq for Modes {
    ghost use Rattle.std.specs.Cmp.{decided};
    ghost use Rattle.tty_modes.specs.Settings.{same_modes, same_modes-Decides};

    ghost laws = { decided same_modes same_modes-Decides };
}

impl Modes {
    ghost use Rattle.tty_modes.specs.Word.{after_word, after_words};

    /// The defaults.
    pub fn sane() -> Modes
        ensures { result ≡ sane_modes }
    {
        Modes {
            bits: ModeBits::SANE,
            characters: [3, 28, 127, 21, 4, 0, 1, 17, 19, 26, 0, 18, 23, 22, 0],
            unprinted: true,
        }
    }

    /// Whether the flag at a place is set. Past the list none is.
    pub fn has(&self, flag: u32) -> bool
        ensures { result ≡ has_flag self.now flag }
    {
        flag < FLAG_COUNT && self.bits.contains(bit(flag))
    }

    /// The control character at a place, and 0 past the list.
    pub fn cc(&self, place: u8) -> u8
        ensures { result ≡ character self.now place }
    {
        self.characters.get(place as usize).copied().unwrap_or(0)
    }

    /// Whether no control character is a byte from blank to tilde, as is the rule.
    pub fn are_unprinted(&self) -> bool
        ensures value { result ≡ are_unprinted self.now.characters }
        // So a printed byte is none of them.
        ensures apart { IsTrue result → (place byte : ℕ) → IsTrue (is_printed byte) → byte ≢ character self.now place }
    {
        self.unprinted
    }

    /// Makes one change. A place past its list changes nothing.
    pub fn apply(&mut self, word: Word)
        ensures { self.new ≡ after_word self.old word }
    {
        match word {
            Word::On(flag) => {
                if flag < FLAG_COUNT {
                    self.bits.insert(bit(flag));
                }
            }
            Word::Off(flag) => {
                if flag < FLAG_COUNT {
                    self.bits.remove(bit(flag));
                }
            }
            Word::Cc(place, value) => {
                if place < CHARACTER_COUNT {
                    self.characters[place as usize] = value;
                    self.unprinted = stay_unprinted(self.unprinted, value, &self.characters);
                }
            }
            Word::Raw => self.bits.remove(ModeBits::RAW),
            Word::Sane => *self = Modes::sane(),
        }
    }

    /// Makes several changes, in their order.
    pub fn apply_all(&mut self, words: &[Word])
        ensures { self.new ≡ after_words self.old words.now }
    {
        for word in words {
            self.apply(*word);
        }
    }
}

/// Whether a byte is from blank to tilde.
fn is_printed(b: u8) -> bool
    ensures { result ≡ is_printed b }
{
    b' ' <= b && b <= b'~'
}

/// Whether none of these is from blank to tilde.
fn are_unprinted(characters: &[u8]) -> bool
    ensures { result ≡ are_unprinted characters.now }
{
    for c in characters {
        if is_printed(*c) {
            return false;
        }
    }
    true
}

/// Whether none is from blank to tilde after one of them was changed, by what held before: where none was, the
/// new value alone counts.
fn stay_unprinted(before: bool, value: u8, characters: &[u8]) -> bool
    ensures { (old : List ℕ) (place : ℕ)
        → before ≡ are_unprinted old
        → place < length old
        → characters.now ≡ slice_set old place value
        → result ≡ are_unprinted characters.now }
{
    if is_printed(value) {
        return false;
    }
    before || are_unprinted(characters)
}
