//! What is posted for one byte.

ghost use Rattle.std.specs.Prelude.{◌≡◌, ◌≤◌, ◌-◌, ◌%◌, [], ◌∷◌, length, replicate, ◌==◌};
ghost use Rattle.opost_out.specs.Posted.{newline_bytes, return_bytes, tab_bytes};

use arrayvec::ArrayVec;
use std::marker::Model;
use tty_modes::Modes;
use tty_modes::places::{OCRNL, ONLCR, ONOCR, TAB3};

pub(crate) const NL: u8 = 10;

pub(crate) const CR: u8 = 13;

pub(crate) const TAB: u8 = 9;

/// The bytes that are posted for one byte: at most 8.
#[derive(Debug, Drop)]
pub struct PostedBytes {
    bytes: ArrayVec<u8, 8>,
}

impl Model for PostedBytes {
    ghost use Rattle.std.specs.Prelude.{List, ℕ};

    ghost Value = { List ℕ };

    ghost view = { λ p. p.bytes.items };
}

impl PostedBytes {
    /// The bytes, in order.
    pub fn as_slice(&self) -> &[u8]
        ensures bytes { result.now ≡ self.now }
        ensures short { length self.now ≤ 8 }
    {
        self.bytes.as_slice()
    }

    /// How many bytes there are.
    pub fn len(&self) -> usize
        ensures count { result ≡ length self.now }
        ensures short { result ≤ 8 }
    {
        self.bytes.len()
    }

    /// Whether there are none.
    pub fn is_empty(&self) -> bool
        ensures { result ≡ (length self.now == 0) }
    {
        self.bytes.is_empty()
    }

    pub(crate) fn of_byte(byte: u8) -> PostedBytes
        ensures { result ≡ byte ∷ [] }
    {
        let mut bytes = ArrayVec::new();
        bytes.push(byte);
        PostedBytes { bytes }
    }

    /// What is posted for NL.
    pub(crate) fn of_newline(modes: &Modes) -> PostedBytes
        ensures { result ≡ newline_bytes modes.now }
    {
        let mut bytes = ArrayVec::new();
        if modes.has(ONLCR) {
            bytes.push(CR);
        }
        bytes.push(NL);
        PostedBytes { bytes }
    }

    /// What is posted for CR at a column.
    pub(crate) fn of_return(modes: &Modes, column: u64) -> PostedBytes
        ensures { result ≡ return_bytes modes.now column }
    {
        let mut bytes = ArrayVec::new();
        if !(modes.has(ONOCR) && column == 0) {
            bytes.push(if modes.has(OCRNL) { NL } else { CR });
        }
        PostedBytes { bytes }
    }

    /// What is posted for TAB at a column.
    pub(crate) fn of_tab(modes: &Modes, column: u64) -> PostedBytes
        ensures { result ≡ tab_bytes modes.now column }
    {
        if modes.has(TAB3) {
            PostedBytes::of_blanks(8 - column % 8)
        } else {
            PostedBytes::of_byte(TAB)
        }
    }

    fn of_blanks(count: u64) -> PostedBytes
        requires { count ≤ 8 }
        ensures { result ≡ replicate count 32 }
    {
        let mut bytes = ArrayVec::new();
        for _ in 0..count {
            bytes.push(b' ');
        }
        PostedBytes { bytes }
    }
}
