//! The column of all that a line discipline has posted, and output processing at that column.

ghost use Rattle.std.specs.Prelude.{◌≡◌, ◌↔◌, IsTrue, ℕ, ◌≤◌, ◌<◌, ◌+◌, ◌-◌, ◌%◌, ◌^◌, [], ◌++◌, length, List};
ghost use Rattle.opost_out.specs.Column.{PostedByte, column_after, column_of};
ghost use Rattle.opost_out.specs.Column.{column_after_byte, posted_text, posted_text_under};
ghost use Rattle.opost_out.specs.Posted.{posted_bytes};

use crate::pieces::{CR, NL, PostedBytes, TAB};
use std::marker::Model;
use tty_modes::Modes;
use tty_modes::places::{IUTF8, OPOST};

const BS: u8 = 8;

/// Where the cursor stands after all that was posted.
///
/// It is copied to post several bytes ahead.
#[derive(Clone, Copy, PartialEq, Eq, Debug)]
pub struct Out {
    column: u64,
}

impl Model for Out {
    ghost use Rattle.std.specs.Prelude.{ℕ};

    ghost Value = { ℕ };

    ghost view = { λ out. out.column };

    ghost inverse = { λ column. record { column = column } };
}

impl Out {
    /// Nothing is posted yet, and the column is 0.
    pub fn new() -> Out
        ensures { result ≡ column_of [] }
    {
        Out { column: 0 }
    }

    /// The column.
    pub fn column(&self) -> u64
        ensures { result ≡ self.now }
    {
        self.column
    }

    /// Posts one byte: gives the bytes that are posted for it, and moves the column by them.
    pub fn post(&mut self, b: u8, modes: &Modes) -> PostedBytes
        requires { self.old < 2 ^ 63 }
        ensures piece { result ≡ posted_bytes modes.now self.old b }
        ensures column { self.new ≡ column_after self.old (posted_text_under modes.now result) }
        ensures text { (text : List PostedByte)
            → self.old ≡ column_of text
            → self.new ≡ column_of (text ++ posted_text_under modes.now result) }
    {
        if is_plain(b) {
            self.column += 1;
            return PostedBytes::of_byte(b);
        }
        let piece = self.would(b, modes);
        self.column = column_after(self.column, piece.as_slice(), modes.has(IUTF8));
        piece
    }

    /// Moves the column over so many bytes that take one column each.
    pub fn pass(&mut self, count: usize)
        requires { self.old + count < 2 ^ 64 }
        ensures { self.new ≡ self.old + count }
    {
        self.column += count as u64;
    }

    /// Keeps the column within 32 bits, for a user who posts for ever.
    pub fn wrap(&mut self)
        ensures { self.new ≡ self.old % 2 ^ 32 }
    {
        self.column %= 1 << 32;
    }

    /// The bytes that `post` would give. Nothing changes.
    pub fn would(&self, b: u8, modes: &Modes) -> PostedBytes
        ensures { result ≡ posted_bytes modes.now self.now b }
    {
        if !modes.has(OPOST) {
            return PostedBytes::of_byte(b);
        }
        match b {
            NL => PostedBytes::of_newline(modes),
            CR => PostedBytes::of_return(modes, self.column),
            TAB => PostedBytes::of_tab(modes, self.column),
            _ => PostedBytes::of_byte(b),
        }
    }
}

/// The column of a text that goes on is the column after its front, moved by the rest.
pub fn column_of_more()
    ensures { (front rest : List PostedByte) → column_of (front ++ rest) ≡ column_after (column_of front) rest }
{}

/// A byte that is posted as itself under all modes, and takes one column.
fn is_plain(b: u8) -> bool
    ensures { IsTrue result ↔ ((32 ≤ b) × (b ≤ 126)) }
{
    b' ' <= b && b <= b'~'
}

fn column_after(start: u64, bytes: &[u8], utf8: bool) -> u64
    requires room { start < 2 ^ 63 }
    requires short { length bytes.now ≤ 8 }
    ensures { result ≡ column_after start (posted_text utf8 bytes.now) }
{
    let mut column = start;
    for byte in bytes {
        column = column_after_byte(column, *byte, utf8);
    }
    column
}

fn column_after_byte(column: u64, byte: u8, utf8: bool) -> u64
    requires { column < 2 ^ 63 + 64 }
    ensures value { result ≡ column_after_byte column (record { byte = byte; utf8 = utf8 }) }
    ensures bound { result ≤ column + 8 }
{
    match byte {
        0x80..=0xbf if utf8 => column,
        CR => 0,
        TAB => 8 * (column / 8 + 1),
        BS => column.saturating_sub(1),
        0..=31 | 127 => column,
        _ => column + 1,
    }
}
