//! How many columns a byte takes on the screen, a TAB by what stands before it.

ghost use Rattle.std.specs.Prelude.{◌≡◌, ◌<◌, ◌≤◌, ◌-◌, ◌%◌, length, take, slice_index};
ghost use Rattle.tty_base.specs.Sizes.{MOST_LINE};
ghost use Rattle.n_tty_edit.specs.Width.{plain_width, width_since_tab, width_of};

use crate::bytes::Class;
use tty_modes::Modes;
use tty_modes::places::{ECHOCTL, IUTF8};

const TAB: u8 = b'\t';

/// The width of a byte other than TAB.
fn plain_width(b: u8, modes: &Modes) -> usize
    ensures width { result ≡ plain_width modes.now b }
    ensures most { result ≤ 2 }
{
    if modes.has(IUTF8) && Class::Continuation.has(b) {
        0
    } else if b == b'\n' {
        0
    } else if b < 32 || b == 127 {
        if modes.has(ECHOCTL) { 2 } else { 0 }
    } else {
        1
    }
}

/// The width of a TAB after a line.
fn tab_width(before: &[u8], start: usize, modes: &Modes) -> usize
    requires { length before.now ≤ MOST_LINE }
    ensures width { result ≡ 8 - width_since_tab modes.now start before.now % 8 }
    ensures most { result ≤ 8 }
{
    let mut i = before.len();
    let mut column = 0;
    while i > 0 && before[i - 1] != TAB {
        i -= 1;
        column += plain_width(before[i], modes);
    }
    let from = if i == 0 { start % 8 } else { 0 };
    8 - (from + column) % 8
}

/// The width of the byte at a place of a line.
pub fn width_at(line: &[u8], i: usize, start: usize, modes: &Modes) -> usize
    requires within { i < length line.now }
    requires short { length line.now ≤ MOST_LINE }
    ensures width { result ≡ width_of modes.now start (take i line.now) (slice_index line.now i) }
    ensures most { result ≤ 8 }
{
    let b = line[i];
    if b == TAB {
        tab_width(&line[..i], start, modes)
    } else {
        plain_width(b, modes)
    }
}
