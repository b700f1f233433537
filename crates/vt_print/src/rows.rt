//! The rows of a screen.

ghost use Rattle.std.specs.Prelude.{◌≡◌, ◌<◌, ◌++◌, IfOk, OnOk, string_bytes};
ghost use Rattle.vt_screen.specs.Paper.{screen_of};
ghost use Rattle.vt_print.specs.Consoles.{row_line, row_lines, trimmed};

use std::alloc::Global;
use tty_base::NoMemory;
use vt_screen::Screen;

const ROWS: usize = 25;

const BLANK: u8 = b' ';

/// The screen of a text.
pub(crate) fn screen_of(alloc: Global, text: &[u8]) -> Result<Screen, NoMemory>
    ensures { IfOk result (λ screen. screen ≡ screen_of text.now) }
{
    let mut screen = Screen::new(alloc)?;
    for b in text {
        screen.feed(*b);
    }
    Ok(screen)
}

/// Adds a line for each row that has more than blanks.
pub(crate) fn put_rows(
    alloc: Global,
    text: &mut String,
    console: usize,
    screen: &Screen,
) -> Result<(), NoMemory>
    ensures { OnOk result (string_bytes text.new ≡ string_bytes text.old ++ row_lines console 0 screen.now.rows) }
{
    let _highest = screen.row(0); // known: how many rows it has
    for r in 0..ROWS {
        put_row(alloc, text, console, r, trimmed(screen.row(r)))?;
    }
    Ok(())
}

/// Adds the line of a row without the blanks at its end, where anything is left.
fn put_row(
    alloc: Global,
    text: &mut String,
    console: usize,
    r: usize,
    row: &[u8],
) -> Result<(), NoMemory>
    ensures { OnOk result (string_bytes text.new ≡ string_bytes text.old ++ row_line console r row.now) }
{
    if row.is_empty() {
        return Ok(());
    }
    let digits = hex::encode(alloc, row)?;
    Ok(write!(text, "console {console} row {r} {digits}\n")?)
}

/// A row without the blanks at its end.
fn trimmed(row: &[u8]) -> &[u8]
    ensures { result.now ≡ trimmed row.now }
{
    let mut count = row.len();
    while count > 0 && row[count - 1] == BLANK {
        count -= 1;
    }
    &row[..count]
}
