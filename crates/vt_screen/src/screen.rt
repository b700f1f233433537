//! A screen: its rows, its cursor, and what each byte does to them.

ghost use Rattle.std.specs.Prelude.{◌≡◌, ◌<◌, IfOk, ℕ, List, [], ◌∷◌, ◌++◌, length, slice_index_or};
ghost use Rattle.vt_screen.specs.Paper.{screen_of};
ghost use Rattle.vt_screen.specs.Scrolling.{after_shown_byte, moved_on, scrolled, written};

use std::alloc::Global;
use std::collections::VecDeque;
use std::marker::Model;
use tty_base::NoMemory;

const ROWS: usize = 25;

const COLUMNS: usize = 80;

const LAST_ROW: usize = ROWS - 1;

const LAST_COLUMN: usize = COLUMNS - 1;
/// Tab stops stand at every eighth column.
const STOPS: usize = 8;

const BS: u8 = 0x08;

const TAB: u8 = b'\t';

const NL: u8 = b'\n';

const CR: u8 = b'\r';

type Row = [u8; COLUMNS];

const BLANK: Row = [b' '; COLUMNS];

/// The screen of a text. A byte 20 to 7e or 80 to ff stands in the cursor's cell, and the cursor moves to the right,
/// from column 79 to the start of the next row. CR moves it to column 0, NL one row down, BS one column to the left,
/// TAB to the next multiple of 8 and at most to column 79. No other byte does anything. From the lowest row on the
/// rows go up by one.
#[derive(Drop)]
pub struct Screen {
    /// A circle of 25 rows, the highest first.
    rows: VecDeque<Row>,
    row: usize,
    column: usize,
}

impl Model for Screen {
    ghost use Rattle.vt_screen.specs.Paper.{Shown};
    ghost use Rattle.std.specs.Prelude.{◌≡◌, ◌<◌};

    ghost Value = { Shown };

    ghost use Rattle.std.specs.VecDeque.{deque_len};

    ghost view = { λ s. record { rows = s.rows.items; row = s.row; column = s.column } };

    ghost invariant = { λ s. (deque_len s.rows ≡ 25) × (s.row < 25) × (s.column < 80) };
}

impl Screen {
    /// A blank screen, with the cursor in its first cell. No other call takes memory.
    pub fn new(alloc: Global) -> Result<Screen, NoMemory>
        ensures { IfOk result (λ screen. screen ≡ screen_of []) }
    {
        let mut rows = VecDeque::with_capacity(alloc, ROWS)?;
        for _ in 0..ROWS {
            rows.push_back(BLANK)?;
        }
        Ok(Screen {
            rows,
            row: 0,
            column: 0,
        })
    }

    /// Prints one byte.
    pub fn feed(&mut self, b: u8)
        ensures { (text : List ℕ) → self.old ≡ screen_of text → self.new ≡ screen_of (text ++ b ∷ []) }
    {
        self.print(b);
    }

    /// A row, of 80 cells, the highest being row 0.
    pub fn row(&self, r: usize) -> &[u8]
        requires { r < 25 }
        ensures row { result.now ≡ slice_index_or self.now.rows r [] }
        ensures rows { length self.now.rows ≡ 25 }
        ensures cells { length result.now ≡ 80 }
    {
        &self.rows[r]
    }

    fn print(&mut self, b: u8)
        ensures { self.new ≡ after_shown_byte self.old b }
    {
        match b {
            b' '..=b'~' | 0x80..=0xff => self.write(b),
            CR => self.column = 0,
            NL => self.scroll(),
            BS => self.column = self.column.saturating_sub(1),
            TAB => self.column = (STOPS * (self.column / STOPS + 1)).min(LAST_COLUMN),
            _ => {}
        }
    }

    /// Writes a byte into the cursor's cell, and moves the cursor on.
    fn write(&mut self, b: u8)
        ensures { self.new ≡ moved_on (written self.old b) }
    {
        let line = &mut self.rows[self.row];
        line[self.column] = b;
        self.move_on();
    }

    fn move_on(&mut self)
        ensures { self.new ≡ moved_on self.old }
    {
        if self.column == LAST_COLUMN {
            self.scroll();
            self.column = 0;
        } else {
            self.column += 1;
        }
    }

    /// Moves the cursor one row down; at the lowest row the highest becomes a blank one below.
    fn scroll(&mut self)
        ensures { self.new ≡ scrolled self.old }
    {
        if self.row < LAST_ROW {
            self.row += 1;
        } else {
            self.rows.rotate_left(1);
            self.rows[LAST_ROW] = BLANK;
        }
    }
}
