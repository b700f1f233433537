//! What the keyboard's thread does in a phase: its keys, each on the console that is active.

ghost use Rattle.std.specs.Prelude.{◌≡◌, ◌+◌, ◌<◌, ◌≤◌, ◌^◌, MatchOption, IfErr, OnOk, OnErr, length, slice_index_or};
ghost use Rattle.tty_base.specs.Sizes.{MOST_SENT};
ghost use Rattle.port_cell.specs.Knowledge.{list_seen};
ghost use Rattle.uart_line.specs.LineState.{LineState};
ghost use Rattle.vt_consoles.specs.Boards.{IsDenied};
ghost use Rattle.vt_consoles.specs.Histories.{board_with};
ghost use Rattle.vt_consoles.specs.Seats.{MakesNone};
ghost use Rattle.vt_consoles.specs.Shared.{IsHere, name_of_board};
ghost use Rattle.vt_keyboard.specs.Keying.{CanTakeAll, NotesAt, Presses, PressesKeys, PressesFirst};

use crate::notes::note;
use flip_buffer::FlipIn;
use std::sync::Wait;
use tty_base::Full;
use tty_calls::Denied;
use uart_line::Line;
use vt_consoles::{Seat, SharedBoard};

/// The lines of the consoles, and the ends of the flip buffers to which their keys go.
#[derive(Drop)]
pub struct KeyLines {
    pub lines: Vec<Line>,
    pub ends: Vec<FlipIn>,
}

/// Notes a key on the line of a console.
fn note_at(lines: &mut [Line], console: u8, byte: u8, lost: Option<Full>)
    requires within { console < length lines.old }
    requires can { (l : LineState)
        → l ≡ slice_index_or lines.old console l
        → (l.report.arrived < l.most) × (l.most ≤ MOST_SENT + l.handed) }
    requires full { MatchOption lost (Unit {0}) (λ f. f.seen ≤ f.sent) }
    ensures { NotesAt byte console lost lines.old lines.new }
{
    let line = &mut lines[usize::from(console)];
    note(line, byte, lost);
}

/// A key: the board notes it, and it goes to the console that is active.
fn press<R: Wait>(
    rt: &R,
    board: &SharedBoard,
    seat: &mut Seat,
    number: u32,
    index: u32,
    byte: u8,
    keyed: &mut KeyLines,
) -> Result<(), Denied>
    requires seat { IsHere board.now number seat.old }
    requires can { CanTakeAll (name_of_board board.now).consoles 1 keyed.old.lines.items keyed.old.ends.items }
    ensures seat { IsHere board.now number seat.new }
    ensures ok { OnOk result (Presses number index byte seat.old seat.new keyed.old.lines.items keyed.new.lines.items
        keyed.old.ends.items keyed.new.ends.items) }
    ensures err { OnErr result (MakesNone number seat.old seat.new) }
    ensures lines { OnErr result (keyed.new.lines.items ≡ keyed.old.lines.items) }
    ensures ends { OnErr result (keyed.new.ends.items ≡ keyed.old.ends.items) }
    ensures denied { IfErr result
        (λ denied. IsDenied (board_with (name_of_board board.now) (list_seen seat.new)) denied) }
{
    let KeyLines { lines, ends } = keyed;
    let pressed = board.key(rt, seat, number, index, byte, ends.as_mut_slice())?;
    note_at(lines.as_mut_slice(), pressed.console, byte, pressed.lost);
    Ok(())
}

/// Presses keys, the first of which has this index, by the keyboard's seat, which has this number. Each goes to the
/// console that is active at its turn with the board, or is lost there where the flip buffer is full, and its line
/// notes it.
pub fn press_all<R: Wait>(
    rt: &R,
    board: &SharedBoard,
    seat: &mut Seat,
    number: u32,
    first: u32,
    keys: &[u8],
    keyed: &mut KeyLines,
) -> Result<(), Denied>
    requires seat { IsHere board.now number seat.old }
    requires indexes { first + length keys.now < 2 ^ 32 }
    requires can { CanTakeAll (name_of_board board.now).consoles (length keys.now)
        keyed.old.lines.items keyed.old.ends.items }
    ensures seat { IsHere board.now number seat.new }
    ensures can { CanTakeAll (name_of_board board.now).consoles 0 keyed.new.lines.items keyed.new.ends.items }
    ensures ok { OnOk result (PressesKeys number first keys.now seat.old seat.new keyed.old.lines.items
        keyed.new.lines.items keyed.old.ends.items keyed.new.ends.items) }
    ensures err { OnErr result (PressesFirst number first keys.now seat.old seat.new keyed.old.lines.items
        keyed.new.lines.items keyed.old.ends.items keyed.new.ends.items) }
    ensures denied { IfErr result
        (λ denied. IsDenied (board_with (name_of_board board.now) (list_seen seat.new)) denied) }
{
    for place in 0..keys.len() {
        press(
            rt,
            board,
            seat,
            number,
            first + place as u32,
            keys[place],
            keyed,
        )?;
    }
    Ok(())
}
