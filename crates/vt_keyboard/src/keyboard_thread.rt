//! The keyboard's thread in a phase: its keys, and then the ends of all lines and clocks.

ghost use Rattle.std.specs.Prelude.{◌+◌, ◌<◌, ◌^◌, IfErr, OnErr, OnOk, length};
ghost use Rattle.port_cell.specs.Knowledge.{list_seen};
ghost use Rattle.vt_consoles.specs.Boards.{IsDenied};
ghost use Rattle.vt_consoles.specs.Histories.{board_with};
ghost use Rattle.vt_consoles.specs.Shared.{IsHere, name_of_board};
ghost use Rattle.vt_keyboard.specs.Consoles.{CanKeyAll, PlaysFirst, PlaysKeyboard};

use crate::console_ends::{KeySeats, end_consoles};
use crate::keyboard::{KeyLines, press_all};
use crate::lines::{begin_all, end_all};
use std::sync::Wait;
use tty_calls::Denied;
use tty_port::{Gate, SharedPort};
use vt_consoles::{Seat, SharedBoard};

/// What a phase asks of the keyboard: its keys, the index of the first, and the number of the keyboard's seat; beside
/// it the phase's own number.
#[derive(Clone, Copy)]
pub struct KeyWork<'s> {
    pub number: u32,
    pub first: u32,
    pub keys: &'s [u8],
    pub phase: u32,
}

/// What the keyboard's thread has of all consoles: their lines, and the seats of those whose ports are shared.
#[derive(Drop)]
pub struct Keyboard {
    pub keyed: KeyLines,
    pub seats: Vec<Option<KeySeats>>,
}

/// Presses the keys of a phase, and then ends the lines and clocks of all consoles whose ports are shared, also where
/// the board denied a key, since those who share the ports wait for these ends. Keys go to the other consoles too,
/// whose journals are full.
pub fn play_keyboard<R: Wait, G: Gate>(
    rt: &R,
    gate: &G,
    board: &SharedBoard,
    ports: &[Option<SharedPort>],
    seat: &mut Seat,
    keyboard: &mut Keyboard,
    work: KeyWork<'_>,
) -> Result<(), Denied>
    requires seat { IsHere board.now work.number seat.old }
    requires indexes { work.first + length work.keys.now < 2 ^ 32 }
    requires can { CanKeyAll (name_of_board board.now).consoles (length work.keys.now) ports.now
        keyboard.old.seats.items keyboard.old.keyed.lines.items keyboard.old.keyed.ends.items }
    ensures seat { IsHere board.now work.entry.number seat.new }
    ensures ok { OnOk result (PlaysKeyboard work.entry.number work.entry.first work.entry.keys.now seat.old seat.new
        ports.now keyboard.old.seats.items keyboard.new.seats.items keyboard.old.keyed.lines.items
        keyboard.new.keyed.lines.items keyboard.old.keyed.ends.items keyboard.new.keyed.ends.items) }
    ensures err { OnErr result (PlaysFirst work.entry.number work.entry.first work.entry.keys.now seat.old seat.new
        ports.now keyboard.old.seats.items keyboard.new.seats.items keyboard.old.keyed.lines.items
        keyboard.new.keyed.lines.items keyboard.old.keyed.ends.items keyboard.new.keyed.ends.items) }
    ensures denied { IfErr result
        (λ denied. IsDenied (board_with (name_of_board board.now) (list_seen seat.new)) denied) }
{
    let Keyboard { keyed, seats } = keyboard;
    begin_all(keyed);
    let pressed = press_all(rt, board, seat, work.number, work.first, work.keys, keyed);
    end_all(keyed);
    end_consoles(
        rt,
        gate,
        ports,
        seats.as_mut_slice(),
        keyed.ends.as_mut_slice(),
        work.phase,
    );
    pressed
}
