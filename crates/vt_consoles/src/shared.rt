//! A board that threads share.

ghost use Rattle.std.specs.Prelude.{◌≡◌, ◌<◌, ◌≤◌, true, false, length, Some, IfOk, IfErr, OnOk, OnErr};
ghost use Rattle.tty_base.specs.Sizes.{MOST_SEATS};
ghost use Rattle.port_cell.specs.Entries.{generation_of, AddsBy, GoesOn};
ghost use Rattle.port_cell.specs.Knowledge.{number_of, name_of, list_seen, has_turn, is_raised};
ghost use Rattle.port_cell.specs.Lent.{value_in};
ghost use Rattle.port_cell.specs.Seats.{EachSeat, HasAll, IsSeat, IsSameSeat, KeepsUse};
ghost use Rattle.vt_consoles.specs.declared.entries.VtEvent.{VtEvent};
ghost use Rattle.vt_consoles.specs.Boards.{IsBoard, IsDenied};
ghost use Rattle.vt_consoles.specs.Faults.{IsRefusedCall};
ghost use Rattle.vt_consoles.specs.Keys.{CanPut, GoesTo};
ghost use Rattle.vt_consoles.specs.Histories.{history_of, board_with, name_of as board_name};
ghost use Rattle.vt_consoles.specs.Seats.{Makes, MakesNone, HasAllOf};

use crate::board::Board;
use crate::entries::{Keyed, VtFault};
use flip_buffer::FlipIn;
use port_cell::{Cell, Turn};
use std::alloc::Global;
use std::sync::Wait;
use tty_base::NoMemory;
use tty_calls::Denied;

/// A thread's place at a shared board. It has no bytes.
pub type Seat = port_cell::Seat<Board>;

/// A board that threads share: the operators, and the keyboard. Each call has one turn with the board.
#[derive(Drop)]
pub struct SharedBoard {
    pub(crate) cell: Cell<Board>,
}

impl SharedBoard {
    ghost use Rattle.vt_consoles.specs.Shared.{IsHere, AreHere, table_of, opening_board, seats_of, name_of_board};

    /// Shares a board, with so many seats, numbered from 0. Each has seen the entries so far.
    pub fn new(
        alloc: Global,
        board: Board,
        seats: u32,
    ) -> Result<(SharedBoard, Vec<Seat>), NoMemory>
        requires some { 0 < seats }
        requires few { seats ≤ MOST_SEATS }
        ensures opening { IfOk result (λ r. opening_board r.0 ≡ board) }
        ensures seats { IfOk result (λ r. seats_of r.0 ≡ seats) }
        ensures count { IfOk result (λ r. length r.1.items ≡ seats) }
        ensures here { IfOk result (λ r. AreHere r.0 (history_of board) 0 r.1.items) }
    {
        let (cell, all) = Cell::new(alloc, board, seats)?;
        Ok((SharedBoard { cell }, all))
    }

    /// Makes a console the active one, by the seat with this number. `NoConsole` comes where there is no console `n`,
    /// and is tested first. `Full` comes where the board has as many entries as it may have. A refusal makes no entry.
    pub fn activate<R: Wait>(
        &self,
        rt: &R,
        seat: &mut Seat,
        number: u32,
        n: u8,
    ) -> Result<(), VtFault>
        requires { IsHere self.now number seat.old }
        ensures seat { IsHere self.now number seat.new }
        ensures ok { OnOk result (Makes (name_of_board self.now) number (VtEvent.Activate n) seat.old seat.new) }
        ensures err { OnErr result (MakesNone number seat.old seat.new) }
        ensures refused { IfErr result
            (λ fault. IsRefusedCall (board_with (name_of_board self.now) (list_seen seat.new)) n fault) }
    {
        let mut turn = self.cell.turn(rt, seat);
        let result = turn.value().activate(number, n);
        self.end_turn(seat, turn);
        result
    }

    /// Tells which console is active, to the seat with this number. `Full` comes where the board has as many entries
    /// as it may have. A refusal makes no entry.
    pub fn state<R: Wait>(&self, rt: &R, seat: &mut Seat, number: u32) -> Result<u8, Denied>
        requires { IsHere self.now number seat.old }
        ensures seat { IsHere self.now number seat.new }
        ensures ok { IfOk result (λ n. Makes (name_of_board self.now) number (VtEvent.State n) seat.old seat.new) }
        ensures err { OnErr result (MakesNone number seat.old seat.new) }
        ensures denied { IfErr result
            (λ denied. IsDenied (board_with (name_of_board self.now) (list_seen seat.new)) denied) }
    {
        let mut turn = self.cell.turn(rt, seat);
        let result = turn.value().state(number);
        self.end_turn(seat, turn);
        result
    }

    /// Puts a key into the end of the active console, and pushes, by the seat with this number. There is one end for
    /// each console. `Full` comes where the board has as many entries as it may have. A refusal makes no entry, and
    /// leaves the ends as they were.
    pub fn key<R: Wait>(
        &self,
        rt: &R,
        seat: &mut Seat,
        number: u32,
        index: u32,
        byte: u8,
        ends: &mut [FlipIn],
    ) -> Result<Keyed, Denied>
        requires seat { IsHere self.now number seat.old }
        requires each { length ends.old ≡ (name_of_board self.now).consoles }
        requires can_put { CanPut ends.old }
        ensures seat { IsHere self.now number seat.new }
        ensures ok { IfOk result
            (λ keyed. Makes (name_of_board self.now) number (VtEvent.Key index keyed.console) seat.old seat.new) }
        ensures puts { IfOk result (λ keyed. GoesTo byte keyed.console keyed.lost ends.old ends.new) }
        ensures err { OnErr result (MakesNone number seat.old seat.new) }
        ensures ends { OnErr result (ends.new ≡ ends.old) }
        ensures denied { IfErr result
            (λ denied. IsDenied (board_with (name_of_board self.now) (list_seen seat.new)) denied) }
    {
        let mut turn = self.cell.turn(rt, seat);
        let result = turn.value().key(number, index, byte, ends);
        self.end_turn(seat, turn);
        result
    }

    /// Ends the sharing, with all the seats that `new` gave, in any order. The board's entries go on from what each
    /// seat saw, with just the entries of that seat that it made.
    pub fn close(self, seats: Vec<Seat>) -> Board
        requires here { EachSeat (λ s. IsHere self (number_of s) s) seats.items }
        requires all { HasAll (seats_of self) seats.items }
        ensures name { board_name result ≡ name_of_board self }
        ensures board { IsBoard result }
        ensures list { GoesOn (λ k. k < seats_of self) (history_of (opening_board self)) (history_of result) }
        ensures seats { EachSeat (HasAllOf (history_of result)) seats.items }
    {
        let SharedBoard { cell } = self;
        let board = cell.close(seats);
        let _entries = board.entries(); // known: the entries are a board run
        board
    }

    /// Notes what this turn added, and gives the turn back.
    fn end_turn(&self, seat: &mut Seat, mut turn: Turn<Board>)
        requires seat { IsSeat (table_of self.now) seat.old }
        requires turn { has_turn seat.old ≡ true }
        requires lowered { is_raised seat.old ≡ false }
        requires name { name_of seat.old ≡ Some (board_name (value_in turn)) }
        requires list { AddsBy (number_of seat.old) (list_seen seat.old) (history_of (value_in turn)) }
        requires generation { generation_of (list_seen seat.old) ≡ 0 }
        ensures seat { IsSeat (table_of self.now) seat.new }
        ensures same { IsSameSeat seat.old seat.new }
        ensures references { KeepsUse seat.old seat.new }
        ensures turn { has_turn seat.new ≡ false }
        ensures list { list_seen seat.new ≡ history_of (value_in turn) }
    {
        self.cell.note(seat, &mut turn);
        self.cell.give(seat, turn);
    }
}
