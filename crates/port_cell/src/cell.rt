//! The cell itself: how it is made with its seats, and how it ends with all of them.

ghost use Rattle.std.specs.Prelude.{◌≡◌, ℕ, ◌+◌, ◌<◌, ◌≤◌, [], IfOk, length};
ghost use Rattle.tty_base.specs.Sizes.{MOST_SEATS};
ghost use Rattle.port_cell.specs.Entries.{generation_of, entries_by, GoesOn};
ghost use Rattle.port_cell.specs.Views.{total, installs_of, first_view};
ghost use Rattle.port_cell.specs.Knowledge.{number_of, own_entries, install_count};
ghost use Rattle.port_cell.specs.Seats.{AllNew, IsFree, EachSeat, HasAll, IsNamedAs, GoesOnFrom};
ghost use Rattle.port_cell.specs.Joining.{Finds, PartOf, HasNumber, FindsJoined};

use crate::kept::Kept;
use crate::plays::{Deal, TakeIn};
use crate::rule::{CellRule, Opening};
use crate::sleepers::Sleepers;
use crate::view::View;
use atomic_table::{Refused, Table};
use change_wait::Waiters;
use std::alloc::Global;
use std::snapshot::Snapshot;
use tty_base::NoMemory;

/// A thread's place at a cell. It has no bytes.
pub type Seat<V> = atomic_table::Seat<Option<V>, View<<V as Kept>::Name, <V as Kept>::Entry>>;

type CellTable<V> = Table<
    Option<V>,
    View<<V as Kept>::Name, <V as Kept>::Entry>,
    Opening<V>,
    CellRule,
    Global,
>;

// The words of the table.
pub(crate) const REFERENCES: usize = 0;

pub(crate) const TURN: usize = 1;

pub(crate) const COUNT: usize = 2;

/// One value that threads share.
#[derive(Drop)]
pub struct Cell<V: Kept> {
    pub(crate) table: CellTable<V>,
    pub(crate) for_turn: Sleepers,
    /// Those who wait for a change: of references and generations, after which the cell wakes them, or of
    /// entries, after which who noted them does.
    pub for_change: Waiters,
    ghost counted: { (table.shared.table_id.words ≡ 3) × (table.shared.table_id.slots ≡ 1) },
    ghost some: { 0 < table.shared.key.seats },
}

impl<V: Kept> Cell<V> {
    ghost use Rattle.port_cell.specs.Cells.{identity_of, opening_value, seat_count};

    /// A cell that keeps the value, with its seats, numbered from 0. Want of memory drops the value.
    pub fn new(alloc: Global, value: V, seats: u32) -> Result<(Cell<V>, Vec<Seat<V>>), NoMemory>
    where
        V: Drop,
        requires some { 0 < seats }
        requires few { seats ≤ MOST_SEATS }
        ensures opening { IfOk result (λ r. opening_value r.0 ≡ value) }
        ensures count { IfOk result (λ r. seat_count r.0 ≡ seats) }
        ensures seats { IfOk result (λ r. length r.1.items ≡ seats) }
        ensures each { IfOk result (λ r. AllNew (identity_of r.0) (V.name value) (V.list value) 0 r.1.items) }
    {
        let about = Opening {
            value: Snapshot::of(&value),
            seats: u64::from(seats),
        };
        let words = [u64::from(value.generation()) << 32, 0, value.count()];
        let mut slots = Vec::new(alloc);
        slots.push(Some(value))?;
        let Ok((table, first)) = Table::new(alloc, &words, slots, &about) else {
            return Err(NoMemory);
        };
        let cell = Cell {
            table,
            for_turn: Sleepers::new(),
            for_change: Waiters::new(),
        };
        let all = cell.deal(alloc, first, seats)?;
        Ok((cell, all))
    }

    // Makes the seats, each from the first.
    fn deal(&self, alloc: Global, mut first: Seat<V>, seats: u32) -> Result<Vec<Seat<V>>, NoMemory>
        requires first { (first.table_id ≡ identity_of self.now)
            × (first.me ≡ (first_view (V.name (opening_value self.now)) (V.list (opening_value self.now)), [])) }
        requires room { (0 < seats) × (seats ≤ seat_count self.now) × (seats ≤ MOST_SEATS) }
        ensures { IfOk result (λ all.
            (length all.items ≡ seats)
            × AllNew (identity_of self.now) (V.name (opening_value self.now)) (V.list (opening_value self.now))
            0 all.items) }
    {
        let mut others = Vec::new(alloc);
        'seats: for _ in 1..seats {
            others.push(self.table.shared.split_seat::<Deal>(&mut first))?;
        }
        others.insert(0, first)?;
        Ok(others)
    }

    /// Ends the sharing, with all the seats that `new` gave, each free. The value has what every seat
    /// saw, with the seat's own entries, and the generation that was installed last.
    pub fn close(self, seats: Vec<Seat<V>>) -> V
        requires free { EachSeat (IsFree (identity_of self)) seats.items }
        requires all { HasAll (seat_count self) seats.items }
        ensures opening { V.name result ≡ V.name (opening_value self) }
        ensures name { EachSeat (IsNamedAs (V.name result)) seats.items }
        ensures seats { EachSeat (GoesOnFrom (V.list result)) seats.items }
        ensures own { EachSeat (λ s. entries_by (number_of s) (V.list result) ≡ own_entries s) seats.items }

        // each entry after the opening list is some seat's
        ensures list { GoesOn (λ k. k < seat_count self) (V.list (opening_value self)) (V.list result) }

        // the generation installed last: it grew by one at each install of a seat
        ensures generation { generation_of (V.list result)
            ≡ generation_of (V.list (opening_value self)) + total install_count seats.items }
    {
        let mut seats = seats;
        let Some(last) = seats.pop() else {
            unreachable!()
        };
        let all = self.gather(last, seats);
        self.end(all)
    }

    // Joins the seats into one.
    fn gather(&self, mut last: Seat<V>, mut seats: Vec<Seat<V>>) -> Seat<V>
        requires last { IsFree (identity_of self.now) last }
        requires seats { EachSeat (IsFree (identity_of self.now)) seats.items }
        ensures free { IsFree (identity_of self.now) result }
        ensures last { PartOf result.me.0 last }
        ensures seats { EachSeat (PartOf result.me.0) seats.items }
        ensures installs { installs_of result.me.0 ≡ installs_of last.me.0 + total install_count seats.items }
    {
        while let Some(other) = seats.pop() {
            self.table.shared.join_seat::<TakeIn>(&mut last, other);
        }
        last
    }

    // Ends the sharing with the seat into which all others were joined.
    fn end(self, seat: Seat<V>) -> V
        requires free { IsFree (identity_of self) seat }
        requires all { (n : ℕ) → n < seat_count self → HasNumber seat.me.0 n }
        ensures opening { V.name result ≡ V.name (opening_value self) }
        ensures seat { Finds (V.name result) (V.list result) seat }
        ensures joined { FindsJoined (V.name result) (V.list result) seat.me.0.joined }
        ensures list { GoesOn (λ k. k < seat_count self) (V.list (opening_value self)) (V.list result) }
        ensures generation { generation_of (V.list result)
            ≡ generation_of (V.list (opening_value self)) + installs_of seat.me.0 }
    {
        let Cell {
            table,
            for_turn: _,
            for_change: _,
        } = self;
        let mut closed = table.close_with(seat);
        let place = closed.take(0);
        closed.free();
        let Some(value) = place else { unreachable!() };
        value
    }
}
