//! Seats that use a cell of a journal of numbers, on one thread and on two, as tests.

ghost use Rattle.std.specs.Prelude.{◌≡◌, ◌<◌, ◌+◌, [], ◌∷◌, ◌++◌, false, length, IfOk};
ghost use Rattle.std.specs.Thread.{IsSync};
ghost use Rattle.port_cell.specs.Knowledge.{number_of, has_turn, IsAlone};
ghost use Rattle.port_cell.specs.Seats.{AllNew, IsFree, IsSeat};
ghost use Rattle.port_cell.specs.Cells.{identity_of, opening_value, seat_count};

use port_cell::{Cell, Changing, Kept, Seat, Stamped, Turn, Users};
use std::alloc::Global;
use std::process::Abort;
use std::sync::Wait;
use std::test::Fail;
use std::thread::{Threads, join};
use tty_base::NoMemory;

/// A journal of numbers.
#[derive(Drop)]
struct Log {
    name: u64,
    entries: Vec<Stamped<u32>>,
}

impl Kept for Log {
    type Name = u64;

    type Entry = u32;

    ghost name = { λ l. l.name };

    ghost list = { λ l. l.entries.items };

    fn count(&self) -> u64 {
        self.entries.len() as u64
    }

    fn generation(&self) -> u32 {
        match self.entries.last() {
            Some(entry) => entry.after,
            None => 0,
        }
    }
}

impl Log {
    fn add(&mut self, rt: &impl Abort, seat: u32, after: u32, what: u32)
        ensures name { self.new.name ≡ self.old.name }
        ensures list { self.new.entries.items
            ≡ self.old.entries.items ++ record { seat = seat; after = after; what = what } ∷ [] }
    {
        let added = self.entries.push(Stamped { seat, after, what }).is_ok();
        assert!(rt; added, "memory");
    }
}

fn open(alloc: Global, seats: u32) -> Result<(Cell<Log>, Vec<Seat<Log>>), NoMemory>
    requires { (0 < seats) × (seats < 10) }
    ensures { IfOk result (λ r.
        (seat_count r.0 ≡ seats)
        × (length r.1.items ≡ seats)
        × AllNew (identity_of r.0) (opening_value r.0).name (opening_value r.0).entries.items 0 r.1.items) }
{
    let log = Log {
        name: 7,
        entries: Vec::new(alloc),
    };
    let (cell, all) = Cell::new(alloc, log, seats)?;
    Ok((cell, all))
}

/// Takes out the seat with the highest number.
fn last(cell: &Cell<Log>, seats: &mut Vec<Seat<Log>>) -> Seat<Log>
    requires { AllNew (identity_of cell.now) (opening_value cell.now).name
        (opening_value cell.now).entries.items 0 seats.old.items
        × (0 < length seats.old.items) }
    ensures seat { IsFree (identity_of cell.now) result × (number_of result ≡ length seats.new.items) }
    ensures others { AllNew (identity_of cell.now) (opening_value cell.now).name
        (opening_value cell.now).entries.items 0 seats.new.items }
    ensures count { length seats.new.items + 1 ≡ length seats.old.items }
{
    let Some(seat) = seats.pop() else {
        unreachable!()
    };
    seat
}

/// One turn, in which the seat makes an entry of the generation that it finds.
fn record<R: Wait + Abort>(rt: &R, cell: &Cell<Log>, seat: &mut Seat<Log>, number: u32, what: u32)
    requires { IsFree (identity_of cell.now) seat.old × (number_of seat.old ≡ number) }
    ensures { IsFree (identity_of cell.now) seat.new × (number_of seat.new ≡ number) }
{
    let mut turn = cell.turn(rt, seat);
    let generation = turn.value().generation();
    turn.value().add(rt, number, generation, what);
    cell.note(seat, &mut turn);
    cell.give(seat, turn);
}

fn make<R: Wait + Abort>(rt: &R, cell: &Cell<Log>, mut seat: Seat<Log>, number: u32) -> Seat<Log>
    requires { IsFree (identity_of cell.now) seat × (number_of seat ≡ number) }
    ensures { IsFree (identity_of cell.now) result × (number_of result ≡ number) }
{
    for what in 0..100 {
        record(rt, cell, &mut seat, number, what);
    }
    seat
}

fn moves<T: Send>() {}

fn is_shared<T: Send + Sync>() {}

/// For any value that moves.
fn cross_threads<V: Kept + Send>() {
    is_shared::<Cell<V>>();
    moves::<Seat<V>>();
    moves::<Turn<V>>();
}

#[test]
fn cells_seats_and_turns_cross_threads() {
    cross_threads::<Log>();
}

/// Makes an entry of the next generation, and installs it.
fn raise<R: Wait + Abort>(rt: &R, cell: &Cell<Log>, seat: &mut Seat<Log>, number: u32)
    requires seat { IsSeat (identity_of cell.now) seat.old × (has_turn seat.old ≡ false) }
    requires alone { IsAlone seat.old × (number_of seat.old ≡ number) }
    ensures { IsFree (identity_of cell.now) seat.new × (number_of seat.new ≡ number) }
{
    let mut turn = cell.turn(rt, seat);
    let generation = turn.value().generation();
    assert!(rt; generation < 1000);
    turn.value().add(rt, number, generation + 1, 0);
    cell.note(seat, &mut turn);
    cell.install(seat, &mut turn);
    cell.give(seat, turn);
}

#[test]
fn three_seats(rt: HostRuntime) -> Result<(), Fail> {
    let (cell, mut seats) = open(rt.alloc(), 3)?;
    let mut third = last(&cell, &mut seats);
    let mut second = last(&cell, &mut seats);
    let mut first = last(&cell, &mut seats);
    assert!(rt; cell.enter(&mut first) == Ok(0));
    assert!(rt; cell.mark(&mut second) == Ok(()));
    assert!(rt; cell.enter(&mut third) == Err(Changing { word: 2147483649 }));
    assert!(rt; cell.settled(&mut second) == Err(Users { word: 2147483649 }));
    cell.leave(&mut first);
    assert!(rt; cell.settled(&mut second) == Ok(()));
    raise(&rt, &cell, &mut second, 1);
    assert!(rt; cell.enter(&mut third) == Ok(1));
    Ok(())
}

fn both<R: Threads + Wait + Abort + Sync>(
    rt: &R,
    cell: &Cell<Log>,
    first: Seat<Log>,
    second: Seat<Log>,
) -> (Seat<Log>, Seat<Log>)
    requires first { IsFree (identity_of cell.now) first × (number_of first ≡ 0) }
    requires second { IsFree (identity_of cell.now) second × (number_of second ≡ 1) }
    ensures first { IsFree (identity_of cell.now) result.0 × (number_of result.0 ≡ 0) }
    ensures second { IsFree (identity_of cell.now) result.1 × (number_of result.1 ≡ 1) }
{
    join(
        rt,
        move || -> Seat<Log>
            requires { IsSync R.row × IsFree (identity_of cell.now) first × (number_of first ≡ 0) }
            ensures { IsFree (identity_of cell.entry.now) result × (number_of result ≡ 0) }
        { make(rt, cell, first, 0) },
        move || -> Seat<Log>
            requires { IsSync R.row × IsFree (identity_of cell.now) second × (number_of second ≡ 1) }
            ensures { IsFree (identity_of cell.entry.now) result × (number_of result ≡ 1) }
        { make(rt, cell, second, 1) },
    )
}

/// Whether each seat's entries are 0 to 99 in their order.
fn is_in_order(entries: &[Stamped<u32>]) -> bool {
    let mut next = (0, 0);
    for entry in entries {
        if entry.seat == 0 && entry.what == next.0 && entry.what < 100 {
            next.0 = entry.what + 1;
        } else if entry.seat == 1 && entry.what == next.1 && entry.what < 100 {
            next.1 = entry.what + 1;
        } else {
            return false;
        }
    }
    next == (100, 100)
}

#[test]
fn two_threads(rt: HostRuntime) -> Result<(), Fail> {
    let (cell, mut seats) = open(rt.alloc(), 2)?;
    let second = last(&cell, &mut seats);
    let first = last(&cell, &mut seats);
    let (first, second) = both(&rt, &cell, first, second);
    let all = vec![in rt.alloc(); first, second]?;
    let log = cell.close(all);
    assert!(rt; is_in_order(log.entries.as_slice()));
    Ok(())
}
