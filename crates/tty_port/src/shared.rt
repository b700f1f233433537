//! The port, from its first seat to its last.

ghost use Rattle.std.specs.Prelude.{◌≡◌, ◌+◌, ◌-◌, ◌<◌, ◌≤◌, IfOk, length};
ghost use Rattle.tty_base.specs.Sizes.{MOST_SEATS};
ghost use Rattle.port_core.specs.Ports.{IsPort};
ghost use Rattle.port_cell.specs.Entries.{generation_of, GoesOn};
ghost use Rattle.port_cell.specs.Views.{total};
ghost use Rattle.port_cell.specs.Knowledge.{number_of, install_count};
ghost use Rattle.port_cell.specs.Seats.{EachSeat, HasAll};
ghost use Rattle.port_cell.specs.Cells.{opening_value, seat_count};
ghost use Rattle.tty_port.specs.Histories.{history_in, name_in};
ghost use Rattle.tty_port.specs.Placed.{IsHistoryOf};

use crate::kept_port::KeptPort;
use change_wait::Waiters;
use port_cell::Cell;
use port_core::Port;
use std::alloc::Global;
use std::sync::atomic::AtomicU64;
use tty_base::NoMemory;

/// A thread's place at a shared port. It has no bytes.
pub type Seat = port_cell::Seat<KeptPort>;

/// A port that threads share.
#[derive(Drop)]
pub struct SharedPort {
    pub(crate) cell: Cell<KeptPort>,
    pub(crate) for_flusher: Waiters,
    pub(crate) flusher_looked: AtomicU64,
    ghost counted: { seat_count cell ≡ (opening_value cell).callers + 4 },
}

impl SharedPort {
    ghost use Rattle.tty_port.specs.Shared.{IsHere, HasAllOf, AreHere, name_of_port, opening_history};

    /// Shares a port, with so many seats: each caller has the seat of its number, and flusher, line,
    /// clock and session have the last four. Each has seen the port's history so far.
    pub fn new(alloc: Global, port: Port, seats: u32) -> Result<(SharedPort, Vec<Seat>), NoMemory>
        requires some { 4 ≤ seats }
        requires few { seats ≤ MOST_SEATS }
        ensures name { IfOk result (λ r. name_of_port r.0 ≡ name_in (seats - 4) port) }
        ensures opening { IfOk result (λ r. opening_history r.0 ≡ history_in (seats - 4) port) }
        ensures history { IfOk result (λ r. IsHistoryOf (seats - 4) port (history_in (seats - 4) port)) }
        ensures count { IfOk result (λ r. length r.1.items ≡ seats) }
        ensures here { IfOk result (λ r. AreHere r.0 (opening_history r.0) 0 r.1.items) }
    {
        let kept = KeptPort {
            port: Box::new(alloc, port)?,
            callers: seats - 4,
        };
        kept.entry_count();
        let (cell, all) = Cell::new(alloc, kept, seats)?;
        let shared = SharedPort {
            cell,
            for_flusher: Waiters::new(),
            flusher_looked: AtomicU64::new(0),
        };
        Ok((shared, all))
    }

    /// Ends the sharing, with all the seats that `new` gave, in any order. The history of the port goes
    /// on from what each seat saw, with just the entries of that seat that it made.
    pub fn close(self, seats: Vec<Seat>) -> Port
        requires here { EachSeat (λ s. IsHere self (number_of s) s) seats.items }
        requires all { HasAll ((name_of_port self).callers + 4) seats.items }
        ensures port { IsPort result }
        ensures name { name_in (name_of_port self).callers result ≡ name_of_port self }
        ensures seats { EachSeat (HasAllOf (history_in (name_of_port self).callers result)) seats.items }
        ensures list { GoesOn (λ k. k < (name_of_port self).callers + 4) (opening_history self)
            (history_in (name_of_port self).callers result) }
        ensures history { IsHistoryOf (name_of_port self).callers result
            (history_in (name_of_port self).callers result) }
        ensures generation { generation_of (history_in (name_of_port self).callers result)
            ≡ generation_of (opening_history self) + total install_count seats.items }
    {
        let SharedPort {
            cell,
            for_flusher: _,
            flusher_looked: _,
        } = self;
        let kept = cell.close(seats);
        kept.entry_count();
        let KeptPort { port, callers: _ } = kept;
        port.known();
        Box::into_inner(port)
    }
}
