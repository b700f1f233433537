//! The seats of a shared port, dealt out for a phase and taken together after it.

ghost use Rattle.std.specs.Prelude.{◌≡◌, ◌+◌, ◌<◌, ◌++◌, ◌∷◌, [], IfOk, length};
ghost use Rattle.port_cell.specs.Knowledge.{list_seen};
ghost use Rattle.tty_port.specs.Shared.{IsHere, AreHere, name_of_port, opening_history};
ghost use Rattle.many_threads.specs.Seats.{AreDealt};

use tty_base::NoMemory;
use tty_port::{Seat, SharedPort};

/// The seats of a shared port: those of its callers in their order, and the other four.
#[derive(Drop)]
pub struct Seats {
    pub callers: Vec<Seat>,
    pub flusher: Seat,
    pub line: Seat,
    pub clock: Seat,
    pub session: Seat,
}

/// Takes out the seat with the highest number.
fn last_seat(shared: &SharedPort, seats: &mut Vec<Seat>) -> Seat
    requires here { AreHere shared.now (opening_history shared.now) 0 seats.old.items }
    requires some { 0 < length seats.old.items }
    ensures seat { IsHere shared.now (length seats.new.items) result }
    ensures seen { list_seen result ≡ opening_history shared.now }
    ensures others { AreHere shared.now (opening_history shared.now) 0 seats.new.items }
    ensures count { length seats.new.items + 1 ≡ length seats.old.items }
{
    let Some(seat) = seats.pop() else {
        unreachable!()
    };
    seat
}

/// Deals out the seats of a port that was just shared.
pub(crate) fn deal(shared: &SharedPort, mut seats: Vec<Seat>) -> Seats
    requires here { AreHere shared.now (opening_history shared.now) 0 seats.items }
    requires count { length seats.items ≡ (name_of_port shared.now).callers + 4 }
    ensures { AreDealt shared.now result }
{
    let session = last_seat(shared, &mut seats);
    let clock = last_seat(shared, &mut seats);
    let line = last_seat(shared, &mut seats);
    let flusher = last_seat(shared, &mut seats);
    Seats {
        callers: seats,
        flusher,
        line,
        clock,
        session,
    }
}

/// All seats, in their order.
pub(crate) fn gather(seats: Seats) -> Result<Vec<Seat>, NoMemory>
    ensures { IfOk result
        (λ all. all.items ≡ seats.callers.items ++ seats.flusher ∷ seats.line ∷ seats.clock ∷ seats.session ∷ []) }
{
    let Seats {
        mut callers,
        flusher,
        line,
        clock,
        session,
    } = seats;
    callers.reserve(4)?;
    callers.push_reserved(flusher);
    callers.push_reserved(line);
    callers.push_reserved(clock);
    callers.push_reserved(session);
    Ok(callers)
}
