//! The callers of a phase, each on a thread of its own.

ghost use Rattle.std.specs.Prelude.{◌≡◌, ◌++◌, ◌∷◌, [], IfOk, length, slice_get, ◌||◌};
ghost use Rattle.play_base.specs.Roles.{calls_in};
ghost use Rattle.tty_port.specs.Shared.{AreHere, opening_history};
ghost use Rattle.many_threads.specs.Callers.{plain_cast, CanPlayAll, CallersCome};

use crate::thread_making::{CallerPromise, start_caller};
use many_threads::{CallersBack, SeatBack, Site, is_full};
use play_base::Role;
use std::snapshot::Snapshot;
use std::sync::Wait;
use std::thread::{Scope, Threads};
use tty_base::NoMemory;
use tty_calls::{Calls, Script};
use tty_port::{Gate, Seat};

/// The calls of the script at a place; none where no script stands.
fn calls_at<'a>(scripts: &'a [Script], place: usize, none: &'a Calls) -> &'a Calls
    requires { none.now.items ≡ [] }
    ensures { result.now.items ≡ calls_in (slice_get scripts.now place) }
{
    match scripts.get(place) {
        Some(script) => &script.calls,
        None => none,
    }
}

/// The callers and the one after them.
fn with_seat(back: CallersBack, seat: Seat, full: bool) -> Result<CallersBack, NoMemory>
    ensures seats { IfOk result (λ r. r.seats.items ≡ back.seats.items ++ seat ∷ []) }
    ensures full { IfOk result (λ r. r.full ≡ (back.full || full)) }
{
    let CallersBack {
        mut seats,
        full: before,
    } = back;
    seats.push(seat)?;
    Ok(CallersBack {
        seats,
        full: before || full,
    })
}

/// Plays callers, each that has a role in the phase on a thread of its own. They begin with the first
/// caller of the port; once they are made, so are all threads of the phase.
pub(crate) fn play_callers<'s, E, R: Threads + Wait + Sync, G: Gate + Sync>(
    scope: &Scope<'s, E>,
    rt: &'s R,
    gate: &'s G,
    site: Site<'s>,
    mut seats: Vec<Seat>,
    cast: &[Option<Role>],
    scripts: &'s [Script],
) -> Result<CallersBack, NoMemory>
    requires seats { AreHere site.shared.now (opening_history site.shared.now) 0 seats.items }
    requires count { length seats.items ≡ length cast.now }
    requires cast { CanPlayAll site.shared.now 0 (plain_cast scripts.now cast.now) }
    requires none { site.no_calls.now.items ≡ [] }
    ensures { IfOk result (λ back. CallersCome site.entry.shared.now (plain_cast scripts.now cast.now) back) }
{
    let Some((last, before)) = cast.split_last() else {
        site.start.open(rt);
        return Ok(CallersBack { seats, full: false });
    };
    let Some(seat) = seats.pop() else {
        unreachable!()
    };
    let Some(role) = *last else {
        let others = play_callers(scope, rt, gate, site, seats, before, scripts)?;
        return with_seat(others, seat, false);
    };
    let calls = calls_at(scripts, role.place, site.no_calls);
    let promise = CallerPromise {
        site,
        seat: Snapshot::of(&seat),
        caller: role.number,
        first: role.first,
        calls,
    };
    let child = start_caller(scope, rt, gate, seat, promise)?;
    let others = play_callers(scope, rt, gate, site, seats, before, scripts);
    let SeatBack { seat, result } = child.join(rt)?;
    let full = is_full(result)?;
    with_seat(others?, seat, full)
}
