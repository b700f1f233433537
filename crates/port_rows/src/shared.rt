//! A port that threads share: callers beside one another and beside a flusher, and the entries that each seat makes.

ghost use Rattle.std.specs.Prelude.{◌≡◌, ◌+◌, ◌<◌, ◌^◌, [], IfOk, IfSome, length, sum};
ghost use Rattle.std.specs.Thread.{IsSync};
ghost use Rattle.tty_calls.specs.Plain.{call_of, handle_of};
ghost use Rattle.tty_calls.specs.Limits.{byte_count};
ghost use Rattle.port_cell.specs.Knowledge.{list_seen};
ghost use Rattle.tty_port.specs.Seen.{IsBetweenCalls, next_run};
ghost use Rattle.tty_port.specs.Flushing.{run_past};
ghost use Rattle.tty_port.specs.Shared.{IsHere, AreHere, name_of_port};

use flip_buffer::{FlipIn, flip};
use port_core::Port;
use std::alloc::Global;
use std::sync::Wait;
use std::test::Fail;
use std::thread::{Threads, join, yield_now};
use tty_base::{Flag, Flagged, NoMemory, Put};
use tty_calls::{Access, Answer, Call, Denied, Event, Journal, When, Who};
use tty_modes::Word;
use tty_port::{OpenGate, Seat, SharedPort};

fn moves<T: Send>() {}

fn is_shared<T: Send + Sync>() {}

#[test]
fn a_shared_port_and_its_seats_cross_threads() {
    is_shared::<SharedPort>();
    moves::<Seat>();
}

/// A port that two callers share, in whose flip buffer a character stands.
fn share(alloc: Global) -> Result<(FlipIn, SharedPort, Vec<Seat>), NoMemory>
    ensures callers { IfOk result (λ r. ((name_of_port r.1).callers ≡ 2) × (sum (name_of_port r.1).counts ≡ 2)) }
    ensures seats { IfOk result (λ r. AreHere r.1 [] 0 r.2.items × (length r.2.items ≡ 6)) }
    ensures ring { IfOk result (λ r. r.0.ring ≡ (name_of_port r.1).ring) }
{
    let (mut input, output) = flip(alloc, 64)?;
    let _put = input.put(Flagged {
        byte: b'x',
        flag: Flag::Normal,
    });
    input.push();
    let port = Port::new(alloc, &[2], 4194304, output)?;
    let (shared, seats) = SharedPort::new(alloc, port, 6)?;
    Ok((input, shared, seats))
}

/// Takes out the seat with the highest number.
fn last(shared: &SharedPort, seats: &mut Vec<Seat>) -> Seat
    requires { AreHere shared.now [] 0 seats.old.items × (0 < length seats.old.items) }
    ensures seat { IsHere shared.now (length seats.new.items) result × (list_seen result ≡ []) }
    ensures others { AreHere shared.now [] 0 seats.new.items }
    ensures count { length seats.new.items + 1 ≡ length seats.old.items }
{
    let Some(seat) = seats.pop() else {
        unreachable!()
    };
    seat
}

/// The seats of a port that two callers share.
#[derive(Drop)]
struct Seats {
    first: Seat,
    second: Seat,
    flusher: Seat,
    line: Seat,
    clock: Seat,
    session: Seat,
}

/// Takes all six seats apart.
fn apart(shared: &SharedPort, mut all: Vec<Seat>) -> Seats
    requires { AreHere shared.now [] 0 all.items × (length all.items ≡ 6) }
    ensures first { IsHere shared.now 0 result.first × (list_seen result.first ≡ []) }
    ensures second { IsHere shared.now 1 result.second × (list_seen result.second ≡ []) }
    ensures flusher { IsHere shared.now 2 result.flusher × (list_seen result.flusher ≡ []) }
    ensures line { IsHere shared.now 3 result.line × (list_seen result.line ≡ []) }
    ensures clock { IsHere shared.now 4 result.clock × (list_seen result.clock ≡ []) }
    ensures session { IsHere shared.now 5 result.session }
{
    let session = last(shared, &mut all);
    let clock = last(shared, &mut all);
    let line = last(shared, &mut all);
    let flusher = last(shared, &mut all);
    let second = last(shared, &mut all);
    let first = last(shared, &mut all);
    Seats {
        first,
        second,
        flusher,
        line,
        clock,
        session,
    }
}

/// Makes a caller's next call; `None` where it is denied.
fn make<R: Wait>(
    rt: &R,
    shared: &SharedPort,
    seat: &mut Seat,
    caller: u16,
    step: u32,
    call: &Call,
) -> Option<Answer>
    requires seat { IsHere shared.now caller seat.old }
    requires known { (caller < 2) × (sum (name_of_port shared.now).counts ≡ 2) }
    requires number { handle_of (call_of call.now) < 32 }
    requires bytes { byte_count (call_of call.now) < 2 ^ 32 }
    requires between { IsBetweenCalls caller step (list_seen seat.old) }
    ensures seat { IsHere shared.now caller seat.new }
    ensures between { IfSome result (λ _. IsBetweenCalls caller (step + 1) (list_seen seat.new)) }
{
    shared.call(rt, seat, caller, step, call, &OpenGate).ok()
}

/// Likewise, where it is of no interest what the call is answered.
fn makes<R: Wait>(
    rt: &R,
    shared: &SharedPort,
    seat: &mut Seat,
    caller: u16,
    step: u32,
    call: &Call,
) -> Option<()>
    requires seat { IsHere shared.now caller seat.old }
    requires known { (caller < 2) × (sum (name_of_port shared.now).counts ≡ 2) }
    requires number { handle_of (call_of call.now) < 32 }
    requires bytes { byte_count (call_of call.now) < 2 ^ 32 }
    requires between { IsBetweenCalls caller step (list_seen seat.old) }
    ensures seat { IsHere shared.now caller seat.new }
    ensures between { IfSome result (λ _. IsBetweenCalls caller (step + 1) (list_seen seat.new)) }
{
    let Some(answer) = make(rt, shared, seat, caller, step, call) else {
        return None;
    };
    drop(answer);
    Some(())
}

/// Opens a handle of the caller's own number, and then makes two calls in turn, 1,000 times in all.
fn ask<'a, 'c, R: Wait>(
    rt: &R,
    shared: &SharedPort,
    mut seat: Seat,
    caller: u16,
    calls: (&'a Call<'c>, &'a Call<'c>),
) -> Seat
    requires seat { IsHere shared.now caller seat × (list_seen seat ≡ []) }
    requires known { (caller < 2) × (sum (name_of_port shared.now).counts ≡ 2) }
    requires numbers { (handle_of (call_of calls.0.now) < 32) × (handle_of (call_of calls.1.now) < 32) }
    requires bytes { (byte_count (call_of calls.0.now) < 2 ^ 32) × (byte_count (call_of calls.1.now) < 2 ^ 32) }
    ensures { IsHere shared.entry.now caller result }
{
    let open = Call::Open {
        h: caller as u8,
        access: Access::Rw,
        nonblock: false,
    };
    let Some(_opened) = makes(rt, shared, &mut seat, caller, 0, &open) else {
        return seat;
    };
    for step in 1..1001 {
        let call = if step % 2 == 0 { calls.0 } else { calls.1 };
        let Some(_made) = makes(rt, shared, &mut seat, caller, step, call) else {
            return seat;
        };
    }
    seat
}

/// Makes flush runs until one has handed something over.
fn flush<R: Wait>(rt: &R, shared: &SharedPort, mut seat: Seat) -> Seat
    requires { IsHere shared.now 2 seat × ((name_of_port shared.now).callers ≡ 2) × (list_seen seat ≡ []) }
    ensures { IsHere shared.now 2 result }
{
    for _ in rt.forever() {
        match shared.flush_run(rt, &mut seat, 0) {
            Ok(0) => yield_now(),
            _ => return seat,
        }
    }
    unreachable!()
}

/// The callers make their calls beside one another, and beside a flusher.
fn three<'a, 'c, R: Threads + Wait + Sync>(
    rt: &R,
    shared: &SharedPort,
    seats: (Seat, Seat, Seat),
    first: (&'a Call<'c>, &'a Call<'c>),
    second: (&'a Call<'c>, &'a Call<'c>),
) -> (Seat, (Seat, Seat))
    requires first { IsHere shared.now 0 seats.0 × (list_seen seats.0 ≡ []) }
    requires second { IsHere shared.now 1 seats.1 × (list_seen seats.1 ≡ []) }
    requires flusher { IsHere shared.now 2 seats.2 × (list_seen seats.2 ≡ []) }
    requires callers { ((name_of_port shared.now).callers ≡ 2) × (sum (name_of_port shared.now).counts ≡ 2) }
    requires numbers { (handle_of (call_of first.0.now) < 32)
        × (handle_of (call_of first.1.now) < 32)
        × (handle_of (call_of second.0.now) < 32)
        × (handle_of (call_of second.1.now) < 32) }
    requires bytes { (byte_count (call_of first.0.now) < 2 ^ 32)
        × (byte_count (call_of first.1.now) < 2 ^ 32)
        × (byte_count (call_of second.0.now) < 2 ^ 32)
        × (byte_count (call_of second.1.now) < 2 ^ 32) }
    ensures first { IsHere shared.now 0 result.0 }
    ensures second { IsHere shared.now 1 result.1.0 }
    ensures flusher { IsHere shared.now 2 result.1.1 }
{
    let (one, two, three) = seats;
    join(
        rt,
        move || -> Seat
            requires { IsSync R.row
                × IsHere shared.now 0 one
                × (list_seen one ≡ [])
                × (sum (name_of_port shared.now).counts ≡ 2)
                × (handle_of (call_of first.0.now) < 32)
                × (handle_of (call_of first.1.now) < 32)
                × (byte_count (call_of first.0.now) < 2 ^ 32)
                × (byte_count (call_of first.1.now) < 2 ^ 32) }
            ensures { IsHere shared.entry.now 0 result }
        { ask(rt, shared, one, 0, first) },
        move || -> (Seat, Seat)
            requires { IsSync R.row
                × IsHere shared.now 1 two
                × (list_seen two ≡ [])
                × IsHere shared.now 2 three
                × (list_seen three ≡ [])
                × ((name_of_port shared.now).callers ≡ 2)
                × (sum (name_of_port shared.now).counts ≡ 2)
                × (handle_of (call_of second.0.now) < 32)
                × (handle_of (call_of second.1.now) < 32)
                × (byte_count (call_of second.0.now) < 2 ^ 32)
                × (byte_count (call_of second.1.now) < 2 ^ 32) }
            ensures { IsHere shared.entry.now 1 result.0 × IsHere shared.entry.now 2 result.1 }
        { two_of_three(rt, shared, two, three, second) },
    )
}

fn two_of_three<'a, 'c, R: Threads + Wait + Sync>(
    rt: &R,
    shared: &SharedPort,
    caller: Seat,
    flusher: Seat,
    calls: (&'a Call<'c>, &'a Call<'c>),
) -> (Seat, Seat)
    requires caller { IsHere shared.now 1 caller × (list_seen caller ≡ []) }
    requires flusher { IsHere shared.now 2 flusher × (list_seen flusher ≡ []) }
    requires callers { ((name_of_port shared.now).callers ≡ 2) × (sum (name_of_port shared.now).counts ≡ 2) }
    requires numbers { (handle_of (call_of calls.0.now) < 32) × (handle_of (call_of calls.1.now) < 32) }
    requires bytes { (byte_count (call_of calls.0.now) < 2 ^ 32) × (byte_count (call_of calls.1.now) < 2 ^ 32) }
    ensures { IsHere shared.now 1 result.0 × IsHere shared.now 2 result.1 }
{
    join(
        rt,
        move || -> Seat
            requires { IsSync R.row
                × IsHere shared.now 1 caller
                × (list_seen caller ≡ [])
                × (sum (name_of_port shared.now).counts ≡ 2)
                × (handle_of (call_of calls.0.now) < 32)
                × (handle_of (call_of calls.1.now) < 32)
                × (byte_count (call_of calls.0.now) < 2 ^ 32)
                × (byte_count (call_of calls.1.now) < 2 ^ 32) }
            ensures { IsHere shared.entry.now 1 result }
        { ask(rt, shared, caller, 1, calls) },
        move || -> Seat
            requires { IsSync R.row
                × IsHere shared.now 2 flusher
                × (list_seen flusher ≡ [])
                × ((name_of_port shared.now).callers ≡ 2) }
            ensures { IsHere shared.entry.now 2 result }
        { flush(rt, shared, flusher) },
    )
}

/// Ends the sharing, with all six seats.
fn end(alloc: Global, shared: SharedPort, seats: Seats) -> Result<Port, NoMemory>
    requires callers { (name_of_port shared).callers ≡ 2 }
    requires first { IsHere shared 0 seats.first × IsHere shared 1 seats.second }
    requires flusher { IsHere shared 2 seats.flusher }
    requires others { IsHere shared 3 seats.line × IsHere shared 4 seats.clock × IsHere shared 5 seats.session }
{
    let Seats {
        first,
        second,
        flusher,
        line,
        clock,
        session,
    } = seats;
    let Ok(all) = vec![in alloc; first, second, flusher, line, clock, session] else {
        drop(shared);
        return Err(NoMemory);
    };
    Ok(shared.close(all))
}

/// Plays on three threads.
fn play<'a, 'c, R: Threads + Wait + Sync>(
    rt: &R,
    alloc: Global,
    first: (&'a Call<'c>, &'a Call<'c>),
    second: (&'a Call<'c>, &'a Call<'c>),
) -> Result<Port, NoMemory>
    requires numbers { (handle_of (call_of first.0.now) < 32)
        × (handle_of (call_of first.1.now) < 32)
        × (handle_of (call_of second.0.now) < 32)
        × (handle_of (call_of second.1.now) < 32) }
    requires bytes { (byte_count (call_of first.0.now) < 2 ^ 32)
        × (byte_count (call_of first.1.now) < 2 ^ 32)
        × (byte_count (call_of second.0.now) < 2 ^ 32)
        × (byte_count (call_of second.1.now) < 2 ^ 32) }
{
    let (input, shared, all) = share(alloc)?;
    let Seats {
        first: one,
        second: two,
        flusher,
        line,
        clock,
        session,
    } = apart(&shared, all);
    let (one, (two, flusher)) = three(rt, &shared, (one, two, flusher), first, second);
    drop(input);
    let seats = Seats {
        first: one,
        second: two,
        flusher,
        line,
        clock,
        session,
    };
    end(alloc, shared, seats)
}

fn is_answer(event: &Event) -> bool {
    match event {
        Event::Answer { .. } => true,
        _ => false,
    }
}

/// How many steps of the caller are answered, where they are answered in their order.
fn answered(journal: &Journal, caller: u16) -> Option<u32> {
    let mut next = 0;
    for place in 0..journal.len() {
        let entry = journal.at(place);
        if entry.who == Who::Caller(caller) && is_answer(&entry.event) {
            if entry.step != next || next > 1000 {
                return None;
            }
            next += 1;
        }
    }
    Some(next)
}

/// Whether all calls of both callers are answered.
fn are_answered(journal: &Journal) -> bool {
    answered(journal, 0) == Some(1001) && answered(journal, 1) == Some(1001)
}

#[test]
fn two_callers_beside_a_flusher(rt: HostRuntime) -> Result<(), Fail> {
    let first = (&Call::Inq { h: 0 }, &Call::Outq { h: 0 });
    let second = (&Call::Inq { h: 1 }, &Call::Outq { h: 1 });
    let port = play(&rt, rt.alloc(), first, second)?;
    let are_answered = are_answered(port.journal()) && port.journal().len() == 2003;
    drop(port);
    assert!(rt; are_answered);
    Ok(())
}

#[test]
fn changes_beside_writes(rt: HostRuntime) -> Result<(), Fail> {
    let bytes = [b'x'; 5000];
    let write = Call::Write {
        h: 1,
        bytes: &bytes,
    };
    let first = (
        &Call::SetDisc { h: 0, number: 0 },
        &Call::SetDisc { h: 0, number: 1 },
    );
    let port = play(&rt, rt.alloc(), first, (&write, &write))?;
    let are_answered = are_answered(port.journal()) && port.generation() == 1000;
    drop(port);
    assert!(rt; are_answered);
    Ok(())
}

/// Opens the first handle for the first caller, which waits for nothing through it.
fn open_first<R: Wait>(rt: &R, shared: &SharedPort, seat: &mut Seat) -> Option<()>
    requires seat { IsHere shared.now 0 seat.old × (list_seen seat.old ≡ []) }
    requires callers { sum (name_of_port shared.now).counts ≡ 2 }
    ensures seat { IsHere shared.now 0 seat.new }
    ensures between { IfSome result (λ _. IsBetweenCalls 0 1 (list_seen seat.new)) }
{
    let open = Call::Open {
        h: 0,
        access: Access::Rw,
        nonblock: true,
    };
    makes(rt, shared, seat, 0, 0, &open)
}

/// Opens the port, makes it raw, and reads what a flush run handed over before the line's end. Tells
/// how many characters that were, and whether the read gave the one of `share`.
fn read_early<R: Wait>(
    rt: &R,
    shared: &SharedPort,
    caller: &mut Seat,
    flusher: &mut Seat,
    raw: &Call,
) -> Option<(u32, bool)>
    requires caller { IsHere shared.now 0 caller.old × (list_seen caller.old ≡ []) }
    requires flusher { IsHere shared.now 2 flusher.old × (list_seen flusher.old ≡ []) }
    requires callers { ((name_of_port shared.now).callers ≡ 2) × (sum (name_of_port shared.now).counts ≡ 2) }
    requires number { handle_of (call_of raw.now) < 32 }
    requires bytes { byte_count (call_of raw.now) < 2 ^ 32 }
    ensures caller { IsHere shared.now 0 caller.new }
    ensures flusher { IsHere shared.now 2 flusher.new }
    ensures between { IfSome result (λ _. IsBetweenCalls 0 3 (list_seen caller.new)) }
    ensures next { IfSome result (λ told. next_run (list_seen flusher.new) ≡ run_past 0 told.0) }
{
    let Some(_opened) = open_first(rt, shared, caller) else {
        return None;
    };
    let Some(_changed) = makes(rt, shared, caller, 0, 1, raw) else {
        return None;
    };
    let Ok(count) = shared.flush_run(rt, flusher, 0) else {
        return None;
    };
    let read = Call::Read { h: 0, n: 8 };
    let Some(answer) = make(rt, shared, caller, 0, 2, &read) else {
        return None;
    };
    let gave = gives(&answer, b"x");
    drop(answer);
    Some((count, gave))
}

/// Ends line and clock.
fn end_line_and_clock<R: Wait>(
    rt: &R,
    shared: &SharedPort,
    line: &mut Seat,
    putter: &mut FlipIn,
    clock: &mut Seat,
) -> Result<(), Denied>
    requires line { IsHere shared.now 3 line.old × (list_seen line.old ≡ []) }
    requires clock { IsHere shared.now 4 clock.old × (list_seen clock.old ≡ []) }
    requires callers { (name_of_port shared.now).callers ≡ 2 }
    requires ring { putter.old.ring ≡ (name_of_port shared.now).ring }
    ensures line { IsHere shared.now 3 line.new }
    ensures clock { IsHere shared.now 4 clock.new }
{
    shared.line_end(rt, line, putter)?;
    shared.clock_end(rt, clock)
}

/// Ends both callers.
fn end_callers<R: Wait>(
    rt: &R,
    shared: &SharedPort,
    first: &mut Seat,
    second: &mut Seat,
) -> Result<(), Denied>
    requires first { IsHere shared.now 0 first.old × IsBetweenCalls 0 3 (list_seen first.old) }
    requires second { IsHere shared.now 1 second.old × (list_seen second.old ≡ []) }
    requires callers { sum (name_of_port shared.now).counts ≡ 2 }
    ensures first { IsHere shared.now 0 first.new }
    ensures second { IsHere shared.now 1 second.new }
{
    shared.caller_end(rt, first, 0)?;
    shared.caller_end(rt, second, 1)
}

/// What one thread found that used all seats of a port.
#[derive(Clone, Copy)]
struct Found {
    /// How many characters two flush runs handed over.
    handed: (u32, u32),
    /// Whether the read gave the character.
    gave: bool,
    /// Whether the phase might end before and after its callers' end.
    ended: (bool, bool),
}

/// The number of the flush run after the first, which handed over so many characters.
fn next_after(count: u32) -> u32
    ensures { result ≡ run_past 0 count }
{
    if count == 0 { 0 } else { 1 }
}

/// Plays a phase on one thread.
fn phase<R: Wait>(
    rt: &R,
    shared: &SharedPort,
    seats: &mut Seats,
    putter: &mut FlipIn,
) -> Option<Found>
    requires first { IsHere shared.now 0 seats.old.first × (list_seen seats.old.first ≡ []) }
    requires second { IsHere shared.now 1 seats.old.second × (list_seen seats.old.second ≡ []) }
    requires flusher { IsHere shared.now 2 seats.old.flusher × (list_seen seats.old.flusher ≡ []) }
    requires line { IsHere shared.now 3 seats.old.line × (list_seen seats.old.line ≡ []) }
    requires clock { IsHere shared.now 4 seats.old.clock × (list_seen seats.old.clock ≡ []) }
    requires session { IsHere shared.now 5 seats.old.session }
    requires callers { ((name_of_port shared.now).callers ≡ 2) × (sum (name_of_port shared.now).counts ≡ 2) }
    requires ring { putter.old.ring ≡ (name_of_port shared.now).ring }
    ensures first { IsHere shared.now 0 seats.new.first × IsHere shared.now 1 seats.new.second }
    ensures flusher { IsHere shared.now 2 seats.new.flusher }
    ensures others { IsHere shared.now 3 seats.new.line
        × IsHere shared.now 4 seats.new.clock
        × IsHere shared.now 5 seats.new.session }
{
    let raw = Call::SetModes {
        h: 0,
        when: When::Now,
        words: &[Word::Raw],
    };
    let Some((count, gave)) = read_early(rt, shared, &mut seats.first, &mut seats.flusher, &raw)
    else {
        return None;
    };
    end_line_and_clock(rt, shared, &mut seats.line, putter, &mut seats.clock).ok()?;
    let early = shared.ended(rt, &mut seats.session);
    end_callers(rt, shared, &mut seats.first, &mut seats.second).ok()?;
    let rest = shared
        .flush_run(rt, &mut seats.flusher, next_after(count))
        .ok()?;
    let ended = shared.ended(rt, &mut seats.session);
    Some(Found {
        handed: (count, rest),
        gave,
        ended: (early, ended),
    })
}

/// Plays a phase on one thread, and ends the sharing.
fn play_alone<R: Wait>(rt: &R, alloc: Global) -> Result<(Option<Found>, Port), NoMemory> {
    let (mut putter, shared, all) = share(alloc)?;
    let mut seats = apart(&shared, all);
    let found = phase(rt, &shared, &mut seats, &mut putter);
    drop(putter);
    Ok((found, end(alloc, shared, seats)?))
}

/// Who made the entries of the phase, each with the step.
const MAKERS: [(Who, u32); 8] = [
    (Who::Caller(0), 0),
    (Who::Caller(0), 1),
    (Who::Flusher, 0),
    (Who::Caller(0), 2),
    (Who::Line, 0),
    (Who::Clock, 0),
    (Who::Caller(0), 3),
    (Who::Caller(1), 0),
];

fn is_made_by(journal: &Journal, place: usize, maker: (Who, u32)) -> bool {
    match journal.get(place) {
        Some(entry) => entry.who == maker.0 && entry.step == maker.1,
        None => false,
    }
}

fn are_made(journal: &Journal) -> bool {
    for (place, maker) in MAKERS.iter().enumerate() {
        if !is_made_by(journal, place, *maker) {
            return false;
        }
    }
    journal.len() == MAKERS.len()
}

fn gives(answer: &Answer, wanted: &[u8]) -> bool {
    match answer {
        Answer::Got(bytes) => bytes.as_slice() == wanted,
        _ => false,
    }
}

/// Whether the first of two flush runs handed a character over, the read gave it, and the phase might end at its end.
fn is_the_phase(found: Option<Found>) -> bool {
    match found {
        Some(found) => found.handed == (1, 0) && found.gave && found.ended == (false, true),
        None => false,
    }
}

#[test]
fn each_seat_makes_its_entries(rt: HostRuntime) -> Result<(), Fail> {
    let (found, port) = play_alone(&rt, rt.alloc())?;
    let are_made = is_the_phase(found) && are_made(port.journal());
    drop(port);
    assert!(rt; are_made);
    Ok(())
}
