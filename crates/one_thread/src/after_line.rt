//! What comes after the line of a phase: flushes, callers and clock, up to the end of the phase.

ghost use Rattle.std.specs.Prelude.{◌≡◌, ◌≢◌, ℕ, ◌≤◌, ◌<◌, ◌^◌, ◌-◌, ◌+◌, All, Some, None, IfOk, IfErr};
ghost use Rattle.std.specs.Prelude.{MatchOption, OnErr, OnOk, length, map, slice_get, sum};
ghost use Rattle.tty_calls.specs.Plain.{call_of};
ghost use Rattle.tty_calls.specs.Sessions.{ticks_on};
ghost use Rattle.tty_terminal.specs.Steps.{after};
ghost use Rattle.port_core.specs.Attempts.{tried_of};
ghost use Rattle.port_core.specs.Ports.{call_in, Denies, IsOpen};
ghost use Rattle.legal_runs.specs.Legal.{phase_at};
ghost use Rattle.legal_runs.specs.Order.{can_go_on, is_of_consoles, is_waiting};
ghost use Rattle.play_base.specs.Roles.{Scene, calls_in, role_in, AreRolesOf};
ghost use Rattle.one_thread.specs.Stages.{IsAfterLine, EndsAfterLine, StopsAfterLine};
ghost use Rattle.one_thread.specs.Turns.{role_numbers, IsFirst, IsTurn, Plays, PlaysOn, next_run, going_after};
ghost use Rattle.one_thread.specs.Acts.{AddsEntry, InTurn, PlaysTurn, InCall, TriesCall};
ghost use Rattle.one_thread.specs.Acts.{PlaysCall, InLast, EndsCalls, PlaysLast, PlaysEnd};
ghost use Rattle.one_thread.specs.declared.after_line.Turn.TheVariants as turn;

use flip_buffer::FlipIn;
use play_base::Role;
use port_core::{Flushed, Port, Tried};
use tty_calls::{Call, Denied, Script};

/// The most characters of a piece of a flush run.
const PIECE: u32 = tty_base::sizes::PIECE as u32;

/// Where the player stands: the next piece of a flush run, the ticks that are left, and the place of
/// the caller whose write goes on.
#[derive(Clone, Copy)]
pub struct Stand {
    pub run: u32,
    pub part: u32,
    pub ticks: u32,
    pub going: Option<usize>,
}

/// What is done next: a piece of a flush run, a call of the caller at a place, a tick or the end of the
/// clock, or the end of the phase.
#[derive(Clone, Copy)]
pub enum Turn {
    Flush,
    Call(usize),
    Pass,
    End,
}

/// Whether a caller is not over, and does not wait or need not wait any more.
fn goes_on(port: &Port, role: &Role) -> bool
    requires { role.now.number < sum port.now.counts }
    ensures { result ≡ can_go_on (call_in port.now.kept) port.now.terminal role.now.number }
{
    !port.caller(role.number).over && !port.must_wait(role.number)
}

/// The place of the first caller that can go on.
fn first_to_go_on(port: &Port, roles: &[Role]) -> Option<usize>
    requires { All (λ r. r.number < sum port.now.counts) roles.now }
    ensures { IsFirst (can_go_on (call_in port.now.kept) port.now.terminal) (role_numbers roles.now) result }
{
    for (place, role) in roles.iter().enumerate() {
        if goes_on(port, role) {
            return Some(place);
        }
    }
    None
}

/// The place of the first caller that waits.
fn first_to_wait(port: &Port, roles: &[Role]) -> Option<usize>
    requires { All (λ r. r.number < sum port.now.counts) roles.now }
    ensures { IsFirst (is_waiting port.now.terminal) (role_numbers roles.now) result }
{
    for (place, role) in roles.iter().enumerate() {
        if port.caller(role.number).waits.is_some() {
            return Some(place);
        }
    }
    None
}

/// Whose turn it is.
#[inline(always)]
pub fn turn_of(port: &Port, roles: &[Role], going: Option<usize>, clock_first: bool) -> Turn
    requires known { All (λ r. r.number < sum port.now.counts) roles.now }
    requires place { (i : ℕ) → going ≡ Some i → i < length roles.now }
    ensures { IsTurn clock_first port.now (role_numbers roles.now) going result }
{
    if let Some(place) = going {
        return Turn::Call(place);
    }
    if !port.has_nothing_to_flush() {
        return Turn::Flush;
    }
    if clock_first && !port.clock_is_over() {
        return Turn::Pass;
    }
    if let Some(place) = first_to_go_on(port, roles) {
        return Turn::Call(place);
    }
    if !port.clock_is_over() {
        return Turn::Pass;
    }
    match first_to_wait(port, roles) {
        Some(place) => Turn::Call(place),
        None => Turn::End,
    }
}

/// The call of a caller's step, where the phase has one more.
fn next_call<'a>(role: &Role, scripts: &'a [Script], step: u32) -> Option<Call<'a>>
    requires { role.now.first ≤ step }
    ensures { MatchOption result
        (slice_get (calls_in (slice_get scripts.now role.now.place)) (step - role.now.first) ≡ None)
        (λ call.
        slice_get (calls_in (slice_get scripts.now role.now.place)) (step - role.now.first) ≡ Some (call_of call)) }
{
    let script = scripts.get(role.place)?;
    script.calls.get((step - role.first) as usize)
}

/// After an entry that is no flush: the next flush begins a run, and no write goes on.
fn rest(stand: Stand) -> Stand
    requires { next_run stand.run stand.part < 2 ^ 32 }
    ensures { result ≡ record { run = next_run stand.run stand.part; part = 0; ticks = stand.ticks; going = None } }
{
    let run = if stand.part == 0 {
        stand.run
    } else {
        stand.run + 1
    };
    Stand {
        run,
        part: 0,
        ticks: stand.ticks,
        going: None,
    }
}

/// The next piece of a flush run, of as many characters as can be.
pub fn flush(port: &mut Port, roles: &[Role], stand: Stand) -> Result<Stand, Denied>
    requires { InTurn roles.now port.old stand turn.Flush }
    ensures open { OnOk result (IsOpen port.old) }
    ensures adds { OnOk result (AddsEntry port.old port.new) }
    ensures ok { IfOk result (λ now. PlaysTurn roles.now port.old port.new stand now turn.Flush) }
    ensures err { IfErr result (λ d. Denies d port.old port.new) }
{
    port.known();
    match port.flush_piece(stand.run, stand.part, PIECE)? {
        Flushed::Took(_) => Ok(Stand {
            part: stand.part + 1,
            ..stand
        }),
        Flushed::Nothing => unreachable!(),
    }
}

/// A tick, or the end of the clock where none is left.
pub fn pass(port: &mut Port, roles: &[Role], stand: Stand) -> Result<Stand, Denied>
    requires { InTurn roles.now port.old stand turn.Pass }
    ensures open { OnOk result (IsOpen port.old) }
    ensures adds { OnOk result (AddsEntry port.old port.new) }
    ensures ok { IfOk result (λ now. PlaysTurn roles.now port.old port.new stand now turn.Pass) }
    ensures err { IfErr result (λ d. Denies d port.old port.new) }
{
    if stand.ticks == 0 {
        port.clock_end()?;
        return Ok(rest(stand));
    }
    port.tick()?;
    Ok(Stand {
        ticks: stand.ticks - 1,
        ..rest(stand)
    })
}

/// The place of a caller whose write goes on after an attempt.
fn goes_on_at(place: usize, tried: &Tried) -> Option<usize>
    ensures { result ≡ going_after place (tried_of tried.now) }
{
    match tried {
        Tried::Part => Some(place),
        Tried::Done(_) => None,
        Tried::MustWait => None,
    }
}

/// A caller tries its next call. It gives what that came to, beside where the player stands then.
#[inline(always)]
pub fn try_call(
    port: &mut Port,
    roles: &[Role],
    place: usize,
    call: &Call,
    stand: Stand,
) -> Result<(Tried, Stand), Denied>
    requires { InCall roles.now port.old stand place (call_of call.now) }
    ensures open { OnOk result (IsOpen port.old) }
    ensures tried { IfOk result
        (λ made. TriesCall roles.now port.old port.new place (call_of call.now) (tried_of made.0)) }
    ensures ok { IfOk result (λ made. PlaysCall roles.now port.old port.new stand made.1 place (call_of call.now)) }
    ensures err { IfErr result (λ d. Denies d port.old port.new) }
{
    let caller = roles[place].number;
    let step = port.caller(caller).next;
    let tried = port.attempt(caller, step, call)?;
    let now = Stand {
        going: goes_on_at(place, &tried),
        ..rest(stand)
    };
    Ok((tried, now))
}

/// A caller's calls of the phase are over.
pub fn end_calls(
    port: &mut Port,
    roles: &[Role],
    place: usize,
    stand: Stand,
) -> Result<Stand, Denied>
    requires { InLast roles.now port.old stand place }
    ensures open { OnOk result (IsOpen port.old) }
    ensures ended { OnOk result (EndsCalls roles.now port.old port.new place) }
    ensures ok { IfOk result (λ now. PlaysLast roles.now port.old port.new stand now place) }
    ensures err { IfErr result (λ d. Denies d port.old port.new) }
{
    port.caller_end(roles[place].number)?;
    Ok(rest(stand))
}

/// The phase is over. It gives the number of the next flush run.
pub fn end_phase(
    port: &mut Port,
    putter: &mut FlipIn,
    roles: &[Role],
    stand: Stand,
) -> Result<u32, Denied>
    requires turn { InTurn roles.now port.old stand turn.End }
    requires ring { putter.old.ring ≡ port.old.flip.ring }
    ensures open { OnOk result (IsOpen port.old) }
    ensures adds { OnOk result (AddsEntry port.old port.new) }
    ensures ok { IfOk result (λ next. PlaysEnd roles.now port.old port.new putter.old putter.new stand next) }
    ensures err { IfErr result (λ d. Denies d port.old port.new) }
    ensures putter { OnErr result (putter.new ≡ putter.old) }
{
    port.phase_end(putter)?;
    Ok(rest(stand).run)
}

/// The call of a caller goes on, or its calls of the phase are over.
fn go_on(
    port: &mut Port,
    roles: &[Role],
    scripts: &[Script],
    place: usize,
    stand: Stand,
) -> Result<Stand, Denied>
    ghost scene: { Scene }
    requires plays { Plays scene scripts.now roles.now port.old stand }
    requires turn { IsTurn (is_of_consoles scene.session) port.old (role_numbers roles.now) stand.going
        (turn.Call place) }
    ensures open { OnOk result (IsOpen port.old) }
    ensures ok { IfOk result (λ now. PlaysOn scene scripts.now roles.now port.old port.new stand now) }
    ensures err { IfErr result (λ d. Denies d port.old port.new) }
{
    let role = &roles[place];
    let step = port.caller(role.number).next;
    match next_call(role, scripts, step) {
        Some(call) => {
            let (_tried, now) = try_call(port, roles, place, &call, stand)?;
            Ok(now)
        }
        None => end_calls(port, roles, place, stand),
    }
}

/// One entry, by whose turn it is.
fn play_turn(
    port: &mut Port,
    roles: &[Role],
    scripts: &[Script],
    next: Turn,
    stand: Stand,
) -> Result<Stand, Denied>
    ghost scene: { Scene }
    requires plays { Plays scene scripts.now roles.now port.old stand }
    requires turn { IsTurn (is_of_consoles scene.session) port.old (role_numbers roles.now) stand.going next }
    requires goes_on { next ≢ turn.End }
    ensures open { OnOk result (IsOpen port.old) }
    ensures ok { IfOk result (λ now. PlaysOn scene scripts.now roles.now port.old port.new stand now) }
    ensures err { IfErr result (λ d. Denies d port.old port.new) }
{
    match next {
        Turn::Flush => flush(port, roles, stand),
        Turn::Call(place) => go_on(port, roles, scripts, place, stand),
        Turn::Pass => pass(port, roles, stand),
        Turn::End => unreachable!(),
    }
}

/// What comes after the line of a phase, with the clock before the callers or behind them. It gives the number of the
/// next flush run.
pub(crate) fn play_after_line(
    port: &mut Port,
    putter: &mut FlipIn,
    roles: &[Role],
    scripts: &[Script],
    ticks: u32,
    run: u32,
    clock_first: bool,
) -> Result<u32, Denied>
    ghost scene: { Scene }
    requires after { IsAfterLine scene port.old run }
    requires roles { AreRolesOf scene port.old.terminal.phase (map (role_in scripts.now) roles.now) }
    requires ticks { ticks ≡ ticks_on scene.port (phase_at scene.session port.old.terminal.phase) }
    requires ring { putter.old.ring ≡ port.old.flip.ring }
    requires first { clock_first ≡ is_of_consoles scene.session }
    ensures ok { IfOk result (λ next. EndsAfterLine scene port.old port.new putter.old putter.new next) }
    ensures err { IfErr result (λ d. StopsAfterLine scene port.old port.new d) }
    ensures putter { OnErr result (putter.new ≡ putter.old) }
{
    port.known();
    let mut stand = Stand {
        run,
        part: 0,
        ticks,
        going: None,
    };
    let mut next = turn_of(port, roles, stand.going, clock_first);
    while !matches!(next, Turn::End) {
        stand = play_turn(port, roles, scripts, next, stand)?;
        next = turn_of(port, roles, stand.going, clock_first);
    }
    end_phase(port, putter, roles, stand)
}
