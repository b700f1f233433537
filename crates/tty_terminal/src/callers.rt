//! Where the callers of a terminal stand, and what a close, a hangup and a new phase do to each.

ghost use Rattle.std.specs.Prelude.{◌≡◌, ◌<◌, IfOk, length, map, count_by};
ghost use Rattle.std.specs.Prelude.{is_some, replicate, slice_index_or, slice_set};
ghost use Rattle.tty_terminal.specs.Terminals.{idle_caller, is_over, is_resting, has_begun};
ghost use Rattle.tty_terminal.specs.Generations.{closed_handle as handle_after_close};
ghost use Rattle.tty_terminal.specs.Generations.{caller_after_close, caller_after_hangup};
ghost use Rattle.tty_terminal.specs.Steps.{caller_after_phase};
ghost use Rattle.handle_table.specs.Handles.{handle_after_hangup};

use handle_table::HandleState;
use std::alloc::Global;
use std::marker::Model;
use tty_base::NoMemory;

/// The handle that a call began with which waits, or of which parts were taken: its number, and what
/// became of it. `None` says that it was closed while it was live.
#[derive(Clone, Copy, PartialEq, Eq)]
pub struct Bound {
    pub h: u8,
    pub handle: Option<HandleState>,
}

/// Where a caller stands.
#[derive(Clone, Copy, PartialEq, Eq)]
pub struct CallerState {
    /// The number of its next step.
    pub next: u32,
    /// Whether its calls of this phase are over.
    pub over: bool,
    /// The tick since which its call waits, where it waits.
    pub waits: Option<u64>,
    /// How many parts its write has taken, and how many bytes these were.
    pub parts: u32,
    pub taken: u32,
    /// The generation in which the first part was taken.
    pub generation: u32,
    /// The handle of a call that has begun and is not answered.
    pub bound: Option<Bound>,
}

/// A piece of a flush run, both counted from 0.
#[derive(Clone, Copy, Debug, PartialEq, Eq)]
pub struct Piece {
    pub run: u32,
    pub part: u32,
}

/// A caller that has made no call.
pub(crate) const IDLE: CallerState = CallerState {
    next: 0,
    over: false,
    waits: None,
    parts: 0,
    taken: 0,
    generation: 0,
    bound: None,
};

/// The callers by their numbers. How many of them are over, rest, and have begun a call is counted
/// as they change, so that no question walks over them.
#[derive(Drop)]
pub(crate) struct Callers {
    states: Vec<CallerState>,
    over: usize,
    resting: usize,
    begun: usize,
}

impl Model for Callers {
    ghost use Rattle.std.specs.Prelude.{◌≡◌, List, count_by};
    ghost use Rattle.tty_terminal.specs.declared.callers.CallerState.{CallerState};
    ghost use Rattle.tty_terminal.specs.Terminals.{is_over, is_resting, has_begun};

    ghost Value = { List CallerState };

    ghost view = { λ c. c.states.items };

    ghost invariant = { λ c. record {
      over : c.over ≡ count_by is_over c.states.items;
      resting : c.resting ≡ count_by is_resting c.states.items;
      begun : c.begun ≡ count_by has_begun c.states.items;
    } };
}

impl Callers {
    /// So many callers that have made no call.
    pub(crate) fn new(alloc: Global, count: usize) -> Result<Callers, NoMemory>
        ensures { IfOk result (λ c. c ≡ replicate count idle_caller) }
    {
        Ok(Callers {
            states: vec![in alloc; IDLE; count]?,
            over: 0,
            resting: 0,
            begun: 0,
        })
    }

    /// Where a caller stands.
    pub(crate) fn get(&self, caller: usize) -> CallerState
        requires { caller < length self.now }
        ensures { result ≡ slice_index_or self.now caller idle_caller }
    {
        self.states[caller]
    }

    /// A caller stands elsewhere.
    pub(crate) fn set(&mut self, caller: usize, state: CallerState)
        requires { caller < length self.old }
        ensures { self.new ≡ slice_set self.old caller state }
    {
        let old = self.states[caller];
        self.over = self.over - usize::from(old.over) + usize::from(state.over);
        self.resting = self.resting - usize::from(rests(&old)) + usize::from(rests(&state));
        self.begun = self.begun - usize::from(began(&old)) + usize::from(began(&state));
        self.states[caller] = state;
    }

    /// How many callers there are.
    pub(crate) fn count(&self) -> usize
        ensures { result ≡ length self.now }
    {
        self.states.len()
    }

    /// How many callers' calls of the phase are over.
    pub(crate) fn over(&self) -> usize
        ensures { result ≡ count_by is_over self.now }
    {
        self.over
    }

    /// How many callers' calls of the phase are over, or wait.
    pub(crate) fn resting(&self) -> usize
        ensures { result ≡ count_by is_resting self.now }
    {
        self.resting
    }

    /// The handle `h` is closed under the calls that began with it, where it is live.
    pub(crate) fn close(&mut self, h: u8)
        ensures { self.new ≡ map (caller_after_close h) self.old }
    {
        if self.begun > 0 {
            close_all(&mut self.states, h);
        }
    }

    /// Every handle dies under the calls that began with one.
    pub(crate) fn hang_up(&mut self)
        ensures { self.new ≡ map caller_after_hangup self.old }
    {
        if self.begun > 0 {
            hang_up_all(&mut self.states);
        }
    }

    /// In a new phase no caller's calls are over.
    pub(crate) fn begin_phase(&mut self)
        ensures { self.new ≡ map caller_after_phase self.old }
    {
        begin_phase_of_all(&mut self.states);
        self.over = over_count(&self.states);
        self.resting = resting_count(&self.states);
    }
}

/// Whether a caller's calls of the phase are over, or one of them waits.
fn rests(caller: &CallerState) -> bool
    ensures { result ≡ is_resting caller.now }
{
    caller.over || caller.waits.is_some()
}

/// Whether a call of the caller has begun, and is not answered.
fn began(caller: &CallerState) -> bool
    ensures { result ≡ has_begun caller.now }
{
    match caller.bound {
        Some(_) => true,
        None => false,
    }
}

fn over_count(callers: &[CallerState]) -> usize
    ensures { result ≡ count_by is_over callers.now }
{
    callers.iter().filter(|caller| caller.over).count()
}

fn resting_count(callers: &[CallerState]) -> usize
    ensures { result ≡ count_by is_resting callers.now }
{
    callers.iter().filter(|caller| rests(caller)).count()
}

fn closed_handle(handle: Option<HandleState>) -> Option<HandleState>
    ensures { result ≡ handle_after_close handle }
{
    handle.filter(|handle| !handle.live)
}

/// The caller where the handle `h` is closed.
fn close_under(caller: &CallerState, h: u8) -> CallerState
    ensures { result ≡ caller_after_close h caller.now }
{
    let bound = match caller.bound {
        Some(bound) if bound.h == h => Some(Bound {
            h: bound.h,
            handle: closed_handle(bound.handle),
        }),
        other => other,
    };
    CallerState { bound, ..*caller }
}

fn close_all(callers: &mut [CallerState], h: u8)
    ensures { callers.new ≡ map (caller_after_close h) callers.old }
{
    for caller in callers.iter_mut() {
        *caller = close_under(caller, h);
    }
}

fn dead_handle(handle: Option<HandleState>) -> Option<HandleState>
    ensures { result ≡ handle_after_hangup handle }
{
    match handle {
        Some(handle) => Some(HandleState {
            live: false,
            ..handle
        }),
        None => None,
    }
}

/// The caller where every handle dies.
fn hang_up_under(caller: &CallerState) -> CallerState
    ensures { result ≡ caller_after_hangup caller.now }
{
    let bound = match caller.bound {
        Some(bound) => Some(Bound {
            h: bound.h,
            handle: dead_handle(bound.handle),
        }),
        None => None,
    };
    CallerState { bound, ..*caller }
}

fn hang_up_all(callers: &mut [CallerState])
    ensures { callers.new ≡ map caller_after_hangup callers.old }
{
    for caller in callers.iter_mut() {
        *caller = hang_up_under(caller);
    }
}

fn next_phase_of(caller: &CallerState) -> CallerState
    ensures { result ≡ caller_after_phase caller.now }
{
    CallerState {
        over: false,
        ..*caller
    }
}

fn begin_phase_of_all(callers: &mut [CallerState])
    ensures { callers.new ≡ map caller_after_phase callers.old }
{
    for caller in callers.iter_mut() {
        *caller = next_phase_of(caller);
    }
}
