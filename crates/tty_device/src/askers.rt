//! What is kept of a caller between two calls.

ghost use Rattle.std.specs.Prelude.{◌≡◌, ◌<◌, IfOk, length, replicate, slice_index_or, slice_set};
ghost use Rattle.tty_calls.specs.Plain.{call_of};
ghost use Rattle.tty_device.specs.Askers.{verb_of, same_verb, is_bound_to, waits_with, asker_for, state_of};

use std::alloc::Global;
use std::marker::Model;
use tty_base::NoMemory;
use tty_calls::Call;
use tty_terminal::{Bound, CallerState};

/// What a call is, as far as calls that can wait differ.
#[derive(Clone, Copy, PartialEq, Eq)]
pub(crate) enum Verb {
    /// It never waits.
    Never,
    Reads,
    Writes,
    SetsModes,
    Drains,
}

/// Since when a caller waits, and the handle that its call began with.
#[derive(Clone, Copy, PartialEq, Eq)]
pub(crate) struct Asker {
    pub(crate) waits: Option<u64>,
    pub(crate) bound: Option<Bound>,
}

/// A caller that makes no call.
pub(crate) const IDLE: CallerState = CallerState {
    next: 0,
    over: false,
    waits: None,
    parts: 0,
    taken: 0,
    generation: 0,
    bound: None,
};

/// What a call is.
pub(crate) fn verb_of(call: &Call) -> Verb
    ensures { result ≡ verb_of (call_of call.now) }
{
    match call {
        Call::Read { .. } => Verb::Reads,
        Call::Write { .. } => Verb::Writes,
        Call::SetModes { .. } => Verb::SetsModes,
        Call::Drain { .. } => Verb::Drains,
        _ => Verb::Never,
    }
}

/// Whether two calls are of one kind.
fn same_verb(x: Verb, y: Verb) -> bool
    ensures { result ≡ same_verb x y }
{
    match (x, y) {
        (Verb::Never, Verb::Never) => true,
        (Verb::Reads, Verb::Reads) => true,
        (Verb::Writes, Verb::Writes) => true,
        (Verb::SetsModes, Verb::SetsModes) => true,
        (Verb::Drains, Verb::Drains) => true,
        _ => false,
    }
}

/// Whether a call began with the handle of this number.
fn is_bound_to(h: u8, bound: Option<Bound>) -> bool
    ensures { result ≡ is_bound_to h bound }
{
    match bound {
        Some(bound) => bound.h == h,
        None => false,
    }
}

/// Whether a caller's call waits, and is the same as this one.
fn waits_with(state: &CallerState, verb: Verb, call: &Call) -> bool
    ensures { result ≡ waits_with state.now verb (call_of call.now) }
{
    state.waits.is_some()
        && (same_verb(verb, verb_of(call)) && is_bound_to(call.handle(), state.bound))
}

/// How a call goes on with the one of its caller that waits.
pub(crate) fn asker_for(state: &CallerState, verb: Verb, call: &Call) -> Asker
    ensures { result ≡ asker_for state.now verb (call_of call.now) }
{
    if waits_with(state, verb, call) {
        Asker {
            waits: state.waits,
            bound: state.bound,
        }
    } else {
        Asker {
            waits: None,
            bound: None,
        }
    }
}

impl Asker {
    /// The state by which its call goes.
    pub(crate) fn state(&self) -> CallerState
        ensures { result ≡ state_of self.now }
    {
        CallerState {
            waits: self.waits,
            bound: self.bound,
            ..IDLE
        }
    }
}

/// For each caller what its latest call was that waited.
#[derive(Drop)]
pub(crate) struct Verbs {
    items: Vec<Verb>,
}

impl Model for Verbs {
    ghost use Rattle.std.specs.Prelude.{List};
    ghost use Rattle.tty_device.specs.declared.askers.Verb.{Verb};

    ghost Value = { List Verb };

    ghost view = { λ v. v.items.items };
}

impl Verbs {
    ghost use Rattle.tty_device.specs.declared.askers.Verb.TheVariants.{Never};

    /// No call has waited, of so many callers.
    pub(crate) fn new(alloc: Global, count: usize) -> Result<Verbs, NoMemory>
        ensures { IfOk result (λ v. v ≡ replicate count Never) }
    {
        Ok(Verbs {
            items: vec![in alloc; Verb::Never; count]?,
        })
    }

    /// That of a caller.
    pub(crate) fn get(&self, caller: usize) -> Verb
        requires { caller < length self.now }
        ensures { result ≡ slice_index_or self.now caller Never }
    {
        self.items[caller]
    }

    /// A call of a caller waits.
    pub(crate) fn set(&mut self, caller: usize, verb: Verb)
        requires { caller < length self.old }
        ensures { self.new ≡ slice_set self.old caller verb }
    {
        self.items[caller] = verb;
    }
}
