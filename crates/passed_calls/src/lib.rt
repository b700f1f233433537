//! Sessions whose callers make calls that the port never sees: how these are kept, and the session that the port was
//! played.
#![tactic(auto)]

mod counts;
mod logs;
mod placed;

ghost use Rattle.std.specs.Prelude.{◌≡◌, ℕ, List, Some, slice_get};
ghost use Rattle.tty_calls.specs.Sessions.{scripts_over, names_of, calls_under, PlainSession, call_at};
ghost use Rattle.passed_calls.specs.Blocks.{blocks_on, names_on, number_on, steps_under};
ghost use Rattle.tty_calls.specs.Limits.{IsWithinLimits};
ghost use Rattle.passed_calls.specs.Within.{AreBlocksWithin, ArePassedWithin};
ghost use Rattle.passed_calls.specs.Derived.{Passing, Passed, BlockPhase, AreInSteps, blocks_of};
ghost use Rattle.passed_calls.specs.Derived.{by_caller, all_calls, calls_for, passed_phases};

pub use counts::count_in;
pub use logs::Logged;
pub use placed::PlacedCall;

/// A law: in the session that was played each port's callers have the numbers that they have in the session.
pub fn numbers_stay()
    ensures { (passed : Passed) (phases : List BlockPhase) (p : ℕ)
        → names_of (scripts_over p (passed_phases passed phases)) ≡ names_on p (blocks_of phases) }
{}

/// A law: a caller's calls in the session that was played are those that were passed for its calls, step by step.
pub fn calls_are_passed()
    ensures { (passed : Passed) (phases : List BlockPhase) (p : ℕ) (name : List ℕ)
        → calls_under name (scripts_over p (passed_phases passed phases))
        ≡ calls_for (by_caller (number_on p (blocks_of phases) name) (passed p)) 0
        (steps_under name (blocks_on p (blocks_of phases))) }
{}

/// A law: these are all that were passed, in their order, where that was the order of the caller's calls.
pub fn passed_in_order()
    ensures { (passings : List Passing) (count : ℕ)
        → AreInSteps 0 count passings → calls_for passings 0 count ≡ all_calls passings }
{}

/// A law: in the session that was played a caller's calls are all that were passed for it, in their order, where that
/// was the order of the caller's calls.
pub fn played_calls_are_those_passed()
    ensures { (passed : Passed) (phases : List BlockPhase) (session : PlainSession) (p c step : ℕ) (name : List ℕ)
        → session.phases ≡ passed_phases passed phases
        → slice_get (names_on p (blocks_of phases)) c ≡ Some name → number_on p (blocks_of phases) name ≡ c
        → AreInSteps 0 (steps_under name (blocks_on p (blocks_of phases))) (by_caller c (passed p))
        → call_at p session c step ≡ slice_get (all_calls (by_caller c (passed p))) step }
{}

/// A law: the session that was played keeps the limits of every session, where its blocks do with all their calls, and
/// what was passed keeps those of calls.
pub fn what_is_passed_keeps_the_limits()
    ensures { (phases : List BlockPhase) (passed : Passed) (session : PlainSession)
        → session.phases ≡ passed_phases passed phases
        → AreBlocksWithin session.ports session.flips phases → ArePassedWithin passed → IsWithinLimits session }
{}
