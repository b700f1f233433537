//! What follows from the definition of the session of a number alone.

ghost use Rattle.std.specs.Prelude.{ℕ};
ghost use Rattle.tty_calls.specs.Limits.{IsWithinLimits};
ghost use Rattle.session_gen.specs.Generated.{generated_session};

/// A law: the session of each number keeps the limits of every session, so that it can be played.
pub fn each_number_keeps_the_limits()
    ensures { (number : ℕ) → IsWithinLimits (generated_session number) }
{}
