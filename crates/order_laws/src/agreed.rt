//! What a port that agrees with a session tells of its callers' next calls.

ghost use Rattle.std.specs.Prelude.{◌≡◌, ℕ, List, [], ◌∷◌, ◌++◌, Some, slice_get};
ghost use Rattle.tty_calls.specs.Plain.{PlainCall, PlainEntry};
ghost use Rattle.tty_terminal.specs.Runs.{KnowsMore};
ghost use Rattle.port_core.specs.Ports.{PortValue, call_in};
ghost use Rattle.play_base.specs.Roles.{Scene};
ghost use Rattle.one_thread.specs.Turns.{IsNextCall};
ghost use Rattle.one_thread.specs.Acts.{InTurn, MakesCall, EndsCalls, HasNoCall};
ghost use Rattle.play_base.specs.declared.roles.Role.{Role};
ghost use Rattle.one_thread.specs.declared.after_line.Stand.{Stand};
ghost use Rattle.one_thread.specs.declared.after_line.Turn.TheVariants as turn;
ghost use Rattle.order_laws.specs.Agreed.{Agrees};

/// A port that agrees with a session agreed with it one entry before.
pub fn a_port_agreed_before()
    ensures { (s : Scene) (old new : PortValue) (e : PlainEntry) → new.journal ≡ old.journal ++ e ∷ []
        → KnowsMore (call_in old.kept) (call_in new.kept) → Agrees s new → Agrees s old }
{}

/// A caller whose turn it was made a call: where the port agrees with the session then, that was its next one there.
pub fn a_call_made_was_next()
    ensures { (roles : List Role) (old new : PortValue) (stand : Stand) (place : ℕ) (r : Role) (call : PlainCall)
        → (h : InTurn roles old stand (turn.Call place)) → slice_get roles place ≡ Some r
        → MakesCall old new r.number call → Agrees h.scene new → IsNextCall h.scripts roles old place call }
{}

/// A caller whose turn it was has ended: where the port agrees with the session then, it had no call left there.
pub fn who_ended_had_no_call()
    ensures { (roles : List Role) (old new : PortValue) (stand : Stand) (place : ℕ)
        → (h : InTurn roles old stand (turn.Call place)) → EndsCalls roles old new place → Agrees h.scene new
        → HasNoCall h.scripts roles old place }
{}
