//! What follows from the definitions alone.

ghost use Rattle.std.specs.Prelude.{◌≡◌, ℕ, List};
ghost use Rattle.flow_control.specs.Output.{Output, IgnoresRoom, without_room, has_room, on_wire, after_send};
ghost use Rattle.flow_control.specs.Output.{after_try, after_start, after_release, after_tco_on, after_reset};

/// A law: how much room is reserved on the wire makes no difference to whether bytes fit, to where they go, and to what
/// the end of a halt lets out.
pub fn room_makes_no_difference()
    ensures room { (output : Output) (bytes : List ℕ) → has_room (without_room output) bytes ≡ has_room output bytes }
    ensures urgent { (bytes : List ℕ) → IgnoresRoom (λ output. on_wire output bytes) }
    ensures send { (bytes : List ℕ) → IgnoresRoom (λ output. after_send output bytes) }
    ensures trial { (bytes : List ℕ) → IgnoresRoom (λ output. after_try output bytes) }
    ensures start { IgnoresRoom after_start }
    ensures release { IgnoresRoom after_release }
    ensures tco_on { IgnoresRoom after_tco_on }
    ensures reset { IgnoresRoom after_reset }
{}
