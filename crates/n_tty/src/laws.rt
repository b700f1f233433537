//! What follows from the definitions alone.

ghost use Rattle.std.specs.Prelude.{◌≡◌, ℕ, Bool, List};
ghost use Rattle.tty_base.specs.declared.characters.Flagged.{Flagged};
ghost use Rattle.tty_modes.specs.Settings.{Settings};
ghost use Rattle.flow_control.specs.Output.{Output, IgnoresRoom, without_room};
ghost use Rattle.n_tty.specs.States.{NTtyState};
ghost use Rattle.n_tty.specs.Flow.{after_ixoff_rule};
ghost use Rattle.n_tty.specs.Receiving.{after_character};
ghost use Rattle.n_tty.specs.Room.{PortIgnoresRoom};
ghost use Rattle.n_tty.specs.Writing.{piece_size, piece_text, after_write};

/// A law: how much room is reserved makes no difference to what a character, a piece of a write or the rule for ixoff
/// does.
pub fn room_makes_no_difference()
    ensures character { (modes : Settings) (now : ℕ) (c : Flagged) → PortIgnoresRoom (after_character modes now c) }
    ensures rule { (modes : Settings) (unread : ℕ) (complete : Bool)
        → IgnoresRoom (after_ixoff_rule modes unread complete) }
    ensures size { (modes : Settings) (tty : NTtyState) (output : Output) (bytes : List ℕ) →
        piece_size modes tty (without_room output) bytes ≡ piece_size modes tty output bytes }
    ensures text { (modes : Settings) (tty : NTtyState) (output : Output) (bytes : List ℕ) →
        piece_text modes tty (without_room output) bytes ≡ piece_text modes tty output bytes }
    ensures write { (modes : Settings) (tty : NTtyState) (output : Output) (bytes : List ℕ) →
        after_write modes (without_room output) bytes tty ≡ after_write modes output bytes tty }
{}
