//! What follows from the definitions alone.

ghost use Rattle.std.specs.Prelude.{◌≡◌, ℕ, List, [], ◌∷◌, ◌++◌, drop, if◌then◌else◌};
ghost use Rattle.tty_modes.specs.Settings.{Settings};
ghost use Rattle.tty_base.specs.declared.characters.Flagged.{Flagged};
ghost use Rattle.flow_control.specs.Output.{Output, IgnoresRoom, without_room};
ghost use Rattle.flow_control.specs.Counting.{without_signal_room};
ghost use Rattle.flow_control.specs.declared.tally.Tally.{Tally};
ghost use Rattle.opost_out.specs.Column.{column_of};
ghost use Rattle.n_tty.specs.States.{NTtyState};
ghost use Rattle.n_tty.specs.Reading.{after_read};
ghost use Rattle.n_tty.specs.Storing.{without_input, after_recast};
ghost use Rattle.n_tty.specs.Writing.{after_write};
ghost use Rattle.n_tty.specs.Flow.{with_start_sent};
ghost use Rattle.n_slip.specs.Discipline.{Slip};
ghost use Rattle.n_slip.specs.History.{HasSeen};
ghost use Rattle.ldisc_switch.specs.declared.kinds.Kind.{Kind};
ghost use Rattle.ldisc_switch.specs.declared.discipline.Disc.{Disc};
ghost use Rattle.ldisc_switch.specs.Disciplines.{kind_of, fresh_of, after_ixoff_rule_of};
ghost use Rattle.ldisc_switch.specs.Disciplines.{after_character_of, disc_without_room};
ghost use Rattle.ldisc_switch.specs.Happenings.{Happening, read, write, flush, mode_change, packet_take};
ghost use Rattle.ldisc_switch.specs.Happenings.{after_one, HasHappened, slip_parts};
ghost use Rattle.ldisc_switch.specs.Posted.{text_of_all};

/// A call of N_TTY is the happening of its name.
pub fn calls_of_n_tty()
    ensures read { (tty : NTtyState) (modes : Settings) (n : ℕ) →
        after_one (Disc.Tty tty) (read modes n) ≡ Disc.Tty (after_read modes n tty) }
    ensures write_piece { (tty : NTtyState) (modes : Settings) (output : Output) (bytes : List ℕ) →
        after_one (Disc.Tty tty) (write modes output bytes) ≡ Disc.Tty (after_write modes output bytes tty) }
    ensures flush_in { (tty : NTtyState) → after_one (Disc.Tty tty) flush ≡ Disc.Tty (without_input tty) }
    ensures recast { (tty : NTtyState) (old new : Settings) →
        after_one (Disc.Tty tty) (mode_change old new) ≡ Disc.Tty (after_recast old new tty) }
{}

/// A call of N_SLIP is the happening of its name.
pub fn calls_of_n_slip()
    ensures take_packet { (slip : Slip)
        → after_one (Disc.Slip slip) packet_take ≡ Disc.Slip (record slip { packets = drop 1 slip.packets }) }
    ensures flush_in { (slip : Slip) → after_one (Disc.Slip slip) flush ≡ Disc.Slip (record slip { packets = [] }) }
{}

/// Where one thing more happens, it is the last of all that has happened.
pub fn one_more()
    ensures { (state : Disc) (kind : Kind) (events : List Happening) (event : Happening) →
        HasHappened state kind events → HasHappened (after_one state event) kind (events ++ event ∷ []) }
{}

/// Under N_SLIP the rule for ixoff lets a sender that was told to stop go on, and else does nothing.
pub fn rule_under_n_slip()
    ensures { (slip : Slip) (modes : Settings) (output : Output)
        → after_ixoff_rule_of modes (Disc.Slip slip) output
        ≡ (if output.noted then with_start_sent modes output else output) }
{}

/// A discipline keeps its kind, whatever happens to it.
pub fn kind_stays()
    ensures { (state : Disc) (kind : Kind) (events : List Happening)
        → HasHappened state kind events
        → kind_of state ≡ kind }
{}

/// The column of N_TTY is that of all the text that was posted since it was installed.
pub fn column_of_all_posted()
    ensures { (tty : NTtyState) (events : List Happening) →
        HasHappened (Disc.Tty tty) Kind.Tty events → tty.column ≡ column_of (text_of_all (fresh_of Kind.Tty) events) }
{}

/// How much room is reserved makes no difference to what a character or the rule for ixoff does.
pub fn room_makes_no_difference()
    ensures character { (modes : Settings) (now : ℕ) (c : Flagged) (state : Disc) (output : Output) (tally : Tally) →
        disc_without_room (after_character_of modes now c state output tally)
        ≡ after_character_of modes now c state (without_room output) (without_signal_room tally) }
    ensures rule { (modes : Settings) (state : Disc) → IgnoresRoom (after_ixoff_rule_of modes state) }
{}

/// The packets of N_SLIP are those of all the characters that it heard since it was installed.
pub fn packets_of_all_heard()
    ensures { (slip : Slip) (events : List Happening) →
        HasHappened (Disc.Slip slip) Kind.Slip events → HasSeen slip (slip_parts events) }
{}
