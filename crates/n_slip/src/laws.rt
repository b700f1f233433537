//! What follows from the definitions alone.

ghost use Rattle.std.specs.Prelude.{◌≡◌, ◌+◌, ◌≤◌, List, [], ◌∷◌, length, min};
ghost use Rattle.tty_base.specs.declared.characters.Flagged.{Flagged};
ghost use Rattle.tty_base.specs.declared.counters.Counts.{Counts};
ghost use Rattle.slip_frames.specs.Slip.{outcomes, silent};
ghost use Rattle.n_slip.specs.Discipline.{Slip, fresh_slip, counts_after_character};
ghost use Rattle.n_slip.specs.History.{Happening, HasSeen, characters_of, outcomes_at};
ghost use Rattle.n_slip.specs.Counted.{bad_count, packet_count, counts_of_all};

/// A law: of all the pieces that N_SLIP heard, whatever was taken or flushed between them, the bad ones are counted
/// in `pbad`, and the packets in `pin` and `pfull` together, each of which stands still at 2^64 - 1. A silent piece
/// counts nothing.
pub fn pieces_are_counted()
    ensures bad { (events : List Happening) (counts : Counts) → counts.pbad ≤ 18446744073709551615 →
        (counts_of_all fresh_slip events counts).pbad
        ≡ min (counts.pbad + bad_count (outcomes (characters_of events))) 18446744073709551615 }
    ensures packets { (events : List Happening) (counts : Counts) →
        counts.pin + counts.pfull + length (characters_of events) ≤ 18446744073709551615 →
        (counts_of_all fresh_slip events counts).pin + (counts_of_all fresh_slip events counts).pfull
        ≡ counts.pin + counts.pfull + packet_count (outcomes (characters_of events)) }
    ensures silent { (slip : Slip) (events : List Happening) (c : Flagged) (counts : Counts) →
        HasSeen slip events → outcomes_at (characters_of events) c ≡ silent ∷ [] →
        counts_after_character slip c counts ≡ counts }
{}
