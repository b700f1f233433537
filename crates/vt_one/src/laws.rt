//! What follows from the definitions alone.

ghost use Rattle.std.specs.Prelude.{◌≡◌, ℕ, List};
ghost use Rattle.legal_runs.specs.Order.{Place, turn};
ghost use Rattle.vt_consoles.specs.declared.entries.VtEntry.{VtEntry};
ghost use Rattle.vt_text.specs.Sessions.{PlainVtSession};
ghost use Rattle.vt_account.specs.Keyed.{keyed};
ghost use Rattle.vt_one.specs.Ranks.{console_turn};

/// A law: in the order of one thread a console goes by its ranks: before the phase's last key a flush or the next key,
/// and then a flush, the end of its clock, the first caller that can go on, the first that waits in vain, and the end
/// of the phase.
pub fn consoles_go_by_their_ranks()
    ensures { (session : PlainVtSession) (entries : List VtEntry) (p : ℕ) (place : Place)
        → turn p (keyed session entries) place ≡ console_turn p (keyed session entries) place }
{}
