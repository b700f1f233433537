//! What a line notes of a key that was put without it: the line hands the key to an end that gives the answer that the
//! key was given.

ghost use Rattle.std.specs.Prelude.{◌≡◌, ◌+◌, ◌-◌, ◌<◌, ◌≤◌, ℕ, [], ◌∷◌, ◌++◌, Err, IfErr};
ghost use Rattle.std.specs.Prelude.{OnOk, OnErr, MatchOption, length, option_to_list, replicate};
ghost use Rattle.std.specs.List.Sorted.{IsNonDecreasing};
ghost use Rattle.tty_base.specs.Sizes.{MOST_SENT};
ghost use Rattle.uart_line.specs.Received.{overrun_mark};
ghost use Rattle.vt_keyboard.specs.Keying.{NotesKey};

use tty_base::{Flag, Flagged, Full, LineStep, Put};
use uart_line::Line;

/// An end with room for one character.
#[derive(Drop)]
struct Accepting {
    taken: Option<Flagged>,
    refused: u64,
}

impl Put for Accepting {
    ghost sent = { λ a. option_to_list a.taken };

    ghost heads = { λ a. replicate {A = ℕ} a.refused 0 };

    ghost capacity = { λ _. 1 };

    ghost numbers_left = { λ a. MOST_SENT - a.refused };

    fn put(&mut self, c: Flagged) -> Result<(), Full>
        requires { self.old.refused < MOST_SENT }
        ensures ok { OnOk result (option_to_list self.new.taken ≡ option_to_list self.old.taken ++ c ∷ []) }
        ensures full { IfErr result (λ f. f ≡ record { sent = 1; seen = 0 }) }
        ensures taken { OnErr result (1 ≡ length (option_to_list self.old.taken)) }
        ensures same { OnErr result (self.new.taken ≡ self.old.taken) }
        ensures one_more { OnErr result
            (replicate {A = ℕ} self.new.refused 0 ≡ replicate {A = ℕ} self.old.refused 0 ++ 0 ∷ []) }
        ensures none_more { OnOk result (self.new.refused ≡ self.old.refused) }
        ensures few { self.new.refused ≤ self.old.refused + 1 }
        ensures rise { IsNonDecreasing (replicate {A = ℕ} self.new.refused 0) }
    {
        if self.taken.is_some() {
            self.refused += 1;
            return Err(Full { sent: 1, seen: 0 });
        }
        self.taken = Some(c);
        Ok(())
    }

    fn push(&mut self)
        ensures same { self.new ≡ self.old }
        ensures rise { IsNonDecreasing (replicate {A = ℕ} self.new.refused 0) }
    {}
}

/// An end that refuses all characters by one answer.
#[derive(Drop)]
struct Refusing {
    full: Full,
    refused: u64,
    ghost within: { full.seen ≤ full.sent },
}

impl Put for Refusing {
    ghost sent = { λ r. replicate r.full.sent overrun_mark };

    ghost heads = { λ r. replicate r.refused r.full.seen };

    ghost capacity = { λ r. r.full.sent - r.full.seen };

    ghost name = { λ r. r.full.sent ∷ r.full.seen ∷ [] };

    ghost numbers_left = { λ r. MOST_SENT - r.refused };

    fn put(&mut self, c: Flagged) -> Result<(), Full>
        requires { self.old.refused < MOST_SENT }
        ensures full { result ≡ Err self.old.full }
        ensures same { self.new.full ≡ self.old.full }
        ensures counted { self.old.full.sent ≡ length (replicate self.old.full.sent overrun_mark) }
        ensures gap { self.old.full.sent ≡ self.old.full.seen + (self.old.full.sent - self.old.full.seen) }
        ensures one_more { replicate self.new.refused self.old.full.seen
            ≡ replicate self.old.refused self.old.full.seen ++ self.old.full.seen ∷ [] }
        ensures number { self.new.refused ≡ self.old.refused + 1 }
        ensures rise { IsNonDecreasing (replicate self.new.refused self.new.full.seen) }
    {
        let _ = c; // for the contract alone
        self.refused += 1;
        Err(self.full)
    }

    fn push(&mut self)
        ensures same { self.new ≡ self.old }
        ensures rise { IsNonDecreasing (replicate self.new.refused self.new.full.seen) }
    {}
}

/// Notes a key that was put without the line, or was lost so.
pub(crate) fn note(line: &mut Line, byte: u8, lost: Option<Full>)
    requires room { line.old.report.arrived < line.old.most }
    requires put { line.old.most ≤ MOST_SENT + line.old.handed }
    requires full { MatchOption lost (Unit {0}) (λ f. f.seen ≤ f.sent) }
    ensures { NotesKey byte lost line.old line.new }
{
    let key = LineStep::Rx(Flagged {
        byte,
        flag: Flag::Normal,
    });
    match lost {
        None => line.step(
            key,
            &mut Accepting {
                taken: None,
                refused: 0,
            },
        ),
        Some(full) => line.step(key, &mut Refusing { full, refused: 0 }),
    }
}
