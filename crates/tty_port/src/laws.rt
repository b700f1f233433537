//! What follows for a seat from the histories that it saw.

ghost use Rattle.std.specs.Prelude.{◌≡◌, ℕ, ◌+◌, List, false};
ghost use Rattle.port_cell.specs.declared.kept.Stamped.{Stamped};
ghost use Rattle.port_cell.specs.Entries.{Keeps};
ghost use Rattle.tty_port.specs.Inside.{EntryWithCall};
ghost use Rattle.tty_port.specs.Seen.{standing_at, marks_at, next_run};
ghost use Rattle.tty_port.specs.Placed.{ArePlaced};

/// What the entries of others leave as it is, where m callers have seats. So what a seat knows of itself
/// by the history that it saw last stands in every later history that has no more entries of it: where a
/// caller stands, whose calls of the phase are not over; the number of the next flush run; that the line
/// or the clock is not over; and the phase, which the session alone ends.
pub fn others_leave_what_is_open()
    ensures standing { (m n c : ℕ) (xs ys : List (Stamped EntryWithCall)) →
        ArePlaced m n ys → Keeps c xs ys → (standing_at c xs).over ≡ false → standing_at c ys ≡ standing_at c xs }
    ensures run { (m n : ℕ) (xs ys : List (Stamped EntryWithCall)) →
        ArePlaced m n ys → Keeps m xs ys → next_run ys ≡ next_run xs }
    ensures line { (m n : ℕ) (xs ys : List (Stamped EntryWithCall)) →
        ArePlaced m n ys → Keeps (m + 1) xs ys → (marks_at xs).line_over ≡ false → (marks_at ys).line_over ≡ false }
    ensures clock { (m n : ℕ) (xs ys : List (Stamped EntryWithCall)) →
        ArePlaced m n ys → Keeps (m + 2) xs ys → (marks_at xs).clock_over ≡ false → (marks_at ys).clock_over ≡ false }
    ensures phase { (m n : ℕ) (xs ys : List (Stamped EntryWithCall)) →
        ArePlaced m n ys → Keeps (m + 3) xs ys → (marks_at ys).phase ≡ (marks_at xs).phase }
{}

/// Within one phase they leave also what is over: where a caller stands, whether the line is over and
/// how many characters it sent, and whether the clock is over and how often it ticked.
pub fn others_leave_what_is_over_within_a_phase()
    ensures standing { (m n c : ℕ) (xs ys : List (Stamped EntryWithCall))
        → ArePlaced m n ys
        → Keeps c xs ys
        → (marks_at ys).phase ≡ (marks_at xs).phase
        → standing_at c ys ≡ standing_at c xs }
    ensures line { (m n : ℕ) (xs ys : List (Stamped EntryWithCall)) →
        ArePlaced m n ys → Keeps (m + 1) xs ys → (marks_at ys).phase ≡ (marks_at xs).phase
        → ((marks_at ys).line_over ≡ (marks_at xs).line_over) × ((marks_at ys).sent ≡ (marks_at xs).sent) }
    ensures clock { (m n : ℕ) (xs ys : List (Stamped EntryWithCall)) →
        ArePlaced m n ys → Keeps (m + 2) xs ys → (marks_at ys).phase ≡ (marks_at xs).phase
        → ((marks_at ys).clock_over ≡ (marks_at xs).clock_over) × ((marks_at ys).tick ≡ (marks_at xs).tick) }
{}
