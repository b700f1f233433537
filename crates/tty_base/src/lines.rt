//! What happens on a serial line, what it reports, and where its characters are put.
ghost use Rattle.std.specs.Prelude.{◌≡◌, ℕ, List, [], ◌∷◌, ◌++◌, ◌+◌, ◌-◌, ◌<◌, ◌≤◌, Ok, length, OnOk, IfErr};
ghost use Rattle.std.specs.List.Sorted.{IsNonDecreasing};
ghost use Rattle.tty_base.specs.declared.characters.Flagged.{Flagged};
ghost use mathlib.Core.List.{IsPrefix};

use super::buffers::Buffer;
use super::characters::Flagged;
use super::lists::Chars;

/// What a serial line does next, as its receiver sees it (16550 data sheet).
#[derive(Clone, Copy, Debug, PartialEq, Eq)]
pub enum LineStep {
    /// A character arrives. Its flag is `Normal`, `Parity` or `Frame`.
    Rx(Flagged),
    /// A break arrives: one character 00 flagged `Break`.
    Break,
    /// So many character times pass without an arrival.
    Idle(u16),
    /// The interrupt is held back.
    Mask,
    /// The interrupt is let through.
    Unmask,
    /// The receive FIFO's trigger is set to 1, 4, 8 or 14.
    Trigger(u8),
}

/// A character found no room: `sent` were accepted before it, of which the other end had taken
/// `seen`, as this very call loaded it.
#[derive(Clone, Copy, Debug, PartialEq, Eq)]
pub struct Full {
    pub sent: u64,
    pub seen: u64,
}

/// A character that the receiver handed over and that found no room. `at` is its place, from 0, in
/// the list of all characters handed over; `sent` and `seen` are those of `Full`.
#[derive(Clone, Copy, Debug, PartialEq, Eq)]
pub struct Overrun {
    pub at: u32,
    pub sent: u64,
    pub seen: u64,
}

/// The refused characters of a line, in order.
pub type Overruns = Buffer<Overrun>;

/// What a line did.
#[derive(Debug, Drop)]
pub struct LineReport {
    /// How many characters arrived at the receiver.
    pub arrived: u32,
    /// How many of these its full FIFO lost.
    pub fifo_lost: u32,
    /// How many characters were handed over and accepted.
    pub sent: u64,
    /// Those that were handed over and found no room.
    pub overruns: Overruns,
}

/// The end of a buffer of characters at which they are put in. The other end sees what was put once
/// it is pushed.
pub trait Put {
    /// The characters accepted so far, in order.
    ghost sent: { Self → List Flagged };

    /// How many characters the other end had taken, at each load of that number so far.
    ghost heads: { Self → List ℕ };

    /// How many accepted characters the buffer holds that the other end has not taken.
    ghost capacity: { Self → ℕ };

    /// That the other end can see all that was put.
    ghost visible: { Self → Type 0 } = { λ _. Unit {0} };

    /// Which buffer it is the end of: two ends with one name are of one buffer.
    ghost name: { Self → List ℕ } = { λ _. [] };

    /// How many more characters may be handed to it, whether it accepts them or not: its counts have
    /// an end. It says nothing of free places.
    ghost numbers_left: { Self → ℕ };

    /// Accepts a character, or answers `Full`, which says by its two numbers that no place was free
    /// when this call looked.
    fn put(&mut self, c: Flagged) -> Result<(), Full>
        requires { 0 < numbers_left self.old }
        ensures ok { OnOk result (sent self.new ≡ sent self.old ++ c ∷ []) }
        ensures full { IfErr result (λ f. (sent self.new ≡ sent self.old)
            × (heads self.new ≡ heads self.old ++ f.seen ∷ [])
            × (f.sent ≡ length (sent self.old))
            × (f.sent ≡ f.seen + capacity self.old)) }
        ensures grows { IsPrefix (heads self.old) (heads self.new) }
        ensures rise { IsNonDecreasing (heads self.new) }
        ensures same { capacity self.new ≡ capacity self.old }
        ensures name { name self.new ≡ name self.old }
        ensures numbers { numbers_left self.old ≤ numbers_left self.new + 1 };

    /// Makes all that was put visible to the other end.
    fn push(&mut self)
        ensures sent { sent self.new ≡ sent self.old }
        ensures visible { visible self.new }
        ensures grows { IsPrefix (heads self.old) (heads self.new) }
        ensures rise { IsNonDecreasing (heads self.new) }
        ensures same { capacity self.new ≡ capacity self.old }
        ensures name { name self.new ≡ name self.old }
        ensures numbers { numbers_left self.new ≡ numbers_left self.old };
}

/// A list in reserved room accepts each character, and nobody takes from it.
impl Put for Chars {
    ghost use Rattle.std.specs.Prelude.{[], ◌+◌, length};

    ghost sent = { λ list. list.items };

    ghost heads = { λ _. [] };

    ghost capacity = { λ list. length list.items + list.spare };

    ghost numbers_left = { λ list. list.spare };

    fn put(&mut self, c: Flagged) -> Result<(), Full>
        requires { 0 < self.old.spare }
        ensures ok { result ≡ Ok tt }
        ensures adds { self.new ≡ record { items = self.old.items ++ c ∷ []; spare = self.old.spare - 1 } }
    {
        self.add(c);
        Ok(())
    }

    fn push(&mut self)
        ensures { self.new ≡ self.old }
    {}
}
