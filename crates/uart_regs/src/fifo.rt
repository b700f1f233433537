//! The receive FIFO.
ghost use Rattle.std.specs.Prelude.{◌≡◌, ◌==◌, ◌<◌, [], ◌∷◌, ◌++◌, length, nat_lt};
ghost use Rattle.uart_regs.specs.Registers.{front_flag, with_front_cleared};

use std::marker::Model;
use tty_base::{Flag, Flagged};

/// How many characters the receive FIFO keeps.
pub const FIFO_DEPTH: usize = 16;

/// What a place has that was never written.
const NOTHING: Flagged = Flagged {
    byte: 0,
    flag: Flag::Normal,
};

/// The characters that wait, in the order of their arrival: those of `places` from `front` to `end`.
/// Taking one moves none. Where the last place is taken and the first is free, all move down.
#[derive(Drop)]
pub(crate) struct Fifo {
    places: [Flagged; FIFO_DEPTH],
    front: usize,
    end: usize,
}

impl Model for Fifo {
    ghost use Rattle.std.specs.Prelude.{List};
    ghost use Rattle.tty_base.specs.declared.characters.Flagged.{Flagged};
    ghost use Rattle.uart_regs.specs.Row.{row, IsRow};

    ghost Value = { List Flagged };

    ghost view = { λ f. row f.places f.front f.end };

    ghost invariant = { λ f. IsRow f.places f.front f.end };
}

impl Fifo {
    pub(crate) fn new() -> Fifo
        ensures { result ≡ [] }
    {
        Fifo {
            places: [NOTHING; FIFO_DEPTH],
            front: 0,
            end: 0,
        }
    }

    pub(crate) fn len(&self) -> usize
        ensures { result ≡ length self.now }
    {
        self.end - self.front
    }

    pub(crate) fn is_empty(&self) -> bool
        ensures { result ≡ (length self.now == 0) }
    {
        self.front == self.end
    }

    /// Whether one more character can wait.
    pub(crate) fn has_room(&self) -> bool
        ensures { result ≡ nat_lt (length self.now) 16 }
    {
        self.end < FIFO_DEPTH || self.front > 0
    }

    pub(crate) fn push(&mut self, c: Flagged)
        requires { length self.old < 16 }
        ensures { self.new ≡ self.old ++ c ∷ [] }
    {
        if self.end < FIFO_DEPTH {
            self.places[self.end] = c;
            self.end += 1;
        } else {
            self.push_moved(c);
        }
    }

    /// Takes the front character out.
    pub(crate) fn take_front(&mut self) -> Flagged
        requires { 0 < length self.old }
        ensures { self.old ≡ result ∷ self.new }
    {
        let front = self.places[self.front];
        self.front += 1;
        front
    }

    /// The flag of the front character, or `Normal`.
    pub(crate) fn front_flag(&self) -> Flag
        ensures { result ≡ front_flag self.now }
    {
        if self.is_empty() {
            return Flag::Normal;
        }
        self.places[self.front].flag
    }

    /// Clears the errors of the front character.
    pub(crate) fn clear_front(&mut self)
        ensures { self.new ≡ with_front_cleared self.old }
    {
        if self.front < self.end {
            self.places[self.front].flag = Flag::Normal;
        }
    }

    pub(crate) fn clear(&mut self)
        ensures { self.new ≡ [] }
    {
        self.front = 0;
        self.end = 0;
    }

    /// Those that wait, in order.
    pub(crate) fn as_slice(&self) -> &[Flagged]
        ensures { result.now ≡ self.now }
    {
        &self.places[self.front..self.end]
    }

    // Moves all down, and adds one.
    #[inline(never)]
    fn push_moved(&mut self, c: Flagged)
        requires { length self.old < 16 }
        ensures { self.new ≡ self.old ++ c ∷ [] }
    {
        self.places.rotate_left(self.front);
        self.end -= self.front;
        self.front = 0;
        self.places[self.end] = c;
        self.end += 1;
    }
}
