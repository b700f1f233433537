//! What a value in a cell has to be: one with a name and a history of stamped entries.

ghost use Rattle.std.specs.Prelude.{◌≡◌, List, length};
ghost use Rattle.port_cell.specs.Entries.{generation_of};

/// An entry of a history with its stamp: the seat that added it, and the generation that stands since.
#[derive(Clone, Copy, Debug, PartialEq, Eq)]
pub struct Stamped<E> {
    pub seat: u32,
    pub after: u32,
    pub what: E,
}

/// A value with a history. Contracts see two things of it: a name that stays as it is, and the history.
pub trait Kept {
    /// By this values are told apart.
    type Name;
    /// What is written into the history.
    type Entry;

    ghost use Rattle.std.specs.Prelude.{List, ◌≡◌, length};
    ghost use Rattle.port_cell.specs.declared.kept.Stamped.{Stamped};
    ghost use Rattle.port_cell.specs.Entries.{generation_of};

    ghost name: { Self → Self.Name };

    ghost list: { Self → List (Stamped Self.Entry) };

    /// The length of the history.
    fn count(&self) -> u64
        ensures { result ≡ length (list self.now) };

    /// The generation in which the history ends.
    fn generation(&self) -> u32
        ensures { result ≡ generation_of (list self.now) };
}
