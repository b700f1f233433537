//! What a seat knows of its cell, and what it does with the reference word, for proofs alone.

use crate::kept::Stamped;
use std::collections::LinkedList;

/// What a seat does with the reference word: it holds nothing, has counted itself in while the
/// cell was changing, holds a reference to a generation, has marked the cell, or has also found that
/// nobody holds a reference.
pub enum User {
    Free,
    Trying,
    Held(u64),
    Marked(u64),
    Alone(u64),
}

/// A seat that was joined into another.
pub struct Joined<N, E> {
    pub name: Option<N>,
    pub number: u64,
    pub installs: u64,
    pub seen: LinkedList<Stamped<E>>,
}

/// What a seat knows.
pub struct View<N, E> {
    /// The name of the value, or `None` once the seat was joined into another.
    pub name: Option<N>,
    pub number: u64,
    /// Of the first seat how many numbers were made, and of the others 0.
    pub made: u64,
    pub user: User,
    pub turn: bool,
    /// A list of the next generation was noted, and not installed.
    pub raised: bool,
    /// The word that the last `enter`, `mark` or `settled` found.
    pub word: u64,
    /// How many such steps there were.
    pub steps: u64,
    /// How many generations the seat installed.
    pub installs: u64,
    /// The list that the seat saw last.
    pub seen: LinkedList<Stamped<E>>,
    pub joined: LinkedList<Joined<N, E>>,
}
