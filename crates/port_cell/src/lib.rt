//! A cell that threads share: one value that keeps a journal, under counted references and a turn.
//!
//! A value is `Kept` where it has a history, whose entries tell who added them and which generation
//! stands since. A thread has a `Seat` of the cell. With `turn` it gets the value, to work on it alone,
//! and gives it back. With `enter` it takes a reference, under which the generation stands still from
//! one turn to the next. To change the generation a seat marks the cell, which keeps others from
//! entering, waits until nobody holds a reference, and installs the next generation.
#![tactic(auto)]

mod cell;
mod kept;
mod laws;
mod plays;
mod references;
mod rule;
mod sleepers;
mod turns;
mod view;

pub use cell::{Cell, Seat};
pub use kept::{Kept, Stamped};
pub use laws::{
    generation_grows_by_installing, nobody_holds_beside_one_alone, the_word_stands_in_a_turn,
};
pub use references::{Changing, Users};
pub use rule::{CellRule, Opening};
pub use turns::Turn;
pub use view::{Joined, User, View};
