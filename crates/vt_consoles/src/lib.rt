//! Consoles behind one keyboard: which one is active, and where each key goes.
//!
//! An operator activates a console or asks which one is active; the keyboard's keys go to the active one. A board
//! keeps an entry for each of these. Alone it is a value, `Board`; threads share it as a `SharedBoard`.
#![tactic(auto)]

mod board;
mod entries;
mod kept_board;
mod shared;

pub use board::Board;
pub use entries::{Keyed, VtEntry, VtEvent, VtFault};
pub use kept_board::BoardName;
pub use shared::{Seat, SharedBoard};
