//! Unread input of a terminal: bytes in pieces, and the ends of the pieces.
#![tactic(auto)]

mod queue;
mod store;

pub use store::Store;
