//! What the texts of sessions with modem lines and of sessions of processes share: what they read of a session of
//! ports, which items are those of every session, how a fault is told, and the arguments that are numbers.
#![tactic(auto)]

mod laws;
mod numbers;
mod reader;
mod sorts;

pub use laws::what_is_left_has_the_shared_lines;
pub use numbers::{bad, bounded, handle_in, has_count, port_in, ranged};
pub use reader::BaseReader;
pub use sorts::{Sort, sort_of};
