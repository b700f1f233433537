//! What it is for the journals of a session to be legal runs, and the order of one thread: whose turn it is, and how much
//! a flush takes.
#![tactic(auto)]

mod laws;
mod rows;

pub use laws::the_ends_of_a_phase_tell_its_part;
pub use rows::{
    a_console_ends_its_clock_first, moved_three_bytes_are_not_in_order,
    moved_waiters_are_not_in_order, three_bytes_are_in_order, waiters_are_told_in_order,
};
