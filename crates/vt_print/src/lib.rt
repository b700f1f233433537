//! What a report says of consoles: the keys that each got, its counts and its screen, and which console is active.
#![tactic(auto)]

mod consoles;
mod rows;

pub use consoles::{Tally, put_active, put_console};
