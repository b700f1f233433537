//! What rows of several crates say: what a call is to meet. For tests.
#![tactic(auto)]

mod answers;

pub use answers::{NOTHING_COUNTED, Wanted, is_answer};
