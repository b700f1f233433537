//! What comes of a session of consoles at its board: which entries its keys and its operators' calls make, in any order
//! and on one thread, and what its consoles then play.
#![tactic(auto)]

mod board;
mod keying;
mod laws;
mod seats;

pub use keying::play_board;
pub use laws::{
    entries_in_order_are_an_account, keyed_sessions_are_within_limits,
    keys_are_received_as_they_come, sessions_that_are_read_are_within_keys,
    worked_sessions_have_their_entries, wrong_entries_are_no_account,
};
pub use seats::seats_of;
