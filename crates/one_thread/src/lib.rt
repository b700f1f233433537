//! A session played on one thread, in the order of one thread.
#![tactic(auto)]

mod after_line;
mod followers;
mod line;
mod phases;
mod playing;
mod ports;

pub use after_line::{Stand, Turn, end_calls, end_phase, flush, pass, try_call, turn_of};
pub use followers::{Follower, Nobody};
pub use line::play_line;
pub use playing::play;
