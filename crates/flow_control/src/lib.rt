//! The output side of a port, with software flow control (termios(3), IXON and IXOFF; tcflow(3)), and what a port
//! counts.
#![tactic(auto)]

mod laws;
mod output;
mod tally;

pub use laws::room_makes_no_difference;
pub use output::Wire;
pub use tally::{Counter, Signals, Tally};
