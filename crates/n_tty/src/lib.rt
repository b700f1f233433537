//! The line discipline N_TTY (linux/tty.h, number 0): input in pieces with editing, echo, signals and
//! software flow control, and output processing, after termios(3).
#![tactic(auto)]

mod discipline;
mod erasing;
mod flow;
mod laws;
mod posting;
mod roles;
pub mod rows;
mod storing;

pub use discipline::{CHARACTER_ROOM, NTty};
pub use flow::apply_ixoff_rule;
pub use laws::room_makes_no_difference;
