//! What the program makes of its command line: the words after the program's name are handed to `tty_run`,
//! and its status is the exit status.
#![tactic(auto)]

mod command_line;
mod ending;

pub use command_line::{Arguments, arguments};
pub use ending::run_main;
