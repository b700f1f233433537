//! Output processing of a terminal after termios(3): what is posted for a byte, and the column of all that was posted.
#![tactic(auto)]

mod cursor;
mod pieces;

pub use cursor::{Out, column_of_more};
pub use pieces::PostedBytes;
