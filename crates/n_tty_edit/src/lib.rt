//! The line that is being edited (termios(3), "Canonical and noncanonical mode"), and the widths of its
//! bytes on the screen.
#![tactic(auto)]

mod bytes;
mod line;
mod widths;

pub use bytes::is_printed;
pub use line::{Edit, Gone, edited_by_the_last};
