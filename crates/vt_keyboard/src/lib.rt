//! What the keyboard and the operators do in a phase of consoles on threads: keys on the console that is active, and
//! calls of the board.
#![tactic(auto)]

mod console_ends;
mod keyboard;
mod keyboard_thread;
mod lines;
mod notes;
mod operators;

pub use console_ends::KeySeats;
pub use keyboard::{KeyLines, press_all};
pub use keyboard_thread::{KeyWork, Keyboard, play_keyboard};
pub use lines::{begin_all, end_all};
pub use operators::operate;
