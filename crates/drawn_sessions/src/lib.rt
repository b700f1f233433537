//! Sessions that are drawn from a number, for tests: several ports and callers, both disciplines, calls and
//! line items of every kind. A text is given, as the program reads it.
#![tactic(auto)]

mod calls;
mod draws;
mod lines;
mod sessions;

pub use sessions::drawn_session;
