//! The line discipline N_TTY with all that it works on, as one value for a program that runs it for ever.
#![tactic(auto)]

mod pieces;
mod places;
mod terminal;

pub use terminal::Tty;
