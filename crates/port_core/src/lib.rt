//! A port of one thread: the terminal, the journal of what happened to it, the calls that it was
//! asked, and the end of its flip buffer at which characters are taken out. Each entry of the journal
//! is a step of the terminal, and the journal is always a run that leads to it.
#![tactic(auto)]

mod asked;
mod entries;
mod flips;
mod ports;
mod waiting;

pub use ports::Port;
pub use ports::attempting::Tried;
pub use ports::flushing::Flushed;
