//! The player of one port with modem lines on one thread: the desk with its lines and its log, and what comes behind
//! the line of a phase, up to the end of the phase.
#![tactic(auto)]

mod acts;
mod after_line;
mod controls;
mod desks;
mod items;
mod turns;

pub use after_line::play_after_line;
pub use desks::Desk;
pub use items::Items;
pub use turns::Next;
