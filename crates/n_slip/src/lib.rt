//! The line discipline N_SLIP (linux/tty.h, number 1): SLIP packets (RFC 1055) that wait to be taken.
#![tactic(auto)]

mod discipline;
mod kept;
mod laws;
mod queue;

pub use discipline::NSlip;
pub use laws::pieces_are_counted;
