//! A session played on threads: in each phase its ports side by side, each with a thread for each caller, one each
//! for line and flusher, and one for a clock that ticks, all joined before the phase ends.
#![tactic(auto)]

mod callers;
mod phases;
mod ports;
mod running;
mod session;
mod thread_making;

pub use running::run_beside;
pub use session::play;
