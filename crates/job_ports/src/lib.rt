//! A player of sessions of processes on one thread: their ports one after the other, each from its opening to its
//! hangup, with one log.
#![tactic(auto)]

mod laws;
mod opening;
mod passing;
mod phases;
mod ports;
mod running;

pub use laws::{
    a_full_port_was_played, a_port_hung_up_was_played, ports_played_one_by_one_are_played,
};
pub use phases::JobStation;
pub use running::{JobsRan, jobs_run};
