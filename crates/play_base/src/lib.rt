//! What players of a session share: a port from its opening to its end, and who calls in a phase.
#![tactic(auto)]

mod ports;
mod roles;
mod stations;

pub use ports::{Played, hang_up, left_of, open_port, stop};
pub use roles::{Role, cast, counts_of, move_on, roles_of};
pub use stations::{Station, scripts_of, steps_of, ticks_of};
