//! A player of sessions of ports with modem lines on one thread: the ports one after the other, each from its opening
//! to its hangup, with one log.
#![tactic(auto)]

mod blocks;
mod laws;
mod phases;
mod ports;
mod running;

pub use laws::{
    a_full_modem_port_was_played, a_modem_port_hung_up_was_played, modem_ports_are_played,
};
pub use phases::ModemStation;
pub use running::{ModemRan, modem_run};
