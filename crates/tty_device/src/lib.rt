//! A port that runs for ever: the terminal with its flip buffer, without a journal. The end that puts characters in
//! is an object of its own, which another thread may have; or the port has it, and takes bytes in by one call.
#![tactic(auto)]

mod accounts;
mod askers;
mod devices;
mod intake;
mod lines;
mod places;
mod taken;

pub use accounts::{Account, Both};
pub use devices::Device;
pub use lines::Line;
