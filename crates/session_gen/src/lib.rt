//! Large sessions of four ports, each made from a number.
#![tactic(auto)]

mod draws;
mod laws;
mod phases;

pub use laws::each_number_keeps_the_limits;
pub use phases::make;
