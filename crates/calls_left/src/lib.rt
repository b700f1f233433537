//! What the callers of a phase have still to call, where not all calls are for the port.
#![tactic(auto)]

mod remaining;

pub use remaining::{NextCall, Remaining};
