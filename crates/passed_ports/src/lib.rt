//! Parts of a player of ports whose session is known only as their callers pass calls down.
#![tactic(auto)]

mod callers;

pub use callers::{cast_in, take_steps};
