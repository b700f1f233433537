//! A port alone and shared by threads, as tests of what no clause says: that calls succeed where memory is ample, and
//! what they answer. Nothing stands on this crate.
#![tactic(auto)]

#[cfg(test)]
mod alone;
#[cfg(test)]
mod shared;
