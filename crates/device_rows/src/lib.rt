//! Worked rows of a port that runs for ever, as tests of what no clause says: that calls succeed where memory is ample,
//! and what they answer, after the rules of the manual pages. Nothing stands on this crate.
#![tactic(auto)]

#[cfg(test)]
mod accounts;
#[cfg(test)]
mod answers;
#[cfg(test)]
mod calls;
#[cfg(test)]
mod intake;
#[cfg(test)]
mod ports;
