//! Worked values of the streams, the mode words and the receiver's registers, as tests of what no clause says: that a
//! failing stream is told, and what the data sheet has. Nothing stands on this crate.
#![tactic(auto)]

#[cfg(test)]
mod modes;
#[cfg(test)]
mod registers;
#[cfg(test)]
mod streams;
