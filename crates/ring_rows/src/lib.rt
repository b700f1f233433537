//! Numbers that go through a ring from one thread to another, and seats that use a cell on one thread and on two, as
//! tests of what no clause says: that threads come to their end. Nothing stands on this crate.
#![tactic(auto)]

#[cfg(test)]
mod cells;
#[cfg(test)]
mod numbers;
