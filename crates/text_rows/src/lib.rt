//! Sessions that are made from a number, and the texts of plays, as tests of worked values. Nothing stands on this
//! crate.
#![tactic(auto)]

#[cfg(test)]
mod numbers;
#[cfg(test)]
mod reports;
