//! The smallest program for each crate that is of use by itself, as tests. `docs/CRATES.md` shows them.
#![tactic(auto)]

#[cfg(test)]
mod characters;
#[cfg(test)]
mod framing;
#[cfg(test)]
mod lines;
#[cfg(test)]
mod numbers;
#[cfg(test)]
mod readiness;
#[cfg(test)]
mod registers;
