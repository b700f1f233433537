//! A place at which threads wait for a change.
//!
//! Time is in no clause: that a change is not missed, who is woken by it and how soon is said here in words
//! alone, and a body that waits too long, or not at all, meets every contract. All calls that are of time
//! alone stand here; the crates above use them and add none.
#![tactic(auto)]

mod waiters;

pub use waiters::{ChangeCount, Waiters};
