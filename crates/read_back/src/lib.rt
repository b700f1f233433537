//! That what is printed of legal runs is read back.
#![tactic(auto)]

mod laws;

pub use laws::{a_legal_run_can_be_printed, legal_runs_are_read_back};
