//! What can be said of the journals of a session, and the judge that says it.
#![tactic(auto)]

mod account;
mod answers;
mod characters;
mod checking;
mod entries;
mod finishing;
mod judging;
mod laws;
mod lines;
mod overruns;
mod replay;
mod resting;
mod seen;
mod steps;
mod turns;
mod verdicts;

pub use checking::check;
pub use laws::{
    a_legal_run_has_no_wrong_entry, a_session_within_the_limits_is_well_formed,
    an_accounted_run_without_wrong_entries_is_legal, at_most_one_verdict_fits,
};
pub use verdicts::Verdict;
