//! How long the journal of a port can become.
#![tactic(auto)]

mod laws;

pub use laws::{
    a_journal_is_bounded, a_legal_run_is_one_as_far_as_it_went, a_worked_session_is_counted,
};
