//! The report of a session of consoles: what each call of a caller and of an operator was answered, and what became of
//! each console.
#![tactic(auto)]

mod consoles;
mod counts;
mod laws;
mod operators;
mod report;

pub use laws::a_played_session_has_the_same_report;
pub use report::vt_report;
