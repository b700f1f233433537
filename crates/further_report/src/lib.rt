//! The reports of sessions with calls that the port never sees: what each call was answered, and what became of the
//! ports.
#![tactic(auto)]

mod answers;
mod jobs;
mod laws;
mod modem;
mod names;
mod ports;
mod scripts;
mod verbs;

pub use jobs::jobs_report;
pub use laws::{worked_job_reports_are_told, worked_modem_reports_are_told};
pub use modem::modem_report;
