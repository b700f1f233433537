//! The text of a session of processes: what may be written, what it means, and what is wrong with a text that is none.
//!
//! The processes, and the calls of job control, stand between the items of a session of ports, which are read as such
//! a session's.
#![tactic(auto)]

mod blocks;
mod calls;
mod laws;
mod leaders;
mod logs;
mod ports;
mod procs;
mod reader;
mod sessions;
mod table;
mod verbs;

pub use calls::OwnCall;
pub use laws::{
    a_worked_text_is_read, parsed_sessions_are_within_limits, what_is_left_is_a_session,
    worked_texts_are_refused_at_their_lines,
};
pub use logs::{JobEvent, JobLog};
pub use ports::{own_in, procs_on};
pub use reader::parse_jobs;
pub use sessions::{JobsPart, JobsSession, PortProc};
