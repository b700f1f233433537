//! What passes between a terminal and its callers: calls and their answers, the entries of a port's
//! journal, and sessions, which say who calls what.
#![tactic(auto)]

mod answers;
mod calls;
mod journals;
mod kept_calls;
mod kept_entries;
mod names;
mod parts;
mod sessions;

pub use answers::{Answer, AnswerRef, Denied, PortEnd};
pub use calls::{Access, Act, Call, Queue, When};
pub use journals::{Entry, Event, PortRun, Who};
pub use kept_calls::Calls;
pub use kept_entries::Journal;
pub use names::Names;
pub use sessions::{Phase, Script, Session};
