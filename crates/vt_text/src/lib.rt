//! The text of a session of consoles: what may be written, what it means, and what is wrong with a text that is none.
//!
//! The callers of the consoles are read as those of a session of ports; the keys, and the calls of the operators, stand
//! between them.
#![tactic(auto)]

mod items;
mod laws;
mod reader;
mod scripts;
mod sessions;
mod verbs;

pub use laws::{
    a_worked_text_is_read, sessions_that_are_read_are_within_limits,
    what_is_left_is_the_callers_session, worked_texts_are_refused_at_their_lines,
};
pub use reader::parse_vt;
pub use sessions::{OpCall, OpScript, VtPhase, VtSession};
