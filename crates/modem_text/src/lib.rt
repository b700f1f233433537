//! The text of a session of ports with modem lines: what may be written, what it means, and what is wrong with a text
//! that is none.
//!
//! Modem blocks with their items, and the calls of modem lines, stand between the items of a session of ports, which
//! are read as such a session's.
#![tactic(auto)]

mod items;
mod laws;
mod logs;
mod reader;
mod sessions;
mod verbs;

pub use items::{ModemItem, OwnCall, item_of};
pub use laws::{
    a_worked_text_is_read, parsed_modem_sessions_are_within_limits, what_is_left_is_a_session,
    worked_lines_are_read, worked_texts_are_refused_at_their_lines,
};
pub use logs::{ModemEvent, ModemLog};
pub use reader::parse_modem;
pub use sessions::{ModemPart, ModemSession, PinItem};
pub use verbs::{ModemVerb, verb_of};
