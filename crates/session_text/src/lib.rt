//! The text of a session: what may be written, what it means, and what is wrong with a text that is none.
//!
//! A text is read line by line, by the place where the reader stands. What it spells is defined as what
//! is written: phases of blocks of items, each item a verb and words, with what they mean and how many
//! there may be. The first wrong line is defined beside it, by the tests of a line in their order. A law
//! joins the two: a text has a first wrong line exactly where it spells no session.
#![tactic(auto)]

mod calls;
mod drafts;
mod faults;
mod kinds;
mod laws;
mod reader;
mod stands;
mod verbs;
mod words;

pub use faults::{BadLine, Reason, TextFault};
pub use laws::{
    a_text_is_as_long_as_what_it_asks, a_text_is_refused_exactly_where_it_spells_no_session,
    spelled_sessions_are_within_limits, spelled_sessions_are_written_in_words, spells_one_session,
    worked_texts_are_refused_at_their_lines, worked_texts_spell_their_sessions,
};
pub use reader::{Reader, parse, parse_front};
pub use stands::ItemPlace;
pub use verbs::{CallVerb, LineVerb, Verb, is_call};
