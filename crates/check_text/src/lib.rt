//! The texts that are checked: a session, and after it the journals of its ports.
#![tactic(auto)]

mod answers;
mod callers;
mod characters;
mod entries;
mod faults;
mod fields;
mod journals;
mod kinds;
mod laws;
mod read_entries;
mod reader;

pub use laws::{
    a_text_is_refused_exactly_where_it_spells_no_runs, answers_are_read_by_their_calls,
    entries_are_read_as_they_are_printed, printed_journals_are_read_back,
    spells_one_session_and_its_runs, worked_texts_are_refused_at_their_lines,
};
pub use reader::parse_check;
