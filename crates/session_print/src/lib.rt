//! The texts of what was played: the report, which says what each call was answered and what became
//! of each port, and the journals, which say what happened on each port, entry by entry.
#![tactic(auto)]

mod answers;
mod calls;
mod characters;
mod digits;
mod fields;
mod fronts;
mod journals;
mod laws;
mod modes;
mod parts;
mod places;
mod ports;
mod summaries;
mod sums;
mod texts;
mod words;

pub use journals::journal_text;
pub use laws::each_call_has_its_line;
pub use summaries::summary;
pub use texts::{answer_text, play_text, report};
