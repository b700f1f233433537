//! What a report says of job control: what a call was answered without the port, and where each signal went.
#![tactic(auto)]

mod laws;
mod lines;

pub use laws::worked_lines_are_told;
pub use lines::{answer_text, put_answer, put_signal};
