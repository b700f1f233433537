//! Worked sessions with their reports, as tests over the top call, and what such tests need of texts.
#![tactic(auto)]

#[cfg(test)]
mod altered;
#[cfg(test)]
mod consoles;
#[cfg(test)]
mod editing;
#[cfg(test)]
mod exchanged;
#[cfg(test)]
mod journals;
#[cfg(test)]
mod modems;
#[cfg(test)]
mod output;
#[cfg(test)]
mod overruns;
#[cfg(test)]
mod processes;
#[cfg(test)]
mod receiving;
#[cfg(test)]
mod refusals;
#[cfg(test)]
mod rows;
#[cfg(test)]
mod switching;
mod texts;
pub mod three_bytes;
mod told;
#[cfg(test)]
mod waiting;

pub use texts::{with_journals, written_out};
pub use told::{Told, are_legal, sink, source, status_of, told_behind, told_of, told_on_threads};
