//! The session that ports were played, made of what is kept of what each was passed.
#![tactic(auto)]

mod begun;
mod calls;
mod copies;
mod passed;
mod ports;
mod scripts;
mod sessions;
mod slots;

pub use begun::add_begun;
pub use passed::{Down, FurtherBlock, PassedDown};
pub use sessions::derive;
