//! A session of consoles played on one thread.
//!
//! On one thread all keys of a phase go to the console that is active when the phase begins. So the board is played
//! first, and then each console is a port on whose line its keys come.
#![tactic(auto)]

mod laws;
mod playing;

pub use laws::consoles_go_by_their_ranks;
pub use playing::{VtPlayed, play_vt};
