//! A port that threads share, so that whatever their calls do beside one another makes one journal.
//!
//! Each caller has a seat, and so have the flusher, the line, the clock and the session. What a seat
//! made, and what it saw, stands in every later history of the port.
#![tactic(auto)]

mod calling;
mod changing;
mod flushing;
mod gates;
mod holding;
mod kept_port;
mod laws;
mod names;
mod pacing;
mod phase_events;
mod shared;
mod turns;
mod waking;

pub use gates::{Gate, OpenGate};
pub use kept_port::KeptPort;
pub use laws::{others_leave_what_is_open, others_leave_what_is_over_within_a_phase};
pub use names::{HistoryEntry, PortName};
pub use pacing::Pace;
pub use shared::{Seat, SharedPort};
