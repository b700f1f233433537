//! A session of consoles played on threads. In each phase the board and the ports of all consoles are shared; the
//! keyboard, each operator, and the flusher and each caller of each console have a thread, side by side, all joined
//! before the phase ends.
#![tactic(auto)]

mod board_threads;
mod console_making;
mod console_threads;
mod consoles;
mod on_threads;
mod operator_threads;
mod parts;
mod phase_play;
mod phases;
mod playing;
mod session_play;
mod stage;
mod taking;
mod whole_consoles;

pub use session_play::play_vt;
