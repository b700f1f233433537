//! What the threads of a phase have in common.

use many_threads::Start;
use tty_calls::{Names, Script};
use tty_port::SharedPort;
use vt_consoles::SharedBoard;
use vt_text::{VtPhase, VtSession};
use vt_threads::Casting;

/// A phase of a session: its number, the names of the session's operators, and the index of its first key.
#[derive(Clone, Copy)]
pub(crate) struct PhaseOf<'s> {
    pub(crate) session: &'s VtSession,
    pub(crate) names: &'s Names,
    pub(crate) k: usize,
    pub(crate) first: u32,
}

/// Where the threads of a phase meet: at its start, at the board, and at the ports of the consoles; and what of the
/// session they play.
#[derive(Clone, Copy)]
pub(crate) struct Stage<'s> {
    pub(crate) start: &'s Start,
    pub(crate) board: &'s SharedBoard,
    pub(crate) ports: &'s [Option<SharedPort>],
    pub(crate) castings: &'s [Casting],
    pub(crate) scripts: &'s [Script],
    pub(crate) names: &'s Names,
    pub(crate) phase: &'s VtPhase,
    pub(crate) first: u32,
    pub(crate) number: u32,
}
