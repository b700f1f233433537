//! A session of consoles.

use arrayvec::ArrayString;
use tty_base::{Buffer, Bytes};
use tty_calls::Session;

/// A call of an operator.
#[derive(Clone, Copy, PartialEq, Eq)]
pub enum OpCall {
    /// Makes this console the active one.
    Activate(u8),
    /// Asks which console is active.
    State,
}

/// The calls of an operator in a phase.
#[derive(Drop)]
pub struct OpScript {
    pub name: ArrayString<16>,
    pub calls: Buffer<OpCall>,
}

/// What the keyboard and the operators do in a phase.
#[derive(Drop)]
pub struct VtPhase {
    pub keys: Bytes,
    pub operators: Buffer<OpScript>,
}

/// A session of consoles: the calls of their callers, as a session with a port for each console, and for each phase
/// what else is done in it.
#[derive(Drop)]
pub struct VtSession {
    pub calls: Session,
    pub phases: Buffer<VtPhase>,
}
