//! Places at which a caller of the port is told that a turn is about to be taken.

use std::sync::Wait;
use tty_calls::Who;

/// Is passed before each turn of a call, and may hold its thread there.
pub trait Gate {
    /// Before a turn of this step; `part` is the number of turns that the step has had.
    fn pass<R: Wait>(&self, rt: &R, who: Who, step: u32, part: u32);
}

/// Holds nobody.
#[derive(Clone, Copy, Debug, PartialEq, Eq)]
pub struct OpenGate;

impl Gate for OpenGate {
    fn pass<R: Wait>(&self, _rt: &R, _who: Who, _step: u32, _part: u32) {}
}
