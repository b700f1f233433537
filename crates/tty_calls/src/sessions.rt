//! Sessions, with their phases and the scripts of their callers.

use super::kept_calls::Calls;
use arrayvec::ArrayString;
use line_steps::LineSteps;
use tty_base::{Buffer, Moves};

/// One caller's calls in a phase.
#[derive(Drop)]
pub struct Script {
    pub port: u8,
    /// A letter a to z, and up to 15 letters, digits or `_`.
    pub name: ArrayString<16>,
    pub calls: Calls,
}

/// A part of the session whose work ends before the next phase begins. `lines` and `ticks` have one item for each port.
#[derive(Drop)]
pub struct Phase {
    pub lines: Buffer<LineSteps>,
    pub ticks: Buffer<u32>,
    pub callers: Buffer<Script>,
}

/// What is to be played: for each port and phase the line's steps, the clock's ticks and the callers'
/// calls. `flips` has the capacity of each port's flip buffer.
#[derive(Drop)]
pub struct Session {
    pub version: u8,
    pub ports: u8,
    pub flips: Buffer<u32>,
    pub phases: Buffer<Phase>,
}

impl Moves for Session {}
