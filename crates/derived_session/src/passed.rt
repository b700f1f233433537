//! How it is kept what ports were passed.

use arrayvec::ArrayString;

/// What is passed down at a step of a caller.
#[derive(Clone, Copy)]
pub enum Down {
    /// The call that the caller makes there.
    Call,
    /// A hangup through this handle.
    Hangup(u8),
}

/// What a port was passed at a step of a caller.
#[derive(Clone, Copy)]
pub struct PassedDown {
    pub caller: u16,
    pub step: u32,
    pub down: Down,
}

/// A caller's block in a phase, with so many calls of which the port sees none.
#[derive(Clone, Copy)]
pub struct FurtherBlock {
    pub port: u8,
    pub name: ArrayString<16>,
    pub steps: u32,
}
