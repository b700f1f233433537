//! Signals, errors and counts, as a terminal tells them.
/// A signal that the terminal raised for its foreground processes (termios(3), ISIG and BRKINT).
#[derive(Clone, Copy, Debug, PartialEq, Eq)]
pub enum Signal {
    Int,
    Quit,
    Susp,
}

/// Why a call of a terminal was refused (errno(3)).
#[derive(Clone, Copy, Debug, PartialEq, Eq)]
pub enum Errno {
    EBADF,
    EEXIST,
    EBUSY,
    EAGAIN,
    EIO,
    EINVAL,
    ENOTTY,
    EMSGSIZE,
}

/// What a port has counted since it was made.
#[derive(Clone, Copy, Debug, Default, PartialEq, Eq)]
pub struct Counts {
    /// Marks of a receive FIFO that overran.
    pub mark: u64,
    /// Characters with a parity error.
    pub parity: u64,
    /// Characters with a framing error.
    pub frame: u64,
    /// Breaks.
    pub breaks: u64,
    /// Characters that a full edited line did not take.
    pub cut: u64,
    /// Bytes of echo that found no room.
    pub echo: u64,
    /// SLIP packets received.
    pub pin: u64,
    /// SLIP packets sent.
    pub pout: u64,
    /// SLIP packets dropped because they were flagged or too long.
    pub pbad: u64,
    /// SLIP packets dropped because too many waited.
    pub pfull: u64,
}
