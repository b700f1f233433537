//! What a call is answered without the port, and where a signal goes.

use crate::processes::JobSignal;
use tty_base::Errno;

/// What a call is answered without the port.
#[derive(Clone, Copy, PartialEq, Eq)]
pub enum JobAnswer {
    /// The call did what it is for.
    Done,
    /// The number that was asked for.
    Number(u32),
    /// The call was refused (errno(3)).
    Refused(Errno),
    /// The call was refused with EPERM, which no call of a port is.
    NotPermitted,
    /// The signal stopped the group of the process, and the call was not made.
    Stopped(JobSignal),
}

/// Where a signal goes.
#[derive(Clone, Copy, PartialEq, Eq)]
pub enum Target {
    /// A process group, by its number.
    Group(u16),
    /// A process, by its place.
    Process(u16),
    /// No session holds the port.
    Nobody,
}
