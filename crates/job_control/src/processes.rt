//! The processes of a port, what one is about to do with it, and what job control says of that.

use arrayvec::ArrayString;

/// A process of a port (credentials(7)).
#[derive(Clone, Copy)]
pub struct Proc {
    pub name: ArrayString<16>,
    /// The number of its session.
    pub session: u16,
    /// The number of its process group.
    pub group: u16,
    /// The place of its parent.
    pub parent: Option<u16>,
    /// Whether it leads its session.
    pub leader: bool,
    /// Whether it ignores or blocks TTIN.
    pub nottin: bool,
    /// Whether it ignores or blocks TTOU.
    pub nottou: bool,
}

/// A signal of job control (signal(7)).
#[derive(Clone, Copy, PartialEq, Eq)]
pub enum JobSignal {
    Int,
    Quit,
    Susp,
    Ttin,
    Ttou,
    Hup,
    Cont,
}

/// What a process is about to do with a port.
#[derive(Clone, Copy, PartialEq, Eq)]
pub enum JobAct {
    Read,
    Write,
    /// It changes the port's state.
    Change,
}

/// What is said of an act before it is tried.
#[derive(Clone, Copy, PartialEq, Eq)]
pub enum Judged {
    /// It goes on.
    Pass,
    /// It is refused (errno(3)).
    Eio,
    /// The signal goes to the group of the process, which stops.
    Stop(JobSignal),
}

/// Why a call of job control is refused (errno(3)).
#[derive(Clone, Copy, PartialEq, Eq)]
pub enum JobRefusal {
    EPERM,
    ENOTTY,
}
