//! A session of processes.

use crate::calls::OwnCall;
use job_control::Proc;
use passed_calls::PlacedCall;
use tty_base::Buffer;
use tty_calls::Session;

/// A process, and its port.
#[derive(Clone, Copy)]
pub struct PortProc {
    pub port: u8,
    pub proc: Proc,
}

/// What a phase has beside that of a session of ports.
#[derive(Drop)]
pub struct JobsPart {
    pub own: Buffer<PlacedCall<OwnCall>>,
}

/// A session of processes: a session of ports, its processes, and for each phase what it has beside. The parent of a
/// process is named by its place among those of the port.
#[derive(Drop)]
pub struct JobsSession {
    pub session: Session,
    pub procs: Buffer<PortProc>,
    pub parts: Buffer<JobsPart>,
}
