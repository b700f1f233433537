//! What is logged of ports whose callers are processes.

use job_control::{JobAnswer, JobSignal, Target};
use passed_calls::Logged;
use tty_calls::Answer;

/// What happens beside a port's journal.
#[derive(Drop)]
pub enum JobEvent {
    /// A call is answered without the port.
    Own {
        caller: u16,
        step: u32,
        answer: JobAnswer,
    },
    /// The port has answered a call.
    Passed {
        caller: u16,
        step: u32,
        answer: Answer,
    },
    /// A process that ends has the port hung up through this handle.
    Down {
        caller: u16,
        h: u8,
    },
    /// A signal is sent.
    Sent {
        signal: JobSignal,
        target: Target,
    },
}

/// An event of a port whose callers are processes, and after how many entries of the port's journal it came.
pub type JobLog = Logged<JobEvent>;
