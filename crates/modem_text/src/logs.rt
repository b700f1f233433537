//! What is logged of ports with modem lines.

use modem_lines::Pin;
use passed_calls::Logged;
use tty_calls::Answer;

/// What happens beside a port's journal.
#[derive(Drop)]
pub enum ModemEvent {
    /// An item of a modem block is done.
    Pin(Pin, bool),
    /// A call is answered without the port: one of the modem lines, or an open that is told that no carrier comes.
    Own {
        caller: u16,
        step: u32,
        answer: Answer,
    },
    /// The port has answered a call.
    Passed {
        caller: u16,
        step: u32,
        answer: Answer,
    },
    /// The carrier was lost, and the port was hung up through this handle.
    Carrier {
        h: u8,
    },
}

/// An event of a port with modem lines, and after how many entries of the port's journal it came.
pub type ModemLog = Logged<ModemEvent>;
