//! The terminal of `tty_embed` and the port of `tty_device` for programs in C, which see handles of two plain fields.
#![tactic(auto)]

mod account_exports;
mod answers;
mod calls;
mod device_exports;
mod exports;
mod handle;
mod lines;
mod loose;
mod port_exports;
mod ports;
mod slot;
mod told;
mod uart_exports;
mod uarts;
mod values;

pub use account_exports::Account;
pub use answers::{MADE, NO_FLAG, NO_MEMORY, NO_TERMINAL, WAITS};
pub use handle::Handle;
pub use lines::{Line, LineSlot};
pub use ports::{Port, PortSlot};
pub use slot::Slot;
pub use told::Detail;
pub use uarts::{Receiver, UartSlot};
