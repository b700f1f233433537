//! The modem lines of a port (termios(3), CLOCAL and HUPCL; ioctl_tty(2), modem control), with the modem status
//! register of the 16550.
#![tactic(auto)]

mod modems;
mod pins;
mod rows;

pub use modems::Modem;
pub use pins::Pin;
pub use rows::{dial_in, dial_out, hupcl_kept, status_register_bits};
