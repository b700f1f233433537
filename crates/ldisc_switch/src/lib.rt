//! One of two line disciplines, N_TTY or N_SLIP (ioctl_tty(2), TIOCSETD).
#![tactic(auto)]

mod discipline;
mod kinds;
mod laws;
pub mod rows;

pub use discipline::{Disc, fresh};
pub use kinds::Kind;
pub use laws::{
    calls_of_n_slip, calls_of_n_tty, column_of_all_posted, kind_stays, one_more,
    packets_of_all_heard, room_makes_no_difference, rule_under_n_slip,
};
