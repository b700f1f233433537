//! Job control of a port: which session holds it, which group is in the foreground, and what a call from the background
//! meets (termios(3); ioctl_tty(2), TIOCSCTTY, TIOCNOTTY, TIOCGPGRP and TIOCSPGRP; credentials(7)).
#![tactic(auto)]

mod answers;
mod census;
mod jobs;
mod processes;
mod roster;
mod rows;

pub use answers::{JobAnswer, Target};
pub use jobs::Jobs;
pub use processes::{JobAct, JobRefusal, JobSignal, Judged, Proc};
pub use rows::{background_is_stopped, orphans_are_refused, port_is_taken_and_left};
