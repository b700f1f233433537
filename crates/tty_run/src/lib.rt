//! The top of the terminal layer: a session's text is read, played on its ports by threads or by one, and
//! what happened is told; journals are judged.
#![tactic(auto)]

mod consoles;
mod playing;
mod top;

pub use top::tty_run;
pub use tty_one::{JobLogs, ModemLogs, Ran, Runs, VtEntries};
