//! What the program does without threads: a session's text is read, played on its ports, and what
//! happened is told; journals are read and judged; sessions of consoles, of ports with modem lines and of processes are
//! read, played and told.
//! What reading and telling take is also for the crate above, which plays sessions on threads.
#![tactic(auto)]

mod consoles;
mod judging;
mod laws;
mod modems;
mod playing;
mod processes;
mod reading;
mod top;
mod words;
mod works;

pub use consoles::{read_consoles, work_of_consoles};
pub use laws::{
    a_session_has_one_report, consoles_have_one_report, each_call_has_one_line,
    keys_are_received_once, modem_sessions_have_one_report, no_journal_is_ever_full,
    no_journal_of_a_console_is_ever_full, no_journal_of_processes_is_ever_full,
    no_journal_with_modem_lines_is_ever_full, printed_journals_are_legal,
    processes_have_one_report,
};
pub use playing::{Telling, work_of};
pub use reading::{Reading, read_session};
pub use top::tty_one;
pub use words::{Command, command_on_threads};
pub use works::{Ending, JobLogs, ModemLogs, Ran, Runs, VtEntries, Work};
