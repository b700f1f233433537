//! Parts of a player of sessions of processes on one thread: a port's log and its desk, the line of a phase with its
//! signals, and what comes after it up to the end of the phase. The player itself is not here.
#![tactic(auto)]

mod after_line;
mod controls;
mod desk_laws;
mod desks;
mod laws;
mod line;
mod logs;
mod orders;
mod players;
mod turns;

pub use after_line::play_after_line;
pub use desk_laws::{
    calls_begin_by_their_entries, desks_follow_their_ports, desks_go_along_with_lines,
    new_signals_are_sent_on, signals_come_of_flushes,
};
pub use desks::Desk;
pub use laws::{a_session_has_its_blocks, what_is_whole_is_derived};
pub use line::play_line;
pub use logs::{
    a_call_begins_at_its_first_entry, calls_have_gone_on, logs_grow, what_came_before_stays,
};
pub use orders::{events_come_in_turn, passings_follow_the_log};
pub use players::{
    phases_of_processes_are_played, players_answer_calls, players_hang_up_for_processes,
    players_pass_calls_down, players_send_signals_on, players_take_their_turns,
};
