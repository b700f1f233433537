//! A session of consoles played on threads: a console from one phase to the next, and what follows from the
//! definitions alone.
#![tactic(auto)]

mod closing;
mod console_phase;
mod consoles;
mod keyed_laws;
mod laws;
mod opening;
mod parting;

pub use closing::close_board;
pub use console_phase::{Shut, share_console, unshare_console};
pub use consoles::{Console, open_first};
pub use keyed_laws::{
    a_phase_is_played_with_its_keys, a_phase_leads_to_the_next, console_threads_are_a_crew,
    keys_go_on_after_a_full_journal, lines_rest_between_phases, seats_played_since_the_opening,
};
pub use laws::{
    callers_are_the_same, entries_are_counted_by_seat, keyed_sessions_differ_in_lines,
    keys_are_a_line, keys_come_in_their_phase, parts_make_an_account, seats_make_their_phase,
};
pub use opening::open_console;
pub use parting::{
    Casting, OwnSeats, Parted, PartedBack, Rest, Standing, part_console, whole_console,
};
