//! The one-thread terminal as a value: what each call and each event does to it, stated over plain
//! data in `specs/`, and a struct that does exactly that.
#![tactic(auto)]

mod callers;
mod laws;
mod rooms;
mod rows;
mod terminals;

pub use callers::{Bound, CallerState, Piece};
pub use laws::{
    a_part_takes_some_and_leaves_some, agreeing_calls_have_the_same_runs,
    columns_are_of_what_was_posted, disciplines_are_what_happened, disciplines_hear_the_flushes,
    entries_are_by_their_makers, entries_tell_the_marks, generations_are_counted,
    hangup_leaves_nothing, more_calls_keep_a_run, numbers_of_a_run, one_generation_goes_on,
    own_entries_tell, packets_are_of_what_was_flushed, who_drops_is_answered_done,
    who_waits_has_begun,
};
pub use rooms::{Met, ROOM_FOR_CALL, Room};
pub use rows::{
    change_drops_a_half_line, changed_three_bytes_is_no_run, exclusive_use_keeps_others_out,
    hangup_leaves_dead_handles, idle_where_nothing_can_come, ixoff_stops_and_starts_round_a_read,
    stopped_write_goes_on, three_bytes_is_a_run, tick_makes_a_read_ready,
};
pub use terminals::Terminal;
