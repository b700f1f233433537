//! What follows of the order of one thread; and what is played where the session is known only as its callers pass calls
//! down: some session is played, and each that agrees with the port.
#![tactic(auto)]

mod acts;
mod agreed;
mod any_order;
mod each;
mod laws;
mod passed;
mod passed_orders;

pub use acts::{
    calls_are_played, calls_end, phases_begin_to_be_played, phases_end, turns_are_played,
};
pub use agreed::{a_call_made_was_next, a_port_agreed_before, who_ended_had_no_call};
pub use any_order::{phases_play_each_in_any_order, possible_turns_play_each};
pub use each::{
    a_call_plays_each, a_line_plays_each, a_phase_plays_each, a_port_that_opens_is_before_each,
    a_turn_plays_each, an_end_of_a_phase_ends_each, an_end_of_calls_plays_each,
};
pub use laws::{
    a_run_grows_with_its_session, a_session_grows_by_a_call, a_session_has_one_run,
    what_exceeds_the_buffer_is_lost,
};
pub use passed::{
    a_passing_more_agrees, a_port_opens_with_nothing_passed, callers_keep_their_steps,
    callers_make_what_they_pass, journals_lead_to_the_port, roles_are_cast_for_each,
    sessions_of_blocks_have_one_shape, what_is_passed_goes_on, what_is_passed_last_is_next,
};
pub use passed_orders::{
    each_takes_the_turn, phases_begin_in_any_order, phases_end_in_any_order,
    possible_calls_are_played, possible_calls_end, possible_turns_are_played,
};
