//! How much sessions of processes, and of ports with modem lines, ask of a port: no more than their text is long, and
//! what the ports were passed asks no more than the session.
#![tactic(auto)]

mod laws;

pub use laws::{
    a_text_is_as_long_as_its_session_asks, what_is_logged_asks_no_more, what_is_passed_asks_no_more,
};
