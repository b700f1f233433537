//! A phase of a port on threads: what each thread does in it, and what is shared. A port has a thread for each
//! caller, one each for line and flusher, and one for a clock that ticks, over the seats of a shared port.
#![tactic(auto)]

mod caller_part;
mod caller_threads;
mod cast;
mod clock_part;
mod crew;
mod flusher_part;
mod keeping;
mod line_part;
mod port_ends;
mod seats;
mod shared_phase;
mod start_signal;
mod thread_bodies;

pub use caller_threads::{CallersBack, is_full};
pub use cast::{caller_count, seat_roles};
pub use clock_part::play_clock;
pub use crew::{CallersOfCrew, ClockOfCrew, Crew, CrewBack, FlusherOfCrew, LineOfCrew};
pub use keeping::beside;
pub use line_part::Receiver;
pub use port_ends::end_port;
pub use seats::Seats;
pub use shared_phase::{
    PhaseBack, PhaseEnd, PhaseWork, crew_of, finish_phase, share, take_together, unshare,
};
pub use start_signal::{Site, Start};
pub use thread_bodies::{
    FlusherBack, LineBack, SeatBack, caller_thread, clock_thread, flusher_thread, line_thread,
    tick_all,
};
