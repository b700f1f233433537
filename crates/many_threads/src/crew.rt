//! The crew of a phase: who has a thread in it, and what comes back.

use crate::caller_threads::CallersBack;
use crate::line_part::Receiver;
use crate::thread_bodies::{FlusherBack, LineBack, SeatBack};
use line_steps::LineSteps;
use play_base::Role;
use tty_calls::Script;
use tty_port::Seat;

/// The line of a phase, and the steps that it does.
#[derive(Drop)]
pub struct LineOfCrew<'s> {
    pub receiver: Receiver,
    pub steps: &'s LineSteps,
    pub phase: u32,
}

/// The clock, and how many ticks it makes.
#[derive(Drop)]
pub struct ClockOfCrew {
    pub seat: Seat,
    pub ticks: u32,
}

/// The flusher, and the number of its first flush run.
#[derive(Drop)]
pub struct FlusherOfCrew {
    pub seat: Seat,
    pub run: u32,
}

/// The callers in their order, each with its role, where it has one.
#[derive(Drop)]
pub struct CallersOfCrew<'s> {
    pub seats: Vec<Seat>,
    pub cast: &'s [Option<Role>],
    pub scripts: &'s [Script],
}

/// Who has a thread in a phase, each with its seat and its part.
#[derive(Drop)]
pub struct Crew<'s> {
    pub line: LineOfCrew<'s>,
    pub clock: ClockOfCrew,
    pub flusher: FlusherOfCrew,
    pub callers: CallersOfCrew<'s>,
}

/// What the threads of a phase bring back.
#[derive(Drop)]
pub struct CrewBack {
    pub line: LineBack,
    pub clock: SeatBack,
    pub flusher: FlusherBack,
    pub callers: CallersBack,
}
