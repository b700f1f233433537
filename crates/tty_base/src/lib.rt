//! The ground of the terminal layer: characters with their flags, small lists with reserved room,
//! counters and errors, what a serial line does, and the traits through which bytes come in and go out.
#![tactic(auto)]

mod buffers;
mod characters;
mod counters;
mod lines;
mod lists;
mod memory;
mod moves;
mod sinks;
pub mod sizes;
mod slices;
mod sources;
mod standard;

pub use buffers::{Buffer, Bytes, NoMemory};
pub use characters::{Flag, Flagged, good_at};
pub use counters::{Counts, Errno, Signal};
pub use lines::{Full, LineReport, LineStep, Overrun, Overruns, Put};
pub use lists::Chars;
pub use memory::{MemSink, MemSource};
pub use moves::Moves;
pub use sinks::{PutFault, Sink, write_all};
pub use slices::{front_of, rest_of};
pub use sources::{Failed, Source, TakeFault, read_all};
pub use standard::{StdSink, StdSource};
