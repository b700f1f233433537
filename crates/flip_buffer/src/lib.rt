//! A flip buffer: the characters of a line, each a byte and a flag, between the interrupt that puts
//! them in and the thread that takes them out (the kernel's tty documentation, flip buffers). It
//! neither locks nor waits, and nothing but making it asks for memory. Where one thread has both ends, and
//! nothing waits, good characters pass from the one to the other at once.
#![tactic(auto)]

mod input;
mod new;
mod output;
mod packed;
mod passing;
mod peeking;
mod putting;

pub use input::{FlipIn, FlipNote};
pub use new::flip;
pub use output::FlipOut;
pub use word_ring::{HeadNote, names_tell_rings};
