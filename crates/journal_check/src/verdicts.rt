//! The verdict on the runs of a session: that all are legal, or which port's run is not.

/// What is said of the runs of a session.
#[derive(Clone, Copy, Debug, PartialEq, Eq)]
pub enum Verdict {
    /// Each port's run is legal.
    Legal,
    /// The first port that has a wrong entry, and its first wrong entry, counted from 0.
    Wrong { port: u8, entry: u32 },
    /// No entry is wrong, and this is the first port whose run is all the same not legal: its journal is unfinished,
    /// does not account for the characters of its line, or has an overrun or a number of the line that cannot be.
    Account { port: u8 },
}
