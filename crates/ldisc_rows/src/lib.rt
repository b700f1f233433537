//! Tables of what N_TTY, its parts and SLIP do, as tests of what no clause says: that calls succeed where memory is
//! ample, and worked values from outside. Nothing stands on this crate.
#![tactic(auto)]

#[cfg(test)]
mod echoes;
#[cfg(test)]
mod embedded;
#[cfg(test)]
mod eof_marks;
#[cfg(test)]
mod erasing;
#[cfg(test)]
mod framing;
#[cfg(test)]
mod readiness;
