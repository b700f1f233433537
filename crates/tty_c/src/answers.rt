//! What a call answers where it does not answer a number: the negated numbers of errno.h.

/// No memory was left, and nothing changed (ENOMEM).
pub const NO_MEMORY: i64 = -12;

/// The handle has no terminal: it was never made, or is freed. Nothing was done (ENODEV).
pub const NO_TERMINAL: i64 = -19;

/// A call has to wait (EINPROGRESS).
pub const WAITS: i64 = -115;

/// An argument that the call does not know, as a number that is none of a flag. Nothing was done (EINVAL).
pub const NO_FLAG: i64 = -22;

/// The handle has a terminal already. Nothing was done (EALREADY).
pub const MADE: i64 = -114;
