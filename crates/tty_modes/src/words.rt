//! The changes of modes that a word can ask for.

/// One change of modes.
#[derive(Clone, Copy, PartialEq, Eq, Debug)]
pub enum Word {
    /// Sets the flag at this place.
    On(u32),
    /// Clears the flag at this place.
    Off(u32),
    /// Sets the control character at this place to this value.
    Cc(u8, u8),
    /// Clears the flags of cfmakeraw(3). MIN, TIME and the other characters stay.
    Raw,
    /// Sets all defaults.
    Sane,
}
