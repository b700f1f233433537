//! The kinds of line discipline and their numbers.

ghost use Rattle.std.specs.Prelude.{◌≡◌};
ghost use Rattle.ldisc_switch.specs.Disciplines.{kind_of_number};

/// The kinds of line discipline that a port can have.
#[derive(Clone, Copy, PartialEq, Eq, Debug)]
pub enum Kind {
    /// N_TTY, number 0.
    Tty,
    /// N_SLIP, number 1.
    Slip,
}

impl Kind {
    /// The kind of a number (linux/tty.h). None comes exactly for numbers other than 0 and 1.
    pub fn of(number: u32) -> Option<Kind>
        ensures { result ≡ kind_of_number number }
    {
        match number {
            0 => Some(Kind::Tty),
            1 => Some(Kind::Slip),
            _ => None,
        }
    }
}
