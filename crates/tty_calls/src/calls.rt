//! The calls of a terminal, and what they are made with.

ghost use Rattle.std.specs.Prelude.{◌≡◌};
ghost use Rattle.tty_calls.specs.Plain.{call_of, handle_of, changes};

use tty_modes::Word;

/// What a handle may be used for (open(2), access mode).
#[derive(Clone, Copy, Debug, PartialEq, Eq)]
pub enum Access {
    R,
    W,
    Rw,
}

/// When new modes are set (ioctl_tty(2), TCSETS, TCSETSW and TCSETSF).
#[derive(Clone, Copy, Debug, PartialEq, Eq)]
pub enum When {
    /// At once.
    Now,
    /// When no output is held.
    Drain,
    /// When no output is held, and unread input is dropped.
    Flush,
}

/// What is dropped (ioctl_tty(2), TCFLSH).
#[derive(Clone, Copy, Debug, PartialEq, Eq)]
pub enum Queue {
    /// What was received and not read.
    Input,
    /// What was written and is held.
    Output,
    Both,
}

/// What flow control is told (ioctl_tty(2), TCXONC).
#[derive(Clone, Copy, Debug, PartialEq, Eq)]
pub enum Act {
    /// Output is halted.
    Ooff,
    /// Output that was halted so goes on.
    Oon,
    /// The STOP character is sent.
    Ioff,
    /// The START character is sent.
    Ion,
}

/// A call of a terminal. A handle `h` is a number below 32 that the caller chooses at `Open`. Bytes and
/// mode words stand with whoever makes the call.
#[derive(Clone, Copy)]
pub enum Call<'a> {
    /// Opens the port under the number `h` (open(2)).
    Open {
        h: u8,
        access: Access,
        nonblock: bool,
    },
    /// Closes a handle (close(2)).
    Close {
        h: u8,
    },
    /// Reads at most `n` bytes, 1 to 65,536 (read(2)).
    Read {
        h: u8,
        n: u32,
    },
    /// Writes 1 to 65,536 bytes (write(2)).
    Write {
        h: u8,
        bytes: &'a [u8],
    },
    /// Asks for the modes (ioctl_tty(2), TCGETS).
    GetModes {
        h: u8,
    },
    /// Applies 1 to 64 mode words in their order (ioctl_tty(2), TCSETS).
    SetModes {
        h: u8,
        when: When,
        words: &'a [Word],
    },
    /// Asks for the number of the line discipline (ioctl_tty(2), TIOCGETD).
    GetDisc {
        h: u8,
    },
    /// Changes the line discipline (ioctl_tty(2), TIOCSETD).
    SetDisc {
        h: u8,
        number: u32,
    },
    /// Drops what was not read or not sent (ioctl_tty(2), TCFLSH).
    Flush {
        h: u8,
        queue: Queue,
    },
    /// Halts output or lets it go on, or tells the sender to (ioctl_tty(2), TCXONC).
    Xonc {
        h: u8,
        act: Act,
    },
    /// Asks how many bytes can be read (ioctl_tty(2), FIONREAD).
    Inq {
        h: u8,
    },
    /// Asks how many bytes are held (ioctl_tty(2), TIOCOUTQ).
    Outq {
        h: u8,
    },
    /// Lets nobody else open the port (ioctl_tty(2), TIOCEXCL).
    Excl {
        h: u8,
    },
    /// Lets others open the port again (ioctl_tty(2), TIOCNXCL).
    Nxcl {
        h: u8,
    },
    /// Waits until no output is held (ioctl_tty(2), TCSBRK).
    Drain {
        h: u8,
    },
    /// Asks what the port has counted.
    Counts {
        h: u8,
    },
    /// Hangs the port up (vhangup(2)).
    Vhangup {
        h: u8,
    },
    /// Sends a packet of 1 to 65,536 bytes (RFC 1055), of which SLIP takes at most 1,006.
    SendPacket {
        h: u8,
        bytes: &'a [u8],
    },
    /// Takes the first packet that was received (RFC 1055).
    TakePacket {
        h: u8,
    },
}

impl Call<'_> {
    /// The number of the handle that the call names.
    pub fn handle(&self) -> u8
        ensures { result ≡ handle_of (call_of self.now) }
    {
        match self {
            Call::Open { h, .. } | Call::Close { h } | Call::Read { h, .. } => *h,
            Call::Write { h, .. } | Call::GetModes { h } | Call::SetModes { h, .. } => *h,
            Call::GetDisc { h } | Call::SetDisc { h, .. } | Call::Flush { h, .. } => *h,
            Call::Xonc { h, .. } | Call::Inq { h } | Call::Outq { h } => *h,
            Call::Excl { h } | Call::Nxcl { h } | Call::Drain { h } => *h,
            Call::Counts { h } | Call::Vhangup { h } => *h,
            Call::SendPacket { h, .. } | Call::TakePacket { h } => *h,
        }
    }

    /// Whether the call may change the line discipline or the generation: `Close`, `SetDisc` and `Vhangup` may.
    pub fn changes(&self) -> bool
        ensures { result ≡ changes (call_of self.now) }
    {
        match self {
            Call::Close { .. } | Call::SetDisc { .. } | Call::Vhangup { .. } => true,
            _ => false,
        }
    }
}
