//! The lines from the modem to the port: DCD, DSR, CTS and RI.

/// A line from the modem to the port (ioctl_tty(2), modem control).
#[derive(Clone, Copy, Debug, PartialEq, Eq)]
pub enum Pin {
    /// Data carrier detect: the modem has a connection.
    Dcd,
    /// Data set ready: the modem is on.
    Dsr,
    /// Clear to send: the modem takes characters.
    Cts,
    /// Ring indicator: somebody calls.
    Ri,
}
