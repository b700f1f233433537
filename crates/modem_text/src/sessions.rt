//! A session of ports with modem lines.

use crate::items::OwnCall;
use modem_lines::Pin;
use passed_calls::PlacedCall;
use tty_base::Buffer;
use tty_calls::Session;

/// An item of a port's modem block: the modem gives a line this level.
#[derive(Clone, Copy)]
pub struct PinItem {
    pub port: u8,
    pub pin: Pin,
    pub up: bool,
}

/// What a phase has beside that of a session of ports.
#[derive(Drop)]
pub struct ModemPart {
    pub pins: Buffer<PinItem>,
    pub own: Buffer<PlacedCall<OwnCall>>,
}

/// A session of ports with modem lines: a session of ports, and for each phase what it has beside.
#[derive(Drop)]
pub struct ModemSession {
    pub session: Session,
    pub parts: Buffer<ModemPart>,
}
