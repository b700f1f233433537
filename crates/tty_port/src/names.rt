//! What a cell tells of a port. No value of these types is made but in proofs.

use flip_buffer::FlipOut;
use std::collections::LinkedList;
use std::marker::Model;
use tty_calls::{Call, Entry};

/// By this a port is told apart: its numbers of callers, its limit, how many callers have seats, and
/// its flip buffer.
pub struct PortName {
    pub(crate) counts: LinkedList<u8>,
    pub(crate) limit: u32,
    pub(crate) callers: u32,
    pub(crate) flip: FlipOut,
}

impl Model for PortName {
    ghost use Rattle.tty_port.specs.Inside.{Name, plain_name};

    ghost Value = { Name };

    ghost view = { plain_name };
}

/// An entry of a port's journal, with the call that the port keeps for it.
pub struct HistoryEntry {
    pub(crate) entry: Entry<'static>,
    pub(crate) call: Option<Call<'static>>,
}

impl Model for HistoryEntry {
    ghost use Rattle.tty_port.specs.Inside.{EntryWithCall, plain_entry};

    ghost Value = { EntryWithCall };

    ghost view = { plain_entry };
}
