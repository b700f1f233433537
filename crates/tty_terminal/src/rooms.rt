//! The room that a call needs beside the terminal, and what the call meets.

ghost use Rattle.std.specs.Prelude.{◌≡◌, true, option_map, box_value};
ghost use Rattle.tty_terminal.specs.Meeting.{bytes_in, holds_bytes, fresh_in, counts_in, packet_in};

use ldisc_switch::Disc;
use std::mem::replace;
use tty_base::{Bytes, Counts};
use tty_calls::Answer;

/// The room on the wire that any call needs: for the bytes that can be held, and the character of IXOFF.
pub const ROOM_FOR_CALL: usize = 4097;

/// What a call needs beside the terminal. It is made before the call, which then takes no memory.
#[derive(Drop)]
pub enum Room {
    /// Nothing, as most calls.
    Nothing,
    /// Room for the bytes of the answer.
    Bytes(Bytes),
    /// The discipline that the call installs.
    Fresh(Box<Disc>),
    /// The counts that it tells.
    Counts(Box<Counts>),
    /// The packet that it sends, as it is spelled.
    Packet(Bytes),
}

impl Room {
    /// Takes out all that is in it.
    fn take(&mut self) -> Room
        ensures { result ≡ self.old }
    {
        replace(self, Room::Nothing)
    }

    /// Takes out the room for the bytes of an answer.
    pub(crate) fn take_bytes(&mut self) -> Bytes
        requires { holds_bytes self.old ≡ true }
        ensures { result ≡ bytes_in self.old }
    {
        match self.take() {
            Room::Bytes(bytes) => bytes,
            _ => unreachable!(),
        }
    }

    /// Takes out the discipline.
    pub(crate) fn take_fresh(&mut self) -> Option<Disc>
        ensures { result ≡ fresh_in self.old }
    {
        match self.take() {
            Room::Fresh(disc) => Some(Box::into_inner(disc)),
            _ => None,
        }
    }

    /// Takes out the counts.
    pub(crate) fn take_counts(&mut self) -> Option<Box<Counts>>
        ensures { option_map box_value result ≡ counts_in self.old }
    {
        match self.take() {
            Room::Counts(counts) => Some(counts),
            _ => None,
        }
    }

    /// The packet.
    pub(crate) fn packet(&self) -> &[u8]
        ensures { result.now ≡ packet_in self.now }
    {
        match self {
            Room::Packet(bytes) => bytes.as_slice(),
            _ => &[],
        }
    }
}

/// What a call meets.
#[derive(Drop)]
pub enum Met {
    /// It is answered.
    Gives(Answer),
    /// A write took so many bytes, and is not over.
    Takes(u32),
    /// It must wait.
    Waits,
}
