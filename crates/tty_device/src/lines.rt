//! The end that puts characters in.

ghost use Rattle.std.specs.Prelude.{◌≡◌, ◌+◌, ◌-◌, ◌≤◌, ◌<◌, [], ◌++◌, length, take};
ghost use Rattle.tty_base.specs.Sizes.{MOST_SENT};
ghost use Rattle.flow_control.specs.Counting.{count_after};
ghost use Rattle.flip_buffer.specs.Packed.{with_flag};
ghost use Rattle.tty_device.specs.Lines.{PutEnd, HasNoRoom, Puts};

use flip_buffer::FlipIn;
use std::marker::Model;
use tty_base::sizes::MOST_SENT;
use tty_base::{Flag, Moves, Put, rest_of};

/// The end of a port's flip buffer that puts characters in, with its count of overruns. It may be used on another
/// thread than the port; each end knows of the other only what it loads.
#[derive(Drop)]
pub struct Line {
    pub(crate) input: FlipIn,
    overruns: u64,
}

impl Model for Line {
    ghost use Rattle.tty_device.specs.Lines.{PutEnd};

    ghost Value = { PutEnd };

    ghost use Rattle.tty_device.specs.Inside.{line_of};

    ghost view = { line_of };
}

impl Moves for Line {}

impl Line {
    /// An end that has put nothing.
    pub(crate) fn new(input: FlipIn) -> Line
        ensures { result
            ≡ record {
              ring = input.ring;
              capacity = input.capacity;
              sent = input.sent;
              pushed = input.pushed;
              overruns = 0;
              known = input.floor;
            } }
    {
        Line { input, overruns: 0 }
    }

    /// Puts bytes, each with this flag, up to the first that the buffer has no room for, and answers how many. The
    /// others are overruns. 2^63 characters can be put in all.
    pub fn put(&mut self, bytes: &[u8], flag: Flag) -> usize
        ensures within { result ≤ length bytes.now }
        ensures after { self.new ≡ record self.old {
          sent = self.old.sent ++ with_flag flag (take result bytes.now);
          overruns = count_after self.old.overruns (length bytes.now - result);
          known = self.new.known;
        } }
        ensures known { self.old.known ≤ self.new.known }
        ensures full { result < length bytes.now → HasNoRoom self.new.sent self.new.known self.old.capacity }
    {
        let count = put_some(&mut self.input, bytes, flag);
        let refused = (bytes.len() - count) as u64;
        self.overruns = self.overruns.saturating_add(refused);
        count
    }

    /// Makes all that was put visible to the other end.
    pub fn push(&mut self)
        ensures { self.new ≡ record self.old { pushed = self.old.sent } }
    {
        self.input.push();
    }

    /// How many characters were put.
    pub fn sent(&self) -> u64
        ensures { result ≡ length self.now.sent }
    {
        self.input.sent()
    }

    /// How many characters were refused. The count stands still at its type's end.
    pub fn overruns(&self) -> u64
        ensures { result ≡ self.now.overruns }
    {
        self.overruns
    }

    /// How many characters were put and are not taken, by what this call loads.
    pub fn waiting(&mut self) -> u64
        ensures count { result + self.new.known ≡ length self.old.sent }
        ensures after { self.new ≡ record self.old { known = self.new.known } }
        ensures known { self.old.known ≤ self.new.known }
        ensures most { result ≤ self.old.capacity }
    {
        self.input.waiting()
    }
}

/// For how many more characters there is room, by the head that this call loads.
fn room_for_more(input: &mut FlipIn) -> u64
    ensures puts { Puts input.old input.new [] }
    ensures room { length input.new.sent + result ≤ input.new.floor + input.new.capacity }
    ensures small { 0 < result → length input.new.sent + result ≤ MOST_SENT }
    ensures full { result ≡ 0 → HasNoRoom input.new.sent input.new.floor input.new.capacity }
{
    let waiting = input.waiting();
    let free = input.capacity() as u64 - waiting;
    free.min(MOST_SENT.saturating_sub(input.sent()))
}

/// Puts the first of these bytes for which there is room, by the head that this call loads, and answers how many.
fn put_run(input: &mut FlipIn, bytes: &[u8], flag: Flag) -> usize
    ensures within { result ≤ length bytes.now }
    ensures puts { Puts input.old input.new (with_flag flag (take result bytes.now)) }
    ensures full { result ≡ 0 → 0 < length bytes.now → HasNoRoom input.new.sent input.new.floor input.old.capacity }
{
    let room = room_for_more(input);
    let count = room.min(bytes.len() as u64) as usize;
    if count > 0 {
        input.put_run(&bytes[..count], flag);
    }
    count
}

/// Puts bytes up to the first that is refused, and answers how many.
fn put_some(input: &mut FlipIn, bytes: &[u8], flag: Flag) -> usize
    ensures within { result ≤ length bytes.now }
    ensures puts { Puts input.old input.new (with_flag flag (take result bytes.now)) }
    ensures full { result < length bytes.now → HasNoRoom input.new.sent input.new.floor input.old.capacity }
{
    let mut done = 0;
    while done < bytes.len() {
        let count = put_run(input, rest_of(bytes, done), flag);
        if count == 0 {
            return done;
        }
        done += count;
    }
    done
}
