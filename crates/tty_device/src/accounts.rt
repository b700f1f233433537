//! Where the characters are.

ghost use Rattle.std.specs.Prelude.{◌≡◌, ◌+◌, ◌≤◌, max, length};
ghost use mathlib.Core.List.{IsPrefix};
ghost use Rattle.tty_device.specs.Kept.{chars_of, flushed_of, dropped_of};

use crate::devices::Device;
use crate::lines::Line;

/// What a port knows of the characters of its line.
#[derive(Clone, Copy, Debug, PartialEq, Eq)]
pub struct Account {
    /// How many the discipline received.
    pub flushed: u64,
    /// How many were dropped with a purge or a hangup.
    pub dropped: u64,
    /// How many are pushed and not taken.
    pub waiting: u64,
}

/// What both ends know of them together.
#[derive(Clone, Copy, Debug, PartialEq, Eq)]
pub struct Both {
    /// How many were put.
    pub sent: u64,
    /// How many were refused, because the buffer was full.
    pub overruns: u64,
    /// Where those are that were put.
    pub account: Account,
}

impl Device {
    /// How many characters were flushed, dropped, and wait by what one look shows.
    pub fn account(&mut self) -> Account
        ensures flushed { result.flushed ≡ length (flushed_of self.old.taken) }
        ensures dropped { result.dropped ≡ length (dropped_of self.old.taken) }
        ensures waiting { result.flushed + result.dropped + result.waiting ≡ self.new.shown }
        ensures after { self.new ≡ record self.old { shown = self.new.shown } }
        ensures shown { self.old.shown ≤ self.new.shown }
    {
        let waiting = self.flip.look() as u64;
        Account {
            flushed: self.flip.taken() - self.dropped,
            dropped: self.dropped,
            waiting,
        }
    }

    /// The account of both ends, of which the other pushes all that it put: each character that was put is flushed,
    /// dropped or waiting, and those that were taken begin those that were put.
    pub fn meet(&mut self, line: &mut Line) -> Both
        requires { line.old.ring ≡ self.old.ring }
        ensures sent { result.sent ≡ length line.old.sent }
        ensures overruns { result.overruns ≡ line.old.overruns }
        ensures flushed { result.account.flushed ≡ length (flushed_of self.old.taken) }
        ensures dropped { result.account.dropped ≡ length (dropped_of self.old.taken) }
        ensures waiting { result.account.flushed + result.account.dropped
            + result.account.waiting ≡ length line.old.sent }
        ensures begins { IsPrefix (chars_of self.old.taken) line.old.sent }
        ensures after { self.new ≡ record self.old { shown = max self.old.shown (length line.old.sent) } }
        ensures line { line.new ≡ record line.old { pushed = line.old.sent; known = line.new.known } }
        ensures known { length self.old.taken ≤ line.new.known }
        ensures rises { line.old.known ≤ line.new.known }
    {
        line.input.meet(self.flip.note());
        self.flip.meet(line.input.note());
        let sent = line.sent();
        let taken = self.flip.taken();
        Both {
            sent,
            overruns: line.overruns(),
            account: Account {
                flushed: taken - self.dropped,
                dropped: self.dropped,
                waiting: sent - taken,
            },
        }
    }
}
