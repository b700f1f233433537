//! Where the characters of the line go: a change of discipline and back, a hangup, a buffer that is full, and what both
//! ends know together.

ghost use Rattle.std.specs.Prelude.{◌≡◌};

use crate::ports::{OPEN, READ, Step};
use row_tables::{NOTHING_COUNTED, Wanted};
use std::alloc::Global;
use tty_base::{Counts, Errno, Flag, NoMemory};
use tty_calls::Call;
use tty_device::{Account, Both, Device, Line};

/// A change to N_SLIP and back. What waits in the flip buffer stays; what a discipline holds goes with it.
const CHANGES: &[Step<'static>] = &[
    Step::Calls(0, OPEN, Wanted::Done),
    Step::Puts(b"ab", Flag::Normal, 2),
    Step::Flushes(64, 2),
    Step::Goes(b"ab"),
    Step::Calls(1, READ, Wanted::Waits),
    Step::Puts(b"\xc0x\xc0", Flag::Normal, 3),
    Step::Calls(
        0,
        Call::SetDisc { h: 0, number: 2 },
        Wanted::Refused(Errno::EINVAL),
    ),
    Step::Calls(0, Call::SetDisc { h: 0, number: 1 }, Wanted::Done),
    Step::Calls(1, READ, Wanted::Refused(Errno::EIO)),
    Step::Calls(0, Call::GetDisc { h: 0 }, Wanted::Number(1)),
    Step::Calls(0, Call::TakePacket { h: 0 }, Wanted::Refused(Errno::EAGAIN)),
    Step::Flushes(64, 3),
    Step::Calls(0, Call::TakePacket { h: 0 }, Wanted::Got(b"x")),
    Step::Calls(
        0,
        Call::SendPacket {
            h: 0,
            bytes: b"a\xc0b\xdb",
        },
        Wanted::Done,
    ),
    Step::Goes(b"\xc0a\xdb\xdcb\xdb\xdd\xc0"),
    Step::Puts(b"y\xc0", Flag::Normal, 2),
    Step::Flushes(64, 2),
    Step::Calls(0, Call::SetDisc { h: 0, number: 0 }, Wanted::Done),
    Step::Puts(b"c\r", Flag::Normal, 2),
    Step::Flushes(64, 2),
    Step::Calls(0, READ, Wanted::Got(b"c\n")),
    Step::Calls(
        0,
        Call::Counts { h: 0 },
        Wanted::Counts(Counts {
            pin: 2,
            pout: 1,
            ..NOTHING_COUNTED
        }),
    ),
    Step::Feeds(9, 0),
];

/// A hangup drops what waits, and leaves nothing to the next who opens; while nobody has the port open, all waits.
const HANGUP: &[Step<'static>] = &[
    Step::Puts(b"abcde", Flag::Normal, 5),
    Step::Flushes(64, 0),
    Step::Tells(0, 0, 5),
    Step::Calls(0, OPEN, Wanted::Done),
    Step::Flushes(2, 2),
    Step::Goes(b"ab"),
    Step::HangsUp,
    Step::Tells(2, 3, 0),
    Step::Puts(b"fg\r", Flag::Normal, 3),
    Step::Flushes(64, 0),
    Step::Tells(2, 3, 3),
    Step::Calls(0, READ, Wanted::Got(b"")),
    Step::Calls(0, Call::Close { h: 0 }, Wanted::Done),
    Step::Calls(0, OPEN, Wanted::Done),
    Step::Flushes(64, 3),
    Step::Calls(0, READ, Wanted::Got(b"fg\n")),
    Step::Tells(5, 3, 0),
    Step::Feeds(8, 0),
];

/// What finds the flip buffer full is an overrun; a flush takes as many as it is told.
const FULL: &[Step<'static>] = &[
    Step::Calls(0, OPEN, Wanted::Done),
    Step::Puts(&[0x7a; 70], Flag::Normal, 64),
    Step::Feeds(64, 6),
    Step::Puts(b"z", Flag::Normal, 0),
    Step::Flushes(63, 63),
    Step::Puts(b"yy", Flag::Normal, 2),
    Step::Flushes(100, 3),
    Step::Feeds(66, 7),
    Step::Tells(66, 0, 0),
];

/// A port without its line takes nothing in.
const WITHOUT_LINE: &[Step<'static>] = &[
    Step::TakesIn(1, b"a", Flag::Normal, None),
    Step::Tells(0, 0, 0),
];

pub(crate) const ROWS: [&[Step<'static>]; 4] = [CHANGES, HANGUP, FULL, WITHOUT_LINE];

/// Whether both ends of a closed port tell of three characters what they are to tell, before a hangup and after it.
fn tell_together(device: &mut Device, line: &mut Line) -> Result<bool, NoMemory>
    requires { line.old.ring ≡ device.old.ring }
{
    let count = line.put(b"abc", Flag::Break);
    let before = device.meet(line);
    device.hang_up()?;
    let after = device.meet(line);
    Ok(count == 3 && device.is_stuck() && before == with(0, 3) && after == with(3, 0))
}

/// Of three characters so many were dropped, and so many wait.
fn with(dropped: u64, waiting: u64) -> Both {
    Both {
        sent: 3,
        overruns: 0,
        account: Account {
            flushed: 0,
            dropped,
            waiting,
        },
    }
}

/// Whether both ends of a new port tell so.
fn new_ends_tell_together(alloc: Global) -> Result<bool, NoMemory> {
    let (mut device, mut line) = Device::new(alloc, 1, 0)?;
    let tell = tell_together(&mut device, &mut line);
    drop(device);
    tell
}

/// For a value that may go to another thread.
fn moves<T: Send>() {}

#[test]
fn both_ends_tell_together(rt: HostRuntime) {
    moves::<Line>();
    assert!(rt; new_ends_tell_together(rt.alloc()) == Ok(true));
}
