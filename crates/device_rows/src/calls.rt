//! Calls of two callers, with characters between them.

use crate::ports::{OPEN, READ, Step};
use row_tables::{NOTHING_COUNTED, Wanted};
use tty_base::{Counts, Errno, Flag, Signal};
use tty_calls::{Access, Act, Call, Queue, When};
use tty_modes::Word;
use tty_modes::places::{ECHO, ICANON, VMIN, VTIME};

/// An open of a second number, whose calls do not wait.
const OPEN_1: Call<'static> = Call::Open {
    h: 1,
    access: Access::Rw,
    nonblock: true,
};

/// Input that is read, echoed and written, a signal, and modes.
const INPUT: &[Step<'static>] = &[
    Step::Calls(0, OPEN, Wanted::Done),
    Step::Calls(0, OPEN, Wanted::Refused(Errno::EEXIST)),
    Step::Calls(0, Call::GetModes { h: 0 }, Wanted::Sane),
    Step::Puts(b"hi\r", Flag::Normal, 3),
    Step::Flushes(64, 3),
    Step::Goes(b"hi\r\n"),
    Step::Calls(0, Call::Inq { h: 0 }, Wanted::Number(3)),
    Step::Calls(0, READ, Wanted::Got(b"hi\n")),
    Step::Calls(
        0,
        Call::Write {
            h: 0,
            bytes: b"a\n",
        },
        Wanted::Count(2),
    ),
    Step::Goes(b"a\r\n"),
    Step::Puts(b"\x03", Flag::Normal, 1),
    Step::Flushes(64, 1),
    Step::Raises(Some(Signal::Int)),
    Step::Raises(None),
    Step::Goes(b"^C"),
    Step::Calls(
        0,
        Call::SetModes {
            h: 0,
            when: When::Drain,
            words: &[Word::Off(ECHO)],
        },
        Wanted::Done,
    ),
    Step::Puts(b"q\r", Flag::Normal, 2),
    Step::Flushes(64, 2),
    Step::Goes(b""),
    Step::Calls(0, READ, Wanted::Got(b"q\n")),
    Step::Puts(b"e", Flag::Parity, 1),
    Step::Flushes(64, 1),
    Step::Calls(
        0,
        Call::Counts { h: 0 },
        Wanted::Counts(Counts {
            parity: 1,
            ..NOTHING_COUNTED
        }),
    ),
    Step::Feeds(7, 0),
];

/// Output that is held, who may open, and what is dropped.
const OUTPUT: &[Step<'static>] = &[
    Step::Calls(0, OPEN, Wanted::Done),
    Step::Calls(0, Call::Excl { h: 0 }, Wanted::Done),
    Step::Calls(1, OPEN_1, Wanted::Refused(Errno::EBUSY)),
    Step::Calls(0, Call::Nxcl { h: 0 }, Wanted::Done),
    Step::Calls(1, OPEN_1, Wanted::Done),
    Step::Calls(
        0,
        Call::Xonc {
            h: 0,
            act: Act::Ooff,
        },
        Wanted::Done,
    ),
    Step::Calls(
        0,
        Call::Write {
            h: 0,
            bytes: b"held",
        },
        Wanted::Count(4),
    ),
    Step::Calls(0, Call::Outq { h: 0 }, Wanted::Number(4)),
    Step::Goes(b""),
    Step::Calls(0, Call::Drain { h: 0 }, Wanted::Waits),
    Step::Calls(
        1,
        Call::Xonc {
            h: 1,
            act: Act::Oon,
        },
        Wanted::Done,
    ),
    Step::Goes(b"held"),
    Step::Calls(0, Call::Drain { h: 0 }, Wanted::Done),
    Step::Calls(
        0,
        Call::Write {
            h: 0,
            bytes: &[0x62; 100],
        },
        Wanted::Takes(64),
    ),
    Step::Goes(&[0x62; 64]),
    Step::Puts(b"xyz", Flag::Normal, 3),
    Step::Calls(
        0,
        Call::Flush {
            h: 0,
            queue: Queue::Both,
        },
        Wanted::Done,
    ),
    Step::Flushes(64, 0),
    Step::Tells(0, 3, 0),
];

/// A line that goes to whoever reads it, and calls that wait while their handle is closed or hung up.
const TWO_CALLERS: &[Step<'static>] = &[
    Step::Calls(0, OPEN, Wanted::Done),
    Step::Calls(1, OPEN_1, Wanted::Done),
    Step::Calls(0, READ, Wanted::Waits),
    Step::Calls(
        1,
        Call::Read { h: 1, n: 64 },
        Wanted::Refused(Errno::EAGAIN),
    ),
    Step::Puts(b"ab\r", Flag::Normal, 3),
    Step::Flushes(64, 3),
    Step::Calls(1, Call::Read { h: 1, n: 1 }, Wanted::Got(b"a")),
    Step::Calls(0, READ, Wanted::Got(b"b\n")),
    Step::Calls(0, READ, Wanted::Waits),
    Step::Calls(1, Call::Close { h: 0 }, Wanted::Done),
    Step::Calls(1, OPEN, Wanted::Done),
    Step::Calls(0, READ, Wanted::Refused(Errno::EBADF)),
    Step::Calls(0, READ, Wanted::Waits),
    Step::Calls(1, Call::Vhangup { h: 1 }, Wanted::Done),
    Step::Calls(1, OPEN_1, Wanted::Refused(Errno::EEXIST)),
    Step::Calls(0, READ, Wanted::Got(b"")),
    Step::Calls(
        0,
        Call::Write { h: 0, bytes: b"a" },
        Wanted::Refused(Errno::EIO),
    ),
    Step::Calls(0, Call::Close { h: 0 }, Wanted::Done),
    Step::Calls(0, Call::Close { h: 0 }, Wanted::Refused(Errno::EBADF)),
    Step::Calls(2, OPEN, Wanted::Refused(Errno::EINVAL)),
    Step::Calls(0, Call::Close { h: 32 }, Wanted::Refused(Errno::EBADF)),
];

/// Reads with MIN 0 and TIME 5: each waits half a second, unless another call gave it up.
const TIMES: &[Step<'static>] = &[
    Step::Calls(0, OPEN, Wanted::Done),
    Step::Calls(
        0,
        Call::SetModes {
            h: 0,
            when: When::Now,
            words: &[Word::Off(ICANON), Word::Cc(VMIN, 0), Word::Cc(VTIME, 5)],
        },
        Wanted::Done,
    ),
    Step::Calls(0, READ, Wanted::Waits),
    Step::Ticks(4),
    Step::Calls(0, READ, Wanted::Waits),
    Step::Ticks(5),
    Step::Calls(0, READ, Wanted::Got(b"")),
    Step::Calls(0, READ, Wanted::Waits),
    Step::Calls(0, Call::GetDisc { h: 0 }, Wanted::Number(0)),
    Step::Ticks(8),
    Step::Calls(0, READ, Wanted::Waits),
    Step::Ticks(12),
    Step::Calls(0, READ, Wanted::Waits),
    Step::Cancels(0),
    Step::Calls(0, READ, Wanted::Waits),
    Step::Ticks(16),
    Step::Calls(0, READ, Wanted::Waits),
    Step::Ticks(3),
    Step::Calls(0, READ, Wanted::Waits),
    Step::Ticks(17),
    Step::Calls(0, READ, Wanted::Got(b"")),
];

pub(crate) const ROWS: [&[Step<'static>]; 4] = [INPUT, OUTPUT, TWO_CALLERS, TIMES];
