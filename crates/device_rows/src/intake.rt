//! What a port takes in that has its line: bytes are put and flushed by one call, past the flip buffer where nothing
//! waits in it.

use crate::ports::{OPEN, READ, Step};
use row_tables::Wanted;
use tty_base::Flag;
use tty_calls::{Call, When};
use tty_modes::Word;
use tty_modes::places::{ECHO, ICANON};

/// Each byte is stored as it is, and none is echoed.
const QUIET: Call<'static> = Call::SetModes {
    h: 0,
    when: When::Now,
    words: &[Word::Off(ICANON), Word::Off(ECHO)],
};

/// While nobody has the port open all waits, as far as there is room, and is handed over at the next call, though no
/// more is put. Then bytes of each number pass, also with an error, until the discipline stops to accept: the rest of
/// that run waits for a later call.
pub(crate) const TAKEN_IN: &[Step<'static>] = &[
    Step::TakesIn(1, &[b'a'; 70], Flag::Normal, Some(64)),
    Step::Tells(0, 0, 64),
    Step::Calls(0, OPEN, Wanted::Done),
    Step::Calls(0, QUIET, Wanted::Done),
    Step::TakesIn(1, b"b", Flag::Normal, Some(0)),
    Step::Tells(64, 0, 0),
    Step::Calls(0, READ, Wanted::Got(&[b'a'; 64])),
    Step::TakesIn(1, b"c", Flag::Normal, Some(1)),
    Step::TakesIn(1, b"", Flag::Normal, Some(0)),
    Step::TakesIn(1, b"defgh", Flag::Normal, Some(5)),
    Step::TakesIn(1, b"ij", Flag::Parity, Some(2)),
    Step::TakesIn(1, b"klm", Flag::Normal, Some(3)),
    Step::Tells(75, 0, 0),
    Step::Calls(0, READ, Wanted::Got(b"cdefghijklm")),
    Step::TakesIn(63, &[b'x'; 64], Flag::Normal, Some(64)),
    Step::Tells(4_107, 0, 0),
    Step::TakesIn(1, &[b'y'; 64], Flag::Normal, Some(64)),
    Step::Tells(4_170, 0, 1),
    Step::TakesIn(1, b"z", Flag::Normal, Some(1)),
    Step::Tells(4_170, 0, 2),
    Step::Calls(0, READ, Wanted::Got(&[b'x'; 64])),
    Step::TakesIn(1, b"", Flag::Normal, Some(0)),
    Step::Tells(4_172, 0, 0),
];
