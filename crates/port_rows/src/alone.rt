//! A port with one caller on one thread: what each call is answered, a journal that is full, and calls that are
//! refused memory.

ghost use Rattle.std.specs.Prelude.{◌≡◌, ◌≤◌, ◌<◌, ◌^◌, IsTrue};
ghost use Rattle.tty_calls.specs.Plain.{call_of, handle_of};
ghost use Rattle.tty_calls.specs.Limits.{byte_count};

use flip_buffer::flip;
use port_core::{Port, Tried};
use row_tables::{NOTHING_COUNTED, Wanted, is_answer};
use std::alloc::Global;
use std::marker::Model;
use std::test::Fail;
use tty_base::{Errno, NoMemory};
use tty_calls::{Access, Act, Call, Denied, Queue, When};
use tty_modes::Word;

/// A port for one caller in one phase.
#[derive(Drop)]
struct OneCaller {
    port: Port,
}

impl Model for OneCaller {
    ghost use Rattle.std.specs.Prelude.{◌≡◌, [], ◌∷◌};
    ghost use Rattle.port_core.specs.Ports.{PortValue};

    ghost Value = { PortValue };

    ghost view = { λ one. one.port };

    ghost invariant = { λ one. one.port.counts ≡ 1 ∷ [] };
}

impl OneCaller {
    fn new(alloc: Global, limit: u32) -> Result<OneCaller, NoMemory>
        requires some { 1 ≤ limit }
        requires few { limit ≤ 4194304 }
    {
        let (_, taker) = flip(alloc, 64)?;
        Ok(OneCaller {
            port: Port::new(alloc, &[1], limit, taker)?,
        })
    }

    /// How the caller's next call goes, unless a call of it has begun.
    fn goes(&mut self, call: &Call, wanted: &Wanted) -> Went {
        let state = self.port.caller(0);
        if state.over || state.bound.is_some() || state.parts > 0 || !is_in_range(call) {
            return Went::Otherwise;
        }
        let tried = self.port.attempt(0, state.next, call);
        let went = went_by(&tried, wanted);
        drop(tried);
        went
    }

    fn entries(&self) -> usize {
        self.port.journal().len()
    }

    /// Whether each of the other calls that need nothing else answers that no memory is left.
    fn is_starved(&mut self) -> bool {
        !self.port.clock_is_over()
            && self.port.tick() == Err(Denied::NoMemory)
            && self.port.clock_end() == Err(Denied::NoMemory)
    }
}

/// Whether a call may be tried.
fn is_in_range(call: &Call) -> bool
    ensures number { IsTrue result → handle_of (call_of call.now) < 32 }
    ensures bytes { IsTrue result → byte_count (call_of call.now) < 2 ^ 32 }
{
    let few = match call {
        Call::Write { h: _, bytes } | Call::SendPacket { h: _, bytes } => bytes.len() <= 65_536,
        _ => true,
    };
    few && call.handle() < 32
}

/// How a call goes that is tried.
#[derive(Clone, Copy)]
enum Went {
    /// It is answered as wanted.
    Well,
    /// It is refused memory.
    Starved,
    /// The journal is full.
    Full,
    /// It is answered otherwise, or its answer is still to come.
    Otherwise,
}

fn went_by(tried: &Result<Tried, Denied>, wanted: &Wanted) -> Went {
    match tried {
        Ok(tried) => answered_by(tried, wanted),
        Err(Denied::NoMemory) => Went::Starved,
        Err(Denied::Full) => Went::Full,
    }
}

fn answered_by(tried: &Tried, wanted: &Wanted) -> Went {
    match tried {
        Tried::Done(answer) if is_answer(answer, wanted) => Went::Well,
        _ => Went::Otherwise,
    }
}

fn is_well(went: Went) -> bool {
    match went {
        Went::Well => true,
        _ => false,
    }
}

fn is_full(went: Went) -> bool {
    match went {
        Went::Full => true,
        _ => false,
    }
}

/// Each call at least once, and what it is to be answered after those before it.
const ROWS: [(Call<'static>, Wanted<'static>); 22] = [
    (
        Call::Open {
            h: 0,
            access: Access::Rw,
            nonblock: true,
        },
        Wanted::Done,
    ),
    (Call::GetModes { h: 0 }, Wanted::Sane),
    (
        Call::SetModes {
            h: 0,
            when: When::Now,
            words: &[Word::Raw],
        },
        Wanted::Done,
    ),
    (Call::GetDisc { h: 0 }, Wanted::Number(0)),
    (Call::Excl { h: 0 }, Wanted::Done),
    (Call::Nxcl { h: 0 }, Wanted::Done),
    (
        Call::Xonc {
            h: 0,
            act: Act::Ooff,
        },
        Wanted::Done,
    ),
    (Call::Write { h: 0, bytes: b"ab" }, Wanted::Count(2)),
    (Call::Outq { h: 0 }, Wanted::Number(2)),
    (
        Call::Xonc {
            h: 0,
            act: Act::Oon,
        },
        Wanted::Done,
    ),
    (Call::Drain { h: 0 }, Wanted::Done),
    (Call::Inq { h: 0 }, Wanted::Number(0)),
    (Call::Read { h: 0, n: 8 }, Wanted::Refused(Errno::EAGAIN)),
    (Call::Counts { h: 0 }, Wanted::Counts(NOTHING_COUNTED)),
    (
        Call::Flush {
            h: 0,
            queue: Queue::Both,
        },
        Wanted::Done,
    ),
    (
        Call::SendPacket { h: 0, bytes: b"c" },
        Wanted::Refused(Errno::ENOTTY),
    ),
    (Call::SetDisc { h: 0, number: 1 }, Wanted::Done),
    (Call::SendPacket { h: 0, bytes: b"c" }, Wanted::Done),
    (Call::TakePacket { h: 0 }, Wanted::Refused(Errno::EAGAIN)),
    (Call::Vhangup { h: 0 }, Wanted::Done),
    (Call::Read { h: 0, n: 8 }, Wanted::Got(b"")),
    (Call::Close { h: 0 }, Wanted::Done),
];

/// Whether two calls are answered, and a third finds the journal full, which keeps its two entries.
fn is_full_at_two(one: &mut OneCaller) -> bool {
    let open = Call::Open {
        h: 0,
        access: Access::Rw,
        nonblock: false,
    };
    let ask = Call::GetDisc { h: 0 };
    let first = is_well(one.goes(&open, &Wanted::Done));
    let second = is_well(one.goes(&ask, &Wanted::Number(0)));
    let third = is_full(one.goes(&ask, &Wanted::Number(0)));
    first && second && third && one.entries() == 2
}

#[test]
fn a_full_journal_keeps_its_entries(rt: HostRuntime) -> Result<(), Fail> {
    let mut one = OneCaller::new(rt.alloc(), 2)?;
    let is_full = is_full_at_two(&mut one);
    drop(one);
    assert!(rt; is_full);
    Ok(())
}

/// Whether a call is answered as wanted and makes one entry, or is refused memory and makes none; and none is answered
/// once `refused` is set.
fn is_kept(one: &mut OneCaller, call: &Call, wanted: &Wanted, refused: &mut bool) -> bool {
    let before = one.entries();
    let went = one.goes(call, wanted);
    let made = one.entries().checked_sub(before);
    match went {
        Went::Well => !*refused && made == Some(1),
        Went::Starved => {
            *refused = true;
            made == Some(0)
        }
        _ => false,
    }
}

/// How many calls are answered before one is refused memory, unless one goes otherwise.
fn answered(one: &mut OneCaller) -> Option<usize> {
    let mut refused = false;
    let mut count = 0usize;
    for row in ROWS {
        if !is_kept(one, &row.0, &row.1, &mut refused) {
            return None;
        }
        if !refused {
            count = count.saturating_add(1);
        }
    }
    Some(count)
}

/// Whether all calls are answered, or each is refused memory from the first refusal on.
fn is_told_from_then_on(one: &mut OneCaller) -> bool {
    match answered(one) {
        Some(count) => count == 22 || one.is_starved(),
        None => false,
    }
}

/// Nothing is refused where memory is ample: then all are answered.
#[test]
fn each_call_is_answered_or_refused_from_the_first_refusal_on(rt: HostRuntime) -> Result<(), Fail> {
    let mut one = OneCaller::new(rt.alloc(), 64)?;
    let is_told = is_told_from_then_on(&mut one);
    drop(one);
    assert!(rt; is_told);
    Ok(())
}
