//! A port under a row, and what is done to it.

use crate::answers::is_met;
use crate::{accounts, calls, intake};
use row_tables::Wanted;
use std::alloc::Global;
use tty_base::{Flag, NoMemory, Signal};
use tty_calls::{Access, Call};
use tty_device::{Account, Device, Line};
use tty_terminal::Met;

/// What is done to a port, and what is to come of it.
#[derive(Clone, Copy)]
pub(crate) enum Step<'a> {
    /// This caller's call is to meet this.
    Calls(usize, Call<'a>, Wanted<'a>),
    /// The call of this caller that waits is given up.
    Cancels(usize),
    /// Of these bytes, with this flag, so many find room. All that is put is pushed.
    Puts(&'a [u8], Flag, usize),
    /// So many times these bytes, with this flag, are taken in, of which so many find room each time.
    TakesIn(usize, &'a [u8], Flag, Option<usize>),
    /// Of so many characters at most, so many are received.
    Flushes(usize, usize),
    /// These bytes have gone to the wire.
    Goes(&'a [u8]),
    /// This is the first signal that was raised.
    Raises(Option<Signal>),
    /// The clock is set.
    Ticks(u64),
    /// The port is hung up.
    HangsUp,
    /// So many characters were flushed, were dropped, and wait.
    Tells(u64, u64, u64),
    /// So many characters were put, and so many refused.
    Feeds(u64, u64),
}

/// An open that waits, as the calls of its handle do.
pub(crate) const OPEN: Call<'static> = Call::Open {
    h: 0,
    access: Access::Rw,
    nonblock: false,
};

pub(crate) const READ: Call<'static> = Call::Read { h: 0, n: 64 };

/// The most bytes that go to the wire in one step.
const MOST_GONE: usize = 128;

/// A port for two callers, and the end that puts characters into its flip buffer, which has room for 64; none where
/// the port has its line.
#[derive(Drop)]
struct Port {
    device: Device,
    line: Option<Line>,
}

impl Port {
    fn new(alloc: Global, is_whole: bool) -> Result<Port, NoMemory> {
        if is_whole {
            let device = Device::whole(alloc, 2, 64)?;
            return Ok(Port { device, line: None });
        }
        let (device, line) = Device::new(alloc, 2, 64)?;
        Ok(Port {
            device,
            line: Some(line),
        })
    }

    fn meets(&mut self, caller: usize, call: &Call, wanted: &Wanted) -> Result<bool, NoMemory> {
        let met = self.device.call(caller, call)?;
        Ok(is_met(&met, wanted))
    }

    fn puts(&mut self, bytes: &[u8], flag: Flag, wanted: usize) -> bool {
        match &mut self.line {
            Some(line) => {
                let count = line.put(bytes, flag);
                line.push();
                count == wanted
            }
            None => false,
        }
    }

    fn takes_in(
        &mut self,
        times: usize,
        bytes: &[u8],
        flag: Flag,
        wanted: Option<usize>,
    ) -> Result<bool, NoMemory> {
        for _ in 0..times {
            let count = match self.device.take_in(bytes, flag) {
                Err(NoMemory) => self.device.take_in(bytes, flag)?,
                Ok(count) => count,
            };
            if count != wanted {
                return Ok(false);
            }
        }
        Ok(true)
    }

    fn goes(&mut self, wanted: &[u8]) -> Result<bool, NoMemory> {
        let mut place = [0u8; MOST_GONE];
        let count = self.device.take_wire(&mut place)?;
        Ok(place.get(..count) == Some(wanted))
    }

    fn tells(&mut self, flushed: u64, dropped: u64, waiting: u64) -> bool {
        let wanted = Account {
            flushed,
            dropped,
            waiting,
        };
        self.device.account() == wanted
    }

    fn feeds(&mut self, sent: u64, overruns: u64) -> bool {
        let Account {
            flushed,
            dropped,
            waiting,
        } = self.device.account();
        let of_all = flushed.saturating_add(dropped).saturating_add(waiting);
        match &mut self.line {
            Some(line) => {
                let told = line.waiting() == waiting && line.overruns() == overruns;
                told && line.sent() == sent && of_all == sent
            }
            None => false,
        }
    }

    /// Whether a step goes as it is to go.
    fn follows(&mut self, step: &Step) -> Result<bool, NoMemory> {
        match step {
            Step::Calls(caller, call, wanted) => self.meets(*caller, call, wanted),
            Step::TakesIn(times, bytes, flag, wanted) => {
                self.takes_in(*times, bytes, *flag, *wanted)
            }
            Step::Flushes(most, wanted) => Ok(self.device.flush(*most)? == *wanted),
            Step::Goes(wanted) => self.goes(wanted),
            Step::Raises(wanted) => Ok(self.device.take_signal()? == *wanted),
            Step::HangsUp => {
                self.device.hang_up()?;
                Ok(true)
            }
            _ => Ok(self.follows_at_once(step)),
        }
    }

    /// Likewise, of what needs no memory.
    fn follows_at_once(&mut self, step: &Step) -> bool {
        match step {
            Step::Cancels(caller) => self.device.cancel(*caller),
            Step::Puts(bytes, flag, wanted) => return self.puts(bytes, *flag, *wanted),
            Step::Ticks(tick) => self.device.advance(*tick),
            Step::Tells(flushed, dropped, waiting) => {
                return self.tells(*flushed, *dropped, *waiting);
            }
            Step::Feeds(sent, overruns) => return self.feeds(*sent, *overruns),
            _ => return false,
        }
        true
    }
}

/// The first step of a row that goes otherwise. A step that is refused memory has changed nothing, and is done again.
fn first_wrong(port: &mut Port, row: &[Step]) -> Result<Option<usize>, NoMemory> {
    for (place, step) in row.iter().enumerate() {
        let goes = match port.follows(step) {
            Err(NoMemory) => port.follows(step)?,
            Ok(goes) => goes,
        };
        if !goes {
            return Ok(Some(place));
        }
    }
    Ok(None)
}

/// The first step of a row that goes otherwise, from a closed port on.
fn wrong_from_closed(
    alloc: Global,
    is_whole: bool,
    row: &[Step],
) -> Result<Option<usize>, NoMemory> {
    let mut port = Port::new(alloc, is_whole)?;
    let wrong = first_wrong(&mut port, row);
    drop(port);
    wrong
}

#[test]
fn each_step_goes_as_it_is_to_go(rt: HostRuntime) {
    for rows in [calls::ROWS.as_slice(), accounts::ROWS.as_slice()] {
        for row in rows {
            assert_eq!(rt; wrong_from_closed(rt.alloc(), false, row), Ok(None));
        }
    }
    assert_eq!(rt;
        wrong_from_closed(rt.alloc(), true, intake::TAKEN_IN),
        Ok(None)
    );
}
