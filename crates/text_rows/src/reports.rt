//! The texts of plays, as tests: reports that tell every answer and every port, and journals with each kind of
//! entry and with overruns. What is told is read from a text.

use check_text::parse_check;
use session_print::{journal_text, report};
use session_text::TextFault;
use std::alloc::Global;
use tty_base::{Buffer, Bytes, Counts, NoMemory, Signal};
use tty_calls::{PortEnd, PortRun, Session};

/// What is told of a play.
#[derive(Clone, Copy)]
enum How {
    Report,
    Journals,
}

/// A session with its journals, what is told of a play that came to them, and what that is. At the end of a busy one
/// signals were raised and bytes went out.
#[derive(Clone, Copy)]
struct Row {
    play: &'static str,
    is_busy: bool,
    how: How,
    told: &'static str,
}

/// Two callers, whose answers do not stand in the order of the text.
const TWO_CALLERS: Row = Row {
    play: "tty-session 1
ports 1
phase
caller a 0
open 0 rw nonblock
read 0 8
caller b 0
read 1 8
phase
caller b 0
close 0
caller a 0
read 0 4
end
journals
journal 0 7
b 0 0 0 answer EBADF
a 0 0 0 answer ok
*flush 0 0 0 flush n00n00
a 1 0 0 answer 2 6869
a 2 0 0 caller_end
a 2 0 0 answer idle
b 1 0 0 answer ok
overruns 0 0
line 0 0 0 0
done
",
    is_busy: true,
    how: How::Report,
    told: "0.a.0 open ok
0.a.1 read 2 6869
0.b.0 read EBADF
0.b.1 close ok
0.a.2 read idle
port 0 line arrived=0 lost=0 sent=0 overrun=0
port 0 input taken=2 dropped=0
port 0 counts mark=0 parity=0 frame=0 break=0 cut=0 echo=0 pin=0 pout=0 pbad=0 pfull=0
port 0 signals INT SUSP
port 0 generation 1
port 0 wire 6f6b
done
",
};

/// One caller on the second of two ports, whose calls are answered in every way but the last, which has no answer.
const EVERY_ANSWER: Row = Row {
    play: "tty-session 2
ports 2
flip 1 64
phase
caller all_1 1
getm 0
counts 0
inq 0
write 0 68656c6c6f
take 0
read 0 1
send 0 78
drain 0
modes 0 drain raw
getd 0
end
journals
journal 0 0
overruns 0 0
line 0 0 0 0
journal 1 9
all_1 0 0 0 answer icrnl ixon opost onlcr isig icanon echo echoe echok echoke echoctl iexten \
intr=3 quit=28 erase=127 kill=21 eof=4 time=0 min=1 start=17 stop=19 susp=26 eol=0 reprint=18 werase=23 lnext=22 eol2=0
all_1 1 0 0 answer mark=1 parity=2 frame=3 break=4 cut=5 echo=6 pin=7 pout=8 pbad=9 pfull=10
all_1 2 0 0 answer 4294967295
all_1 3 0 0 answer 5
all_1 4 0 0 answer 2 00af
all_1 5 0 0 answer 0
all_1 6 0 0 answer EMSGSIZE
all_1 7 0 0 answer idle
all_1 8 0 0 answer ok
overruns 1 0
line 1 0 0 0
done
",
    is_busy: false,
    how: How::Report,
    told: "1.all_1.0 getm icrnl ixon opost onlcr isig icanon echo echoe echok echoke echoctl iexten \
intr=3 quit=28 erase=127 kill=21 eof=4 time=0 min=1 start=17 stop=19 susp=26 eol=0 reprint=18 werase=23 lnext=22 eol2=0
1.all_1.1 counts mark=1 parity=2 frame=3 break=4 cut=5 echo=6 pin=7 pout=8 pbad=9 pfull=10
1.all_1.2 inq 4294967295
1.all_1.3 write 5
1.all_1.4 take 2 00af
1.all_1.5 read 0
1.all_1.6 send EMSGSIZE
1.all_1.7 drain idle
1.all_1.8 modes ok
port 0 line arrived=0 lost=0 sent=0 overrun=0 flip=4096
port 0 input taken=0 dropped=0
port 0 counts mark=0 parity=0 frame=0 break=0 cut=0 echo=0 pin=0 pout=0 pbad=0 pfull=0
port 0 signals -
port 0 generation 0
port 0 wire -
port 1 line arrived=0 lost=0 sent=0 overrun=0 flip=64
port 1 input taken=0 dropped=0
port 1 counts mark=0 parity=0 frame=0 break=0 cut=0 echo=0 pin=0 pout=0 pbad=0 pfull=0
port 1 signals -
port 1 generation 0
port 1 wire -
done
",
};

/// Entries of further kinds: a purge that dropped a character, and a hangup that dropped others.
const FURTHER_ENTRIES: Row = Row {
    play: "tty-session 1
ports 1
phase
caller a 0
open 0 rw nonblock
modes 0 now raw
phase
caller a 0
read 0 64
close 0
end
journals
journal 0 5
a 0 0 0 wait
a 0 0 0 part 64
*clock 0 0 0 tick
a 0 0 0 answer ok drop n78
*session 1 0 0 hangup n0fb0fp0ff0fo0f
overruns 0 1
64 64 0
line 0 70 5 64
done
",
    is_busy: false,
    how: How::Journals,
    told: "journals
journal 0 5
a 0 0 0 wait
a 0 0 0 part 64
*clock 0 0 0 tick
a 0 0 0 answer ok drop n78
*session 1 0 0 hangup n0fb0fp0ff0fo0f
overruns 0 1
64 64 0
line 0 70 5 64
",
};

fn end_of(alloc: Global, is_busy: bool) -> Result<PortEnd, NoMemory> {
    let signals = [Signal::Int, Signal::Susp];
    let (signals, wire) = if is_busy {
        (signals.as_slice(), b"ok".as_slice())
    } else {
        ([].as_slice(), b"".as_slice())
    };
    let signals = signals.to_vec(alloc)?;
    Ok(PortEnd {
        counts: Counts::default(),
        signals: Buffer::from_vec(signals),
        generation: u32::from(is_busy),
        wire: Bytes::from_vec(wire.to_vec(alloc)?),
    })
}

fn ends_of(alloc: Global, ports: u8, is_busy: bool) -> Result<Vec<PortEnd>, NoMemory> {
    let mut ends = Vec::new(alloc);
    for _ in 0..ports {
        ends.push(end_of(alloc, is_busy)?)?;
    }
    Ok(ends)
}

fn told_of(
    alloc: Global,
    how: How,
    session: &Session,
    runs: &[PortRun],
    ends: &[PortEnd],
) -> Result<Bytes, NoMemory> {
    match how {
        How::Report => report(alloc, session, runs, ends),
        How::Journals => journal_text(alloc, session, runs),
    }
}

/// Whether this is told of a play.
fn tells(
    alloc: Global,
    row: &Row,
    session: &Session,
    runs: &[PortRun],
    ends: &[PortEnd],
) -> Result<bool, NoMemory> {
    let told = told_of(alloc, row.how, session, runs, ends)?;
    Ok(told.as_slice() == row.told.as_bytes())
}

fn is_told_with(
    alloc: Global,
    row: &Row,
    session: &Session,
    runs: &[PortRun],
) -> Result<bool, NoMemory> {
    let ends = ends_of(alloc, session.ports, row.is_busy)?;
    tells(alloc, row, session, runs, ends.as_slice())
}

fn is_told(alloc: Global, row: &Row) -> Result<bool, TextFault> {
    let (session, runs) = parse_check(alloc, row.play.as_bytes())?;
    let told = is_told_with(alloc, row, &session, runs.as_slice());
    drop(session);
    drop(runs);
    Ok(told == Ok(true))
}

#[test]
fn plays_are_told_by_reports_and_journals(rt: HostRuntime) {
    for row in [TWO_CALLERS, EVERY_ANSWER, FURTHER_ENTRIES] {
        let told = is_told(rt.alloc(), &row);
        assert!(rt; told == Ok(true), "at {}", row.play);
    }
}
