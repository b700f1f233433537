//! Output processing, flow control and held output.

use super::rows::Row;

/// With opost TABs are blanks under tab3, and NL is CR NL under onlcr; BS moves no column at the start of a line.
pub(crate) const TABS_AND_NEWLINES: Row = Row {
    session: "tty-session 1
ports 1
phase
caller a 0
open 0 rw nonblock
modes 0 now raw opost onlcr tab3
phase
caller a 0
write 0 6109620a0d
write 0 0809
end
",
    report: "0.a.0 open ok
0.a.1 modes ok
0.a.2 write 5
0.a.3 write 2
port 0 line arrived=0 lost=0 sent=0 overrun=0
port 0 input taken=0 dropped=0
port 0 counts mark=0 parity=0 frame=0 break=0 cut=0 echo=0 pin=0 pout=0 pbad=0 pfull=0
port 0 signals -
port 0 generation 1
port 0 wire 6120202020202020620d0a0d082020202020202020
done
",
};

/// With iutf8 a character of two bytes has one column.
const UTF8_COLUMN: Row = Row {
    session: "tty-session 1
ports 2
phase
caller a 0
open 0 rw nonblock
modes 0 now iutf8 tab3
caller a 1
open 0 rw nonblock
modes 0 now tab3
phase
caller a 0
write 0 c3a90962
caller a 1
write 0 c3a90962
end
",
    report: "0.a.0 open ok
0.a.1 modes ok
0.a.2 write 4
1.a.0 open ok
1.a.1 modes ok
1.a.2 write 4
port 0 line arrived=0 lost=0 sent=0 overrun=0
port 0 input taken=0 dropped=0
port 0 counts mark=0 parity=0 frame=0 break=0 cut=0 echo=0 pin=0 pout=0 pbad=0 pfull=0
port 0 signals -
port 0 generation 1
port 0 wire c3a92020202020202062
port 1 line arrived=0 lost=0 sent=0 overrun=0
port 1 input taken=0 dropped=0
port 1 counts mark=0 parity=0 frame=0 break=0 cut=0 echo=0 pin=0 pout=0 pbad=0 pfull=0
port 1 signals -
port 1 generation 1
port 1 wire c3a920202020202062
done
",
};

/// A halted port holds 4,096 bytes, and START sends them.
const HELD_OUTPUT: Row = Row {
    session: "tty-session 1
ports 1
phase
caller a 0
open 0 rw nonblock
phase
line 0
rx 13
caller a 0
write 0 [61*5000]
write 0 62
outq 0
phase
line 0
rx 11
caller a 0
outq 0
end
",
    report: "0.a.0 open ok
0.a.1 write 4096
0.a.2 write EAGAIN
0.a.3 outq 4096
0.a.4 outq 0
port 0 line arrived=2 lost=0 sent=2 overrun=0
port 0 input taken=2 dropped=0
port 0 counts mark=0 parity=0 frame=0 break=0 cut=0 echo=0 pin=0 pout=0 pbad=0 pfull=0
port 0 signals -
port 0 generation 1
port 0 wire [61*4096]
done
",
};

/// Under ixoff STOP is sent at 4,000 unread bytes, and START when 128 are left.
const STOP_IS_SENT: Row = Row {
    session: "tty-session 1
ports 1
phase
caller a 0
open 0 rw nonblock
modes 0 now raw ixoff
phase
line 0
rx [61*4000]
caller a 0
inq 0
read 0 3872
end
",
    report: "0.a.0 open ok
0.a.1 modes ok
0.a.2 inq 4000
0.a.3 read 3872 [61*3872]
port 0 line arrived=4000 lost=0 sent=4000 overrun=0
port 0 input taken=4000 dropped=0
port 0 counts mark=0 parity=0 frame=0 break=0 cut=0 echo=0 pin=0 pout=0 pbad=0 pfull=0
port 0 signals -
port 0 generation 1
port 0 wire 1311
done
",
};

/// TCOON ends both halts, but none where TCOOFF made none; START ends that of STOP alone; and STOP is sent past a halt.
/// What is held can be dropped, goes with a hangup, which ends the halt, and goes out at a change.
const TWO_HALTS: Row = Row {
    session: "tty-session 1
ports 1
phase
caller a 0
open 0 rw nonblock
phase
line 0
rx 13
caller a 0
xonc 0 oon
write 0 61
outq 0
xonc 0 ooff
phase
line 0
rx 11
caller a 0
outq 0
xonc 0 ioff
phase
line 0
rx 13
caller a 0
xonc 0 oon
outq 0
phase
line 0
rx 13
caller a 0
write 0 62
flush 0 out
outq 0
write 0 63
outq 0
vhangup 0
close 0
open 0 rw nonblock
write 0 64
outq 0
phase
line 0
rx 13
caller a 0
write 0 65
outq 0
setd 0 1
end
",
    report: "0.a.0 open ok
0.a.1 xonc ok
0.a.2 write 1
0.a.3 outq 1
0.a.4 xonc ok
0.a.5 outq 1
0.a.6 xonc ok
0.a.7 xonc ok
0.a.8 outq 0
0.a.9 write 1
0.a.10 flush ok
0.a.11 outq 0
0.a.12 write 1
0.a.13 outq 1
0.a.14 vhangup ok
0.a.15 close ok
0.a.16 open ok
0.a.17 write 1
0.a.18 outq 0
0.a.19 write 1
0.a.20 outq 1
0.a.21 setd ok
port 0 line arrived=5 lost=0 sent=5 overrun=0
port 0 input taken=5 dropped=0
port 0 counts mark=0 parity=0 frame=0 break=0 cut=0 echo=0 pin=0 pout=0 pbad=0 pfull=0
port 0 signals -
port 0 generation 3
port 0 wire 13616465
done
",
};

/// Twenty calls of one caller, each with its answer.
pub(crate) const SMALL_CALLS: Row = Row {
    session: "tty-session 1
ports 1
phase
caller a 0
open 0 rw
getm 0
excl 0
open 1 r
nxcl 0
open 1 r
write 1 61
close 5
inq 0
xonc 0 ooff
write 0 6162
outq 0
drain 0
xonc 0 oon
drain 0
xonc 0 ioff
flush 0 both
counts 0
send 0 61
take 0
end
",
    report: "0.a.0 open ok
0.a.1 getm icrnl ixon opost onlcr isig icanon echo echoe echok echoke echoctl iexten intr=3 \
quit=28 erase=127 kill=21 eof=4 time=0 min=1 start=17 stop=19 susp=26 eol=0 reprint=18 werase=23 lnext=22 eol2=0
0.a.2 excl ok
0.a.3 open EBUSY
0.a.4 nxcl ok
0.a.5 open ok
0.a.6 write EBADF
0.a.7 close EBADF
0.a.8 inq 0
0.a.9 xonc ok
0.a.10 write 2
0.a.11 outq 2
0.a.12 drain idle
0.a.13 xonc ok
0.a.14 drain ok
0.a.15 xonc ok
0.a.16 flush ok
0.a.17 counts mark=0 parity=0 frame=0 break=0 cut=0 echo=0 pin=0 pout=0 pbad=0 pfull=0
0.a.18 send ENOTTY
0.a.19 take ENOTTY
port 0 line arrived=0 lost=0 sent=0 overrun=0
port 0 input taken=0 dropped=0
port 0 counts mark=0 parity=0 frame=0 break=0 cut=0 echo=0 pin=0 pout=0 pbad=0 pfull=0
port 0 signals -
port 0 generation 1
port 0 wire 616213
done
",
};

/// CR at column 0 is nothing under onocr, and NL under ocrnl.
const CARRIAGE_RETURNS: Row = Row {
    session: "tty-session 1
ports 1
phase
caller a 0
open 0 rw nonblock
modes 0 now raw opost onocr ocrnl
phase
caller a 0
write 0 0d610d
end
",
    report: "0.a.0 open ok
0.a.1 modes ok
0.a.2 write 3
port 0 line arrived=0 lost=0 sent=0 overrun=0
port 0 input taken=0 dropped=0
port 0 counts mark=0 parity=0 frame=0 break=0 cut=0 echo=0 pin=0 pout=0 pbad=0 pfull=0
port 0 signals -
port 0 generation 1
port 0 wire 610a
done
",
};

pub(crate) const ROWS: [Row; 7] = [
    TABS_AND_NEWLINES,
    UTF8_COLUMN,
    HELD_OUTPUT,
    STOP_IS_SENT,
    TWO_HALTS,
    SMALL_CALLS,
    CARRIAGE_RETURNS,
];
