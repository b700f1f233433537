//! What a line hands over, and when it is read.

use super::rows::Row;
use super::three_bytes::REPORT;

/// The line's phase ends before the caller's begins.
pub(crate) const READ_A_PHASE_LATER: Row = Row {
    session: "tty-session 1
ports 1
phase
caller a 0
open 0 rw nonblock
modes 0 now raw
phase
line 0
rx 68690a
phase
caller a 0
read 0 64
close 0
end
",
    report: REPORT,
};

/// Nothing happens but the hangup.
pub(crate) const EMPTY_SESSION: Row = Row {
    session: "tty-session 1
ports 1
end
",
    report: "port 0 line arrived=0 lost=0 sent=0 overrun=0
port 0 input taken=0 dropped=0
port 0 counts mark=0 parity=0 frame=0 break=0 cut=0 echo=0 pin=0 pout=0 pbad=0 pfull=0
port 0 signals -
port 0 generation 1
port 0 wire -
done
",
};

/// Four idle times empty the FIFO before the mask, and three do not.
const RECEIVE_TIMEOUT: Row = Row {
    session: "tty-session 1
ports 2
phase
caller a 0
open 0 rw nonblock
modes 0 now raw
caller a 1
open 0 rw nonblock
modes 0 now raw
phase
line 0
trigger 14
rx 414243
idle 4
mask
rx 6162636465666768696a6b6c6d6e6f70
unmask
line 1
trigger 14
rx 414243
idle 3
mask
rx 6162636465666768696a6b6c6d6e6f70
unmask
caller a 0
read 0 64
caller a 1
read 0 64
end
",
    report: "0.a.0 open ok
0.a.1 modes ok
0.a.2 read 19 4142436162636465666768696a6b6c6d6e6f70
1.a.0 open ok
1.a.1 modes ok
1.a.2 read 16 4142436162636465666768696a6b6c6d
port 0 line arrived=19 lost=0 sent=19 overrun=0
port 0 input taken=19 dropped=0
port 0 counts mark=0 parity=0 frame=0 break=0 cut=0 echo=0 pin=0 pout=0 pbad=0 pfull=0
port 0 signals -
port 0 generation 1
port 0 wire -
port 1 line arrived=19 lost=3 sent=17 overrun=0
port 1 input taken=17 dropped=0
port 1 counts mark=1 parity=0 frame=0 break=0 cut=0 echo=0 pin=0 pout=0 pbad=0 pfull=0
port 1 signals -
port 1 generation 1
port 1 wire -
done
",
};

/// Of twenty characters under a mask sixteen are kept, and a mark stands after the first.
const LOST_IN_THE_FIFO: Row = Row {
    session: "tty-session 1
ports 1
phase
caller a 0
open 0 rw nonblock
modes 0 now raw
phase
line 0
trigger 14
mask
rx 4142434445464748494a4b4c4d4e4f5051525354
unmask
caller a 0
read 0 64
end
",
    report: "0.a.0 open ok
0.a.1 modes ok
0.a.2 read 16 4142434445464748494a4b4c4d4e4f50
port 0 line arrived=20 lost=4 sent=17 overrun=0
port 0 input taken=17 dropped=0
port 0 counts mark=1 parity=0 frame=0 break=0 cut=0 echo=0 pin=0 pout=0 pbad=0 pfull=0
port 0 signals -
port 0 generation 1
port 0 wire -
done
",
};

/// A break is a byte 00, or a signal under brkint, or marked under parmrk.
const BREAKS: Row = Row {
    session: "tty-session 1
ports 3
phase
caller a 0
open 0 rw nonblock
modes 0 now raw
caller a 1
open 0 rw nonblock
modes 0 now raw brkint
caller a 2
open 0 rw nonblock
modes 0 now raw parmrk
phase
line 0
rx 61
break
line 1
rx 61
break
line 2
rx 61
break
caller a 0
read 0 64
caller a 1
read 0 64
caller a 2
read 0 64
end
",
    report: "0.a.0 open ok
0.a.1 modes ok
0.a.2 read 2 6100
1.a.0 open ok
1.a.1 modes ok
1.a.2 read EAGAIN
2.a.0 open ok
2.a.1 modes ok
2.a.2 read 4 61ff0000
port 0 line arrived=2 lost=0 sent=2 overrun=0
port 0 input taken=2 dropped=0
port 0 counts mark=0 parity=0 frame=0 break=1 cut=0 echo=0 pin=0 pout=0 pbad=0 pfull=0
port 0 signals -
port 0 generation 1
port 0 wire -
port 1 line arrived=2 lost=0 sent=2 overrun=0
port 1 input taken=2 dropped=0
port 1 counts mark=0 parity=0 frame=0 break=1 cut=0 echo=0 pin=0 pout=0 pbad=0 pfull=0
port 1 signals INT
port 1 generation 1
port 1 wire -
port 2 line arrived=2 lost=0 sent=2 overrun=0
port 2 input taken=2 dropped=0
port 2 counts mark=0 parity=0 frame=0 break=1 cut=0 echo=0 pin=0 pout=0 pbad=0 pfull=0
port 2 signals -
port 2 generation 1
port 2 wire -
done
",
};

/// A parity error is marked, ignored, stored as 00, or stored as it came.
const PARITY_ERRORS: Row = Row {
    session: "tty-session 1
ports 4
phase
caller a 0
open 0 rw nonblock
modes 0 now raw inpck parmrk
caller a 1
open 0 rw nonblock
modes 0 now raw inpck ignpar
caller a 2
open 0 rw nonblock
modes 0 now raw inpck
caller a 3
open 0 rw nonblock
modes 0 now raw
phase
line 0
rx 41
rxp 42
rx ff
line 1
rx 41
rxp 42
rx ff
line 2
rx 41
rxp 42
rx ff
line 3
rx 41
rxp 42
rx ff
caller a 0
read 0 64
caller a 1
read 0 64
caller a 2
read 0 64
caller a 3
read 0 64
end
",
    report: "0.a.0 open ok
0.a.1 modes ok
0.a.2 read 6 41ff0042ffff
1.a.0 open ok
1.a.1 modes ok
1.a.2 read 2 41ff
2.a.0 open ok
2.a.1 modes ok
2.a.2 read 3 4100ff
3.a.0 open ok
3.a.1 modes ok
3.a.2 read 3 4142ff
port 0 line arrived=3 lost=0 sent=3 overrun=0
port 0 input taken=3 dropped=0
port 0 counts mark=0 parity=1 frame=0 break=0 cut=0 echo=0 pin=0 pout=0 pbad=0 pfull=0
port 0 signals -
port 0 generation 1
port 0 wire -
port 1 line arrived=3 lost=0 sent=3 overrun=0
port 1 input taken=3 dropped=0
port 1 counts mark=0 parity=1 frame=0 break=0 cut=0 echo=0 pin=0 pout=0 pbad=0 pfull=0
port 1 signals -
port 1 generation 1
port 1 wire -
port 2 line arrived=3 lost=0 sent=3 overrun=0
port 2 input taken=3 dropped=0
port 2 counts mark=0 parity=1 frame=0 break=0 cut=0 echo=0 pin=0 pout=0 pbad=0 pfull=0
port 2 signals -
port 2 generation 1
port 2 wire -
port 3 line arrived=3 lost=0 sent=3 overrun=0
port 3 input taken=3 dropped=0
port 3 counts mark=0 parity=1 frame=0 break=0 cut=0 echo=0 pin=0 pout=0 pbad=0 pfull=0
port 3 signals -
port 3 generation 1
port 3 wire -
done
",
};

/// Under raw modes errors store their byte, and a break 00.
const FLAGGED_UNDER_RAW: Row = Row {
    session: "tty-session 1
ports 1
phase
caller a 0
open 0 rw nonblock
modes 0 now raw
phase
line 0
rx 41
rxp 42
rxf 43
break
caller a 0
read 0 64
end
",
    report: "0.a.0 open ok
0.a.1 modes ok
0.a.2 read 4 41424300
port 0 line arrived=4 lost=0 sent=4 overrun=0
port 0 input taken=4 dropped=0
port 0 counts mark=0 parity=1 frame=1 break=1 cut=0 echo=0 pin=0 pout=0 pbad=0 pfull=0
port 0 signals -
port 0 generation 1
port 0 wire -
done
",
};

pub(crate) const ROWS: [Row; 7] = [
    READ_A_PHASE_LATER,
    EMPTY_SESSION,
    RECEIVE_TIMEOUT,
    LOST_IN_THE_FIFO,
    BREAKS,
    PARITY_ERRORS,
    FLAGGED_UNDER_RAW,
];
