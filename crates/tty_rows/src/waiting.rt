//! Calls that wait: MIN and TIME, ticks, several callers, and waiting in vain.

use super::rows::Row;

/// On a blocking handle a read waits, here in vain; on the other it is to be tried again.
pub(crate) const BLOCKING_AND_NOT: Row = Row {
    session: "tty-session 1
ports 1
phase
caller a 0
open 0 rw
open 1 rw nonblock
read 0 8
read 1 8
end
",
    report: "0.a.0 open ok
0.a.1 open ok
0.a.2 read idle
0.a.3 read EAGAIN
port 0 line arrived=0 lost=0 sent=0 overrun=0
port 0 input taken=0 dropped=0
port 0 counts mark=0 parity=0 frame=0 break=0 cut=0 echo=0 pin=0 pout=0 pbad=0 pfull=0
port 0 signals -
port 0 generation 1
port 0 wire -
done
",
};

/// A read of which nothing comes is told so.
pub(crate) const NOTHING_COMES: Row = Row {
    session: "tty-session 1
ports 1
phase
caller a 0
open 0 rw
read 0 8
end
",
    report: "0.a.0 open ok
0.a.1 read idle
port 0 line arrived=0 lost=0 sent=0 overrun=0
port 0 input taken=0 dropped=0
port 0 counts mark=0 parity=0 frame=0 break=0 cut=0 echo=0 pin=0 pout=0 pbad=0 pfull=0
port 0 signals -
port 0 generation 1
port 0 wire -
done
",
};

/// Of two readers the first in the text gets the byte.
const FIRST_OF_TWO_READERS: Row = Row {
    session: "tty-session 1
ports 1
phase
caller a 0
open 0 rw
modes 0 now raw
phase
line 0
rx 61
caller a 0
read 0 8
caller b 0
read 0 8
end
",
    report: "0.a.0 open ok
0.a.1 modes ok
0.a.2 read 1 61
0.b.0 read idle
port 0 line arrived=1 lost=0 sent=1 overrun=0
port 0 input taken=1 dropped=0
port 0 counts mark=0 parity=0 frame=0 break=0 cut=0 echo=0 pin=0 pout=0 pbad=0 pfull=0
port 0 signals -
port 0 generation 1
port 0 wire -
done
",
};

/// With MIN 0 and TIME 0 a read gives what is there.
const MIN_0: Row = Row {
    session: "tty-session 1
ports 1
phase
caller a 0
open 0 rw nonblock
modes 0 now raw min=0
read 0 8
end
",
    report: "0.a.0 open ok
0.a.1 modes ok
0.a.2 read 0
port 0 line arrived=0 lost=0 sent=0 overrun=0
port 0 input taken=0 dropped=0
port 0 counts mark=0 parity=0 frame=0 break=0 cut=0 echo=0 pin=0 pout=0 pbad=0 pfull=0
port 0 signals -
port 0 generation 1
port 0 wire -
done
",
};

/// Where 4,095 bytes are unread no more is accepted until they are read.
const MORE_THAN_FITS: Row = Row {
    session: "tty-session 1
ports 1
phase
caller a 0
open 0 rw nonblock
modes 0 now raw
phase
line 0
rx [61*4200]
caller a 0
read 0 65536
read 0 65536
end
",
    report: "0.a.0 open ok
0.a.1 modes ok
0.a.2 read 4095 [61*4095]
0.a.3 read 105 [61*105]
port 0 line arrived=4200 lost=0 sent=4200 overrun=0
port 0 input taken=4200 dropped=0
port 0 counts mark=0 parity=0 frame=0 break=0 cut=0 echo=0 pin=0 pout=0 pbad=0 pfull=0
port 0 signals -
port 0 generation 1
port 0 wire -
done
",
};

pub(crate) const ROWS: [Row; 5] = [
    BLOCKING_AND_NOT,
    NOTHING_COMES,
    FIRST_OF_TWO_READERS,
    MIN_0,
    MORE_THAN_FITS,
];
