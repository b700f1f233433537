//! Flip buffers that are full, and ports that are not read.

use super::rows::Row;

/// A port that nobody opens keeps 4,096 characters.
pub(crate) const ONE_OVERRUN: Row = Row {
    session: "tty-session 1
ports 1
phase
line 0
rx [61*4097]
end
",
    report: "port 0 line arrived=4097 lost=0 sent=4096 overrun=1
port 0 input taken=0 dropped=4096
port 0 counts mark=0 parity=0 frame=0 break=0 cut=0 echo=0 pin=0 pout=0 pbad=0 pfull=0
port 0 signals -
port 0 generation 1
port 0 wire -
done
",
};

/// After an overrun the port is read again.
const OVERRUN_IN_THE_MIDDLE: Row = Row {
    session: "tty-session 1
ports 1
phase
caller a 0
open 0 rw nonblock
modes 0 now raw
close 0
phase
line 0
rx [61*4097]
phase
caller a 0
open 0 rw nonblock
read 0 65536
read 0 65536
phase
line 0
rx [62*10]
caller a 0
read 0 64
end
",
    report: "0.a.0 open ok
0.a.1 modes ok
0.a.2 close ok
0.a.3 open ok
0.a.4 read 4095 [61*4095]
0.a.5 read 1 61
0.a.6 read 10 [62*10]
port 0 line arrived=4107 lost=0 sent=4106 overrun=1
port 0 input taken=4106 dropped=0
port 0 counts mark=0 parity=0 frame=0 break=0 cut=0 echo=0 pin=0 pout=0 pbad=0 pfull=0
port 0 signals -
port 0 generation 2
port 0 wire -
done
",
};

pub(crate) const ROWS: [Row; 2] = [ONE_OVERRUN, OVERRUN_IN_THE_MIDDLE];
