//! Canonical input: editing, echo, and ends of pieces.

use super::rows::Row;

/// ERASE takes a byte back, and CR ends the line as NL.
const ERASE_AND_CARRIAGE_RETURN: Row = Row {
    session: "tty-session 1
ports 1
phase
caller a 0
open 0 rw nonblock
phase
line 0
rx 61627f630d
caller a 0
read 0 64
end
",
    report: "0.a.0 open ok
0.a.1 read 3 61630a
port 0 line arrived=5 lost=0 sent=5 overrun=0
port 0 input taken=5 dropped=0
port 0 counts mark=0 parity=0 frame=0 break=0 cut=0 echo=0 pin=0 pout=0 pbad=0 pfull=0
port 0 signals -
port 0 generation 1
port 0 wire 6162082008630d0a
done
",
};

/// A line keeps 4,095 bytes and its newline.
const LONG_LINE_CUT: Row = Row {
    session: "tty-session 1
ports 1
phase
caller a 0
open 0 rw nonblock
phase
line 0
rx [61*5000]
rx 0a
caller a 0
read 0 65536
read 0 64
read 0 64
end
",
    report: "0.a.0 open ok
0.a.1 read 4096 [61*4095]0a
0.a.2 read EAGAIN
0.a.3 read EAGAIN
port 0 line arrived=5001 lost=0 sent=5001 overrun=0
port 0 input taken=5001 dropped=0
port 0 counts mark=0 parity=0 frame=0 break=0 cut=905 echo=0 pin=0 pout=0 pbad=0 pfull=0
port 0 signals -
port 0 generation 1
port 0 wire [61*5000]0d0a
done
",
};

/// With iutf8 one ERASE takes a character of two bytes back.
const UTF8_ERASE: Row = Row {
    session: "tty-session 1
ports 2
phase
caller a 0
open 0 rw nonblock
modes 0 now iutf8
caller a 1
open 0 rw nonblock
phase
line 0
rx c3a97f620d
line 1
rx c3a97f620d
caller a 0
read 0 64
caller a 1
read 0 64
end
",
    report: "0.a.0 open ok
0.a.1 modes ok
0.a.2 read 2 620a
1.a.0 open ok
1.a.1 read 3 c3620a
port 0 line arrived=5 lost=0 sent=5 overrun=0
port 0 input taken=5 dropped=0
port 0 counts mark=0 parity=0 frame=0 break=0 cut=0 echo=0 pin=0 pout=0 pbad=0 pfull=0
port 0 signals -
port 0 generation 1
port 0 wire c3a9082008620d0a
port 1 line arrived=5 lost=0 sent=5 overrun=0
port 1 input taken=5 dropped=0
port 1 counts mark=0 parity=0 frame=0 break=0 cut=0 echo=0 pin=0 pout=0 pbad=0 pfull=0
port 1 signals -
port 1 generation 1
port 1 wire c3a9082008620d0a
done
",
};

pub(crate) const ROWS: [Row; 3] = [ERASE_AND_CARRIAGE_RETURN, LONG_LINE_CUT, UTF8_ERASE];
