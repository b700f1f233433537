//! Sessions of ports with modem lines.

use super::rows::Row;

/// An open goes on when the carrier comes, and the port is hung up when it is lost.
const CARRIER: Row = Row {
    session: "tty-session 1
ports 1
phase
modem 0
dcd 1
caller a 0
open 0 rw
mget 0
phase
modem 0
dcd 0
caller a 0
read 0 8
end
",
    report: "0.a.0 open ok
0.a.1 mget 70
0.a.2 read 0
port 0 line arrived=0 lost=0 sent=0 overrun=0
port 0 input taken=0 dropped=0
port 0 counts mark=0 parity=0 frame=0 break=0 cut=0 echo=0 pin=0 pout=0 pbad=0 pfull=0
port 0 signals -
port 0 generation 2
port 0 wire -
done
",
};

/// Under CLOCAL a carrier that came and went hangs nothing up, and is told once.
const LOCAL: Row = Row {
    session: "tty-session 1
ports 1
phase
modem 0
dcd 1
dcd 0
caller a 0
open 0 rw nonblock
softcar 0 1
getcar 0
mget 0
phase
caller a 0
msr 0
msr 0
read 0 8
end
",
    report: "0.a.0 open ok
0.a.1 softcar ok
0.a.2 getcar 1
0.a.3 mget 6
0.a.4 msr 8
0.a.5 msr 0
0.a.6 read EAGAIN
port 0 line arrived=0 lost=0 sent=0 overrun=0
port 0 input taken=0 dropped=0
port 0 counts mark=0 parity=0 frame=0 break=0 cut=0 echo=0 pin=0 pout=0 pbad=0 pfull=0
port 0 signals -
port 0 generation 1
port 0 wire -
done
",
};

/// No carrier comes: the open is told so, and has opened nothing.
const NO_CARRIER: Row = Row {
    session: "tty-session 1
ports 1
phase
caller a 0
open 0 rw
mget 0
end
",
    report: "0.a.0 open idle
0.a.1 mget EBADF
port 0 line arrived=0 lost=0 sent=0 overrun=0
port 0 input taken=0 dropped=0
port 0 counts mark=0 parity=0 frame=0 break=0 cut=0 echo=0 pin=0 pout=0 pbad=0 pfull=0
port 0 signals -
port 0 generation 1
port 0 wire -
done
",
};

/// Port 0 loses its carrier while two callers use it; port 1 has lines of its own, and keeps DTR over its last close.
const TWO_PORTS: Row = Row {
    session: "tty-session 1
ports 2
phase
line 0
rx 6162
modem 0
dcd 1
cts 1
dcd 0
caller a 0
open 0 rw nonblock
open 1 r
caller b 0
open 2 rw
mget 2
caller a 1
open 0 rw nonblock
hupcl 0 0
mbic 0 4
close 0
open 0 rw nonblock
mget 0
mset 0 511
mget 0
phase
caller b 0
mget 0
msr 1
write 2 61
end
",
    report: "0.a.0 open ok
0.a.1 open ok
0.b.0 open ok
0.b.1 mget 70
0.b.2 mget EIO
0.b.3 msr EIO
0.b.4 write EIO
1.a.0 open ok
1.a.1 hupcl ok
1.a.2 mbic ok
1.a.3 close ok
1.a.4 open ok
1.a.5 mget 6
1.a.6 mset ok
1.a.7 mget 6
port 0 line arrived=2 lost=0 sent=2 overrun=0
port 0 input taken=2 dropped=0
port 0 counts mark=0 parity=0 frame=0 break=0 cut=0 echo=0 pin=0 pout=0 pbad=0 pfull=0
port 0 signals -
port 0 generation 2
port 0 wire 6162
port 1 line arrived=0 lost=0 sent=0 overrun=0
port 1 input taken=0 dropped=0
port 1 counts mark=0 parity=0 frame=0 break=0 cut=0 echo=0 pin=0 pout=0 pbad=0 pfull=0
port 1 signals -
port 1 generation 2
port 1 wire -
done
",
};

/// Each pin has its bit among the lines and in the status register, which tells each change once, of RI the fall alone.
const PINS: Row = Row {
    session: "tty-session 1
ports 1
phase
modem 0
dsr 1
cts 1
ri 1
dcd 1
caller a 0
open 0 rw nonblock
softcar 0 1
mget 0
phase
modem 0
dsr 0
cts 0
ri 0
dcd 0
caller a 0
mget 0
msr 0
phase
caller a 0
mget 0
msr 0
msr 0
end
",
    report: "0.a.0 open ok
0.a.1 softcar ok
0.a.2 mget 6
0.a.3 mget 486
0.a.4 msr 251
0.a.5 mget 6
0.a.6 msr 15
0.a.7 msr 0
port 0 line arrived=0 lost=0 sent=0 overrun=0
port 0 input taken=0 dropped=0
port 0 counts mark=0 parity=0 frame=0 break=0 cut=0 echo=0 pin=0 pout=0 pbad=0 pfull=0
port 0 signals -
port 0 generation 1
port 0 wire -
done
",
};

pub(crate) const ROWS: [Row; 5] = [CARRIER, LOCAL, NO_CARRIER, TWO_PORTS, PINS];
