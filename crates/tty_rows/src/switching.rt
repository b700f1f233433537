//! Changes of the discipline, N_SLIP, handles, hangups and exclusive use.

use super::rows::Row;

/// The installed kind changes nothing, and an unknown number is refused.
pub(crate) const SAME_AND_UNKNOWN_DISCIPLINE: Row = Row {
    session: "tty-session 1
ports 1
phase
caller a 0
open 0 rw
setd 0 0
setd 0 2
getd 0
end
",
    report: "0.a.0 open ok
0.a.1 setd ok
0.a.2 setd EINVAL
0.a.3 getd 0
port 0 line arrived=0 lost=0 sent=0 overrun=0
port 0 input taken=0 dropped=0
port 0 counts mark=0 parity=0 frame=0 break=0 cut=0 echo=0 pin=0 pout=0 pbad=0 pfull=0
port 0 signals -
port 0 generation 1
port 0 wire -
done
",
};

/// A packet of 1,006 bytes is sent, a longer one refused, and one with a parity error dropped.
const LONGEST_PACKET: Row = Row {
    session: "tty-session 1
ports 1
phase
caller a 0
open 0 rw
setd 0 1
send 0 [61*1006]
send 0 [61*1007]
phase
line 0
rx c041
rxp 42
rx 43c0
caller a 0
take 0
end
",
    report: "0.a.0 open ok
0.a.1 setd ok
0.a.2 send ok
0.a.3 send EMSGSIZE
0.a.4 take EAGAIN
port 0 line arrived=5 lost=0 sent=5 overrun=0
port 0 input taken=5 dropped=0
port 0 counts mark=0 parity=1 frame=0 break=0 cut=0 echo=0 pin=0 pout=1 pbad=1 pfull=0
port 0 signals -
port 0 generation 2
port 0 wire c0[61*1006]c0
done
",
};

/// Of 65 packets the first 64 wait, in their order, and the last is counted.
const TOO_MANY_PACKETS: Row = Row {
    session: "tty-session 1
ports 1
phase
caller a 0
open 0 rw nonblock
setd 0 1
phase
line 0
rx 41c042c0[43c0*63]
caller a 0
take 0
take 0
end
",
    report: "0.a.0 open ok
0.a.1 setd ok
0.a.2 take 1 41
0.a.3 take 1 42
port 0 line arrived=130 lost=0 sent=130 overrun=0
port 0 input taken=130 dropped=0
port 0 counts mark=0 parity=0 frame=0 break=0 cut=0 echo=0 pin=64 pout=0 pbad=0 pfull=1
port 0 signals -
port 0 generation 2
port 0 wire -
done
",
};

/// Of two packets the longest is kept, and the other, of one byte more, is bad.
const LONG_PACKETS: Row = Row {
    session: "tty-session 1
ports 1
phase
caller a 0
open 0 rw nonblock
setd 0 1
phase
line 0
rx [61*1006]c0[61*1007]c0
caller a 0
take 0
take 0
end
",
    report: "0.a.0 open ok
0.a.1 setd ok
0.a.2 take 1006 [61*1006]
0.a.3 take EAGAIN
port 0 line arrived=2015 lost=0 sent=2015 overrun=0
port 0 input taken=2015 dropped=0
port 0 counts mark=0 parity=0 frame=0 break=0 cut=0 echo=0 pin=1 pout=0 pbad=1 pfull=0
port 0 signals -
port 0 generation 2
port 0 wire -
done
",
};

/// Under a halt a packet whose bytes are all stuffed is sent twice, and not a third time.
const HELD_PACKETS: Row = Row {
    session: "tty-session 1
ports 1
phase
caller a 0
open 0 rw nonblock
setd 0 1
xonc 0 ooff
send 0 [c0*1006]
send 0 [c0*1006]
send 0 [c0*1006]
outq 0
xonc 0 oon
end
",
    report: "0.a.0 open ok
0.a.1 setd ok
0.a.2 xonc ok
0.a.3 send ok
0.a.4 send ok
0.a.5 send EAGAIN
0.a.6 outq 4028
0.a.7 xonc ok
port 0 line arrived=0 lost=0 sent=0 overrun=0
port 0 input taken=0 dropped=0
port 0 counts mark=0 parity=0 frame=0 break=0 cut=0 echo=0 pin=0 pout=2 pbad=0 pfull=0
port 0 signals -
port 0 generation 2
port 0 wire c0[dbdc*1006]c0c0[dbdc*1006]c0
done
",
};

/// A flush drops no packet that has begun. One with a parity error inside is bad.
const BEGUN_PACKET: Row = Row {
    session: "tty-session 1
ports 1
phase
caller a 0
open 0 rw nonblock
setd 0 1
phase
line 0
rx c041dbdcc0c041
rxp 42
rx 43c044
caller a 0
take 0
take 0
flush 0 in
phase
line 0
rx 45c0
caller a 0
take 0
end
",
    report: "0.a.0 open ok
0.a.1 setd ok
0.a.2 take 2 41c0
0.a.3 take EAGAIN
0.a.4 flush ok
0.a.5 take 2 4445
port 0 line arrived=13 lost=0 sent=13 overrun=0
port 0 input taken=13 dropped=0
port 0 counts mark=0 parity=1 frame=0 break=0 cut=0 echo=0 pin=2 pout=0 pbad=1 pfull=0
port 0 signals -
port 0 generation 2
port 0 wire -
done
",
};

/// A break, an END with an error and a mark of lost characters spoil the packet in which they come, and not the next.
const SPOILED_PACKETS: Row = Row {
    session: "tty-session 1
ports 2
phase
caller a 0
open 0 rw nonblock
setd 0 1
caller a 1
open 0 rw nonblock
setd 0 1
phase
line 0
rx 41
break
rx 43c041
rxp c0
rx 43c041
rxf c0
rx 43c044c0
line 1
trigger 14
mask
rx [41*17]
unmask
rx c044c0
caller a 0
take 0
take 0
caller a 1
take 0
take 0
end
",
    report: "0.a.0 open ok
0.a.1 setd ok
0.a.2 take 1 44
0.a.3 take EAGAIN
1.a.0 open ok
1.a.1 setd ok
1.a.2 take 1 44
1.a.3 take EAGAIN
port 0 line arrived=14 lost=0 sent=14 overrun=0
port 0 input taken=14 dropped=0
port 0 counts mark=0 parity=1 frame=1 break=1 cut=0 echo=0 pin=1 pout=0 pbad=3 pfull=0
port 0 signals -
port 0 generation 2
port 0 wire -
port 1 line arrived=20 lost=1 sent=20 overrun=0
port 1 input taken=20 dropped=0
port 1 counts mark=1 parity=0 frame=0 break=0 cut=0 echo=0 pin=1 pout=0 pbad=1 pfull=0
port 1 signals -
port 1 generation 2
port 1 wire -
done
",
};

pub(crate) const ROWS: [Row; 7] = [
    SAME_AND_UNKNOWN_DISCIPLINE,
    LONGEST_PACKET,
    TOO_MANY_PACKETS,
    LONG_PACKETS,
    HELD_PACKETS,
    BEGUN_PACKET,
    SPOILED_PACKETS,
];
