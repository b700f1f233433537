//! Sessions of consoles.

use super::rows::Row;

/// Keys go to the console that is active, which an operator changes.
const KEYS_FOLLOW: Row = Row {
    session: "vt-session 1
consoles 2
phase
caller a 0
open 0 rw nonblock
caller a 1
open 0 rw nonblock
phase
keys 6869
phase
operator o
activate 1
state
phase
keys 6a0d
phase
caller a 0
inq 0
caller a 1
read 0 64
end
",
    report: "0.a.0 open ok
0.a.1 inq 0
1.a.0 open ok
1.a.1 read 2 6a0a
vt.o.0 activate ok
vt.o.1 state 1
console 0 keys=2 overrun=0 taken=2 dropped=0 generation=1
console 0 row 0 6869
console 1 keys=2 overrun=0 taken=2 dropped=0 generation=1
console 1 row 0 6a
active 1
done
",
};

/// No console has the number 2, and 26 rows are one more than a screen has.
const ROWS_SCROLL: Row = Row {
    session: "vt-session 1
consoles 2
phase
operator o
activate 2
state
caller a 0
open 0 rw nonblock
write 0 [0a*25]61
end
",
    report: "0.a.0 open ok
0.a.1 write 26
vt.o.0 activate ENXIO
vt.o.1 state 0
console 0 keys=0 overrun=0 taken=0 dropped=0 generation=1
console 0 row 24 61
console 1 keys=0 overrun=0 taken=0 dropped=0 generation=1
active 0
done
",
};

/// In each phase of these each console has one activity, so no schedule changes what is told.
pub(crate) const ROWS: [Row; 2] = [KEYS_FOLLOW, ROWS_SCROLL];
