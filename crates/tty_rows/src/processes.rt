//! Sessions of processes.

use super::rows::Row;

/// A job reads from the background, is put into the foreground, and is interrupted there.
const FOREGROUND: Row = Row {
    session: "tty-session 1
ports 1
proc sh 0 1 1 - leader
proc job 0 1 2 sh
phase
caller sh 0
open 0 rw nonblock
sctty 0
gpgrp 0
phase
caller job 0
read 0 8
phase
caller sh 0
spgrp 0 2
phase
line 0
rx 03
caller job 0
read 0 8
end
",
    report: "0.sh.0 open ok
0.sh.1 sctty ok
0.sh.2 gpgrp 1
0.job.0 read stopped TTIN
0.sh.3 spgrp ok
0.job.1 read EAGAIN
port 0 line arrived=1 lost=0 sent=1 overrun=0
port 0 input taken=1 dropped=0
port 0 counts mark=0 parity=0 frame=0 break=0 cut=0 echo=0 pin=0 pout=0 pbad=0 pfull=0
port 0 signals INT
port 0 generation 1
port 0 wire 5e43
job 0 TTIN group 2
job 0 INT group 2
done
",
};

/// The group of a job is orphaned, and the shell ends.
const ORPHANED: Row = Row {
    session: "tty-session 1
ports 1
proc sh 0 1 1 - leader
proc job 0 1 2 -
phase
caller sh 0
open 0 rw nonblock
sctty 0
phase
caller job 0
read 0 8
write 0 61
modes 0 now raw
sctty 0
phase
caller sh 0
exit
end
",
    report: "0.sh.0 open ok
0.sh.1 sctty ok
0.job.0 read EIO
0.job.1 write 1
0.job.2 modes EIO
0.job.3 sctty EPERM
0.sh.2 exit ok
port 0 line arrived=0 lost=0 sent=0 overrun=0
port 0 input taken=0 dropped=0
port 0 counts mark=0 parity=0 frame=0 break=0 cut=0 echo=0 pin=0 pout=0 pbad=0 pfull=0
port 0 signals -
port 0 generation 2
port 0 wire 61
job 0 HUP group 1
done
",
};

/// A leader lets port 0 go and takes it again, and its job hangs the port up; nobody holds port 1.
const LET_GO: Row = Row {
    session: "tty-session 1
ports 2
proc sh 0 1 1 - leader
proc job 0 1 2 sh
proc alone 1 7 7 -
phase
caller sh 0
open 0 rw nonblock
sctty 0
notty 0
gpgrp 0
sctty 0
caller job 0
vhangup 0
gpgrp 0
spgrp 0 2
caller alone 1
open 0 rw nonblock
sctty 0
phase
line 1
rx 03
caller alone 1
gpgrp 3
exit
end
",
    report: "0.sh.0 open ok
0.sh.1 sctty ok
0.sh.2 notty ok
0.sh.3 gpgrp ENOTTY
0.sh.4 sctty ok
0.job.0 vhangup ok
0.job.1 gpgrp EIO
0.job.2 spgrp ENOTTY
1.alone.0 open ok
1.alone.1 sctty EPERM
1.alone.2 gpgrp EBADF
1.alone.3 exit ok
port 0 line arrived=0 lost=0 sent=0 overrun=0
port 0 input taken=0 dropped=0
port 0 counts mark=0 parity=0 frame=0 break=0 cut=0 echo=0 pin=0 pout=0 pbad=0 pfull=0
port 0 signals -
port 0 generation 2
port 0 wire -
port 1 line arrived=1 lost=0 sent=1 overrun=0
port 1 input taken=1 dropped=0
port 1 counts mark=0 parity=0 frame=0 break=0 cut=0 echo=0 pin=0 pout=0 pbad=0 pfull=0
port 1 signals INT
port 1 generation 1
port 1 wire 5e43
job 0 HUP group 1
job 0 CONT group 1
job 0 HUP process sh
job 0 CONT process sh
job 1 INT -
done
",
};

pub(crate) const ROWS: [Row; 3] = [FOREGROUND, ORPHANED, LET_GO];
