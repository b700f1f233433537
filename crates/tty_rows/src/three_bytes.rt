//! Three bytes that are read, and a port that is closed: the session, its report and its journal.

pub const SESSION: &str = "tty-session 1
ports 1
phase
caller a 0
open 0 rw nonblock
modes 0 now raw
phase
line 0
rx 68690a
caller a 0
read 0 64
close 0
end
";

pub const REPORT: &str = "0.a.0 open ok
0.a.1 modes ok
0.a.2 read 3 68690a
0.a.3 close ok
port 0 line arrived=3 lost=0 sent=3 overrun=0
port 0 input taken=3 dropped=0
port 0 counts mark=0 parity=0 frame=0 break=0 cut=0 echo=0 pin=0 pout=0 pbad=0 pfull=0
port 0 signals -
port 0 generation 2
port 0 wire -
done
";

pub const JOURNALS: &str = "journals
journal 0 14
*line 0 0 0 line_end 0
a 0 0 0 answer ok
a 1 0 0 answer ok
a 2 0 0 caller_end
*clock 0 0 0 clock_end
*session 0 0 0 phase_end
*flush 0 0 0 flush n68n69n0a
*line 1 0 0 line_end 3
a 2 0 0 answer 3 68690a
a 3 0 0 answer ok
a 4 0 1 caller_end
*clock 1 0 1 clock_end
*session 1 0 1 phase_end
*session 2 0 1 hangup -
overruns 0 0
line 0 3 0 3
done
";
