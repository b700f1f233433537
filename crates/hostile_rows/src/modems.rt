//! Sessions of ports with modem lines that are refused.

use super::tables::{MODEM, are_refused, texts_are_refused};

/// Lines of modem blocks and of calls of modem lines, and what stands in their places.
const LINES: &str = "\
= 3 tty-session 1|ports 2|
word flip 0 64
order modem 0
order dcd 1
order mget 0
order caller carrier 0
= 4 tty-session 1|ports 2|phase|
word modem
word modem 0 1
number modem a
limit modem 2
order dcd 1
order msr 0
word caller carrier 0
word caller carrier 9
word keys 61
word proc sh 0 1 1 -
word exit
= 5 tty-session 1|ports 2|phase|modem 0|
word dcd
word ri 0 1
word foo
number dsr x
number cts 01
limit ri 2
order rx 61
order tick 1
order read 0 8
order mget 0
order modem 0
= 5 tty-session 1|ports 2|phase|caller a 0|
word mget
word mget 0 0
word mset 0
word softcar 0
number msr x
number hupcl 0 x
limit getcar 32
limit mset 0 512
limit mbis 32 x
limit mbic 0 999
limit softcar 0 2
limit hupcl 0 2
word sctty 0
order dsr 1
= 6 tty-session 1|ports 2|phase|modem 0|line 0|
order dcd 1
= 6 tty-session 1|ports 2|phase|caller a 0|modem 0|
order read 0 8
order getcar 0
= 7 tty-session 1|ports 2|phase|modem 0|dcd 1|line 0|
order modem 0
= 8 tty-session 1|ports 2|phase|modem 0|dcd 1|phase|caller a 0|
word caller carrier 1
order caller a 0
";

/// Texts that end too early, that of another command, and one caller more than may be.
const TEXTS: &str = "\
1 header vt-session 1|
3 order tty-session 1|ports 1|
5 order tty-session 1|ports 1|phase|modem 0|
6 order tty-session 1|ports 1|phase|modem 0|dcd 1|
19 limit tty-session 1|ports 1|phase|caller a 0|caller b 0|caller c 0|caller d 0|caller e 0|caller f 0|caller g 0\
|caller h 0|caller i 0|caller j 0|caller k 0|caller l 0|caller m 0|caller n 0|caller o 0|caller p 0|
";

#[test]
fn sessions_with_modem_lines_are_refused(rt: HostRuntime) {
    are_refused(&rt, rt.alloc(), MODEM, "", LINES);
    texts_are_refused(&rt, rt.alloc(), MODEM, "", TEXTS);
}
