//! Sessions that are refused: each kind of wrong line, in each place.

use super::tables::{CHECK, ONE, are_refused, texts_are_refused};
use std::test::Fail;

/// All that is refused before an end.
const BEFORE_THE_END: &str = "\
# The first item is the header.
= 1
header tty-session
header tty-session 0
header tty-session 3
header tty-session 01
header tty-session x
header tty-session 1 1
header tty-sessions 1
header TTY-SESSION 1
header ports 1
header end
header other
# The second item is the number of ports.
= 2 tty-session 1|
order tty-session 1
order phase
order end
order line 0
order clock 0
order caller a 0
order {line items}
order tick 1
order {calls}
word other
word port 1
word flip 0 64
word ports
word ports 1 1
number ports x
number ports -1
number ports +1
number ports 1x
number ports 01
number ports 10000000000
limit ports 0
limit ports 9
limit ports 4294967296
limit ports 9999999999
# Blocks stand in a phase, and the place is tested before the words that follow.
= 3 tty-session 1|ports 1|
order tty-session 1
order tty-session 9
order ports 1
order ports
order line 0
order clock 0
order caller a 0
order line
order caller
order {line items}
order tick 1
order {calls}
order read
word other
word phases
word flip 0 64
word phase 1
word end 1
# What opens a block.
= 4 tty-session 1|ports 1|phase|
order tty-session 1
order ports 1
order {line items}
order rx
order tick 1
order tick
order {calls}
order read 0
order read
word other
word flip 0 64
word phase 1
word end 1
word line
word line 0 0
word clock
word clock 0 0
word caller
word caller a
word caller a 0 0
word caller A 0
word caller 1a 0
word caller _a 0
word caller a-b 0
word caller a2345678901234567 0
word caller A x
word caller A 1
number line x
number line 00
number clock x
number clock -1
number caller a x
number caller a 00
limit line 1
limit line 9999999999
limit clock 1
limit caller a 1
# A line block.
= 5 tty-session 1|ports 1|phase|line 0|
order tty-session 1
order ports 1
order line 0
order tick 1
order tick
order {calls}
order read 0
order read
word other
word line
word line 0 0
word rx
word rx 61 61
word rxp
word rxp 61 61
word rxf
word rxf 61 61
word break 0
word mask 0
word unmask 0
word idle
word idle 1 1
word trigger
word trigger 1 1
number line x
number idle x
number idle 01
number idle 10000000000
number trigger x
number trigger 01
hex rx 6
hex rx 616
hex rx 6g
hex rx 0x61
hex rxp 6
hex rxp 616
hex rxp 6g
hex rxp 0x61
hex rxf 6
hex rxf 616
hex rxf 6g
hex rxf 0x61
limit line 1
limit idle 0
limit idle 1001
limit idle 4294967296
limit trigger 0
limit trigger 2
limit trigger 5
limit trigger 13
limit trigger 15
# A clock block.
= 5 tty-session 1|ports 1|phase|clock 0|
order tty-session 1
order ports 1
order clock 0
order {line items}
order rx
order {calls}
order read
word other
word clock 0 0
word tick
word tick 1 1
number clock x
number tick x
number tick 01
number tick 10000000000
limit clock 1
limit tick 0
limit tick 65537
limit tick 4294967296
# A caller's block.
= 5 tty-session 1|ports 1|phase|caller a 0|
order tty-session 1
order ports 1
order caller a 0
order tick 1
order tick
order {line items}
order rx
word other
word caller a 0 0
word caller
word open
word open 0
word open 0 rw nonblock 0
word open 0 x y z
word open 0 wr
word open 0 RW
word open 0 rw block
word read
word read 0
word read 0 1 1
word write
word write 0
word write 0 61 61
word setd
word setd 0
word setd 0 1 1
word flush
word flush 0
word flush 0 in out
word flush 0 all
word xonc
word xonc 0
word xonc 0 ooff oon
word xonc 0 off
word send
word send 0
word send 0 61 61
number open x rw
number open 00 rw
number open x wr
number read x 1
number read 0 x
number read 0 01
number read 0 -1
number read 0 10000000000
number write x 61
number setd x 1
number setd 0 x
number setd 0 10000000000
number flush x in
number flush x all
number xonc x oon
number send x 61
hex write 0 6
hex write 0 616
hex write 0 6g
hex write 0 [61*65537]6
hex send 0 6
hex send 0 0x41
limit open 32 rw
limit open 32 wr
limit read 32 1
limit read 32 x
limit read 0 0
limit read 0 65537
limit write 32 61
limit write 32 6
limit write 0 [61*65537]
limit setd 32 1
limit setd 0 4294967296
limit flush 32 in
limit xonc 32 oon
limit send 32 61
limit send 0 [61*65537]
# The words of a call that sets modes.
= 5 tty-session 1|ports 1|phase|caller a 0|
word modes
word modes 0
word modes 0 now
word modes 0 later
word modes 0 later raw
word modes 0 now RAW
word modes 0 now raw other
word modes 0 now -raw
word modes 0 now -sane
word modes 0 now raw=1
word modes 0 now echo=1
word modes 0 now --echo
word modes 0 now -
word modes 0 now =
word modes 0 now min
word modes 0 now -min=1
word modes 0 now mim=1
word modes 0 now min=
word modes 0 now min=x
word modes 0 now min=01
word modes 0 now min=+1
word modes 0 now min=-1
word modes 0 now min=256
word modes 0 now min=10000000000
word modes 0 now min=1=1
word modes 0 now[ raw*64] other
number modes x now raw
number modes x later raw
limit modes 32 now raw
limit modes 32 later x
limit modes 0 now[ raw*65]
# In version 2 there are flip buffers, after the number of ports.
= 2 tty-session 2|
order flip 0 64
order flip
order tty-session 2
# What a flip buffer may be.
= 4 tty-session 2|ports 2|flip 1 64|
word flip
word flip 0
word flip 0 64 64
number flip x 64
number flip 0 x
number flip 0 064
limit flip 2 64
limit flip 2 x
limit flip 0 63
limit flip 0 65537
limit flip 1 63
order flip 1 64
order flip 1 65
# But none after a phase.
= 4 tty-session 2|ports 2|phase|
order flip 0 64
order flip x
";

/// After the end nothing follows.
const AFTER_THE_END: &str = "\
= 5 tty-session 1|ports 1|phase|end|
order tty-session 1
order ports 1
order phase
order end
order line 0
order clock 0
order caller a 0
order {line items}
order tick 1
order {calls}
order read
order end 1
word other
word flip 0 64
word journals
word journal 0 0
word done
";

/// Calls that have a handle alone.
const BY_HANDLE: &str = "close
getm
getd
inq
outq
excl
nxcl
drain
counts
vhangup
take";

/// What is wrong behind the name of such a call.
const HANDLES: &str = "\
= 5
word |end
word  0 0|end
number  x|end
number  00|end
limit  32|end
limit  4294967296|end
";

/// Texts without an end are wrong at the line after their last, if no line before is.
const WITHOUT_END: &str = "\
5 hex tty-session 1|ports 1|phase|line 0|rx 686
1 order
2 order |
3 order  \t\r||
2 order # nothing
3 order # nothing||
2 order tty-session 1
3 order tty-session 1|# nothing|
2 order tty-session 2|
3 order tty-session 1|ports 1|
4 order tty-session 1|ports 1|phase|
4 order tty-session 1|ports 1|phase
5 order tty-session 1|ports 1|phase|line 0|
5 order tty-session 1|ports 1|phase|clock 0|
5 order tty-session 1|ports 1|phase|caller a 0|
7 order tty-session 1|ports 1|phase|caller a 0|open 0 rw||
5 order tty-session 1|ports 1|phase| #end|
4 order tty-session 2|ports 1|flip 0 64|
";

/// Totals that are passed by one.
const PASSED: &str = "\
67 limit tty-session 1|ports 1|[phase|*65]
65541 limit tty-session 1|ports 1|phase|caller a 0|[close 0|*65537]
32773 limit tty-session 1|ports 1|phase|line 0|[rx 4142434445464748|*32769]
5 limit tty-session 1|ports 1|phase|line 0|rx [41*262145]|
20 limit tty-session 1|ports 1|phase|caller c0 0|caller c1 0|caller c2 0|caller c3 0|caller c4 0|caller c5 0|\
caller c6 0|caller c7 0|caller c8 0|caller c9 0|caller c10 0|caller c11 0|caller c12 0|caller c13 0|caller c14 0|\
caller c15 0|caller d 0|
36 limit tty-session 1|ports 2|phase|caller c0 0|caller c1 0|caller c2 0|caller c3 0|caller c4 0|caller c5 0|\
caller c6 0|caller c7 0|caller c8 0|caller c9 0|caller c10 0|caller c11 0|caller c12 0|caller c13 0|caller c14 0|\
caller c15 0|caller c0 1|caller c1 1|caller c2 1|caller c3 1|caller c4 1|caller c5 1|caller c6 1|caller c7 1|\
caller c8 1|caller c9 1|caller c10 1|caller c11 1|caller c12 1|caller c13 1|caller c14 1|caller c15 1|caller c16 0|
6 limit tty-session 1|ports 1|phase|clock 0|tick 65536|tick 1|
21 limit tty-session 1|ports 1|phase|clock 0|[tick 4096|*17]
8 limit tty-session 1|ports 1|phase|clock 0|tick 65536|phase|clock 0|tick 1|
";

/// Limits that are reached. Where journals are due behind a session, a good one is wrong at the line after its end.
const REACHED: &str = "\
68 order tty-session 1|ports 1|[phase|*64]end|
65542 order tty-session 1|ports 1|phase|caller a_34567890123456 0|[close 0|*65536]end|
32774 order tty-session 1|ports 1|phase|line 0|[rx 4142434445464748|*32768]end|
7 order tty-session 1|ports 1|phase|line 0|rx [41*262144]|end|
37 order tty-session 1|ports 2|phase|caller c0 0|caller c1 0|caller c2 0|caller c3 0|caller c4 0|caller c5 0|\
caller c6 0|caller c7 0|caller c8 0|caller c9 0|caller c10 0|caller c11 0|caller c12 0|caller c13 0|caller c14 0|\
caller c15 0|caller c0 1|caller c1 1|caller c2 1|caller c3 1|caller c4 1|caller c5 1|caller c6 1|caller c7 1|\
caller c8 1|caller c9 1|caller c10 1|caller c11 1|caller c12 1|caller c13 1|caller c14 1|caller c15 1|end|
22 order tty-session 1|ports 1|phase|clock 0|[tick 4096|*16]end|
7 order tty-session 1|ports 1|phase|caller a 0|write 0 [61*65536]|end|
7 order tty-session 1|ports 1|phase|caller a 0|modes 0 now[ echo*64]|end|
";

/// What stands twice is in the wrong place, once its words are good.
const TWICE: &str = "\
6 order tty-session 1|ports 1|phase|line 0|clock 0|line 0|
6 order tty-session 1|ports 1|phase|clock 0|line 0|clock 0|
6 order tty-session 1|ports 1|phase|caller a 0|caller b 0|caller a 0|
20 order tty-session 1|ports 1|phase|caller c0 0|caller c1 0|caller c2 0|caller c3 0|caller c4 0|caller c5 0|\
caller c6 0|caller c7 0|caller c8 0|caller c9 0|caller c10 0|caller c11 0|caller c12 0|caller c13 0|caller c14 0|\
caller c15 0|caller c3 0|
9 order tty-session 1|ports 1|phase|caller a 0|phase|caller a 0|phase|caller a 0|caller a 0|
6 order tty-session 1|ports 2|phase|line 0|line 1|line 0|
";

#[test]
fn wrong_lines_are_refused(rt: HostRuntime) {
    are_refused(&rt, rt.alloc(), ONE, "", BEFORE_THE_END);
    are_refused(&rt, rt.alloc(), ONE, "", AFTER_THE_END);
}

#[test]
fn a_session_with_journals_is_refused_at_the_same_lines(rt: HostRuntime) {
    are_refused(&rt, rt.alloc(), CHECK, "", BEFORE_THE_END);
    texts_are_refused(&rt, rt.alloc(), CHECK, "", WITHOUT_END);
}

#[test]
fn calls_by_handle_are_refused(rt: HostRuntime) -> Result<(), Fail> {
    for verb in BY_HANDLE.lines() {
        let first = format!(in rt.alloc(); "tty-session 1|ports 1|phase|caller a 0|{verb}")?;
        are_refused(&rt, rt.alloc(), ONE, first.as_str(), HANDLES);
    }
    Ok(())
}

#[test]
fn texts_are_refused_at_their_lines(rt: HostRuntime) {
    texts_are_refused(&rt, rt.alloc(), ONE, "", WITHOUT_END);
    texts_are_refused(&rt, rt.alloc(), ONE, "", TWICE);
    texts_are_refused(&rt, rt.alloc(), ONE, "", PASSED);
    texts_are_refused(&rt, rt.alloc(), CHECK, "", REACHED);
}
