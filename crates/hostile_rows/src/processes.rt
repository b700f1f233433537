//! Sessions of processes that are refused.

use super::tables::{JOBS, are_refused, texts_are_refused};

/// Lines of processes, and what stands in their places.
const PROCESSES: &str = "\
= 4 tty-session 1|ports 1|proc sh 0 1 1 - leader|
word proc
word proc job 0 1 2
word proc Job 0 1 2 sh
word proc job 0 1 2 other
word proc job 0 1 2 sh nottou nottin
word proc job 0 1 2 sh leader leader
word proc job 0 1 2 sh quiet
number proc job x 1 2 sh
number proc job 0 x 2 sh
number proc job 0 1 x sh
limit proc job 1 1 2 sh
limit proc job 0 0 2 sh
limit proc job 0 65536 2 sh
limit proc job 0 1 0 sh
limit proc job 0 1 65536 sh
order proc sh 0 2 2 -
order proc job 0 1 2 sh leader
order sctty 0
order exit
word modem 0
word keys 61
= 5 tty-session 1|ports 1|proc sh 0 1 1 - leader|phase|
order proc job 0 1 2 sh
order caller job 0
order sctty 0
order exit
= 6 tty-session 1|ports 1|proc sh 0 1 1 - leader|phase|caller sh 0|
word sctty
word sctty 0 0
word exit 0
word spgrp 0
number notty x
limit notty 32
limit gpgrp 32
number spgrp 0 x
limit spgrp 0 0
limit spgrp 0 65536
order proc job 0 1 2 sh
= 7 tty-session 1|ports 1|proc sh 0 1 1 - leader|phase|caller sh 0|exit|
order read 0 8
order gpgrp 0
order exit
= 9 tty-session 1|ports 1|proc sh 0 1 1 - leader|phase|caller sh 0|exit|phase|caller sh 0|
order read 0 8
order exit
";

/// Texts that end too early, and one of another command.
const TEXTS: &str = "\
1 header vt-session 1|
3 order tty-session 1|ports 1|
4 order tty-session 1|ports 1|proc sh 0 1 1 -|
6 order tty-session 1|ports 1|proc sh 0 1 1 -|phase|caller sh 0|
";

#[test]
fn sessions_of_processes_are_refused(rt: HostRuntime) {
    are_refused(&rt, rt.alloc(), JOBS, "", PROCESSES);
    texts_are_refused(&rt, rt.alloc(), JOBS, "", TEXTS);
}
