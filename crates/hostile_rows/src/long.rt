//! Long texts and long lines. `tools/hostile_texts` has them in full length.

use super::tables::{CHECK, ONE, texts_are_refused};
use std::alloc::{AllocError, Global};
use tty_rows::{status_of, written_out};

/// Long texts, each behind its first wrong line and the reason: lines of one byte, of blanks, of words; line feeds;
/// comments; then words, digits and names without end.
const LONG: &str = "\
1 header [a*65536]
2 order [ *65536]
1 header [a *65536]
65537 order [|*65536]
2 order #[#*65536]
32769 order [#|*32768]
1 header tty-session[ 1*32768]|
1 header tty-session [1*65536]|
2 number tty-session 1|ports [1*65536]|
4 word tty-session 1|ports 1|phase|caller [a*65536] 0|
5 number tty-session 1|ports 1|phase|line 0|idle [1*65536]|
5 hex tty-session 1|ports 1|phase|line 0|rx 6[6*65536]|
5 number tty-session 1|ports 1|phase|caller a 0|read 0 [0*65536]|
5 word tty-session 1|ports 1|phase|caller a 0|read[ 0*32768]|
5 limit tty-session 1|ports 1|phase|caller a 0|modes 0 now[ raw*16384]|
5 word tty-session 1|ports 1|phase|caller a 0|modes 0 now min=[0*65536]|
";

/// Long lines after a session, likewise.
const LONG_JOURNALS: &str = "\
7 word journals[ 0*32768]|
8 number journals|journal 0 [1*65536]|
9 word journals|journal 0 1|[a*65536] 0 0 0 wait|
9 number journals|journal 0 1|a [0*65536] 0 0 wait|
9 word journals|journal 0 1|a 0 0 0 answer [1*65536]|
9 word journals|journal 0 1|a 0 0 0 answer EIO[ EIO*16384]|
9 hex journals|journal 0 1|*flush 0 0 0 flush n[61*32768]|
10 word journals|journal 0 0|overruns 0 1|1[ 1*32768]|
";

const SESSION: &str = "tty-session 1|ports 1|phase|caller a 0|read 0 1|end|";

#[test]
fn long_texts_are_refused(rt: HostRuntime) {
    texts_are_refused(&rt, rt.alloc(), ONE, "", LONG);
    texts_are_refused(&rt, rt.alloc(), CHECK, "", LONG);
    texts_are_refused(&rt, rt.alloc(), CHECK, SESSION, LONG_JOURNALS);
}

fn is_good(alloc: Global, text: &str) -> Result<bool, AllocError> {
    let status = status_of(alloc, ONE, written_out(alloc, text)?)?;
    Ok(status == 0)
}

/// A session may have long comments, many blank lines, and blanks without end.
#[test]
fn long_texts_that_say_little_are_good(rt: HostRuntime) {
    let text =
        "#[ a*32768]|[|*65536]tty-session[ *65536]1|[#|*32768]\tports 1[\t*65536]|end[\r|*32768]";
    assert!(rt; is_good(rt.alloc(), text) == Ok(true));
}
