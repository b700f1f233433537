//! Journals that are legal, and what is told of them when they are altered.

use super::texts::written_out;
use super::three_bytes::{JOURNALS, SESSION};
use super::told::told_of;
use std::alloc::{AllocError, Global};
use std::process::Abort;

/// Rows `OLD>NEW` say what of a text is another text, each at its first place, and `=` what is told of it then; `#`
/// begins a comment. In them `|` stands for a line feed.
const OF_THREE_BYTES: &str = "\
= legal
# Answers.
answer 3 68690a>answer 3 68690b
= not legal port 0 entry 8
answer 3 68690a>answer 2 6869
= not legal port 0 entry 8
a 1 0 0 answer ok>a 1 0 0 answer EIO
= not legal port 0 entry 2
a 3 0 0 answer ok>a 3 0 0 answer ok drop n0a
= not legal port 0 entry 9
# Generations and numbers.
a 4 0 1 caller_end>a 4 0 0 caller_end
= not legal port 0 entry 10
a 3 0 0 answer ok>a 3 0 1 answer ok
= not legal port 0 entry 9
*flush 0 0 0 flush>*flush 0 1 0 flush
= not legal port 0 entry 6
*flush 0 0 0 flush>*flush 1 0 0 flush
= not legal port 0 entry 6
# What was flushed.
flush n68n69n0a>flush n68n69
= not legal port 0 entry 8
flush n68n69n0a>flush n68n69p0a
= not legal port 0 account
n0a|>n0b|
3 68690a>3 68690b
= not legal port 0 account
# A character moved from a flush to the hangup: the read is then answered without it.
flush n68n69n0a>flush n68n69
hangup ->hangup n0a
= not legal port 0 entry 8
flush n68n69n0a>flush n68n69
answer 3 68690a>answer 2 6869
hangup ->hangup n0a
= legal
# Ends of the line.
line_end 3>line_end 2
= not legal port 0 entry 7
line_end 3>line_end 4
= not legal port 0 entry 13
line_end 3>line_end 4
hangup ->hangup n0a
= not legal port 0 account
journal 0 14>journal 0 13
*line 1 0 0 line_end 3|>
= not legal port 0 entry 11
# Ends of callers.
journal 0 14>journal 0 15
a 2 0 0 caller_end|>a 2 0 0 caller_end|a 2 0 0 answer EAGAIN|
= not legal port 0 entry 4
journal 0 14>journal 0 15
a 2 0 0 caller_end|>a 2 0 0 caller_end|a 2 0 0 caller_end|
= not legal port 0 entry 4
journal 0 14>journal 0 13
a 3 0 0 answer ok|a 4 0 1 caller_end|>a 3 0 0 caller_end|
= not legal port 0 entry 9
journal 0 14>journal 0 13
a 4 0 1 caller_end|>
= not legal port 0 entry 11
# Ticks.
journal 0 14>journal 0 15
*clock 0 0 0 clock_end>*clock 0 0 0 tick|*clock 0 0 0 clock_end
= not legal port 0 account
journal 0 14>journal 0 15
*clock 0 0 0 clock_end>*clock 0 0 0 clock_end|*clock 0 0 0 tick
= not legal port 0 entry 5
# What ends a journal.
journal 0 14>journal 0 13
*session 2 0 1 hangup -|>
= not legal port 0 account
journal 0 14>journal 0 15
*session 2 0 1 hangup -|>*session 2 0 1 hangup -|*session 2 0 2 hangup -|
= not legal port 0 account
journal 0 14>journal 0 15
*session 2 0 1 hangup -|>*line 2 0 1 line_end 3|*session 2 0 1 hangup -|
= not legal port 0 account
# The numbers of the line, each one off.
line 0 3 0 3>line 0 2 0 3
= not legal port 0 account
line 0 3 0 3>line 0 4 0 3
= not legal port 0 account
line 0 3 0 3>line 0 3 1 3
= not legal port 0 account
line 0 3 0 3>line 0 3 0 2
= not legal port 0 account
line 0 3 0 3>line 0 3 0 4
= not legal port 0 account
# Overruns that were none.
overruns 0 0>overruns 0 1|2 2 0
= not legal port 0 account
# A text that is refused.
answer 3 68690a>answer 3 68690A
= bad session line 24: word
";

/// A write in two parts, ticks, and a discipline change before another caller's read.
const PARTS: &str = "tty-session 1
ports 1
phase
caller a 0
open 0 rw
modes 0 now raw
write 0 [61*124]
phase
line 0
rx 6869
clock 0
tick 2
caller a 0
read 0 8
setd 0 1
caller b 0
read 0 8
end
journals
journal 0 20
*line 0 0 0 line_end 0
a 0 0 0 answer ok
a 1 0 0 answer ok
a 2 0 0 part 64
a 2 1 0 answer 124
a 3 0 0 caller_end
*clock 0 0 0 clock_end
*session 0 0 0 phase_end
*flush 0 0 0 flush n68n69
*line 1 0 0 line_end 2
a 3 0 0 answer 2 6869
a 4 0 0 answer ok
a 5 0 1 caller_end
b 0 0 1 answer EIO
b 1 0 1 caller_end
*clock 1 0 1 tick
*clock 1 0 1 tick
*clock 1 0 1 clock_end
*session 1 0 1 phase_end
*session 2 0 1 hangup -
overruns 0 0
line 0 2 0 2
done
";

const OF_PARTS: &str = "\
= legal
part 64>part 63
= not legal port 0 entry 3
a 2 1 0 answer 124>a 2 0 0 answer 124
= not legal port 0 entry 4
a 2 1 0 answer 124>a 2 1 0 answer 123
= not legal port 0 entry 4
journal 0 20>journal 0 19
a 2 0 0 part 64|a 2 1 0 answer 124>a 2 0 0 answer 124
= not legal port 0 entry 3
journal 0 20>journal 0 19
*clock 1 0 1 tick|>
= not legal port 0 account
journal 0 20>journal 0 21
*clock 1 0 1 tick|>*clock 1 0 1 tick|*clock 1 0 1 tick|
= not legal port 0 account
*clock 1 0 1 tick|>*clock 1 0 0 tick|
= not legal port 0 entry 15
b 0 0 1 answer EIO>b 0 0 1 answer EAGAIN
= not legal port 0 entry 13
b 0 0 1 answer EIO>b 0 0 0 answer EIO
= not legal port 0 entry 13
# The other caller reads first, and finds nothing unread later.
a 3 0 0 answer 2 6869|>b 0 0 0 answer 2 6869|a 3 0 0 answer 2 6869|
b 0 0 1 answer EIO|>
= not legal port 0 entry 11
# A run of two pieces, and one that goes on over the change.
journal 0 20>journal 0 21
flush n68n69|>flush n68|*flush 0 1 0 flush n69|
= legal
journal 0 20>journal 0 21
flush n68n69|>flush n68|
answer 2 6869|a 4 0 0 answer ok|>answer 1 68|a 4 0 0 answer ok|*flush 0 1 1 flush n69|
= not legal port 0 entry 12
journal 0 20>journal 0 21
flush n68n69|>flush n68|
answer 2 6869|a 4 0 0 answer ok|>answer 1 68|a 4 0 0 answer ok|*flush 1 0 1 flush n69|
= legal
";

/// A call that waits for nothing, a purge, a change and a hangup.
const WAITS: &str = "tty-session 1
ports 1
phase
caller a 0
open 0 rw
modes 0 now raw
phase
line 0
rx 6162
caller a 0
drain 0
flush 0 in
read 0 8
setd 0 1
vhangup 0
end
journals
journal 0 18
*line 0 0 0 line_end 0
a 0 0 0 answer ok
a 1 0 0 answer ok
a 2 0 0 caller_end
*clock 0 0 0 clock_end
*session 0 0 0 phase_end
*flush 0 0 0 flush n61n62
*line 1 0 0 line_end 2
a 2 0 0 answer ok
a 3 0 0 answer ok
a 4 0 0 wait
*clock 1 0 0 clock_end
a 4 0 0 answer idle
a 5 0 0 answer ok
a 6 0 1 answer ok
a 7 0 2 caller_end
*session 1 0 2 phase_end
*session 2 0 2 hangup -
overruns 0 0
line 0 2 0 2
done
";

const OF_WAITS: &str = "\
= legal
journal 0 18>journal 0 17
a 4 0 0 wait|>
= not legal port 0 entry 11
journal 0 18>journal 0 19
a 4 0 0 wait|>a 4 0 0 wait|a 4 0 0 wait|
= not legal port 0 entry 11
a 2 0 0 answer ok|a 3>a 2 0 0 wait|a 3
= not legal port 0 entry 8
*clock 1 0 0 clock_end|a 4 0 0 answer idle>a 4 0 0 answer idle|*clock 1 0 0 clock_end
= not legal port 0 entry 11
answer idle>answer 0
= not legal port 0 entry 12
a 6 0 1 answer ok>a 6 0 1 answer EIO
= not legal port 0 entry 14
# A character moved from the flush to the purge.
flush n61n62>flush n61
a 3 0 0 answer ok>a 3 0 0 answer ok drop n62
= legal
flush n61n62>flush n61
a 3 0 0 answer ok>a 3 0 0 answer ok drop n63
= not legal port 0 account
flush n61n62>flush n61
= not legal port 0 entry 9
a 3 0 0 answer ok>a 3 0 0 answer ok drop n62
= not legal port 0 entry 9
";

/// An overrun at a full flip buffer of 64 characters.
const ONE_OVERRUN: &str = "tty-session 2
ports 1
flip 0 64
phase
line 0
rx [61*65]
end
journals
journal 0 4
*line 0 0 0 line_end 64
*clock 0 0 0 clock_end
*session 0 0 0 phase_end
*session 1 0 0 hangup [n61*64]
overruns 0 1
64 64 0
line 0 65 0 64
done
";

const OF_ONE_OVERRUN: &str = "\
= legal
64 64 0>64 64 1
= not legal port 0 account
64 64 0>64 65 1
= not legal port 0 account
64 64 0>63 63 0
= not legal port 0 account
64 64 0>65 65 1
= not legal port 0 account
overruns 0 1|64 64 0>overruns 0 2|64 64 0|64 63 0
= not legal port 0 account
overruns 0 1|64 64 0>overruns 0 0
= not legal port 0 account
line_end 64>line_end 65
hangup [n61*64]>hangup [n61*65]
= not legal port 0 entry 0
hangup [n61*64]>hangup [n61*63]
= not legal port 0 entry 3
";

/// Two ports, of which nobody opens the second.
const TWO_PORTS: &str = "tty-session 1
ports 2
phase
line 1
rx 61
end
journals
journal 0 4
*line 0 0 0 line_end 0
*clock 0 0 0 clock_end
*session 0 0 0 phase_end
*session 1 0 0 hangup -
overruns 0 0
line 0 0 0 0
journal 1 4
*line 0 0 0 line_end 1
*clock 0 0 0 clock_end
*session 0 0 0 phase_end
*session 1 0 0 hangup n61
overruns 1 0
line 1 1 0 1
done
";

const OF_TWO_PORTS: &str = "\
= legal
hangup n61>hangup n62
= not legal port 1 account
hangup n61>hangup -
= not legal port 1 entry 3
# A wrong entry goes before an account.
line 0 0 0 0>line 0 1 0 0
hangup n61>hangup -
= not legal port 1 entry 3
line 0 0 0 0>line 0 1 0 0
hangup n61>hangup n62
= not legal port 0 account
hangup ->hangup n61
hangup n61|overruns 1>hangup -|overruns 1
= not legal port 0 entry 3
";

/// A journal with each kind of line, among comments and blanks. Its flush has characters that were not sent.
const EACH_KIND: &str = "tty-session 1
ports 1
phase
caller a 0
open 0 rw
read 0 5
write 0 6162
getm 0
getd 0
counts 0
close 0
end
# what happened
journals
journal 0 17
*line 0 0 0 line_end 0
a 0 0 0 answer ok
a 1 0 0 wait
*clock 0 0 0 tick
*flush 0 0 0 flush n68p0Ab00f41o00
a 1 0 0 answer 2 6869
a 2 0 0 part 1
a 2 1 0 answer 2 drop -

a 3 0 0 answer icrnl ixon opost onlcr isig icanon echo echoe echok echoke echoctl iexten intr=3 quit=28 erase=127 \
kill=21 eof=4 time=0 min=1 start=17 stop=19 susp=26 eol=0 reprint=18 werase=23 lnext=22 eol2=0
a 4 0 0 answer 0 drop n41
a 5 0 0 answer mark=0 parity=1 frame=2 break=3 cut=4 echo=5 pin=6 pout=7 pbad=8 pfull=18446744073709551615
a 6 0 0 answer EBADF
a 7 0 1 caller_end
*clock 0 0 1 clock_end
*session 0 0 1 phase_end
*session 1 0 1 hangup -
a 9 9 9 caller_end
overruns 0 1
5 4 3
\tline 0 6 1 4
done
";

const OF_EACH_KIND: &str = "\
= not legal port 0 entry 4
";

/// Sets a text to these texts, with `|` for each line feed.
fn begin(whole: &mut String, texts: &[&str]) -> Result<(), AllocError> {
    whole.clear();
    for text in texts {
        for line in text.lines() {
            whole.push_str(line)?;
            whole.push('|')?;
        }
    }
    Ok(())
}

/// The text with another text in the first place of this one, if it has it.
fn with_change(
    alloc: Global,
    text: &str,
    old: &str,
    new: &str,
) -> Result<Option<String>, AllocError> {
    let Some((before, after)) = text.split_once(old) else {
        return Ok(None);
    };
    let mut whole = String::new(alloc);
    whole.push_str(before)?;
    whole.push_str(new)?;
    whole.push_str(after)?;
    Ok(Some(whole))
}

/// Changes a text, if it has what is to change.
fn change(alloc: Global, whole: &mut String, old: &str, new: &str) -> Result<bool, AllocError> {
    match with_change(alloc, whole.as_str(), old, new)? {
        Some(changed) => {
            *whole = changed;
            Ok(true)
        }
        None => Ok(false),
    }
}

/// The status of what is told of journals.
fn status_beside(told: &str) -> u8 {
    match told.as_bytes().first() {
        Some(b'l') => 0,
        Some(b'n') => 7,
        _ => 1,
    }
}

/// Whether this line is told of a text.
fn is_told(alloc: Global, text: &str, line: &str) -> Result<bool, AllocError> {
    let told = told_of(alloc, &["check"], written_out(alloc, text)?)?;
    let rest = told.text.as_slice().strip_prefix(line.as_bytes());
    Ok(told.status == status_beside(line) && rest == Some(b"\n".as_slice()))
}

/// Whether a row goes well, over the text so far; what is told of it ends the text.
fn goes_well(
    alloc: Global,
    whole: &mut String,
    texts: &[&str],
    row: &str,
) -> Result<bool, AllocError> {
    if let Some((old, new)) = row.split_once('>') {
        return change(alloc, whole, old, new);
    }
    let Some(line) = row.strip_prefix("= ") else {
        return Ok(row.starts_with('#'));
    };
    let told = is_told(alloc, whole.as_str(), line)?;
    begin(whole, texts)?;
    Ok(told)
}

/// All rows go well over these texts.
fn are_told(rt: &impl Abort, alloc: Global, texts: &[&str], rows: &str) {
    let mut whole = String::new(alloc);
    let mut well = begin(&mut whole, texts).is_ok();
    for row in rows.lines() {
        well = well && goes_well(alloc, &mut whole, texts, row) == Ok(true);
        assert!(rt; well, "at {row}");
    }
}

#[test]
fn altered_journals_are_judged(rt: HostRuntime) {
    are_told(&rt, rt.alloc(), &[SESSION, JOURNALS], OF_THREE_BYTES);
    are_told(&rt, rt.alloc(), &[PARTS], OF_PARTS);
    are_told(&rt, rt.alloc(), &[WAITS], OF_WAITS);
    are_told(&rt, rt.alloc(), &[ONE_OVERRUN], OF_ONE_OVERRUN);
    are_told(&rt, rt.alloc(), &[TWO_PORTS], OF_TWO_PORTS);
    are_told(&rt, rt.alloc(), &[EACH_KIND], OF_EACH_KIND);
}
