//! Sessions with journals that are refused: each kind of wrong line, in each place.

use super::tables::{CHECK, are_refused, texts_are_refused};

/// A session whose caller has a call for each kind of answer.
const SESSION: &str = "tty-session 1
ports 1
phase
caller a 0
open 0 rw
read 0 5
write 0 6162
getm 0
getd 0
counts 0
send 0 61
take 0
end
";

/// What is refused behind the session.
const BEHIND_A_SESSION: &str = "\
# After the session the journals are due.
= 14
order journal 0 0
order journal
order Journals
order done
order end
order phase
order other
word journals 0
# Then the number of entries of the first port.
= 15 journals|
order journals
order overruns 0 0
order line 0 0 0 0
order a 0 0 0 wait
order done
word journal
word journal 0
word journal 0 0 0
number journal x 0
number journal 00 0
number journal 0 x
number journal 0 01
number journal 0 10000000000
limit journal 1 0
limit journal 1 x
limit journal 4294967296 0
limit journal 0 4294967296
# An entry: who made it, three numbers, and a kind.
= 16 journals|journal 0 1|
word b 0 0 0 caller_end
word A 0 0 0 caller_end
word 0 0 0 0 tick
word * 0 0 0 tick
word *flusher 0 0 0 tick
word **line 0 0 0 tick
word journal 0 0
word overruns 0 0
word done
word b x 0 0 tick
word a
word a 0
word a 0 0
word a 0 0 0
number a x 0 0 caller_end
number a 01 0 0 caller_end
number a -1 0 0 caller_end
number a 10000000000 0 0 caller_end
number a 0 x 0 caller_end
number a 0 0 x caller_end
number a x 4294967296 0 other
limit a 4294967296 0 0 caller_end
limit a 0 4294967296 0 caller_end
limit a 0 0 4294967296 caller_end
limit a 4294967296 x 0 other
word a 0 0 0 ended
word a 0 0 0 Tick
word a 0 0 0 open
word a 0 0 0 -
# What each kind of entry says.
= 16 journals|journal 0 1|
word *flush 0 0 0 answer ok
word *flush 0 0 0 part 1
word *flush 0 0 0 wait
word *line 0 0 0 answer ok
word *line 0 0 0 part 1
word *line 0 0 0 wait
word *clock 0 0 0 answer ok
word *clock 0 0 0 part 1
word *clock 0 0 0 wait
word *session 0 0 0 answer ok
word *session 0 0 0 part 1
word *session 0 0 0 wait
order a 8 0 0 answer ok
order a 8 0 0 answer other
order a 8 0 0 answer
order a 8 0 0 part 1
order a 8 0 0 part x
order a 8 0 0 wait
order a 8 0 0 wait 0
order a 4294967295 0 0 wait
word a 2 0 0 part
word a 2 0 0 part 1 1
word a 1 0 0 wait 0
number a 2 0 0 part x
number a 2 0 0 part 01
limit a 2 0 0 part 4294967296
word a 0 0 0 tick 0
word a 0 0 0 clock_end 0
word a 0 0 0 caller_end 0
word a 0 0 0 phase_end 0
word *line 0 0 0 line_end
word *line 0 0 0 line_end 1 1
number *line 0 0 0 line_end x
number *line 0 0 0 line_end 01
limit *line 0 0 0 line_end 4294967296
word *flush 0 0 0 flush
word *flush 0 0 0 flush - -
word *flush 0 0 0 flush n61 n61
hex *flush 0 0 0 flush x
hex *flush 0 0 0 flush n
hex *flush 0 0 0 flush n6
hex *flush 0 0 0 flush n6g
hex *flush 0 0 0 flush x61
hex *flush 0 0 0 flush N61
hex *flush 0 0 0 flush 61
hex *flush 0 0 0 flush n61-
hex *flush 0 0 0 flush -n61
hex *flush 0 0 0 flush n61n6
word *session 0 0 0 hangup
word *session 0 0 0 hangup - -
word *session 0 0 0 hangup n61 n61
hex *session 0 0 0 hangup x
hex *session 0 0 0 hangup n
hex *session 0 0 0 hangup n6
hex *session 0 0 0 hangup n6g
hex *session 0 0 0 hangup x61
hex *session 0 0 0 hangup N61
hex *session 0 0 0 hangup 61
hex *session 0 0 0 hangup n61-
hex *session 0 0 0 hangup -n61
hex *session 0 0 0 hangup n61n6
# An answer, by the verb of its step.
= 16 journals|journal 0 1|
word a 0 0 0 answer
word a 0 0 0 answer done
word a 0 0 0 answer OK
word a 0 0 0 answer 0
word a 0 0 0 answer 0 61
word a 0 0 0 answer EPERM
word a 0 0 0 answer ebadf
word a 0 0 0 answer Idle
word a 0 0 0 answer ok ok
word a 0 0 0 answer ok drop
word a 0 0 0 answer ok dropped -
word a 0 0 0 answer ok drop - -
word a 0 0 0 answer ok drop n61 n61
word a 0 0 0 answer idle 0
word a 0 0 0 answer EIO EIO
word a 1 0 0 answer
word a 1 0 0 answer ok
word a 1 0 0 answer 1
word a 1 0 0 answer 0 61
word a 1 0 0 answer 1 6
word a 1 0 0 answer 1 6g
word a 1 0 0 answer 1 6162
word a 1 0 0 answer 2 61
word a 1 0 0 answer 01 61
word a 1 0 0 answer 1 4A
word a 1 0 0 answer x
word a 1 0 0 answer 0 0
word a 1 0 0 answer 1 61 61
word a 2 0 0 answer
word a 2 0 0 answer ok
word a 2 0 0 answer x
word a 2 0 0 answer 02
word a 2 0 0 answer -2
word a 2 0 0 answer 4294967296
word a 2 0 0 answer 2 2
word a 2 0 0 answer 2 6162
word a 3 0 0 answer
word a 3 0 0 answer ok
word a 3 0 0 answer 0
word a 3 0 0 answer icanon
word a 3 0 0 answer quit=28 erase=127 kill=21 eof=4 time=0 min=1 start=17 stop=19 susp=26 eol=0 reprint=18 werase=23 \
lnext=22 eol2=0
word a 3 0 0 answer intr=3 quit=28 erase=127 kill=21 eof=4 time=0 min=1 start=17 stop=19 susp=26 eol=0 reprint=18 \
werase=23 lnext=22
word a 3 0 0 answer ixon icrnl intr=3 quit=28 erase=127 kill=21 eof=4 time=0 min=1 start=17 stop=19 susp=26 eol=0 \
reprint=18 werase=23 lnext=22 eol2=0
word a 3 0 0 answer -icanon intr=3 quit=28 erase=127 kill=21 eof=4 time=0 min=1 start=17 stop=19 susp=26 eol=0 \
reprint=18 werase=23 lnext=22 eol2=0
word a 3 0 0 answer other intr=3 quit=28 erase=127 kill=21 eof=4 time=0 min=1 start=17 stop=19 susp=26 eol=0 \
reprint=18 werase=23 lnext=22 eol2=0
word a 3 0 0 answer intr=3 quit=28 erase=127 kill=21 eof=4 time=0 min=256 start=17 stop=19 susp=26 eol=0 reprint=18 \
werase=23 lnext=22 eol2=0
word a 3 0 0 answer intr=3 quit=28 erase=127 kill=21 eof=4 time=0 min=1 start=17 stop=19 susp=26 eol=0 reprint=18 \
werase=23 lnext=22 eol2=0 icanon
word a 3 0 0 answer intr=3 quit=28 erase=127 kill=21 eof=4 time=0 min=1 start=17 stop=19 susp=26 eol=0 reprint=18 \
werase=23 lnext=22 eol2=0 x
word a 4 0 0 answer
word a 4 0 0 answer ok
word a 4 0 0 answer x
word a 4 0 0 answer 00
word a 4 0 0 answer 4294967296
word a 4 0 0 answer 0 0
word a 5 0 0 answer
word a 5 0 0 answer ok
word a 5 0 0 answer 0
word a 5 0 0 answer mark=0
word a 5 0 0 answer parity=0 frame=0 break=0 cut=0 echo=0 pin=0 pout=0 pbad=0 pfull=0
word a 5 0 0 answer parity=0 mark=0 frame=0 break=0 cut=0 echo=0 pin=0 pout=0 pbad=0 pfull=0
word a 5 0 0 answer mark=0 parity=0 frame=0 break=0 cut=0 echo=0 pin=0 pout=0 pbad=0 pfull=00
word a 5 0 0 answer mark=0 parity=0 frame=0 break=0 cut=0 echo=0 pin=0 pout=0 pbad=0 pfull=x
word a 5 0 0 answer mark=0 parity=0 frame=0 break=0 cut=0 echo=0 pin=0 pout=0 pbad=0 pfull=18446744073709551616
word a 5 0 0 answer mark parity=0 frame=0 break=0 cut=0 echo=0 pin=0 pout=0 pbad=0 pfull=0
word a 5 0 0 answer mark=0 parity=0 frame=0 break=0 cut=0 echo=0 pin=0 pout=0 pbad=0 pfull=0 x=0
word a 6 0 0 answer 1
word a 6 0 0 answer 0
word a 7 0 0 answer ok
word a 7 0 0 answer 1
hex a 0 0 0 answer ok drop x
hex a 0 0 0 answer ok drop n6
hex a 0 0 0 answer ok drop x61
hex a 0 0 0 answer EIO drop n6
hex a 2 0 0 answer 2 drop 61
# After the entries the overruns are due.
= 16 journals|journal 0 0|
order journals
order journal 0 0
order line 0 0 0 0
order a 0 0 0 wait
order done
word overruns
word overruns 0
word overruns 0 0 0
number overruns x 0
number overruns 00 0
number overruns 0 x
number overruns 0 01
number overruns 0 10000000000
limit overruns 1 0
limit overruns 1 x
limit overruns 4294967296 0
limit overruns 0 4294967296
# Each of three numbers.
= 17 journals|journal 0 0|overruns 0 1|
word 1
word 1 2
word 1 2 3 4
number x 2 3
number 1 x 3
number 1 2 x
number 01 2 3
number line 0 0 0 0
number done
number x
limit 4294967296 2 3
limit 1 4294967296 3
limit 1 2 4294967296
limit 4294967296 x
# Then the numbers of the line.
= 17 journals|journal 0 0|overruns 0 0|
order overruns 0 0
order journal 1 0
order done
order 0 0 0
word line
word line 0
word line 0 1
word line 0 1 2
word line 0 1 2 3 4
number line x 1 2 3
number line 0 x 2 3
number line 0 1 x 3
number line 0 1 2 x
limit line 1 1 2 3
limit line 1 x
limit line 0 4294967296 2 3
limit line 0 1 4294967296 3
limit line 0 1 2 4294967296
# And then the end.
= 18 journals|journal 0 0|overruns 0 0|line 0 0 0 0|
order line 0 0 0 0
order journal 1 0
order end
order Done
order other
word done 0
# After that nothing follows.
= 19 journals|journal 0 0|overruns 0 0|line 0 0 0 0|done|
order done
order done 0
order journals
order phase
order other
order 0
";

/// What may be left out at the end, with the line after the last.
const WITHOUT_DONE: &str = "\
14 order
15 order # nothing|
15 order journals|
16 order journals|journal 0 1|
16 order journals|journal 0 4294967295|
16 order journals|journal 0 0|
17 order journals|journal 0 0|overruns 0 1|
17 order journals|journal 0 0|overruns 0 0|
18 order journals|journal 0 0|overruns 0 0|line 0 0 0 0|
19 order journals|journal 0 0|overruns 0 0|line 0 0 0 0||
";

#[test]
fn wrong_lines_after_a_session_are_refused(rt: HostRuntime) {
    are_refused(&rt, rt.alloc(), CHECK, SESSION, BEHIND_A_SESSION);
    texts_are_refused(&rt, rt.alloc(), CHECK, SESSION, WITHOUT_DONE);
}
