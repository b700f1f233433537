//! Plays under load, with a change of discipline and a hangup.

use super::plays::is_legally_played;

/// How often each session is played.
const PLAYS: u32 = 10;

/// Two callers write, one changes the discipline, and one hangs the port up.
const SHORT: &str = "tty-session 1
ports 1
phase
caller a 0
open 0 rw
phase
line 0
rx 68690a
caller a 0
write 0 [61*200]
caller b 0
write 0 [62*200]
caller c 0
setd 0 1
caller d 0
vhangup 0
end
";

/// Callers that read and write, there and back to the discipline, and a hangup, while characters come.
const LONG: &str = "tty-session 1
ports 1
phase
caller a 0
open 0 rw
modes 0 now raw
phase
line 0
rx [61*300]
caller a 0
write 0 [61*200]
caller b 0
read 0 64
setd 0 1
setd 0 0
caller c 0
write 0 [62*200]
caller d 0
vhangup 0
end
";

#[test]
fn plays_under_load_are_legal(rt: HostRuntime) {
    for play in 0..PLAYS {
        for session in [SHORT, LONG] {
            let legal = is_legally_played(&rt, rt.alloc(), &["run", "--journal"], session);
            assert!(rt; legal == Ok(true), "at play {play}");
        }
    }
}
