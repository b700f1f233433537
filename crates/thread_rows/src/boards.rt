//! Keys that are typed while operators change consoles.

use std::alloc::{AllocError, Global};
use std::sync::Wait;
use std::thread::Threads;
use tty_port::OpenGate;
use tty_rows::{sink, source, written_out};
use tty_run::{Ran, VtEntries, tty_run};
use vt_consoles::{VtEntry, VtEvent};

/// How often the session is played.
const PLAYS: u32 = 10;

/// Two operators change consoles. A call of one of them is refused.
const SESSION: &str = "vt-session 1
consoles 3
phase
keys [61*300]
operator o
activate 1
state
activate 2
activate 3
activate 0
operator p
activate 2
state
activate 1
end
";

const KEYS: u32 = 300;

/// The keys, and the calls that are not refused.
const ENTRIES: usize = 307;

/// How far entries were read: which console is active, and how many keys were typed.
#[derive(Drop)]
struct At {
    console: u8,
    keys: u32,
}

impl At {
    /// Reads an entry, and says whether it can stand here.
    fn reads(&mut self, entry: &VtEntry) -> bool {
        match entry.event {
            VtEvent::Activate(console) => {
                self.console = console;
                console < 3
            }
            VtEvent::State(console) => console == self.console,
            VtEvent::Key { index, console } => {
                let place = self.keys;
                self.keys = place.saturating_add(1);
                index == place && console == self.console
            }
        }
    }
}

/// Whether each key stands once, in order, and it and each answer names the console that is active.
fn are_of_the_session(entries: &[VtEntry]) -> bool {
    let mut at = At {
        console: 0,
        keys: 0,
    };
    for entry in entries {
        if !at.reads(entry) {
            return false;
        }
    }
    at.keys == KEYS && entries.len() == ENTRIES
}

/// The entries of a play, where there was nothing wrong.
fn entries_of_a_play<R: Threads + Wait + Sync>(
    rt: &R,
    alloc: Global,
) -> Result<Option<VtEntries>, AllocError> {
    let mut sink = sink(alloc)?;
    let mut source = source(alloc, written_out(alloc, SESSION)?);
    let Ran { status, vt, .. } = tty_run(rt, alloc, &["vt"], &mut source, &mut sink, &OpenGate);
    Ok(if status == 0 { Some(vt) } else { None })
}

/// Whether the entries of a play are those of the session.
fn is_well_played<R: Threads + Wait + Sync>(rt: &R, alloc: Global) -> Result<bool, AllocError> {
    match entries_of_a_play(rt, alloc)? {
        Some(entries) => Ok(are_of_the_session(entries.as_slice())),
        None => Ok(false),
    }
}

#[test]
fn keys_go_to_the_console_that_is_active(rt: HostRuntime) {
    for play in 0..PLAYS {
        let well = is_well_played(&rt, rt.alloc());
        assert!(rt; well == Ok(true), "at play {play}");
    }
}
