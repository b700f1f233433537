//! The lines of a console, and which one is active.

ghost use Rattle.std.specs.Prelude.{◌≡◌, ◌++◌, OnOk, string_bytes};
ghost use Rattle.vt_consoles.specs.Runs.{active_of};
ghost use Rattle.vt_print.specs.Consoles.{active_line, console_text, is_key_to, keys_to, tally_line};

use crate::rows::{put_rows, screen_of};
use std::alloc::{AllocError, Global};
use tty_base::NoMemory;
use vt_consoles::{VtEntry, VtEvent};

/// What is counted of a console: the keys that were lost at its full flip buffer, the characters that were taken from
/// there and that were dropped there, and its generation at the end.
#[derive(Clone, Copy, Debug, PartialEq, Eq)]
pub struct Tally {
    pub overrun: u64,
    pub taken: u64,
    pub dropped: u64,
    pub generation: u32,
}

/// Adds what a report says of a console: how many keys went to it by the entries of the board, its counts, and each
/// row of its screen, which is that of its wire, that has more than blanks.
pub fn put_console(
    alloc: Global,
    text: &mut String,
    console: usize,
    entries: &[VtEntry],
    tally: &Tally,
    wire: &[u8],
) -> Result<(), NoMemory>
    ensures { OnOk result
        (string_bytes text.new ≡ string_bytes text.old ++ console_text console entries.now tally.now wire.now) }
{
    let keys = keys_to(console, entries);
    put_tally(text, console, keys, tally)?;
    let screen = screen_of(alloc, wire)?;
    put_rows(alloc, text, console, &screen)
}

/// Adds which console is active behind the entries of a board.
pub fn put_active(text: &mut String, entries: &[VtEntry]) -> Result<(), NoMemory>
    ensures { OnOk result (string_bytes text.new ≡ string_bytes text.old ++ active_line entries.now) }
{
    let active = active_of(entries);
    Ok(write!(text, "active {active}\n")?)
}

fn put_tally(
    text: &mut String,
    console: usize,
    keys: usize,
    tally: &Tally,
) -> Result<(), AllocError>
    ensures { OnOk result (string_bytes text.new ≡ string_bytes text.old ++ tally_line console keys tally.now) }
{
    let Tally {
        overrun,
        taken,
        dropped,
        generation,
    } = *tally;
    write!(
        text,
        "console {console} keys={keys} overrun={overrun} taken={taken} dropped={dropped} generation={generation}\n"
    )
}

fn keys_to(console: usize, entries: &[VtEntry]) -> usize
    ensures { result ≡ keys_to console entries.now }
{
    entries
        .iter()
        .filter(|entry| is_key_to(console, &entry.event))
        .count()
}

fn is_key_to(console: usize, event: &VtEvent) -> bool
    ensures { result ≡ is_key_to console event.now }
{
    match event {
        VtEvent::Activate(_) | VtEvent::State(_) => false,
        VtEvent::Key { console: n, .. } => usize::from(*n) == console,
    }
}

fn active_of(entries: &[VtEntry]) -> u8
    ensures { result ≡ active_of entries.now }
{
    let mut active = 0;
    for entry in entries {
        active = entry.event.active_after(active);
    }
    active
}
