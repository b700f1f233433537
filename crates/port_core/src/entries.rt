//! Memory for entries and kept calls. A call of a port takes all its memory by these functions before
//! it changes anything.

ghost use Rattle.std.specs.Prelude.{◌≡◌, ◌≤◌, ◌<◌, ◌++◌, ◌∷◌, [], true, IfOk, IfErr, OnOk, OnErr};
ghost use Rattle.tty_base.specs.Sizes.{PIECE};
ghost use Rattle.tty_calls.specs.declared.journals.Who.TheVariants.{Caller, Flusher};
ghost use Rattle.tty_calls.specs.Plain.{call_of, entry_of, event_of, flushed, bytes_by, chars_in};
ghost use Rattle.port_core.specs.Inside.{call_waiting, can_wait};
ghost use Rattle.tty_terminal.specs.Meeting.{IsRoomFor, room_for_characters};

use crate::waiting::WaitingCall;
use std::alloc::Global;
use tty_base::{Chars, Flagged, NoMemory};
use tty_calls::{Call, Denied, Entry, Event, Journal, Who};
use tty_terminal::{ROOM_FOR_CALL, Room, Terminal};

/// Notes that no memory is left.
pub(crate) fn starve(starved: &mut bool) -> Denied
    ensures denied { result ≡ Denied.NoMemory }
    ensures noted { starved.new ≡ true }
{
    *starved = true;
    Denied::NoMemory
}

/// Takes the memory for one entry, which gives at most so many bytes and takes at most so many characters
/// out of the flip buffer; or notes that none is left.
#[inline(always)]
pub(crate) fn reserve_entry(
    journal: &mut Journal,
    starved: &mut bool,
    bytes: usize,
    characters: usize,
) -> Result<(), Denied>
    ensures items { journal.new.items ≡ journal.old.items }
    ensures room { OnOk result (0 < journal.new.spare) }
    ensures bytes { OnOk result (bytes ≤ journal.new.spare_bytes) }
    ensures characters { OnOk result (characters ≤ journal.new.spare_characters) }
    ensures ok { OnOk result (starved.new ≡ starved.old) }
    ensures err { IfErr result (λ d. (d ≡ Denied.NoMemory) × (starved.new ≡ true)) }
{
    match journal.reserve(bytes, characters) {
        Ok(()) => Ok(()),
        Err(NoMemory) => Err(starve(starved)),
    }
}

/// Makes an entry that gives no bytes and takes no characters out of the flip buffer; or notes that no memory
/// is left.
#[inline(always)]
pub(crate) fn add_entry(
    journal: &mut Journal,
    starved: &mut bool,
    entry: &Entry,
) -> Result<(), Denied>
    requires bytes { bytes_by (event_of entry.now.event) ≡ [] }
    requires characters { chars_in (event_of entry.now.event) ≡ [] }
    ensures entry { OnOk result (journal.new.items ≡ journal.old.items ++ entry_of entry.now ∷ []) }
    ensures none { OnErr result (journal.new.items ≡ journal.old.items) }
    ensures ok { OnOk result (starved.new ≡ starved.old) }
    ensures err { IfErr result (λ d. (d ≡ Denied.NoMemory) × (starved.new ≡ true)) }
{
    reserve_entry(journal, starved, 0, 0)?;
    journal.add(entry);
    Ok(())
}

/// Takes the memory for so many more characters, or notes that none is left.
#[inline(always)]
pub(crate) fn reserve_chars(
    chars: &mut Chars,
    starved: &mut bool,
    room: usize,
) -> Result<(), Denied>
    ensures items { chars.new.items ≡ chars.old.items }
    ensures room { OnOk result (room ≤ chars.new.spare) }
    ensures ok { OnOk result (starved.new ≡ starved.old) }
    ensures err { IfErr result (λ d. (d ≡ Denied.NoMemory) × (starved.new ≡ true)) }
{
    match chars.reserve(room) {
        Ok(()) => Ok(()),
        Err(NoMemory) => Err(starve(starved)),
    }
}

/// Takes the memory for a piece of so many characters at most: for its entry, for their list, and what
/// the terminal needs to receive them.
#[inline(always)]
pub(crate) fn reserve_piece(
    journal: &mut Journal,
    terminal: &mut Terminal,
    chars: &mut Chars,
    most: usize,
) -> Result<(), NoMemory>
    requires { most ≤ PIECE }
    ensures journal { journal.new.items ≡ journal.old.items }
    ensures terminal { terminal.new.terminal ≡ terminal.old.terminal }
    ensures chars { chars.new.items ≡ chars.old.items }
    ensures entry { OnOk result (0 < journal.new.spare) }
    ensures characters { OnOk result (most ≤ journal.new.spare_characters) }
    ensures room { OnOk result (most ≤ chars.new.spare) }
    ensures wire { OnOk result (room_for_characters terminal.new.terminal most ≤ terminal.new.wire_room) }
    ensures signals { OnOk result (most ≤ terminal.new.signal_room) }
{
    journal.reserve(0, most)?;
    chars.reserve(most)?;
    let room = terminal.room_for_characters(most);
    terminal.reserve(room, most)
}

/// An empty list with room for so many characters.
pub(crate) fn room_for_chars(
    alloc: Global,
    starved: &mut bool,
    room: usize,
) -> Result<Chars, Denied>
    ensures empty { IfOk result (λ chars. chars.items ≡ []) }
    ensures fits { IfOk result (λ chars. room ≤ chars.spare) }
    ensures ok { OnOk result (starved.new ≡ starved.old) }
    ensures err { IfErr result (λ d. (d ≡ Denied.NoMemory) × (starved.new ≡ true)) }
{
    let mut chars = Chars::new(alloc);
    reserve_chars(&mut chars, starved, room)?;
    Ok(chars)
}

/// A copy of a call that begins to wait.
pub(crate) fn copy_of(alloc: Global, starved: &mut bool, call: &Call) -> Result<WaitingCall, Denied>
    requires { can_wait (call_of call.now) ≡ true }
    ensures copy { IfOk result (λ copy. call_waiting copy ≡ call_of call.now) }
    ensures ok { OnOk result (starved.new ≡ starved.old) }
    ensures err { IfErr result (λ d. (d ≡ Denied.NoMemory) × (starved.new ≡ true)) }
{
    match WaitingCall::of(alloc, call) {
        Ok(copy) => Ok(copy),
        Err(NoMemory) => Err(starve(starved)),
    }
}

/// What the terminal needs for a call that is answered or takes a part.
#[inline(always)]
fn room_for_call(alloc: Global, terminal: &mut Terminal, call: &Call) -> Result<Room, NoMemory>
    ensures same { terminal.new.terminal ≡ terminal.old.terminal }
    ensures room { IfOk result (λ room. IsRoomFor terminal.new.terminal (call_of call.now) room) }
    ensures wire { OnOk result (ROOM_FOR_CALL ≤ terminal.new.wire_room) }
{
    terminal.reserve(ROOM_FOR_CALL, 0)?;
    terminal.make_room(alloc, call)
}

/// What the terminal needs for a call that is answered or takes a part, or notes that no memory is left.
#[inline(always)]
pub(crate) fn prepare(
    alloc: Global,
    terminal: &mut Terminal,
    starved: &mut bool,
    call: &Call,
) -> Result<Room, Denied>
    ensures terminal { terminal.new.terminal ≡ terminal.old.terminal }
    ensures wire { OnOk result (ROOM_FOR_CALL ≤ terminal.new.wire_room) }
    ensures room { IfOk result (λ room. IsRoomFor terminal.new.terminal (call_of call.now) room) }
    ensures ok { OnOk result (starved.new ≡ starved.old) }
    ensures err { IfErr result (λ d. (d ≡ Denied.NoMemory) × (starved.new ≡ true)) }
{
    match room_for_call(alloc, terminal, call) {
        Ok(room) => Ok(room),
        Err(NoMemory) => Err(starve(starved)),
    }
}

/// An entry of a caller's call.
pub(crate) fn entry_of_call(
    caller: u16,
    step: u32,
    part: u32,
    generation: u32,
    event: Event<'_>,
) -> Entry<'_>
    ensures { entry_of result
        ≡ record {
          who = Caller caller;
          step = step;
          part = part;
          generation = generation;
          event = event_of event.entry;
        } }
{
    Entry {
        who: Who::Caller(caller),
        step,
        part,
        generation,
        event,
    }
}

/// An entry of a piece of a flush run.
#[inline(always)]
pub(crate) fn entry_of_flush(run: u32, part: u32, generation: u32, chars: &[Flagged]) -> Entry<'_>
    ensures { entry_of result
        ≡ record { who = Flusher; step = run; part = part; generation = generation; event = flushed chars.now } }
{
    Entry {
        who: Who::Flusher,
        step: run,
        part,
        generation,
        event: Event::Flush(chars),
    }
}
