//! The characters of a journal.

ghost use Rattle.std.specs.Prelude.{◌≡◌, ◌↔◌, ◌<◌, IsTrue};
ghost use Rattle.tty_base.specs.declared.characters.Flagged.{Flagged};
ghost use Rattle.tty_calls.specs.Plain.{event_of, chars_in};
ghost use Rattle.tty_terminal.specs.Runs.{chars_of};
ghost use Rattle.journal_check.specs.Accounts.{StartsWith};

use tty_base::Flagged;
use tty_calls::{Event, Journal};

/// The characters that an event hands over or drops.
pub(crate) fn chars_of_event<'a>(event: &Event<'a>) -> &'a [Flagged]
    ensures { result.now ≡ chars_in (event_of event.now) }
{
    match *event {
        Event::Answer { dropped, .. } => dropped,
        Event::Flush(chars) => chars,
        Event::Hangup(dropped) => dropped,
        _ => &[],
    }
}

/// Whether two lists are the same.
fn are_same(one: &[Flagged], other: &[Flagged]) -> bool
    ensures { IsTrue result ↔ (one.now ≡ other.now) }
{
    if one.len() != other.len() {
        return false;
    }
    for place in 0..one.len() {
        if one[place] != other[place] {
            return false;
        }
    }
    true
}

/// What is left of a list after these characters, where it begins with them.
fn rest_after<'a>(list: &'a [Flagged], front: &[Flagged]) -> Option<&'a [Flagged]>
    ensures { StartsWith list.now front.now result }
{
    if list.len() < front.len() {
        return None;
    }
    if !are_same(&list[..front.len()], front) {
        return None;
    }
    Some(&list[front.len()..])
}

/// Whether the characters of these entries are these.
pub(crate) fn are_chars_of(journal: &Journal, list: &[Flagged]) -> bool
    ensures { IsTrue result ↔ (chars_of journal.now.items ≡ list.now) }
{
    let mut rest = list;
    for place in 0..journal.len() {
        let entry = journal.at(place);
        match rest_after(rest, chars_of_event(&entry.event)) {
            Some(left) => rest = left,
            None => return false,
        }
    }
    rest.is_empty()
}
