//! The echo of bytes that WERASE and KILL erase.

ghost use Rattle.std.specs.Prelude.{◌≡◌, ◌*◌, ◌<◌, ◌≤◌, ◌⊎◌, true, length};
ghost use Rattle.tty_base.specs.Sizes.{COUNT_END, MOST_LINE};
ghost use Rattle.flow_control.specs.Output.{has_room, after_send, after_try};
ghost use Rattle.n_tty.specs.Editing.{echo_of_erasing};
ghost use Rattle.n_tty.specs.Posting.{column_past_text, column_after_try, all_posted_bytes, tally_after_try};

use crate::posting::{has_room, post};
use echo_out::{EchoEvent, EraseKind, echo};
use flow_control::{Counter, Tally, Wire};
use n_tty_edit::Edit;
use opost_out::Out;
use tty_modes::Modes;

/// What WERASE or KILL erases of a line: its bytes from a place on.
#[derive(Clone, Copy)]
pub struct Erasing {
    pub kind: EraseKind,
    pub from: usize,
    /// The column at which the line begins.
    pub start: usize,
}

/// How many bytes the echo has of what is erased of a line, which goes from the end.
fn erased_len(edit: &Edit, erasing: Erasing, modes: &Modes) -> usize
    requires from { erasing.from ≤ length edit.now }
    requires kind { (erasing.kind ≡ EraseKind.Word) ⊎ (erasing.kind ≡ EraseKind.Kill) }
    ensures len { result ≡ length (echo_of_erasing modes.now erasing edit.now) }
    ensures most { result ≤ 8 * MOST_LINE }
{
    let line = edit.bytes();
    let mut count = 0;
    for i in erasing.from..line.len() {
        let event = EchoEvent::Erased {
            kind: erasing.kind,
            removed: line[i],
            width: edit.width_at(i, erasing.start, modes),
        };
        count += echo(event, modes).len();
    }
    count
}

/// Posts the echo of what is erased of a line, which goes from the end, where it fits. Output processing
/// leaves it as it is.
fn post_erased(edit: &Edit, erasing: Erasing, out: &mut Out, modes: &Modes, wire: &mut Wire)
    requires from { erasing.from ≤ length edit.now }
    requires kind { (erasing.kind ≡ EraseKind.Word) ⊎ (erasing.kind ≡ EraseKind.Kill) }
    requires column { out.old < COUNT_END }
    requires spare { 8 * length edit.now ≤ wire.old.spare }
    requires room { has_room wire.old
        (echo_of_erasing modes.now erasing edit.now) ≡ true }
    ensures column { out.new ≡ column_past_text modes.now out.old
        (echo_of_erasing modes.now erasing edit.now) }
    ensures wire { wire.new
        ≡ after_send wire.old (echo_of_erasing modes.now erasing edit.now) }
{
    let line = edit.bytes();
    let mut i = line.len();
    while i > erasing.from {
        i -= 1;
        let event = EchoEvent::Erased {
            kind: erasing.kind,
            removed: line[i],
            width: edit.width_at(i, erasing.start, modes),
        };
        post(out, echo(event, modes).as_slice(), modes, wire);
    }
}

/// Echoes what is erased of a line, which goes from the end: whole, or where that does not fit it is
/// dropped whole and its bytes are counted.
pub fn echo_erased(
    edit: &Edit,
    erasing: Erasing,
    out: &mut Out,
    modes: &Modes,
    wire: &mut Wire,
    tally: &mut Tally,
)
    requires from { erasing.from ≤ length edit.now }
    requires kind { (erasing.kind ≡ EraseKind.Word) ⊎ (erasing.kind ≡ EraseKind.Kill) }
    requires column { out.old < COUNT_END }
    requires spare { 8 * length edit.now ≤ wire.old.spare }
    ensures column { out.new
        ≡ column_after_try modes.now wire.old out.old
        (all_posted_bytes modes.now out.old
        (echo_of_erasing modes.now erasing edit.now)) }
    ensures wire { wire.new
        ≡ after_try wire.old (all_posted_bytes modes.now out.old
        (echo_of_erasing modes.now erasing edit.now)) }
    ensures tally { tally.new
        ≡ tally_after_try wire.old
        (all_posted_bytes modes.now out.old
        (echo_of_erasing modes.now erasing edit.now)) tally.old }
{
    let count = erased_len(edit, erasing, modes);
    if has_room(count, wire) {
        post_erased(edit, erasing, out, modes, wire);
    } else {
        tally.count(Counter::Echo, count as u64);
    }
}
