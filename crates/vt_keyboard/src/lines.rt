//! The lines of consoles at the beginning and at the end of a phase's keys.

ghost use Rattle.std.specs.Prelude.{◌≡◌, ℕ, ◌<◌, Some, length, slice_get, slice_index_or};
ghost use Rattle.tty_base.specs.declared.characters.Flagged.{Flagged};
ghost use Rattle.uart_line.specs.LineState.{LineState};
ghost use Rattle.word_ring.specs.Ends.{PutterState};
ghost use Rattle.vt_keyboard.specs.Keying.{BeginsKeys, CanBegin, CanTakeKeys, ChangesAll, ChangesAt, EndsKeys};

use crate::keyboard::KeyLines;
use flip_buffer::{FlipIn, names_tell_rings};
use tty_base::LineStep;
use uart_line::Line;

/// Begins the keys of a phase on a line: one character is enough for the line's handler.
fn begin_keys(line: &mut Line, end: &mut FlipIn)
    requires { CanBegin line.old end.old }
    ensures { BeginsKeys line.old line.new end.old end.new }
{
    names_tell_rings();
    line.step(LineStep::Trigger(1), end);
}

fn begin_at(lines: &mut [Line], ends: &mut [FlipIn], p: usize)
    requires line { p < length lines.old }
    requires end { p < length ends.old }
    requires can { (l : LineState) (e : PutterState Flagged)
        → l ≡ slice_index_or lines.old p l
        → e ≡ slice_index_or ends.old p e
        → CanBegin l e }
    ensures { ChangesAt BeginsKeys p lines.old lines.new ends.old ends.new }
{
    begin_keys(&mut lines[p], &mut ends[p]);
}

fn begin_each(lines: &mut [Line], ends: &mut [FlipIn])
    requires each { length ends.old ≡ length lines.old }
    requires can { (p : ℕ) (l : LineState) (e : PutterState Flagged)
        → slice_get lines.old p ≡ Some l
        → slice_get ends.old p ≡ Some e
        → CanBegin l e }
    ensures { ChangesAll BeginsKeys lines.old lines.new ends.old ends.new }
{
    for p in 0..lines.len() {
        begin_at(lines, ends, p);
    }
}

/// Begins the keys of a phase on the lines of all consoles.
pub fn begin_all(keyed: &mut KeyLines)
    requires each { length keyed.old.ends.items ≡ length keyed.old.lines.items }
    requires can { (p : ℕ) (l : LineState) (e : PutterState Flagged)
        → slice_get keyed.old.lines.items p ≡ Some l
        → slice_get keyed.old.ends.items p ≡ Some e
        → CanBegin l e }
    ensures { ChangesAll BeginsKeys keyed.old.lines.items keyed.new.lines.items
        keyed.old.ends.items keyed.new.ends.items }
{
    let KeyLines { lines, ends } = keyed;
    begin_each(lines.as_mut_slice(), ends.as_mut_slice());
}

/// Ends the keys of a phase on a line: nothing is held back, and nothing waits.
fn end_keys(line: &mut Line, end: &mut FlipIn)
    requires { CanTakeKeys 0 line.old end.old }
    ensures { EndsKeys line.old line.new end.old end.new }
{
    names_tell_rings();
    line.run(&[], end);
}

fn end_at(lines: &mut [Line], ends: &mut [FlipIn], p: usize)
    requires line { p < length lines.old }
    requires end { p < length ends.old }
    requires can { (l : LineState) (e : PutterState Flagged)
        → l ≡ slice_index_or lines.old p l
        → e ≡ slice_index_or ends.old p e
        → CanTakeKeys 0 l e }
    ensures { ChangesAt EndsKeys p lines.old lines.new ends.old ends.new }
{
    end_keys(&mut lines[p], &mut ends[p]);
}

fn end_each(lines: &mut [Line], ends: &mut [FlipIn])
    requires each { length ends.old ≡ length lines.old }
    requires can { (p : ℕ) (l : LineState) (e : PutterState Flagged)
        → slice_get lines.old p ≡ Some l
        → slice_get ends.old p ≡ Some e
        → CanTakeKeys 0 l e }
    ensures { ChangesAll EndsKeys lines.old lines.new ends.old ends.new }
{
    for p in 0..lines.len() {
        end_at(lines, ends, p);
    }
}

/// Ends the keys of a phase on the lines of all consoles.
pub fn end_all(keyed: &mut KeyLines)
    requires each { length keyed.old.ends.items ≡ length keyed.old.lines.items }
    requires can { (p : ℕ) (l : LineState) (e : PutterState Flagged)
        → slice_get keyed.old.lines.items p ≡ Some l
        → slice_get keyed.old.ends.items p ≡ Some e
        → CanTakeKeys 0 l e }
    ensures { ChangesAll EndsKeys keyed.old.lines.items keyed.new.lines.items
        keyed.old.ends.items keyed.new.ends.items }
{
    let KeyLines { lines, ends } = keyed;
    end_each(lines.as_mut_slice(), ends.as_mut_slice());
}
