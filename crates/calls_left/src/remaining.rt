//! What the callers of a phase have still to call.

ghost use Rattle.std.specs.Prelude.{◌≡◌, ◌+◌, ◌<◌, ◌≤◌, ◌==◌, [], Some, None, IfOk, IfSome, All, MatchOption};
ghost use Rattle.std.specs.Prelude.{drop, length, map, nat_lt, option_map, slice_get, slice_set};
ghost use Rattle.play_base.specs.Roles.{calls_in};
ghost use Rattle.tty_calls.specs.Plain.{call_of};
ghost use Rattle.passed_calls.specs.Scripts.{count_in};
ghost use Rattle.calls_left.specs.Remaining.{IsMarked, after_next, calls_from, calls_of_port, first_call};
ghost use Rattle.calls_left.specs.Remaining.{any_call_of, left_at, own_from, passed_cursor, place_of, plain_from};

use passed_calls::{PlacedCall, count_in};
use std::alloc::Global;
use std::marker::Model;
use tty_base::NoMemory;
use tty_calls::{Call, Script};

/// A call that comes next.
#[derive(Clone, Copy)]
pub enum NextCall<'a, C> {
    /// It is for the port.
    Port(Call<'a>),
    /// It is one that the port never sees.
    Own(C),
}

/// Where a script stands: how many of its calls for the port were taken, and how many of them before the last call
/// that the port never sees, the place of that one, and which of these of the phase are left to it.
#[derive(Clone, Copy)]
struct Cursor {
    script: usize,
    taken: usize,
    mark: usize,
    last: Option<u64>,
    first: usize,
    end: usize,
}

impl Cursor {
    /// Whether the next call for the port stands before a place.
    fn is_before(&self, place: u64) -> bool
        ensures { result ≡ nat_lt (place_of self.now) place }
    {
        let since = self.taken.saturating_sub(self.mark) as u64;
        match self.last {
            None => since < place,
            Some(last) => last < place && since < place - last - 1,
        }
    }

    /// The next call for the port.
    fn plain<'a>(&self, scripts: &'a [Script]) -> Option<Call<'a>>
        ensures { option_map call_of result ≡ slice_get (plain_from scripts.now self.now) 0 }
    {
        let script = scripts.get(self.script)?;
        script.calls.get(self.taken)
    }

    /// How many calls for the port the script has.
    fn plain_count(&self, scripts: &[Script]) -> usize
        ensures { result ≡ length (calls_in (slice_get scripts.now self.now.script)) }
    {
        match scripts.get(self.script) {
            None => 0,
            Some(script) => script.calls.len(),
        }
    }

    /// The next call that the port never sees.
    fn own<C: Copy>(&self, placed: &[PlacedCall<C>]) -> Option<PlacedCall<C>>
        ensures call { result ≡ slice_get (own_from placed.now self.now) 0 }
        ensures within { IfSome result (λ own. self.now.first < self.now.end) }
    {
        if self.first < self.end {
            placed.get(self.first).copied()
        } else {
            None
        }
    }

    /// The next call of both.
    fn next<'a, C: Copy>(
        &self,
        plain: Option<Call<'a>>,
        own: Option<PlacedCall<C>>,
    ) -> Option<NextCall<'a, C>>
        ensures { option_map any_call_of result ≡ first_call (place_of self.now) (option_map call_of plain.entry) own }
    {
        match own {
            None => match plain {
                None => None,
                Some(call) => Some(NextCall::Port(call)),
            },
            Some(own) => match plain {
                Some(call) if self.is_before(own.place) => Some(NextCall::Port(call)),
                _ => Some(NextCall::Own(own.call)),
            },
        }
    }

    /// Where the script stands behind its next call, where it has so many calls for the port.
    fn step<C: Copy>(self, count: usize, own: Option<PlacedCall<C>>) -> Cursor
        requires { IfSome own (λ own. self.first < self.end) }
        ensures { result ≡ passed_cursor count own self }
    {
        match own {
            None => {
                if self.taken < count {
                    self.behind_plain(count)
                } else {
                    self
                }
            }
            Some(own) => {
                if self.taken < count && self.is_before(own.place) {
                    self.behind_plain(count)
                } else {
                    self.behind_own(own.place)
                }
            }
        }
    }

    fn behind_plain(self, count: usize) -> Cursor
        requires { self.taken < count }
        ensures { result ≡ record self { taken = self.taken + 1 } }
    {
        Cursor {
            taken: self.taken + 1,
            ..self
        }
    }

    fn behind_own(self, place: u64) -> Cursor
        requires { self.first < self.end }
        ensures { result ≡ record self { mark = self.taken; last = Some place; first = self.first + 1 } }
    {
        Cursor {
            mark: self.taken,
            last: Some(place),
            first: self.first + 1,
            ..self
        }
    }

    /// Where the script stands behind its next call.
    fn passed<C: Copy>(self, scripts: &[Script], placed: &[PlacedCall<C>]) -> Cursor
        requires { IsMarked self }
        ensures calls { calls_from scripts.now placed.now result ≡ after_next (calls_from scripts.now placed.now self) }
        ensures marked { IsMarked result }
    {
        self.step(self.plain_count(scripts), self.own(placed))
    }
}

/// The calls of the callers of a port in a phase that are still to be made, script by script.
#[derive(Drop)]
pub struct Remaining<'a, C> {
    scripts: &'a [Script],
    placed: &'a [PlacedCall<C>],
    cursors: Vec<Cursor>,
}

impl<'a, C> Model for Remaining<'a, C> {
    ghost use Rattle.std.specs.Prelude.{All, List, map};
    ghost use Rattle.passed_calls.specs.Scripts.{AnyCall};
    ghost use Rattle.calls_left.specs.Remaining.{IsMarked, calls_from};

    ghost Value = { List (List (AnyCall C)) };

    ghost view = { λ r. map (calls_from r.scripts.now r.placed.now) r.cursors.items };

    ghost invariant = { λ r. All IsMarked r.cursors.items };
}

impl<'a, C: Copy> Remaining<'a, C> {
    /// All calls of the scripts of a phase that are of this port. `placed` has those that the port never sees.
    pub fn of(
        alloc: Global,
        scripts: &'a [Script],
        placed: &'a [PlacedCall<C>],
        port: u8,
    ) -> Result<Remaining<'a, C>, NoMemory>
        ensures { IfOk result (λ left. left ≡ calls_of_port port scripts.now placed.now) }
    {
        let cursors = cursors_of(alloc, scripts, placed, port)?;
        Ok(Remaining {
            scripts,
            placed,
            cursors,
        })
    }

    /// The next call of the script at a place.
    pub fn next(&self, place: usize) -> Option<NextCall<'a, C>>
        ensures { MatchOption result (left_at self.now place ≡ [])
            (λ call. slice_get (left_at self.now place) 0 ≡ Some (any_call_of call)) }
    {
        match cursor_at(self.cursors.as_slice(), place) {
            None => None,
            Some(cursor) => cursor.next(cursor.plain(self.scripts), cursor.own(self.placed)),
        }
    }

    /// The next call of the script at a place was made.
    pub fn pass(&mut self, place: usize)
        ensures { self.new ≡ slice_set self.old place (after_next (left_at self.old place)) }
    {
        match cursor_at(self.cursors.as_slice(), place) {
            None => {}
            Some(cursor) => {
                let next = cursor.passed(self.scripts, self.placed);
                set_cursor(self.cursors.as_mut_slice(), place, next);
            }
        }
    }
}

fn cursor_at(cursors: &[Cursor], place: usize) -> Option<Cursor>
    ensures { result ≡ slice_get cursors.now place }
{
    cursors.get(place).copied()
}

fn set_cursor(cursors: &mut [Cursor], place: usize, cursor: Cursor)
    requires { place < length cursors.old }
    ensures { cursors.new ≡ slice_set cursors.old place cursor }
{
    cursors[place] = cursor;
}

/// Where the scripts of a port stand at the beginning of a phase.
fn cursors_of<C: Copy>(
    alloc: Global,
    scripts: &[Script],
    placed: &[PlacedCall<C>],
    port: u8,
) -> Result<Vec<Cursor>, NoMemory>
    ensures calls { IfOk result
        (λ cursors. map (calls_from scripts.now placed.now) cursors.items ≡ calls_of_port port scripts.now placed.now) }
    ensures marked { IfOk result (λ cursors. All IsMarked cursors.items) }
{
    let mut cursors = Vec::new(alloc);
    let mut first = 0;
    for (place, script) in scripts.iter().enumerate() {
        let end = end_of(place, placed, first);
        if script.port == port {
            cursors.push(beginning(place, first, end))?;
        }
        first = end;
    }
    Ok(cursors)
}

/// A script of which no call was taken.
fn beginning(script: usize, first: usize, end: usize) -> Cursor
    ensures { result ≡ record { script = script; taken = 0; mark = 0; last = None; first = first; end = end } }
{
    Cursor {
        script,
        taken: 0,
        mark: 0,
        last: None,
        first,
        end,
    }
}

/// Where the calls of a script end that the port never sees, and that begin at a place among those of the phase.
fn end_of<C: Copy>(script: usize, placed: &[PlacedCall<C>], first: usize) -> usize
    requires { first ≤ length placed.now }
    ensures end { result ≡ first + count_in script (drop first placed.now) }
    ensures within { result ≤ length placed.now }
{
    first + count_in(script, &placed[first..])
}
