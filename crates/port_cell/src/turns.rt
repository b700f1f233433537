//! Turns at the value: waiting for one, noting what was changed, giving it back, and waiting for a change.

ghost use Rattle.std.specs.Prelude.{◌≡◌, ◌<◌, ◌+◌, true, false, Some, IfSome, IfNone};
ghost use Rattle.std.specs.Borrow.{Lends, sem};
ghost use Rattle.port_cell.specs.contracts.turns.Turn.{the_row};
ghost use Rattle.port_cell.specs.Lent.{with_value, value_in};
ghost use Rattle.port_cell.specs.Entries.{generation_of, Keeps, AddsBy};
ghost use Rattle.port_cell.specs.Views.{Knows, with_turn, with_list, MayTell};
ghost use Rattle.port_cell.specs.Knowledge.{number_of, name_of, list_seen, own_entries, user_of};
ghost use Rattle.port_cell.specs.Knowledge.{has_turn, is_raised, generation_installed, MayNote};
ghost use Rattle.port_cell.specs.Seats.{IsSeat, IsSameSeat, KeepsUse};
ghost use Rattle.port_cell.specs.Cells.{identity_of};
ghost use Rattle.port_cell.specs.Joining.{Becomes};

use crate::cell::{COUNT, Cell, Seat, TURN};
use crate::kept::Kept;
use crate::plays::{Give, Note, NotedList, Take};
use change_wait::ChangeCount;
use std::hint::spin_loop;
use std::marker::Brand;
use std::sync::Wait;

// How often a seat looks for the turn before it sleeps: for about as long as a turn lasts.
const LOOKS: u32 = 64;

/// The value, while its seat has the turn. It has to be given back.
pub struct Turn<V> {
    pub(crate) value: V,
}

impl<V> Turn<V> {
    /// The value, to be read and changed.
    pub fn value(&mut self) -> &mut V
        ensures* writes_back { sem 𝓛 (Lends (the_row V.row) V.row self.entry result with_value) }
        ensures value { result.now ≡ value_in self.old }
    {
        &mut self.value
    }
}

impl<V: Kept> Cell<V> {
    /// Waits for the turn. The value has the name that the cell was given, its list begins with the list
    /// that the seat saw before, and the seat's own entries are those that it made. Where the seat holds
    /// a reference, or has marked the cell, the generation is the one that it knows.
    pub fn turn<R: Wait>(&self, rt: &R, seat: &mut Seat<V>) -> Turn<V>
        requires seat { IsSeat (identity_of self.now) seat.old }
        requires none { has_turn seat.old ≡ false }
        ensures seat { IsSeat (identity_of self.now) seat.new }
        ensures same { IsSameSeat seat.old seat.new }
        ensures references { KeepsUse seat.old seat.new }
        ensures turn { has_turn seat.new ≡ true }
        ensures lowered { is_raised seat.new ≡ false }
        ensures seen { list_seen seat.new ≡ V.list (value_in result) }
        ensures name { name_of seat.old ≡ Some (V.name (value_in result)) }
        ensures list { Keeps (number_of seat.old) (list_seen seat.old) (V.list (value_in result)) }
        ensures own { own_entries seat.new ≡ own_entries seat.old }
        ensures generation { Knows (generation_of (V.list (value_in result))) (user_of seat.old) }
    {
        for _ in rt.forever() {
            if let Some(value) = self.take(seat) {
                return Turn { value };
            }
            self.await_turn(rt);
        }
        unreachable!()
    }

    // Waits until the turn was given back.
    fn await_turn<R: Wait>(&self, rt: &R) {
        for _ in 0..LOOKS {
            if self.table.shared.peek(TURN) == 0 {
                return;
            }
            spin_loop();
        }
        self.for_turn.announce();
        if self.table.shared.peek(TURN) != 0 {
            self.for_turn.sleep(rt);
            self.for_turn.announce();
        }
    }

    // Takes the turn where nobody has it.
    fn take(&self, seat: &mut Seat<V>) -> Option<V>
        requires seat { IsSeat (identity_of self.now) seat.old }
        requires none { has_turn seat.old ≡ false }
        ensures some { IfSome result (λ x.
            Becomes seat.old seat.new (with_turn (V.list x) seat.old.me.0)
            × (seat.old.me.0.name ≡ Some (V.name x))
            × Keeps seat.old.me.0.number seat.old.me.0.seen (V.list x)
            × Knows (generation_of (V.list x)) seat.old.me.0.user
            × (seat.new.me.0.raised ≡ false)) }
        ensures none { IfNone result
            ((seat.new.table_id ≡ seat.old.table_id) × (seat.new.id ≡ seat.old.id) × (seat.new.me ≡ seat.old.me)) }
    {
        if self.table.shared.swap::<Take>(seat, TURN, 1) != 0 {
            return None;
        }
        self.table.shared.exchange(seat, 0, None)
    }

    /// Stores the count of entries, after the value was changed. The list begins with the one that this
    /// turn found or last noted, and the rest is this seat's. Its generation is the installed one, or, by
    /// a seat that is alone, the next. Those who wait for a change are not woken: who notes wakes them.
    pub fn note(&self, seat: &mut Seat<V>, turn: &mut Turn<V>)
        requires seat { IsSeat (identity_of self.now) seat.old }
        requires turn { has_turn seat.old ≡ true }
        requires name { name_of seat.old ≡ Some (V.name (value_in turn.old)) }
        requires list { AddsBy (number_of seat.old) (list_seen seat.old) (V.list (value_in turn.old)) }
        requires generation { MayNote seat.old (generation_of (V.list (value_in turn.old))) }
        ensures seat { IsSeat (identity_of self.now) seat.new }
        ensures same { IsSameSeat seat.old seat.new }
        ensures references { KeepsUse seat.old seat.new }
        ensures turn { has_turn seat.new ≡ true }
        ensures seen { list_seen seat.new ≡ V.list (value_in turn.old) }
        ensures lowered { generation_of (V.list (value_in turn.old)) ≡ generation_installed seat.old
            → is_raised seat.new ≡ false }
        ensures raised { generation_of (V.list (value_in turn.old)) ≡ generation_installed seat.old + 1
            → is_raised seat.new ≡ true }
        ensures installed { generation_installed seat.new ≡ generation_installed seat.old }
        ensures value { turn.new ≡ turn.old }
    {
        self.tell::<Brand>(seat, &turn.value);
    }

    fn tell<T: NotedList<V::Entry>>(&self, seat: &mut Seat<V>, value: &V)
        requires seat { IsSeat (identity_of self.now) seat.old }
        requires turn { has_turn seat.old ≡ true }
        requires list { AddsBy (number_of seat.old) (list_seen seat.old) (V.list value.now) }
        requires generation { MayTell seat.old.me.0 (generation_of (V.list value.now)) }
        requires told { T.told ≡ V.list value.now }
        ensures { Becomes seat.old seat.new (with_list (V.list value.now) seat.old.me.0) }
    {
        self.table
            .shared
            .store::<Note<T>>(seat, COUNT, value.count());
    }

    /// Gives the turn back, with the value as it was noted last and nothing left to install.
    pub fn give(&self, seat: &mut Seat<V>, turn: Turn<V>)
        requires seat { IsSeat (identity_of self.now) seat.old }
        requires turn { has_turn seat.old ≡ true }
        requires name { name_of seat.old ≡ Some (V.name (value_in turn)) }
        requires noted { list_seen seat.old ≡ V.list (value_in turn) }
        requires installed { is_raised seat.old ≡ false }
        ensures seat { IsSeat (identity_of self.now) seat.new }
        ensures same { IsSameSeat seat.old seat.new }
        ensures references { KeepsUse seat.old seat.new }
        ensures turn { has_turn seat.new ≡ false }
        ensures list { list_seen seat.new ≡ list_seen seat.old }
        ensures lowered { is_raised seat.new ≡ false }
    {
        let Turn { value } = turn;
        let place = self.table.shared.exchange(seat, 0, Some(value));
        let None = place else { unreachable!() };
        self.table.shared.store::<Give>(seat, TURN, 0);
        self.for_turn.call_one();
    }

    /// Waits for a change since that count of `for_change`, which was asked for before a look that found
    /// nothing to do. It comes back without a change too, after a millisecond at the latest.
    pub fn park<R: Wait>(&self, rt: &R, seat: &mut Seat<V>, since: ChangeCount)
        requires seat { IsSeat (identity_of self.now) seat.old }
        requires none { has_turn seat.old ≡ false }
        ensures { seat.new ≡ seat.old }
    {
        let _seat = &*seat; // for the contract alone
        self.for_change.wait(rt, since);
    }
}
