//! References to the generation: taking one and giving it back, and marking the cell to install the next
//! generation.

ghost use Rattle.std.specs.Prelude.{◌≡◌, ◌↔◌, ◌+◌, ◌<◌, ◌/◌, ◌%◌, true, false, IsTrue, IfOk, IfErr, OnOk, OnErr};
ghost use Rattle.port_cell.specs.declared.view.User.TheVariants.{Free, Held, Marked, Alone};
ghost use Rattle.port_cell.specs.Entries.{generation_of};
ghost use Rattle.port_cell.specs.Word.{generation_in, changing_in, users_in};
ghost use Rattle.port_cell.specs.Views.{Knows, user_part, with_user};
ghost use Rattle.port_cell.specs.Knowledge.{list_seen, user_of, has_turn, is_raised, last_word, step_count};
ghost use Rattle.port_cell.specs.Knowledge.{install_count, HoldsReference, HasMark, IsAlone, AwaitsOthers};
ghost use Rattle.port_cell.specs.Seats.{IsSeat, IsSameSeat, KeepsTurn, KeepsWord};
ghost use Rattle.port_cell.specs.Cells.{identity_of};
ghost use Rattle.port_cell.specs.Joining.{Becomes};
ghost use Rattle.port_cell.specs.Lent.{value_in};

use crate::cell::{COUNT, Cell, REFERENCES, Seat};
use crate::kept::Kept;
use crate::plays::{Enter, Install, Leave, Look, Mark};
use crate::turns::Turn;

/// What one user adds to the reference word.
const USER: u64 = 1;

/// What the bit adds that is set while a seat is about to change the generation.
const CHANGING: u64 = 1 << 31;

/// What one generation adds.
const GENERATION: u64 = 1 << 32;

/// Some seat changes the generation. The reference word as it was found.
#[derive(Clone, Copy, Debug, PartialEq, Eq)]
pub struct Changing {
    pub word: u64,
}

/// Some seat uses the generation. The reference word as it was found.
#[derive(Clone, Copy, Debug, PartialEq, Eq)]
pub struct Users {
    pub word: u64,
}

fn is_changing(word: u64) -> bool
    ensures { IsTrue result ↔ (changing_in word ≡ 1) }
{
    word / CHANGING % 2 == 1
}

fn has_users(word: u64) -> bool
    ensures { IsTrue result ↔ (0 < users_in word) }
{
    word % CHANGING > 0
}

fn generation(word: u64) -> u32
    ensures { result ≡ generation_in word }
{
    (word / GENERATION) as u32
}

impl<V: Kept> Cell<V> {
    /// Takes a reference, and answers the generation, which stands until `leave`. `Changing` comes
    /// exactly where the word that its one step found has the changing bit; the seat then holds nothing.
    pub fn enter(&self, seat: &mut Seat<V>) -> Result<u32, Changing>
        requires seat { IsSeat (identity_of self.now) seat.old }
        requires free { user_of seat.old ≡ Free }
        ensures seat { IsSeat (identity_of self.now) seat.new }
        ensures same { IsSameSeat seat.old seat.new }
        ensures turn { KeepsTurn seat.old seat.new }
        ensures step { step_count seat.new ≡ step_count seat.old + 1 }
        ensures held { IfOk result (λ g. user_of seat.new ≡ Held g) }
        ensures generation { IfOk result (λ g. g ≡ generation_in (last_word seat.new)) }
        ensures clear { OnOk result (changing_in (last_word seat.new) ≡ 0) }
        ensures free { OnErr result (user_of seat.new ≡ Free) }
        ensures word { IfErr result (λ c. c.word ≡ last_word seat.new) }
        ensures changing { OnErr result (changing_in (last_word seat.new) ≡ 1) }

        // with the turn, the generation in the word is that of the list that the seat found
        ensures installed { has_turn seat.old ≡ true
            → is_raised seat.old ≡ false
            → generation_in (last_word seat.new) ≡ generation_of (list_seen seat.old) }
    {
        let word = self.table.shared.fetch_add::<Enter>(seat, REFERENCES, USER);
        if is_changing(word) {
            self.withdraw(seat);
            return Err(Changing { word });
        }
        Ok(generation(word))
    }

    /// Gives the reference back.
    pub fn leave(&self, seat: &mut Seat<V>)
        requires seat { IsSeat (identity_of self.now) seat.old }
        requires held { HoldsReference seat.old }
        ensures seat { IsSeat (identity_of self.now) seat.new }
        ensures same { IsSameSeat seat.old seat.new }
        ensures turn { KeepsTurn seat.old seat.new }
        ensures word { KeepsWord seat.old seat.new }
        ensures free { user_of seat.new ≡ Free }
    {
        self.withdraw(seat);
    }

    // Takes the seat out of the user count.
    fn withdraw(&self, seat: &mut Seat<V>)
        requires seat { IsSeat (identity_of self.now) seat.old }
        requires counted { user_part (user_of seat.old) ≡ 1 }
        ensures { Becomes seat.old seat.new (with_user Free seat.old.me.0) }
    {
        let word = self.table.shared.fetch_sub::<Leave>(seat, REFERENCES, USER);
        if is_changing(word) {
            self.for_change.wake();
        }
    }

    /// Sets the changing bit, which keeps others from entering. `Changing` comes exactly where the word
    /// that its one step found has the bit already; the seat then holds nothing.
    pub fn mark(&self, seat: &mut Seat<V>) -> Result<(), Changing>
        requires seat { IsSeat (identity_of self.now) seat.old }
        requires free { user_of seat.old ≡ Free }
        ensures seat { IsSeat (identity_of self.now) seat.new }
        ensures same { IsSameSeat seat.old seat.new }
        ensures turn { KeepsTurn seat.old seat.new }
        ensures step { step_count seat.new ≡ step_count seat.old + 1 }
        ensures marked { OnOk result (user_of seat.new ≡ Marked (generation_in (last_word seat.new))) }
        ensures clear { OnOk result (changing_in (last_word seat.new) ≡ 0) }
        ensures free { OnErr result (user_of seat.new ≡ Free) }
        ensures word { IfErr result (λ c. c.word ≡ last_word seat.new) }
        ensures changing { OnErr result (changing_in (last_word seat.new) ≡ 1) }

        // with the turn, the generation in the word is that of the list that the seat found
        ensures installed { has_turn seat.old ≡ true
            → is_raised seat.old ≡ false
            → generation_in (last_word seat.new) ≡ generation_of (list_seen seat.old) }
    {
        let found = self
            .table
            .shared
            .fetch_or::<Mark>(seat, REFERENCES, CHANGING);
        if is_changing(found) {
            return Err(Changing { word: found });
        }
        Ok(())
    }

    /// Looks whether the users have left. `Users` comes exactly where the word that its one step found
    /// has a user count above 0. After `Ok` the seat is alone: until it installs or unmarks, nobody
    /// holds a reference.
    pub fn settled(&self, seat: &mut Seat<V>) -> Result<(), Users>
        requires seat { IsSeat (identity_of self.now) seat.old }
        requires marked { AwaitsOthers seat.old }
        ensures seat { IsSeat (identity_of self.now) seat.new }
        ensures same { IsSameSeat seat.old seat.new }
        ensures turn { KeepsTurn seat.old seat.new }
        ensures step { step_count seat.new ≡ step_count seat.old + 1 }
        ensures alone { OnOk result (user_of seat.new ≡ Alone (generation_in (last_word seat.new))) }
        ensures unused { OnOk result (users_in (last_word seat.new) ≡ 0) }
        ensures marked { OnErr result (user_of seat.new ≡ user_of seat.old) }
        ensures word { IfErr result (λ u. u.word ≡ last_word seat.new) }
        ensures used { OnErr result (0 < users_in (last_word seat.new)) }

        // the generation has not moved since the mark
        ensures stands { Knows (generation_in (last_word seat.new)) (user_of seat.old) }
        ensures installed { has_turn seat.old ≡ true
            → is_raised seat.old ≡ false
            → generation_in (last_word seat.new) ≡ generation_of (list_seen seat.old) }
    {
        let word = self.table.shared.load::<Look>(seat, REFERENCES);
        if has_users(word) {
            return Err(Users { word });
        }
        Ok(())
    }

    /// Takes the changing bit back, with the generation as it was.
    pub fn unmark(&self, seat: &mut Seat<V>)
        requires seat { IsSeat (identity_of self.now) seat.old }
        requires marked { HasMark seat.old }
        requires lowered { is_raised seat.old ≡ false }
        ensures seat { IsSeat (identity_of self.now) seat.new }
        ensures same { IsSameSeat seat.old seat.new }
        ensures turn { KeepsTurn seat.old seat.new }
        ensures word { KeepsWord seat.old seat.new }
        ensures free { user_of seat.new ≡ Free }
    {
        self.table
            .shared
            .fetch_and::<Leave>(seat, REFERENCES, !CHANGING);
        self.for_change.wake();
    }

    /// Installs the generation of the noted value, and takes the changing bit back, in one step.
    pub fn install(&self, seat: &mut Seat<V>, turn: &mut Turn<V>)
        requires seat { IsSeat (identity_of self.now) seat.old }
        requires alone { IsAlone seat.old }
        requires turn { has_turn seat.old ≡ true }
        requires noted { list_seen seat.old ≡ V.list (value_in turn.old) }
        requires raised { is_raised seat.old ≡ true }
        ensures seat { IsSeat (identity_of self.now) seat.new }
        ensures same { IsSameSeat seat.old seat.new }
        ensures word { KeepsWord seat.old seat.new }
        ensures turn { has_turn seat.new ≡ true }
        ensures list { list_seen seat.new ≡ list_seen seat.old }
        ensures free { user_of seat.new ≡ Free }
        ensures lowered { is_raised seat.new ≡ false }
        ensures installs { install_count seat.new ≡ install_count seat.old + 1 }
        ensures value { turn.new ≡ turn.old }
    {
        let _value = &turn.value; // for the contract alone
        self.table
            .shared
            .fetch_add::<Install>(seat, REFERENCES, GENERATION - CHANGING);
        self.for_change.wake();
    }
}
