//! A line discipline of either kind, with what both can do.

ghost use Rattle.std.specs.Prelude.{◌≡◌, ◌+◌, ◌*◌, ◌<◌, ◌≤◌, List, length};
ghost use Rattle.std.specs.Prelude.{take, [], ◌∷◌, ◌++◌, IfOk, ℕ, true, false};
ghost use Rattle.tty_base.specs.Sizes.{COLUMNS_OF_CHARACTER, COUNT_END, MOST_HELD, MOST_LINE, MOST_UNREAD};
ghost use Rattle.tty_modes.specs.Settings.{Settings};
ghost use Rattle.flow_control.specs.declared.tally.Tally.{Tally};
ghost use Rattle.ldisc_switch.specs.Disciplines.{kind_of, fresh_of, accepts_of, unread_of, Fits, column_in};
ghost use Rattle.ldisc_switch.specs.Disciplines.{last_in, pending_count_of, after_ixoff_rule_of, disc_on_port};
ghost use Rattle.ldisc_switch.specs.Disciplines.{after_character_of, after_characters_of, AcceptsAllOf};
ghost use Rattle.ldisc_switch.specs.Happenings.{Conditions, Happening, character};
ghost use Rattle.ldisc_switch.specs.Happenings.{characters_at, ixoff_rule, HasHappened};

use crate::Kind;
use flow_control::{Tally, Wire};
use n_slip::NSlip;
use n_tty::{CHARACTER_ROOM, NTty, apply_ixoff_rule};
use std::alloc::Global;
use tty_base::{Flagged, Moves, NoMemory};
use tty_modes::Modes;

/// A line discipline of either kind.
#[derive(Drop)]
pub enum Disc {
    /// Bytes, by termios(3).
    Tty(NTty),
    /// Packets, by RFC 1055.
    Slip(NSlip),
}

/// A discipline to which nothing has happened. It takes all the memory that it ever needs.
pub fn fresh(alloc: Global, kind: Kind) -> Result<Disc, NoMemory>
    ensures state { IfOk result (λ disc. disc ≡ fresh_of kind) }
    ensures happened { IfOk result (λ disc. HasHappened disc kind []) }
    // It fits whatever modes the port has.
    ensures fits { IfOk result (λ disc. (modes : Settings) → Fits modes disc) }
{
    Ok(match kind {
        Kind::Tty => Disc::Tty(NTty::new(alloc)?),
        Kind::Slip => Disc::Slip(NSlip::new(alloc)?),
    })
}

impl Moves for Disc {}

impl Disc {
    /// Which kind it is.
    pub fn kind(&self) -> Kind
        ensures { result ≡ kind_of self.now }
    {
        match self {
            Disc::Tty(_) => Kind::Tty,
            Disc::Slip(_) => Kind::Slip,
        }
    }

    /// Whether a character is accepted; N_SLIP accepts every one.
    #[inline(always)]
    pub fn accepts(&self, modes: &Modes) -> bool
        ensures { result ≡ accepts_of modes.now self.now }
    {
        match self {
            Disc::Tty(tty) => tty.accepts(modes),
            Disc::Slip(_) => true,
        }
    }

    /// How many bytes are unread; under N_SLIP none is.
    pub fn unread(&self) -> usize
        ensures count { result ≡ unread_of self.now }
        ensures most { result ≤ MOST_UNREAD }
    {
        match self {
            Disc::Tty(tty) => tty.unread(),
            Disc::Slip(_) => 0,
        }
    }

    /// How many bytes can still go to the wire for what is there, beside what the next character adds: with
    /// `CHARACTER_ROOM` for each character, the room that characters need.
    pub fn pending(&self, wire: &Wire) -> usize
        ensures count { result ≡ pending_count_of self.now wire.now }
        ensures most { result ≤ MOST_HELD + 8 * MOST_LINE }
    {
        match self {
            Disc::Tty(tty) => tty.pending(wire),
            Disc::Slip(_) => 0,
        }
    }

    /// Receives a character at a tick, and then applies the rule for ixoff.
    #[inline(always)]
    pub fn receive(
        &mut self,
        c: Flagged,
        now: u64,
        modes: &Modes,
        wire: &mut Wire,
        tally: &mut Tally,
    )
        requires accepting { accepts_of modes.now self.old ≡ true }
        requires fitting { Fits modes.now self.old }
        requires room { pending_count_of self.old wire.old + CHARACTER_ROOM ≤ wire.old.spare }
        requires signal { 0 < tally.old.signals.spare }
        requires column { column_in self.old < COUNT_END }
        ensures after { disc_on_port self.new wire.new tally.new
            ≡ after_character_of modes.now now c self.old wire.old tally.old }
        ensures happened { (kind : Kind) (events : List Happening)
            → HasHappened self.old kind events
            → let conditions : Conditions =
            record { modes = modes.now; tick = now; output = wire.old; tally = tally.old } in
            HasHappened self.new kind (events ++ character conditions c ∷ []) }
        ensures fits { Fits modes.now self.new }
        // So several characters need room for what is pending once, and `CHARACTER_ROOM` for each.
        ensures spent { wire.old.spare + pending_count_of self.new wire.new
            ≤ wire.new.spare + (pending_count_of self.old wire.old + CHARACTER_ROOM) }
        ensures signals { tally.old.signals.spare ≤ tally.new.signals.spare + 1 }
        // So a caller can say how far its characters have moved the column.
        ensures moved { column_in self.new ≤ column_in self.old + COLUMNS_OF_CHARACTER }
        ensures past { last_in self.old ≤ now → last_in self.new ≤ now }
    {
        match self {
            Disc::Tty(tty) => tty.receive(c, now, modes, wire, tally),
            Disc::Slip(slip) => {
                slip.receive(c, tally);
                apply_ixoff_rule(0, false, modes, wire);
            }
        }
    }

    /// Receives characters from the front, each at this tick and with the rule for ixoff after it, up to the first
    /// that is not accepted. Answers how many; under N_SLIP these are all.
    pub fn receive_all(
        &mut self,
        chars: &[Flagged],
        now: u64,
        modes: &Modes,
        wire: &mut Wire,
        tally: &mut Tally,
    ) -> usize
        requires fitting { Fits modes.now self.old }
        requires room { pending_count_of self.old wire.old + CHARACTER_ROOM * length chars.now ≤ wire.old.spare }
        requires signals { length chars.now ≤ tally.old.signals.spare }
        requires column { column_in self.old + COLUMNS_OF_CHARACTER * length chars.now < COUNT_END }
        ensures within { result ≤ length chars.now }
        ensures after { disc_on_port self.new wire.new tally.new
            ≡ after_characters_of modes.now now (take result chars.now) (disc_on_port self.old wire.old tally.old) }
        ensures accepted { AcceptsAllOf modes.now now (take result chars.now)
            (disc_on_port self.old wire.old tally.old) }
        ensures stops { result < length chars.now → accepts_of modes.now self.new ≡ false }
        ensures happened { (kind : Kind) (events : List Happening) → HasHappened self.old kind events →
            HasHappened self.new kind
            (events ++ characters_at modes.now now (take result chars.now) (disc_on_port self.old wire.old tally.old)) }
        ensures fits { Fits modes.now self.new }
        ensures spent { wire.old.spare + pending_count_of self.new wire.new
            ≤ wire.new.spare + (pending_count_of self.old wire.old + CHARACTER_ROOM * result) }
        ensures signals { tally.old.signals.spare ≤ tally.new.signals.spare + result }
        ensures moved { column_in self.new ≤ column_in self.old + COLUMNS_OF_CHARACTER * result }
        ensures past { last_in self.old ≤ now → last_in self.new ≤ now }
    {
        match self {
            Disc::Tty(tty) => tty.receive_all(chars, now, modes, wire, tally),
            Disc::Slip(slip) => {
                hear_all(slip, chars, modes, wire, tally);
                chars.len()
            }
        }
    }

    /// Applies the rule for ixoff once: STOP is sent past a halt where input fills, and START where it has
    /// room again. Under N_SLIP nothing is unread.
    pub fn ixoff(&self, modes: &Modes, wire: &mut Wire)
        requires fitting { Fits modes.now self.now }
        requires room { 0 < wire.old.spare }
        ensures wire { wire.new ≡ after_ixoff_rule_of modes.now self.now wire.old }
        ensures held { wire.new.held ≡ wire.old.held }
        ensures spent { wire.old.spare ≤ wire.new.spare + 1 }
        ensures happened { (kind : Kind) (events : List Happening) → HasHappened self.now kind events →
            HasHappened self.now kind (events ++ ixoff_rule ∷ []) }
    {
        match self {
            Disc::Tty(tty) => tty.ixoff(modes, wire),
            Disc::Slip(_) => apply_ixoff_rule(0, false, modes, wire),
        }
    }
}

/// N_SLIP receives characters, and the rule for ixoff follows: after the first it has nothing left to tell.
fn hear_all(slip: &mut NSlip, chars: &[Flagged], modes: &Modes, wire: &mut Wire, tally: &mut Tally)
    requires room { length chars.now ≤ wire.old.spare }
    ensures after { (now : ℕ) → disc_on_port (Disc.Slip slip.new) wire.new tally.new
        ≡ after_characters_of modes.now now chars.now (disc_on_port (Disc.Slip slip.old) wire.old tally.old) }
    ensures spent { wire.old.spare ≤ wire.new.spare + length chars.now }
    ensures signals { tally.new.signals ≡ tally.old.signals }
{
    if chars.is_empty() {
        return;
    }
    slip.receive_all(chars, tally);
    apply_ixoff_rule(0, false, modes, wire);
}
