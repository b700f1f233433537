//! Receiving runs of characters at once.

ghost use Rattle.std.specs.Prelude.{◌≡◌, ◌+◌, ◌*◌, ◌<◌, ◌≤◌, false, length, take};
ghost use Rattle.std.specs.List.{AllByRecursion};
ghost use Rattle.tty_base.specs.Sizes.{COLUMNS_OF_CHARACTER, COUNT_END};
ghost use Rattle.flow_control.specs.Output.{Output, is_halted};
ghost use Rattle.flow_control.specs.declared.tally.Tally.{Tally};
ghost use Rattle.n_tty.specs.States.{on_port, is_accepting, unread_count, FitsModes};
ghost use Rattle.n_tty.specs.Spending.{pending_count};
ghost use Rattle.n_tty.specs.Runs.{after_characters, AcceptsAll, after_stored, after_joined, after_typed};
ghost use Rattle.line_store.specs.Good.{IsGood, bytes_in};
ghost use Rattle.n_tty_edit.specs.Typed.{IsTyped};

use super::{CHARACTER_ROOM, NTty};
use crate::roles::{are_joined, are_typed, is_raw};
use crate::storing::start_of;
use flow_control::{Tally, Wire};
use tty_base::sizes::{MOST_ENDS, MOST_TO_ACCEPT_MARKED, PIECE};
use tty_base::{Flagged, front_of, rest_of};
use tty_modes::Modes;
use tty_modes::places::IXOFF;

/// With fewer unread bytes a character is accepted under all modes.
const FEW: usize = MOST_TO_ACCEPT_MARKED + 1;

impl NTty {
    /// Receives characters from the front, each at this tick and with the rule for ixoff after it, up to the first
    /// that is not accepted. Answers how many.
    pub fn receive_all(
        &mut self,
        chars: &[Flagged],
        now: u64,
        modes: &Modes,
        wire: &mut Wire,
        tally: &mut Tally,
    ) -> usize
        requires fitting { FitsModes modes.now self.old }
        requires room { pending_count self.old wire.old + CHARACTER_ROOM * length chars.now ≤ wire.old.spare }
        requires signals { length chars.now ≤ tally.old.signals.spare }
        requires column { self.old.column + COLUMNS_OF_CHARACTER * length chars.now < COUNT_END }
        ensures within { result ≤ length chars.now }
        ensures after { on_port self.new wire.new tally.new
            ≡ after_characters modes.now now (take result chars.now) (on_port self.old wire.old tally.old) }
        ensures accepted { AcceptsAll modes.now now (take result chars.now) (on_port self.old wire.old tally.old) }
        ensures stops { result < length chars.now → is_accepting modes.now self.new ≡ false }
        ensures fits { FitsModes modes.now self.new }
        ensures spent { wire.old.spare + pending_count self.new wire.new
            ≤ wire.new.spare + (pending_count self.old wire.old + CHARACTER_ROOM * result) }
        ensures signals { tally.old.signals.spare ≤ tally.new.signals.spare + result }
        ensures moved { self.new.column ≤ self.old.column + COLUMNS_OF_CHARACTER * result }
        ensures past { self.old.last ≤ now → self.new.last ≤ now }
    {
        let mut done = 0;
        while done < chars.len() {
            let count = self.receive_some(rest_of(chars, done), now, modes, wire, tally);
            if count == 0 {
                return done;
            }
            done += count;
        }
        done
    }

    /// Receives a run at the front, or else the first character where it is accepted. Answers how many.
    #[inline(always)]
    fn receive_some(
        &mut self,
        chars: &[Flagged],
        now: u64,
        modes: &Modes,
        wire: &mut Wire,
        tally: &mut Tally,
    ) -> usize
        requires some { 0 < length chars.now }
        requires fitting { FitsModes modes.now self.old }
        requires room { pending_count self.old wire.old + CHARACTER_ROOM * length chars.now ≤ wire.old.spare }
        requires signals { length chars.now ≤ tally.old.signals.spare }
        requires column { self.old.column < COUNT_END }
        ensures within { result ≤ length chars.now }
        ensures after { on_port self.new wire.new tally.new
            ≡ after_characters modes.now now (take result chars.now) (on_port self.old wire.old tally.old) }
        ensures accepted { AcceptsAll modes.now now (take result chars.now) (on_port self.old wire.old tally.old) }
        ensures stops { result ≡ 0 → is_accepting modes.now self.new ≡ false }
        ensures fits { FitsModes modes.now self.new }
        ensures spent { wire.old.spare + pending_count self.new wire.new
            ≤ wire.new.spare + (pending_count self.old wire.old + CHARACTER_ROOM * result) }
        ensures signals { tally.old.signals.spare ≤ tally.new.signals.spare + result }
        ensures moved { self.new.column ≤ self.old.column + COLUMNS_OF_CHARACTER * result }
        ensures past { self.old.last ≤ now → self.new.last ≤ now }
    {
        let count = self.receive_run(chars, now, modes, wire);
        if count > 0 {
            return count;
        }
        if !self.accepts(modes) {
            return 0;
        }
        self.receive(chars[0], now, modes, wire, tally);
        1
    }

    /// Receives the characters at the front that concern no rule but those of storing and echo, all at once. Answers
    /// how many: none, where the first may concern another or is not accepted.
    fn receive_run(&mut self, chars: &[Flagged], now: u64, modes: &Modes, wire: &mut Wire) -> usize
        requires fitting { FitsModes modes.now self.old }
        requires room { pending_count self.old wire.old + CHARACTER_ROOM * length chars.now ≤ wire.old.spare }
        requires column { self.old.column < COUNT_END }
        ensures within { result ≤ length chars.now }
        ensures after { (tally : Tally) → on_port self.new wire.new tally
            ≡ after_characters modes.now now (take result chars.now) (on_port self.old wire.old tally) }
        ensures accepted { (tally : Tally)
            → AcceptsAll modes.now now (take result chars.now) (on_port self.old wire.old tally) }
        ensures fits { FitsModes modes.now self.new }
        ensures spent { wire.old.spare + pending_count self.new wire.new
            ≤ wire.new.spare + (pending_count self.old wire.old + CHARACTER_ROOM * result) }
        ensures moved { self.new.column ≤ self.old.column + result }
        ensures past { self.old.last ≤ now → self.new.last ≤ now }
    {
        let unread = self.unread();
        if unread >= FEW || self.store.lines() >= MOST_ENDS {
            return 0;
        }
        if self.quoted || modes.has(IXOFF) || wire.noted() {
            return 0;
        }
        let chars = front_of(chars, chars.len().min(PIECE).min(FEW - unread));
        if is_raw(modes) {
            self.store_run(chars, now)
        } else if are_typed(modes) && !wire.halted() {
            self.type_run(chars, now, wire)
        } else if are_joined(modes) {
            self.join_run(chars, now)
        } else {
            0
        }
    }

    /// Stores the good characters at the front. Answers how many.
    fn store_run(&mut self, chars: &[Flagged], now: u64) -> usize
        requires short { length chars.now ≤ PIECE }
        requires room { unread_count self.old + length chars.now ≤ FEW }
        ensures within { result ≤ length chars.now }
        ensures good { AllByRecursion IsGood (take result chars.now) }
        ensures after { (output : Output) (tally : Tally)
            → on_port self.new output tally
            ≡ after_stored now (bytes_in (take result chars.now)) (on_port self.old output tally) }
        ensures line { self.new.edit ≡ self.old.edit }
        ensures column { self.new.column ≡ self.old.column }
        ensures past { self.old.last ≤ now → self.new.last ≤ now }
    {
        let count = self.store.append_good(chars);
        if count > 0 {
            self.last = now;
        }
        count
    }

    /// Adds the good characters from blank to tilde at the front to the edited line. Answers how many.
    #[inline(never)]
    fn join_run(&mut self, chars: &[Flagged], now: u64) -> usize
        requires short { length chars.now ≤ PIECE }
        requires room { unread_count self.old + length chars.now ≤ FEW }
        ensures within { result ≤ length chars.now }
        ensures typed { AllByRecursion IsTyped (take result chars.now) }
        ensures after { (output : Output) (tally : Tally)
            → on_port self.new output tally
            ≡ after_joined now (bytes_in (take result chars.now)) (on_port self.old output tally) }
        ensures line { length self.new.edit ≡ length self.old.edit + result }
        ensures column { self.new.column ≡ self.old.column }
        ensures past { self.old.last ≤ now → self.new.last ≤ now }
    {
        let start = start_of(&self.edit, self.start, self.out.column());
        let count = self.edit.append_typed(chars);
        if count > 0 {
            self.start = start;
            self.last = now;
        }
        count
    }

    /// Adds the good characters from blank to tilde at the front to the edited line, and echoes them. Answers how many.
    #[inline(always)]
    fn type_run(&mut self, chars: &[Flagged], now: u64, wire: &mut Wire) -> usize
        requires short { length chars.now ≤ PIECE }
        requires room { unread_count self.old + length chars.now ≤ FEW }
        requires flows { is_halted wire.old ≡ false }
        requires spare { length chars.now ≤ wire.old.spare }
        requires column { self.old.column < COUNT_END }
        ensures within { result ≤ length chars.now }
        ensures typed { AllByRecursion IsTyped (take result chars.now) }
        ensures after { (tally : Tally)
            → on_port self.new wire.new tally
            ≡ after_typed now (bytes_in (take result chars.now)) (on_port self.old wire.old tally) }
        ensures spent { wire.old.spare ≤ wire.new.spare + result }
        ensures line { length self.new.edit ≡ length self.old.edit + result }
        ensures held { wire.new.held ≡ wire.old.held }
        ensures moved { self.new.column ≡ self.old.column + result }
        ensures past { self.old.last ≤ now → self.new.last ≤ now }
    {
        let start = start_of(&self.edit, self.start, self.out.column());
        let begun = self.edit.bytes().len();
        let count = self.edit.append_typed(chars);
        if count > 0 {
            self.start = start;
            self.last = now;
            let _sent = wire.send(rest_of(self.edit.bytes(), begun));
            self.out.pass(count);
        }
        count
    }
}
