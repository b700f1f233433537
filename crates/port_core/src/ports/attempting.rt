//! Attempts of calls.

ghost use Rattle.std.specs.Prelude.{◌≡◌, ◌↔◌, ◌<◌, true, false, None, IsTrue, IfOk, IfErr, OnOk, is_some, sum};
ghost use Rattle.tty_calls.specs.Plain.{call_of, changes};

use super::Port;
use crate::asked::Asked;
use crate::entries::{copy_of, entry_of_call, prepare, reserve_entry, room_for_chars};
use crate::flips::drop_shown;
use crate::waiting::WaitingCall;
use tty_calls::{Answer, AnswerRef, Call, Denied, Event};
use tty_terminal::Met;

/// What an attempt of a call came to.
#[derive(Drop)]
pub enum Tried {
    /// The call is answered.
    Done(Answer),
    /// A write took a part of its bytes.
    Part,
    /// The call must wait.
    MustWait,
}

impl Port {
    ghost use Rattle.tty_terminal.specs.Terminals.{caller_at};
    ghost use Rattle.tty_terminal.specs.Calls.{outcome};
    ghost use Rattle.tty_terminal.specs.Steps.{MustWait, quiet};
    ghost use Rattle.tty_terminal.specs.Meeting.{drops_of};
    ghost use Rattle.port_core.specs.Attempts.{IsReady, Attempts, StillWaits, Raises, IsAtOnce, tried_of};
    ghost use Rattle.port_core.specs.Ports.{IsOpen, Denies};

    /// Tries a call of a caller: its next step, and the same call at each attempt of it. The port
    /// keeps the call from the first attempt on that is not denied.
    pub fn attempt(&mut self, caller: u16, step: u32, call: &Call) -> Result<Tried, Denied>
        requires { IsReady self.old caller step (call_of call.now) }
        ensures open { OnOk result (IsOpen self.old) }
        ensures tried { IfOk result
            (λ tried. Attempts self.old self.new caller step (call_of call.now) (tried_of tried)) }
        ensures err { IfErr result (λ d. Denies d self.old self.new) }
        ensures at_once { changes (call_of call.now) ≡ true → IfOk result (λ tried. IsAtOnce (tried_of tried)) }
        ensures generation { OnOk result
            (Raises (changes (call_of call.now)) self.old.terminal.generation self.new.terminal.generation) }
    {
        self.gate()?;
        if self.terminal.drops(caller, call) {
            return self.answer_dropping(caller, step, call);
        }
        if !self.terminal.must_wait(caller, call) {
            return self.answer(caller, step, call);
        }
        if self.terminal.caller(caller).waits.is_none() {
            return self.begin_wait(caller, step, call);
        }
        if !self.quiet() {
            return Ok(Tried::MustWait);
        }
        self.answer_idle(caller, step, call)
    }

    /// Makes a call that need not wait, and drops nothing of the flip buffer.
    fn answer(&mut self, caller: u16, step: u32, call: &Call) -> Result<Tried, Denied>
        requires ready { IsReady self.old caller step (call_of call.now) }
        requires open { IsOpen self.old }
        requires at_once { MustWait (outcome self.old.terminal (caller_at self.old.terminal caller) (call_of call.now))
            → ⊥ }
        requires keeps { drops_of
            (outcome self.old.terminal (caller_at self.old.terminal caller) (call_of call.now)) ≡ false }
        ensures tried { IfOk result
            (λ tried. Attempts self.old self.new caller step (call_of call.now) (tried_of tried)) }
        ensures err { IfErr result (λ d. Denies d self.old self.new) }
    {
        let state = self.terminal.caller(caller);
        let begun = state.bound.is_some();
        let generation = self.terminal.generation();
        let bytes = self.terminal.room_for(call);
        reserve_entry(&mut self.journal, &mut self.starved, bytes, 0)?;
        let room = prepare(self.alloc, &mut self.terminal, &mut self.starved, call)?;
        match self.terminal.meet(caller, call, room) {
            Met::Gives(answer) => {
                self.terminal.advance(caller);
                let event = Event::Answer {
                    answer: answer.lent(),
                    dropped: &[],
                };
                let entry = entry_of_call(caller, step, state.parts, generation, event);
                self.journal.add(&entry);
                self.kept.note(begun, Asked { caller, step }, call);
                Ok(Tried::Done(answer))
            }
            Met::Takes(count) => {
                self.terminal.note_part(caller, call.handle(), count);
                let event = Event::Part(count);
                let entry = entry_of_call(caller, step, state.parts, generation, event);
                self.journal.add(&entry);
                self.kept.note(begun, Asked { caller, step }, call);
                Ok(Tried::Part)
            }
            Met::Waits => unreachable!(),
        }
    }

    /// Makes a call that drops what waits in the flip buffer.
    fn answer_dropping(&mut self, caller: u16, step: u32, call: &Call) -> Result<Tried, Denied>
        requires ready { IsReady self.old caller step (call_of call.now) }
        requires open { IsOpen self.old }
        requires drops { drops_of
            (outcome self.old.terminal (caller_at self.old.terminal caller) (call_of call.now)) ≡ true }
        ensures tried { IfOk result
            (λ tried. Attempts self.old self.new caller step (call_of call.now) (tried_of tried)) }
        ensures err { IfErr result (λ d. Denies d self.old self.new) }
    {
        let state = self.terminal.caller(caller);
        let begun = state.bound.is_some();
        let generation = self.terminal.generation();
        let bytes = self.terminal.room_for(call);
        let capacity = self.flip.capacity();
        reserve_entry(&mut self.journal, &mut self.starved, bytes, capacity)?;
        let mut dropped = room_for_chars(self.alloc, &mut self.starved, capacity)?;
        let room = prepare(self.alloc, &mut self.terminal, &mut self.starved, call)?;
        drop_shown(&self.terminal, &mut self.flip, &mut dropped);
        let count = dropped.len() as u64;
        let Met::Gives(answer) = self.terminal.meet(caller, call, room) else {
            unreachable!()
        };
        self.terminal.drop_characters(count);
        self.terminal.advance(caller);
        let event = Event::Answer {
            answer: answer.lent(),
            dropped: dropped.as_slice(),
        };
        let entry = entry_of_call(caller, step, state.parts, generation, event);
        self.journal.add(&entry);
        self.kept.note(begun, Asked { caller, step }, call);
        Ok(Tried::Done(answer))
    }

    /// A call that must wait begins to.
    fn begin_wait(&mut self, caller: u16, step: u32, call: &Call) -> Result<Tried, Denied>
        requires ready { IsReady self.old caller step (call_of call.now) }
        requires open { IsOpen self.old }
        requires must { MustWait (outcome self.old.terminal (caller_at self.old.terminal caller) (call_of call.now)) }
        requires first { (caller_at self.old.terminal caller).waits ≡ None }
        ensures tried { IfOk result
            (λ tried. Attempts self.old self.new caller step (call_of call.now) (tried_of tried)) }
        ensures err { IfErr result (λ d. Denies d self.old self.new) }
    {
        let state = self.terminal.caller(caller);
        let begun = state.bound.is_some();
        let generation = self.terminal.generation();
        reserve_entry(&mut self.journal, &mut self.starved, 0, 0)?;
        let copy = copy_of(self.alloc, &mut self.starved, call)?;
        self.waiting[caller as usize] = Some(copy);
        self.terminal.wait(caller, call.handle());
        let entry = entry_of_call(caller, step, state.parts, generation, Event::Wait);
        self.journal.add(&entry);
        self.kept.note(begun, Asked { caller, step }, call);
        Ok(Tried::MustWait)
    }

    /// A call that waits is told that nothing can come any more.
    fn answer_idle(&mut self, caller: u16, step: u32, call: &Call) -> Result<Tried, Denied>
        requires ready { IsReady self.old caller step (call_of call.now) }
        requires open { IsOpen self.old }
        requires must { MustWait (outcome self.old.terminal (caller_at self.old.terminal caller) (call_of call.now)) }
        requires waits { IsTrue (is_some (caller_at self.old.terminal caller).waits) }
        requires quiet { quiet self.old.counts self.old.terminal ≡ true }
        ensures tried { IfOk result
            (λ tried. Attempts self.old self.new caller step (call_of call.now) (tried_of tried)) }
        ensures err { IfErr result (λ d. Denies d self.old self.new) }
    {
        let state = self.terminal.caller(caller);
        let begun = state.bound.is_some();
        let generation = self.terminal.generation();
        reserve_entry(&mut self.journal, &mut self.starved, 0, 0)?;
        self.terminal.advance(caller);
        let event = Event::Answer {
            answer: AnswerRef::Idle,
            dropped: &[],
        };
        let entry = entry_of_call(caller, step, state.parts, generation, event);
        self.journal.add(&entry);
        self.kept.note(begun, Asked { caller, step }, call);
        Ok(Tried::Done(Answer::Idle))
    }

    /// Whether the caller's call waits and must go on waiting. It makes no entry.
    pub fn must_wait(&self, caller: u16) -> bool
        requires { caller < sum self.now.counts }
        ensures { IsTrue result ↔ StillWaits self.now caller }
    {
        let state = self.terminal.caller(caller);
        if state.waits.is_none() {
            return false;
        }
        match &self.waiting[caller as usize] {
            Some(WaitingCall::Read { h, n }) => self
                .terminal
                .must_wait(caller, &Call::Read { h: *h, n: *n }),
            Some(waiting) => waiting.must_wait(caller, &self.terminal),
            None => false,
        }
    }
}
