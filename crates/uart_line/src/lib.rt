//! A serial line: a script of what happens on it, a 16550 receiver, and the interrupt handler that hands
//! over what was received.
#![tactic(auto)]

ghost use Rattle.std.specs.Prelude.{◌≡◌, ◌≢◌, ◌+◌, ◌-◌, ◌<◌, ◌≤◌, List, [], ◌∷◌};
ghost use Rattle.std.specs.Prelude.{◌++◌, length, IsTrue, IfOk, MatchBool, false};
ghost use Rattle.std.proofs.Common.{◌⊎◌};
ghost use Rattle.std.specs.List.{All};
ghost use Rattle.std.specs.List.Sorted.{IsNonDecreasing};
ghost use Rattle.tty_base.specs.declared.characters.Flagged.{Flagged};
ghost use Rattle.tty_base.specs.declared.lines.LineStep.{LineStep};
ghost use Rattle.tty_base.specs.declared.lines.Overrun.{Overrun};
ghost use Rattle.tty_base.specs.Lines.{is_step};
ghost use mathlib.Core.List.{IsPrefix};
ghost use Rattle.uart_regs.specs.Registers.{Registers, IsReceiver, after_fifo_control, bit};

mod laws;
mod rows;
mod whole_windows;

pub use laws::{overruns_are_shown, runs_follow_each_other};
pub use rows::worked_scripts_are_received;
use std::alloc::Global;
use std::marker::Model;
use tty_base::{
    Chars, Flag, Flagged, Full, LineReport, LineStep, Moves, NoMemory, Overrun, Overruns, Put,
};
use uart_regs::{FIFO_DEPTH, Reading, Reg, TIMEOUT, Uart};

/// A break is one character 00.
const BREAK: Flagged = Flagged {
    byte: 0,
    flag: Flag::Break,
};

/// Stands where the receive FIFO lost characters.
const OVERRUN_MARK: Flagged = Flagged {
    byte: 0,
    flag: Flag::Overrun,
};

/// A serial line with its receiver, its interrupt handler and its report.
#[derive(Drop)]
pub struct Line {
    uart: Uart,
    masked: bool,
    window: u32,
    handed: u32,
    most: u32,
    report: LineReport,
}

impl Model for Line {
    ghost use Rattle.uart_line.specs.LineState.{LineState, line_state};

    ghost Value = { LineState };

    ghost use Rattle.uart_line.specs.Handler.{IsLine};

    ghost view = { λ l. line_state l.uart l.masked l.window l.handed l.most l.report };

    ghost invariant = { λ l. IsLine (line_state l.uart l.masked l.window l.handed l.most l.report) };
}

impl Moves for Line {}

impl Line {
    ghost use Rattle.uart_line.specs.Received.{received_list, waiting_list, closed_script};
    ghost use Rattle.tty_base.specs.Lines.{arrival, arrival_count};
    ghost use Rattle.uart_line.specs.LineState.{HasDone};
    ghost use Rattle.uart_line.specs.Offered.{Offers, HandsOver, AddsCharacters};
    ghost use Rattle.uart_line.specs.Handler.{IsLine, after_line_step, runs_handler};
    ghost use Rattle.uart_line.specs.Handler.{reading_of, after_turn, with_mark, Serves};

    /// A line on which nothing has happened, with room for `most` arrivals and so for `most` overruns.
    pub fn new(alloc: Global, most: u32) -> Result<Line, NoMemory>
        ensures done { IfOk result (λ line. HasDone line []) }
        ensures room { IfOk result (λ line. line.most ≡ most) }
        ensures none { IfOk result (λ line. line.report.overruns.items ≡ []) }
    {
        let mut overruns = Overruns::new(alloc);
        overruns.reserve(most as usize)?;
        Ok(Line {
            uart: Uart::new(),
            masked: false,
            window: 0,
            handed: 0,
            most,
            report: LineReport {
                arrived: 0,
                fifo_lost: 0,
                sent: 0,
                overruns,
            },
        })
    }

    /// Does one step. Then, where the handler is not masked and an interrupt is pending, the handler
    /// runs: it takes all characters off the receiver, hands them to `put`, and pushes. A character
    /// that `put` refuses is added to the report's overruns.
    pub fn step<P: Put>(&mut self, step: LineStep, put: &mut P)
        requires good { IsTrue (is_step step) }
        requires room { self.old.report.arrived + length (arrival step) ≤ self.old.most }
        requires put { self.old.most ≤ P.numbers_left put.old + self.old.handed }

        // The report has the numbers of the steps so far, and what waits is their uncut window.
        ensures done { (before : List LineStep) → HasDone self.old before → HasDone self.new (before ++ step ∷ []) }
        ensures room { self.new.most ≡ self.old.most }
        ensures arrived { self.new.report.arrived ≡ self.old.report.arrived + length (arrival step) }

        // What the step adds to the received list was offered, each character once and in order.
        ensures hands_over { (before : List LineStep) → HasDone self.old before
            → HandsOver (P.capacity put.old) (received_list before) (received_list (before ++ step ∷ []))
            (P.sent put.old) (P.sent put.new) (P.heads put.old) (P.heads put.new)
            self.old.report.overruns.items self.new.report.overruns.items }
        ensures visible { P.visible put.old → P.visible put.new }
        ensures shown { MatchBool (runs_handler (after_line_step self.old step)) (P.visible put.new)
            (put.new ≡ put.old) }
        ensures capacity { P.capacity put.new ≡ P.capacity put.old }
        ensures name { P.name put.new ≡ P.name put.old }
        ensures put { self.new.most ≤ P.numbers_left put.new + self.new.handed }
        ensures rise { IsNonDecreasing (P.heads put.old) → IsNonDecreasing (P.heads put.new) }

        // A run of the handler leaves no interrupt pending.
        ensures served { runs_handler self.new ≡ false }
    {
        let _ = &self.most; // known: its bound
        self.advance(step, put);
    }

    /// Does these steps, then `Unmask` and four idle character times, after which nothing waits.
    pub fn run<P: Put>(&mut self, steps: &[LineStep], put: &mut P)
        requires good { All (λ step. IsTrue (is_step step)) steps.now }
        requires room { self.old.report.arrived + arrival_count steps.now ≤ self.old.most }
        requires put { self.old.most ≤ P.numbers_left put.old + self.old.handed }

        ensures done { (before : List LineStep)
            → HasDone self.old before
            → HasDone self.new (before ++ closed_script steps.now) }
        ensures room { self.new.most ≡ self.old.most }
        ensures arrived { self.new.report.arrived ≡ self.old.report.arrived + arrival_count steps.now }
        ensures whole { (before : List LineStep) → waiting_list (before ++ closed_script steps.now) ≡ [] }

        ensures hands_over { (before : List LineStep) → HasDone self.old before
            → HandsOver (P.capacity put.old) (received_list before) (received_list (before ++ closed_script steps.now))
            (P.sent put.old) (P.sent put.new) (P.heads put.old) (P.heads put.new)
            self.old.report.overruns.items self.new.report.overruns.items }
        ensures visible { P.visible put.old → P.visible put.new }
        ensures shown { (put.new ≡ put.old) ⊎ P.visible put.new }
        ensures capacity { P.capacity put.new ≡ P.capacity put.old }
        ensures name { P.name put.new ≡ P.name put.old }
        ensures put { self.new.most ≤ P.numbers_left put.new + self.new.handed }
        ensures rise { IsNonDecreasing (P.heads put.old) → IsNonDecreasing (P.heads put.new) }
    {
        let _ = &self.most; // known: its bound
        for step in steps {
            self.advance(*step, put);
        }
        self.advance(LineStep::Unmask, put);
        self.advance(LineStep::Idle(TIMEOUT as u16), put);
    }

    /// Does these steps, then `Unmask` and four idle character times, and adds what is handed over to a
    /// list, in room that was reserved: room for each character that has arrived or will, and was not
    /// handed over.
    pub fn run_into(&mut self, steps: &[LineStep], chars: &mut Chars)
        requires good { All (λ step. IsTrue (is_step step)) steps.now }
        requires room { self.old.report.arrived + arrival_count steps.now ≤ self.old.most }
        requires spare { self.old.most ≤ chars.old.spare + self.old.handed }

        ensures done { (before : List LineStep)
            → HasDone self.old before
            → HasDone self.new (before ++ closed_script steps.now) }
        ensures room { self.new.most ≡ self.old.most }
        ensures arrived { self.new.report.arrived ≡ self.old.report.arrived + arrival_count steps.now }
        ensures whole { (before : List LineStep) → waiting_list (before ++ closed_script steps.now) ≡ [] }
        ensures adds { (before : List LineStep)
            → HasDone self.old before
            → AddsCharacters (received_list before) (received_list (before ++ closed_script steps.now))
            chars.old.items chars.new.items }
        ensures spare { self.new.most ≤ chars.new.spare + self.new.handed }
        ensures overruns { (before : List LineStep) → HasDone self.old before
            → self.new.report.overruns.items ≡ self.old.report.overruns.items }
    {
        self.run(steps, chars);
    }

    /// What the line has done so far.
    pub fn report(&self) -> &LineReport
        ensures { result.now ≡ self.now.report }
    {
        &self.report
    }

    /// What the line has done.
    pub fn into_report(self) -> LineReport
        ensures { result ≡ self.report }
    {
        let Line {
            uart: _,
            masked: _,
            window: _,
            handed: _,
            most: _,
            report,
        } = self;
        report
    }

    /// A step, where `put` has room in its numbers for all that can still be handed over.
    fn advance<P: Put>(&mut self, step: LineStep, put: &mut P)
        requires good { IsTrue (is_step step) }
        requires room { self.old.report.arrived + length (arrival step) ≤ self.old.most }
        requires put { self.old.most ≤ P.numbers_left put.old + self.old.handed }
        ensures done { (before : List LineStep) → HasDone self.old before → HasDone self.new (before ++ step ∷ []) }
        ensures hands_over { (before : List LineStep) → HasDone self.old before
            → HandsOver (P.capacity put.old) (received_list before) (received_list (before ++ step ∷ []))
            (P.sent put.old) (P.sent put.new) (P.heads put.old) (P.heads put.new)
            self.old.report.overruns.items self.new.report.overruns.items }
        ensures shown { MatchBool (runs_handler (after_line_step self.old step)) (P.visible put.new)
            (put.new ≡ put.old) }
        ensures capacity { P.capacity put.new ≡ P.capacity put.old }
        ensures name { P.name put.new ≡ P.name put.old }
        ensures put { self.new.most ≤ P.numbers_left put.new + self.new.handed }
        ensures rise { IsNonDecreasing (P.heads put.old) → IsNonDecreasing (P.heads put.new) }
        ensures served { runs_handler self.new ≡ false }
        ensures room { self.new.most ≡ self.old.most }
        ensures arrived { self.new.report.arrived ≡ self.old.report.arrived + length (arrival step) }
    {
        self.receive(step);
        if self.runs_handler() {
            self.handle(put);
        }
    }

    /// Whether an interrupt is pending and not held back.
    fn runs_handler(&self) -> bool
        ensures runs { result ≡ runs_handler self.now }
        ensures receiver { IsReceiver self.now.registers }
    {
        self.uart.pending() && !self.masked
    }

    /// The interrupt handler.
    #[inline(never)]
    fn handle<P: Put>(&mut self, put: &mut P)
        requires { self.old.most ≤ P.numbers_left put.old + self.old.handed }
        ensures serves { Serves (P.capacity put.old) self.old self.new
            (with_mark self.old.registers.overrun self.old.registers.fifo) (P.sent put.old) (P.sent put.new)
            (P.heads put.old) (P.heads put.new) }
        ensures fifo { self.new.registers.fifo ≡ [] }
        ensures overrun { self.new.registers.overrun ≡ false }
        ensures window { self.new.window ≡ 0 }
        ensures lost { self.new.report.fifo_lost ≡ self.old.report.fifo_lost + (self.old.window - 16) }
        ensures count { self.new.report.sent + length self.new.report.overruns.items ≡ self.new.handed }
        ensures visible { P.visible put.new }
        ensures capacity { P.capacity put.new ≡ P.capacity put.old }
        ensures name { P.name put.new ≡ P.name put.old }
        ensures put { self.new.most ≤ P.numbers_left put.new + self.new.handed }
        ensures rise { IsNonDecreasing (P.heads put.old) → IsNonDecreasing (P.heads put.new) }
    {
        self.empty(put);
        self.report.fifo_lost += self.window.saturating_sub(FIFO_DEPTH as u32);
        self.window = 0;
        show(put);
    }

    /// Takes all characters off the receiver and offers them.
    fn empty<P: Put>(&mut self, put: &mut P)
        requires { self.old.most ≤ P.numbers_left put.old + self.old.handed }
        ensures serves { Serves (P.capacity put.old) self.old self.new
            (with_mark self.old.registers.overrun self.old.registers.fifo) (P.sent put.old) (P.sent put.new)
            (P.heads put.old) (P.heads put.new) }
        ensures fifo { self.new.registers.fifo ≡ [] }
        ensures overrun { self.new.registers.overrun ≡ false }
        ensures window { self.new.window ≡ self.old.window }
        ensures lost { self.new.report.fifo_lost ≡ self.old.report.fifo_lost }
        ensures capacity { P.capacity put.new ≡ P.capacity put.old }
        ensures name { P.name put.new ≡ P.name put.old }
        ensures put { self.new.most ≤ P.numbers_left put.new + self.new.handed }
        ensures rise { IsNonDecreasing (P.heads put.old) → IsNonDecreasing (P.heads put.new) }
    {
        while let Some(reading) = self.next_reading() {
            self.offer(reading.character, put);
            if reading.overrun {
                self.offer(OVERRUN_MARK, put);
            }
        }
    }

    /// Hands over one character.
    #[inline(always)]
    fn offer<P: Put>(&mut self, c: Flagged, put: &mut P)
        requires room { self.old.handed + length self.old.registers.fifo + bit self.old.registers.overrun
            < self.old.report.arrived }
        requires put { 0 < P.numbers_left put.old }
        ensures same { self.new ≡ record self.old {
          handed = self.old.handed + 1;
          report = record self.old.report { sent = self.new.report.sent; overruns = self.new.report.overruns };
        } }
        ensures offers { Offers (P.capacity put.old) self.old.handed (c ∷ [])
            (P.sent put.old) (P.sent put.new) (P.heads put.old) (P.heads put.new)
            self.old.report.overruns.items self.new.report.overruns.items }
        ensures capacity { P.capacity put.new ≡ P.capacity put.old }
        ensures name { P.name put.new ≡ P.name put.old }
        ensures put { P.numbers_left put.old ≤ P.numbers_left put.new + 1 }
        ensures rise { IsNonDecreasing (P.heads put.old) → IsNonDecreasing (P.heads put.new) }
    {
        match put.put(c) {
            Ok(()) => self.report.sent += 1,
            Err(full) => add_overrun(&mut self.report.overruns, self.handed, full),
        }
        self.handed += 1;
    }

    /// The step alone, before the handler.
    fn receive(&mut self, step: LineStep)
        requires good { IsTrue (is_step step) }
        requires room { self.old.report.arrived + length (arrival step) ≤ self.old.most }
        ensures { self.new ≡ after_line_step self.old step }
    {
        match step {
            LineStep::Rx(c) => self.arrive(c),
            LineStep::Break => self.arrive(BREAK),
            LineStep::Idle(times) => self.uart.idle(u32::from(times)),
            LineStep::Mask => self.masked = true,
            LineStep::Unmask => self.masked = false,
            LineStep::Trigger(level) => self.uart.write(Reg::R2, trigger_control(level)),
        }
    }

    fn arrive(&mut self, c: Flagged)
        requires no_mark { c.flag ≢ Flag.Overrun }
        requires room { self.old.report.arrived < self.old.most }
        ensures { self.new ≡ after_line_step self.old (LineStep.Rx c) }
    {
        self.uart.arrive(c);
        self.window += 1;
        self.report.arrived += 1;
    }

    /// One turn of the handler: line status, and where it says so the receiver buffer.
    fn next_reading(&mut self) -> Option<Reading>
        ensures reading { result ≡ reading_of self.old.registers.overrun self.old.registers.fifo }
        ensures after { self.new
            ≡ record self.old { registers = after_turn self.old.registers self.old.registers.fifo } }
        ensures line { IsLine self.old }
    {
        let _ = &self.window; // known: its bound
        self.uart.read_front()
    }
}

/// Adds a refused character at this place.
#[inline(never)]
fn add_overrun(overruns: &mut Overruns, at: u32, full: Full)
    requires { 0 < overruns.old.spare }
    ensures { overruns.new ≡ record {
      items = overruns.old.items ++ (record { at = at; sent = full.sent; seen = full.seen }) ∷ [];
      spare = overruns.old.spare - 1;
    } }
{
    overruns.add(Overrun {
        at,
        sent: full.sent,
        seen: full.seen,
    });
}

/// Makes all that was put visible to the other end.
fn show<P: Put>(put: &mut P)
    ensures sent { P.sent put.new ≡ P.sent put.old }
    ensures visible { P.visible put.new }
    ensures grows { IsPrefix (P.heads put.old) (P.heads put.new) }
    ensures rise { IsNonDecreasing (P.heads put.new) }
    ensures same { P.capacity put.new ≡ P.capacity put.old }
    ensures name { P.name put.new ≡ P.name put.old }
    ensures numbers { P.numbers_left put.new ≡ P.numbers_left put.old }
{
    put.push();
}

/// The FIFO control that sets this trigger.
fn trigger_control(level: u8) -> u8
    requires { IsTrue (is_step (LineStep.Trigger level)) }
    ensures { (r : Registers) → after_fifo_control r result ≡ record r { trigger = level } }
{
    match level {
        1 => 0x01,
        4 => 0x41,
        8 => 0x81,
        _ => 0xc1,
    }
}
