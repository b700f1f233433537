//! The desk of a port: job control beside it, and what is noted of it.

ghost use Rattle.std.specs.Prelude.{◌≡◌, ◌<◌, ◌-◌, ◌^◌, [], ◌∷◌, ◌++◌, length, map, position};
ghost use Rattle.std.specs.Prelude.{slice_get, slice_index_or, ℕ, None, IfErr, IfOk, OnErr, OnOk};
ghost use Rattle.handle_table.specs.Handles.{is_live};
ghost use Rattle.job_text.specs.Events.{event_of, logged_of, passed_down, sent};
ghost use Rattle.tty_calls.specs.Plain.{answer_of, call_of};
ghost use Rattle.job_steps.specs.Steps.{checks, job_signal, judged_if, judged_call};
ghost use Rattle.job_one.specs.Controls.{due_events};
ghost use Rattle.job_one.specs.Desk.{signals_of};
ghost use Rattle.job_one.specs.Events.{AreOn, needs_of, noted, all_noted, own_outcome, controlled};
ghost use Rattle.job_one.specs.Events.{stopped, leader_told, is_hangup_done, answered};
ghost use Rattle.job_one.specs.Events.{answered_own, answered_by_port, sent_on, new_sent_on};
ghost use Rattle.tty_calls.specs.declared.answers.Denied.TheVariants as denied;

use crate::controls::{Due, control, foreground};
use job_control::{JobAct, JobAnswer, JobSignal, Jobs, Judged, Target};
use job_text::{JobEvent, JobLog, OwnCall};
use port_core::Port;
use std::alloc::Global;
use std::marker::Model;
use tty_base::{Errno, NoMemory, Signal};
use tty_calls::{Access, Answer, Call, Denied};
use tty_modes::places::TOSTOP;

/// The process of each caller of a port, the next step of each among all its calls, job control, how many of the
/// port's signals were sent on, and the log.
#[derive(Drop)]
pub struct Desk {
    number: u8,
    callers: Vec<u16>,
    jobs: Jobs,
    next: Vec<u32>,
    sent: usize,
    log: Vec<JobLog>,
}

impl Model for Desk {
    ghost use Rattle.std.specs.Prelude.{map};
    ghost use Rattle.job_text.specs.Events.{logged_of};
    ghost use Rattle.job_one.specs.Events.{AreOn, DeskState};

    ghost Value = { DeskState };

    ghost view = { λ d. record {
      number = d.number;
      callers = d.callers.items;
      jobs = d.jobs;
      next = d.next.items;
      sent = d.sent;
      log = map logged_of d.log.items;
    } };

    ghost invariant = { λ d. AreOn d.number (map logged_of d.log.items) };
}

/// A signal of a port by its name in job control.
fn job_signal(signal: Signal) -> JobSignal
    ensures { result ≡ job_signal signal }
{
    match signal {
        Signal::Int => JobSignal::Int,
        Signal::Quit => JobSignal::Quit,
        Signal::Susp => JobSignal::Susp,
    }
}

fn push_event(log: &mut Vec<JobLog>, logged: JobLog) -> Result<(), NoMemory>
    ensures ok { OnOk result (log.new.items ≡ log.old.items ++ logged ∷ []) }
    ensures err { OnErr result (log.new.items ≡ log.old.items) }
{
    log.push(logged)?;
    Ok(())
}

/// Adds an event to a log. One of events of one port stays so, where this is such a one.
fn add_event(log: &mut Vec<JobLog>, logged: JobLog) -> Result<(), Denied>
    ensures ok { OnOk result (log.new.items ≡ log.old.items ++ logged ∷ []) }
    ensures err { IfErr result (λ d. d ≡ denied.NoMemory) }
    ensures own { (p : ℕ)
        → logged.port ≡ p
        → AreOn p (map logged_of log.old.items)
        → AreOn p (map logged_of log.new.items) }
{
    match push_event(log, logged) {
        Ok(()) => Ok(()),
        Err(NoMemory) => Err(Denied::NoMemory),
    }
}

/// Whether a handle of this access serves for an act.
fn has_access(access: Access, act: JobAct) -> bool
    ensures { result ≡ needs_of act access }
{
    match act {
        JobAct::Read => matches!(access, Access::R | Access::Rw),
        JobAct::Write => matches!(access, Access::W | Access::Rw),
        JobAct::Change => true,
    }
}

/// Whether a call is a hangup that was done.
fn is_hangup(call: &Call, answer: &Answer) -> bool
    ensures { result ≡ is_hangup_done (call_of call.now) (answer_of answer.now) }
{
    match (call, answer) {
        (Call::Vhangup { .. }, Answer::Done) => true,
        _ => false,
    }
}

impl Desk {
    /// A desk for the callers of these processes, at which nothing was logged.
    pub fn new(alloc: Global, number: u8, callers: Vec<u16>, next: Vec<u32>, jobs: Jobs) -> Desk
        ensures { result
            ≡ record { number = number; callers = callers.items; jobs = jobs; next = next.items; sent = 0; log = [] } }
    {
        Desk {
            number,
            callers,
            jobs,
            next,
            sent: 0,
            log: Vec::new(alloc),
        }
    }

    /// What was logged, all of it of the desk's port. It takes no memory.
    pub fn into_log(self) -> Vec<JobLog>
        ensures log { map logged_of result.items ≡ self.log }
        ensures own { AreOn self.number self.log }
    {
        let Desk {
            number: _,
            callers: _,
            jobs: _,
            next: _,
            sent: _,
            log,
        } = self;
        log
    }

    /// What a call that is for the port meets before the port is asked.
    pub(crate) fn judge(&self, port: &Port, caller: u16, call: &Call) -> Judged
        requires { caller < length self.now.callers }
        ensures { result
            ≡ judged_call self.now.jobs port.now.terminal (slice_index_or self.now.callers caller 0)
            (call_of call.now) }
    {
        let proc = self.callers[usize::from(caller)];
        match call {
            Call::Read { h, .. } => self.judge_through(port, proc, *h, JobAct::Read),
            Call::Write { h, .. } => self.judge_through(port, proc, *h, JobAct::Write),
            Call::SetModes { h, .. }
            | Call::Flush { h, .. }
            | Call::Xonc { h, .. }
            | Call::SetDisc { h, .. }
            | Call::Drain { h } => self.judge_through(port, proc, *h, JobAct::Change),
            _ => Judged::Pass,
        }
    }

    fn judge_through(&self, port: &Port, proc: u16, h: u8, act: JobAct) -> Judged
        ensures { result ≡ judged_if self.now.jobs port.now.terminal proc h (checks act (needs_of act)) }
    {
        match port.handle(h) {
            Some(handle) if handle.live && has_access(handle.access, act) => {
                let tostop = port.modes().has(TOSTOP);
                self.jobs.check(proc, act, tostop)
            }
            _ => Judged::Pass,
        }
    }

    /// A caller's call is answered without the port.
    pub(crate) fn answer(
        &mut self,
        port: &Port,
        caller: u16,
        answer: JobAnswer,
    ) -> Result<(), Denied>
        requires known { caller < length self.old.next }
        requires few { slice_index_or self.old.next caller 0 < 2 ^ 32 - 1 }
        ensures ok { OnOk result (self.new ≡ answered_own self.old (length port.now.journal) caller answer) }
        ensures err { IfErr result (λ d. d ≡ denied.NoMemory) }
    {
        let step = self.next[usize::from(caller)];
        self.note(
            port,
            JobEvent::Own {
                caller,
                step,
                answer,
            },
        )?;
        self.next[usize::from(caller)] = step + 1;
        Ok(())
    }

    /// A caller's call is answered without the port, and the signals that are due then are sent.
    pub(crate) fn answer_with(
        &mut self,
        port: &Port,
        caller: u16,
        answer: JobAnswer,
        due: Due,
    ) -> Result<(), Denied>
        requires known { caller < length self.old.next }
        requires few { slice_index_or self.old.next caller 0 < 2 ^ 32 - 1 }
        ensures ok { OnOk result (self.new
            ≡ all_noted (answered_own self.old (length port.now.journal) caller answer) (length port.now.journal)
            (due_events due caller None)) }
        ensures err { IfErr result (λ d. d ≡ denied.NoMemory) }
    {
        self.answer(port, caller, answer)?;
        self.send_due(port, caller, due)
    }

    fn send_due(&mut self, port: &Port, caller: u16, due: Due) -> Result<(), Denied>
        ensures ok { OnOk result
            (self.new ≡ all_noted self.old (length port.now.journal) (due_events due caller None)) }
        ensures err { IfErr result (λ d. d ≡ denied.NoMemory) }
    {
        match due {
            Due::Nothing => Ok(()),
            Due::Signal(signal, target) => self.send(port, signal, target),
            Due::Left(target) => {
                self.send(port, JobSignal::Hup, target)?;
                self.send(port, JobSignal::Cont, target)
            }
            Due::Ended(target) => self.send(port, JobSignal::Hup, target),
        }
    }

    /// A caller's call of job control is made and answered, and the signals that are due then are sent. It gives what
    /// was due.
    pub(crate) fn control(&mut self, port: &Port, caller: u16, call: OwnCall) -> Result<Due, Denied>
        requires known { caller < length self.old.next }
        requires few { slice_index_or self.old.next caller 0 < 2 ^ 32 - 1 }
        requires caller { caller < length self.old.callers }
        requires proc { slice_index_or self.old.callers caller 0 < length self.old.jobs.procs }
        ensures due { IfOk result (λ due.
            due_events due caller (position is_live port.now.terminal.handles)
            ≡ (own_outcome self.old port.now caller call).due) }
        ensures ok { IfOk result (λ due.
            self.new
            ≡ controlled self.old port.now caller (own_outcome self.old port.now caller call)
            (due_events due caller None)) }
        ensures err { IfErr result (λ d. d ≡ denied.NoMemory) }
    {
        let proc = self.callers[usize::from(caller)];
        let (answer, due) = control(&mut self.jobs, port, proc, call);
        self.answer_with(port, caller, answer, due)?;
        Ok(due)
    }

    /// The port was hung up for a process that has ended.
    pub(crate) fn pass_down(&mut self, port: &Port, caller: u16, h: u8) -> Result<(), Denied>
        ensures ok { OnOk result (self.new ≡ noted self.old (length port.now.journal) (passed_down caller h)) }
        ensures err { IfErr result (λ d. d ≡ denied.NoMemory) }
    {
        self.note(port, JobEvent::Down { caller, h })
    }

    /// A call from the background is answered as it was judged, and its group is told.
    pub(crate) fn stop(&mut self, port: &Port, caller: u16, judged: Judged) -> Result<(), Denied>
        requires known { caller < length self.old.next }
        requires few { slice_index_or self.old.next caller 0 < 2 ^ 32 - 1 }
        requires caller { caller < length self.old.callers }
        ensures ok { OnOk result (self.new ≡ stopped self.old (length port.now.journal) caller judged) }
        ensures err { IfErr result (λ d. d ≡ denied.NoMemory) }
    {
        let group = self.jobs.group(self.callers[usize::from(caller)]);
        match judged {
            Judged::Pass => self.answer_with(port, caller, JobAnswer::Done, Due::Nothing),
            Judged::Eio => {
                let answer = JobAnswer::Refused(Errno::EIO);
                self.answer_with(port, caller, answer, Due::Nothing)
            }
            Judged::Stop(signal) => {
                let due = Due::Signal(signal, Target::Group(group));
                self.answer_with(port, caller, JobAnswer::Stopped(signal), due)
            }
        }
    }

    /// The port has answered a caller's call.
    pub(crate) fn pass(&mut self, port: &Port, caller: u16, answer: Answer) -> Result<(), Denied>
        requires known { caller < length self.old.next }
        requires few { slice_index_or self.old.next caller 0 < 2 ^ 32 - 1 }
        ensures ok { OnOk result
            (self.new ≡ answered_by_port self.old (length port.now.journal) caller (answer_of answer)) }
        ensures err { IfErr result (λ d. d ≡ denied.NoMemory) }
    {
        let step = self.next[usize::from(caller)];
        self.note(
            port,
            JobEvent::Passed {
                caller,
                step,
                answer,
            },
        )?;
        self.next[usize::from(caller)] = step + 1;
        Ok(())
    }

    /// Nobody holds the port any more, and the leader of the session that held it is told.
    fn tell_leader(&mut self, port: &Port) -> Result<(), Denied>
        ensures ok { OnOk result (self.new ≡ leader_told self.old (length port.now.journal)) }
        ensures err { IfErr result (λ d. d ≡ denied.NoMemory) }
    {
        let leader = self.jobs.leader();
        self.jobs.hung_up();
        match leader {
            Some(leader) => {
                self.send(port, JobSignal::Hup, Target::Process(leader))?;
                self.send(port, JobSignal::Cont, Target::Process(leader))
            }
            None => Ok(()),
        }
    }

    /// The port has answered a caller's call. Where that was a hangup, the leader of the session is told.
    pub(crate) fn pass_answer(
        &mut self,
        port: &Port,
        caller: u16,
        call: &Call,
        answer: Answer,
    ) -> Result<(), Denied>
        requires known { caller < length self.old.next }
        requires few { slice_index_or self.old.next caller 0 < 2 ^ 32 - 1 }
        ensures ok { OnOk result
            (self.new ≡ answered self.old (length port.now.journal) caller (call_of call.now) (answer_of answer)) }
        ensures err { IfErr result (λ d. d ≡ denied.NoMemory) }
    {
        let has_hung_up = is_hangup(call, &answer);
        self.pass(port, caller, answer)?;
        if has_hung_up {
            return self.tell_leader(port);
        }
        Ok(())
    }

    /// Notes an event at the port's last entry.
    fn note(&mut self, port: &Port, event: JobEvent) -> Result<(), Denied>
        ensures ok { OnOk result (self.new ≡ noted self.old (length port.now.journal) (event_of event)) }
        ensures err { IfErr result (λ d. d ≡ denied.NoMemory) }
    {
        let at = port.journal().len() as u32;
        let logged = JobLog {
            port: self.number,
            at,
            event,
        };
        add_event(&mut self.log, logged)
    }

    fn send(&mut self, port: &Port, signal: JobSignal, target: Target) -> Result<(), Denied>
        ensures ok { OnOk result (self.new ≡ noted self.old (length port.now.journal) (sent signal target)) }
        ensures err { IfErr result (λ d. d ≡ denied.NoMemory) }
    {
        self.note(port, JobEvent::Sent { signal, target })
    }

    /// The first signal of the port that was not sent on.
    fn next_signal(&self, port: &Port) -> Option<Signal>
        ensures { result ≡ slice_get (signals_of port.now.terminal) self.now.sent }
    {
        port.signals().get(self.sent).copied()
    }

    fn send_on(&mut self, port: &Port, signal: Signal) -> Result<(), Denied>
        requires { self.old.sent < length (signals_of port.now.terminal) }
        ensures ok { OnOk result (self.new ≡ sent_on port.now signal self.old) }
        ensures err { IfErr result (λ d. d ≡ denied.NoMemory) }
    {
        let count = port.signals().len();
        prove!(self.sent < count);
        let target = foreground(&self.jobs);
        self.send(port, job_signal(signal), target)?;
        self.sent += 1;
        Ok(())
    }

    /// Sends the port's new signals on.
    pub(crate) fn send_new(&mut self, port: &Port) -> Result<(), Denied>
        ensures ok { OnOk result (self.new ≡ new_sent_on port.now self.old) }
        ensures err { IfErr result (λ d. d ≡ denied.NoMemory) }
    {
        while let Some(signal) = self.next_signal(port) {
            self.send_on(port, signal)?;
        }
        Ok(())
    }
}
