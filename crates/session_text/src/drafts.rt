//! A session as far as it was read: its phases, the open phase, and what each item adds to them.

ghost use Rattle.std.specs.Prelude.{◌≡◌, ◌<◌, ◌+◌, ◌∷◌, ◌++◌, [], Some, IfOk, OnOk, IsTrue};
ghost use Rattle.std.specs.Prelude.{map, replicate, slice_index, slice_index_or, slice_set};
ghost use Rattle.tty_base.specs.Sizes.{DEFAULT_FLIP};
ghost use Rattle.tty_calls.specs.Plain.{call_of as call_view};
ghost use Rattle.tty_calls.specs.Sessions.{session_of as session_view, phase_of, script_of};
ghost use Rattle.text_lines.specs.Values.{word_at, number_at};
ghost use Rattle.session_text.specs.Kinds.{modes_in};
ghost use Rattle.session_text.specs.Stands.{is_good};
ghost use Rattle.session_text.specs.Meaning.{steps_in, call_in, bytes_handed, empty_phase};
ghost use Rattle.session_text.specs.Drafts.{first_draft, all_phases, session_with};
ghost use Rattle.session_text.specs.Drafts.{with_call, with_open, phase_after, draft_after};
ghost use Rattle.session_text.specs.Views.{stand_of, phase_view, draft_of};

use super::calls::{add_steps, call_of, hands_over};
use super::stands::Stand;
use super::verbs::{CallVerb, LineVerb, Verb};
use line_steps::LineSteps;
use std::alloc::Global;
use std::mem;
use text_lines::{Arguments, bytes_into, name_of};
use tty_base::sizes::DEFAULT_FLIP;
use tty_base::{Buffer, NoMemory};
use tty_calls::{Call, Calls, Phase, Script, Session};
use tty_modes::Word;

/// The phase that is being read.
#[derive(Drop)]
pub(crate) struct OpenPhase {
    lines: Vec<LineSteps>,
    ticks: Vec<u32>,
    callers: Vec<Script>,
}

/// A session as far as it was read.
#[derive(Drop)]
pub(crate) struct Draft {
    flips: Vec<u32>,
    /// The phases before the open one.
    phases: Buffer<Phase>,
    open_phase: Option<OpenPhase>,
    /// The bytes of the call that was read last. Their room is used again.
    bytes: Vec<u8>,
}

impl Draft {
    /// Before the first item.
    pub(crate) fn new(alloc: Global) -> Draft
        ensures { draft_of result ≡ first_draft }
    {
        Draft {
            flips: Vec::new(alloc),
            phases: Buffer::new(alloc),
            open_phase: None,
            bytes: Vec::new(alloc),
        }
    }

    /// Adds what an item means that is not wrong where the reader stands, and that has these mode words.
    #[inline(always)]
    pub(crate) fn add(
        &mut self,
        alloc: Global,
        stand: &Stand,
        verb: Verb,
        arguments: &Arguments,
        modes: &[Word],
    ) -> Result<(), NoMemory>
        requires good { IsTrue (is_good stand.now.ports verb arguments.now) }
        requires modes { modes.now ≡ modes_in arguments.now }
        ensures { OnOk result
            (draft_of self.new ≡ draft_after (stand_of stand.now) (draft_of self.old) verb arguments.now) }
    {
        match verb {
            Verb::Session | Verb::Line | Verb::Clock | Verb::End => Ok(()),
            Verb::Ports => self.set_ports(alloc, arguments.first_number()),
            Verb::Flip => {
                let capacity = arguments.second_number() as u32;
                set_flip(&mut self.flips, arguments.first_number(), capacity);
                Ok(())
            }
            Verb::Phase => self.begin_phase(alloc, stand.ports()),
            Verb::Caller | Verb::Tick | Verb::Step(_) | Verb::Call(_) => {
                self.add_to_phase(alloc, stand, verb, arguments, modes)
            }
        }
    }

    fn set_ports(&mut self, alloc: Global, ports: u64) -> Result<(), NoMemory>
        ensures { OnOk result
            (draft_of self.new ≡ record (draft_of self.old) { flips = replicate ports DEFAULT_FLIP }) }
    {
        self.flips = vec![in alloc; DEFAULT_FLIP; ports as usize]?;
        Ok(())
    }

    fn begin_phase(&mut self, alloc: Global, ports: u8) -> Result<(), NoMemory>
        ensures { OnOk result (draft_of self.new
            ≡ record (draft_of self.old) {
              phases = all_phases (draft_of self.old);
              open_phase = Some (empty_phase ports);
            }) }
    {
        self.close_phase()?;
        self.open_phase = Some(OpenPhase::new(alloc, ports)?);
        Ok(())
    }

    /// Adds the open phase to the phases.
    fn close_phase(&mut self) -> Result<(), NoMemory>
        ensures { OnOk result (draft_of self.new
            ≡ record (draft_of self.old) { phases = all_phases (draft_of self.old); open_phase = None }) }
    {
        self.phases.reserve(1)?;
        if let Some(phase) = self.open_phase.take() {
            self.phases.add(phase.close());
        }
        Ok(())
    }

    #[inline(always)]
    fn add_to_phase(
        &mut self,
        alloc: Global,
        stand: &Stand,
        verb: Verb,
        arguments: &Arguments,
        modes: &[Word],
    ) -> Result<(), NoMemory>
        requires good { IsTrue (is_good stand.now.ports verb arguments.now) }
        requires modes { modes.now ≡ modes_in arguments.now }
        ensures { OnOk result
            (draft_of self.new ≡ with_open (draft_of self.old) (phase_after (stand_of stand.now) verb arguments.now)) }
    {
        match &mut self.open_phase {
            None => Ok(()),
            Some(phase) => phase.add(alloc, stand, verb, arguments, modes, &mut self.bytes),
        }
    }

    /// Takes out the session, with the open phase.
    pub(crate) fn finish(&mut self, stand: &Stand) -> Result<Session, NoMemory>
        ensures { IfOk result
            (λ session. session_view session ≡ session_with (stand_of stand.now) (draft_of self.old)) }
    {
        self.close_phase()?;
        let alloc = *self.flips.allocator();
        let flips = mem::replace(&mut self.flips, Vec::new(alloc));
        Ok(Session {
            version: stand.version(),
            ports: stand.ports(),
            flips: Buffer::from_vec(flips),
            phases: mem::replace(&mut self.phases, Buffer::new(alloc)),
        })
    }
}

impl OpenPhase {
    /// A phase in which nothing happens.
    fn new(alloc: Global, ports: u8) -> Result<OpenPhase, NoMemory>
        ensures { IfOk result (λ phase. phase_view phase ≡ empty_phase ports) }
    {
        let lines = empty_lines(alloc, ports)?;
        let ticks = vec![in alloc; 0; usize::from(ports)]?;
        Ok(OpenPhase {
            lines,
            ticks,
            callers: Vec::new(alloc),
        })
    }

    fn close(self) -> Phase
        ensures { phase_of result ≡ phase_view self }
    {
        Phase {
            lines: Buffer::from_vec(self.lines),
            ticks: Buffer::from_vec(self.ticks),
            callers: Buffer::from_vec(self.callers),
        }
    }

    /// Adds what an item of a phase's block means, which has these mode words.
    #[inline(always)]
    fn add(
        &mut self,
        alloc: Global,
        stand: &Stand,
        verb: Verb,
        arguments: &Arguments,
        modes: &[Word],
        bytes: &mut Vec<u8>,
    ) -> Result<(), NoMemory>
        requires good { IsTrue (is_good stand.now.ports verb arguments.now) }
        requires modes { modes.now ≡ modes_in arguments.now }
        ensures { OnOk result
            (phase_view self.new ≡ phase_after (stand_of stand.now) verb arguments.now (phase_view self.old)) }
    {
        let ports = stand.ports();
        match verb {
            Verb::Caller => add_caller(alloc, &mut self.callers, ports, arguments),
            Verb::Tick => {
                let count = arguments.first_number() as u32;
                add_ticks(&mut self.ticks, stand.port(), count)
            }
            Verb::Step(step) => {
                let port = stand.port();
                add_to_line(alloc, &mut self.lines, port, ports, step, arguments)
            }
            Verb::Call(call) => {
                add_call_of(&mut self.callers, ports, call, arguments, modes, bytes)
            }
            _ => Ok(()),
        }
    }
}

fn empty_lines(alloc: Global, ports: u8) -> Result<Vec<LineSteps>, NoMemory>
    ensures { IfOk result (λ lines. map (λ steps. steps.items) lines.items ≡ replicate ports []) }
{
    let mut lines = Vec::new(alloc);
    for _ in 0..ports {
        lines.push(LineSteps::new(alloc))?;
    }
    Ok(lines)
}

fn set_flip(flips: &mut [u32], port: u64, capacity: u32)
    ensures { flips.new ≡ slice_set flips.old port capacity }
{
    let place = port as usize;
    if place < flips.len() {
        flips[place] = capacity;
    }
}

/// Ticks past 32 bits are refused as want of memory. A good text has at most 65,536.
fn add_ticks(ticks: &mut [u32], port: u64, count: u32) -> Result<(), NoMemory>
    ensures { OnOk result (ticks.new ≡ slice_set ticks.old port (slice_index ticks.old port + count)) }
{
    let place = port as usize;
    if place < ticks.len() {
        ticks[place] = ticks[place].checked_add(count).ok_or(NoMemory)?;
    }
    Ok(())
}

fn add_to_line(
    alloc: Global,
    lines: &mut [LineSteps],
    port: u64,
    ports: u8,
    verb: LineVerb,
    arguments: &Arguments,
) -> Result<(), NoMemory>
    requires { IsTrue (is_good ports (Verb.Step verb) arguments.now) }
    ensures { OnOk result (map (λ steps. steps.items) lines.new
        ≡ slice_set (map (λ steps. steps.items) lines.old) port
        (slice_index_or (map (λ steps. steps.items) lines.old) port [] ++ steps_in verb arguments.now)) }
{
    let place = port as usize;
    if place < lines.len() {
        add_steps(alloc, &mut lines[place], ports, verb, arguments)?;
    }
    Ok(())
}

/// Adds the caller that these arguments are.
fn add_caller(
    alloc: Global,
    callers: &mut Vec<Script>,
    ports: u8,
    arguments: &Arguments,
) -> Result<(), NoMemory>
    requires { IsTrue (is_good ports Verb.Caller arguments.now) }
    ensures { OnOk result (map script_of callers.new.items
        ≡ map script_of callers.old.items
        ++ record { port = number_at arguments.now 1; name = word_at arguments.now 0; calls = [] } ∷ []) }
{
    let script = Script {
        port: arguments.second_number() as u8,
        name: name_of(arguments.first()),
        calls: Calls::new(alloc),
    };
    Ok(callers.push(script)?)
}

/// Adds the call that a verb and its arguments are, which have these mode words, to the last caller's.
/// Its bytes are written to the list on the way; a call that hands over none does without.
#[inline(always)]
fn add_call_of(
    callers: &mut Vec<Script>,
    ports: u8,
    verb: CallVerb,
    arguments: &Arguments,
    modes: &[Word],
    bytes: &mut Vec<u8>,
) -> Result<(), NoMemory>
    requires good { IsTrue (is_good ports (Verb.Call verb) arguments.now) }
    requires modes { modes.now ≡ modes_in arguments.now }
    ensures { OnOk result
        (map script_of callers.new.items ≡ with_call (call_in verb arguments.now) (map script_of callers.old.items)) }
{
    if hands_over(verb) {
        bytes_into(bytes, arguments.second())?;
        add_given(callers, ports, verb, arguments, modes, bytes.as_slice())
    } else {
        add_given(callers, ports, verb, arguments, modes, &[])
    }
}

/// Adds the call that a verb and its arguments are, which have these mode words and hand over these
/// bytes, to the last caller's.
#[inline(always)]
fn add_given(
    callers: &mut Vec<Script>,
    ports: u8,
    verb: CallVerb,
    arguments: &Arguments,
    modes: &[Word],
    bytes: &[u8],
) -> Result<(), NoMemory>
    requires good { IsTrue (is_good ports (Verb.Call verb) arguments.now) }
    requires modes { modes.now ≡ modes_in arguments.now }
    requires bytes { bytes.now ≡ bytes_handed verb arguments.now }
    ensures { OnOk result
        (map script_of callers.new.items ≡ with_call (call_in verb arguments.now) (map script_of callers.old.items)) }
{
    let call = call_of(ports, verb, arguments, modes, bytes);
    add_call(callers, &call)
}

/// Adds a call to the last caller's.
#[inline(always)]
fn add_call(callers: &mut [Script], call: &Call) -> Result<(), NoMemory>
    ensures { OnOk result (map script_of callers.new ≡ with_call (call_view call.now) (map script_of callers.old)) }
{
    let count = callers.len();
    if count > 0 {
        callers[count - 1].calls.add(call)?;
    }
    Ok(())
}
