//! Reads a text line by line.

ghost use Rattle.std.specs.Prelude.{◌≡◌, false, OnOk, IsTrue};
ghost use Rattle.std.specs.Option.{option_map_or};
ghost use Rattle.text_lines.specs.Lines.{words_of};
ghost use Rattle.text_lines.specs.Values.{is_name, read_of};
ghost use Rattle.session_text.specs.Reading.{GivesRead};
ghost use Rattle.further_text.specs.Reading.{spend};
ghost use Rattle.further_text.specs.Sorts.{sort_of};
ghost use Rattle.job_text.specs.Sessions.{bare, bare_session_of};
ghost use Rattle.job_text.specs.Reading.{after_call, after_item, after_line, after_opening, after_proc};
ghost use Rattle.job_text.specs.Reading.{after_session_item, after_shared, exits, first_jobs_reading};
ghost use Rattle.job_text.specs.Reading.{has_stood, is_before_phases, is_nobody, is_stray};
ghost use Rattle.job_text.specs.Reading.{jobs_at_end, jobs_in, place_of, with_base, with_call};
ghost use Rattle.job_text.specs.Reading.{with_caller, with_exit, with_own, with_phase_closed, with_proc};
ghost use Rattle.job_text.specs.Views.{jobs_reading_of};

use crate::blocks::{OpenBlock, Process};
use crate::calls::{OwnCall, call_of};
use crate::procs::{proc_of, words_in};
use crate::sessions::{JobsPart, JobsSession, PortProc};
use crate::table::ProcTable;
use crate::verbs::{JobVerb, verb_of};
use further_text::{BaseReader, Sort, bad, has_count, sort_of};
use passed_calls::PlacedCall;
use session_text::{Reason, TextFault};
use std::alloc::Global;
use std::mem;
use text_lines::{FirstTwo, is_comment, is_name, read_number, split_line, split_word};
use tty_base::sizes::MOST_PROCESSES;
use tty_base::{Buffer, NoMemory};

/// What was read of a text.
#[derive(Drop)]
pub(crate) struct JobsReader {
    base: BaseReader,
    block: OpenBlock,
    procs: ProcTable,
    /// Whose blocks the open phase has, and its calls of job control.
    callers: Buffer<Process>,
    own: Buffer<PlacedCall<OwnCall>>,
    /// The phases before the open one.
    parts: Buffer<JobsPart>,
}

impl JobsReader {
    /// Before the first line.
    fn new(alloc: Global) -> JobsReader
        ensures { jobs_reading_of result ≡ first_jobs_reading }
    {
        JobsReader {
            base: BaseReader::new(alloc),
            block: OpenBlock::new(alloc),
            procs: ProcTable::new(alloc),
            callers: Buffer::new(alloc),
            own: Buffer::new(alloc),
            parts: Buffer::new(alloc),
        }
    }

    /// Reads the line with this number.
    fn read_line(&mut self, alloc: Global, number: u32, line: &[u8]) -> Result<(), TextFault>
        ensures { GivesRead (λ _. jobs_reading_of self.new) result
            (after_line (jobs_reading_of self.old) number (words_of line.now)) }
    {
        match split_word(line) {
            None => Ok(()),
            Some((word, behind)) => {
                if is_comment(word) {
                    return Ok(());
                }
                self.read_item(alloc, number, word, behind)
            }
        }
    }

    fn read_item(
        &mut self,
        alloc: Global,
        number: u32,
        word: &[u8],
        behind: &[u8],
    ) -> Result<(), TextFault>
        ensures { GivesRead (λ _. jobs_reading_of self.new) result
            (after_item (jobs_reading_of self.old) number word.now (words_of behind.now)) }
    {
        let arguments = FirstTwo::of(behind);
        if self.base.is_at_start() {
            return self.read_by_session(alloc, number, word, &arguments);
        }
        match verb_of(word) {
            None => self.read_shared(alloc, number, word, &arguments),
            Some(JobVerb::Proc) => self.read_proc(alloc, number, behind),
            Some(verb) => self.read_call(number, verb, &arguments),
        }
    }

    /// Reads an item of the session of ports.
    fn read_by_session(
        &mut self,
        alloc: Global,
        number: u32,
        word: &[u8],
        arguments: &FirstTwo,
    ) -> Result<(), TextFault>
        ensures { GivesRead (λ _. jobs_reading_of self.new) result
            (after_session_item (jobs_reading_of self.old) number word.now arguments.now) }
    {
        self.base.read_item(alloc, number, word, arguments)
    }

    /// Reads an item that may stand in the text of any session.
    fn read_shared(
        &mut self,
        alloc: Global,
        number: u32,
        word: &[u8],
        arguments: &FirstTwo,
    ) -> Result<(), TextFault>
        ensures { GivesRead (λ _. jobs_reading_of self.new) result
            (after_shared (jobs_reading_of self.old) number word.now arguments.now (sort_of word.now)) }
    {
        match sort_of(word) {
            Sort::Ports => self.base.read_ports(alloc, number, word, arguments),
            Sort::Caller => self.read_caller(alloc, number, word, arguments),
            Sort::Border => self.read_border(alloc, number, word, arguments),
            Sort::Inside => self.read_inside(alloc, number, word, arguments),
            Sort::Other => {
                self.read_by_session(alloc, number, word, arguments)?;
                self.block.close();
                Ok(())
            }
        }
    }

    fn read_caller(
        &mut self,
        alloc: Global,
        number: u32,
        word: &[u8],
        arguments: &FirstTwo,
    ) -> Result<(), TextFault>
        ensures { GivesRead (λ _. jobs_reading_of self.new) result
            (after_shared (jobs_reading_of self.old) number word.now arguments.now Sort.Caller) }
    {
        if !has_count(arguments, 2) {
            return self.read_by_session(alloc, number, word, arguments);
        }
        let words = arguments.whole();
        if self.is_stray(words.first(), words.second()) {
            return Err(bad(number, Reason::Order));
        }
        let (name, port) = (words.first(), words.second_number());
        self.read_opening(alloc, number, word, arguments, name, port)
    }

    /// Reads the item that opens the block of a caller of this name on this port.
    fn read_opening(
        &mut self,
        alloc: Global,
        number: u32,
        word: &[u8],
        arguments: &FirstTwo,
        name: &[u8],
        port: u64,
    ) -> Result<(), TextFault>
        ensures { GivesRead (λ _. jobs_reading_of self.new) result
            (after_opening (jobs_reading_of self.old) number word.now arguments.now name.now port) }
    {
        self.read_by_session(alloc, number, word, arguments)?;
        self.open_named(number, name, port)
    }

    fn open_named(&mut self, number: u32, name: &[u8], port: u64) -> Result<(), TextFault>
        ensures { GivesRead (λ _. jobs_reading_of self.new) result
            (with_caller number port (place_of (jobs_reading_of self.old) port name.now) (jobs_reading_of self.old)) }
    {
        let place = self.procs.place_named(port, name);
        self.open_caller(number, port, place)
    }

    /// Whether a caller is named that is no process.
    fn is_stray(&self, name: &[u8], port: &[u8]) -> bool
        ensures { result ≡ is_stray (jobs_reading_of self.now) name.now port.now }
    {
        self.base.is_in_phase() && is_name(name) && self.names_nobody(name, port)
    }

    fn names_nobody(&self, name: &[u8], port: &[u8]) -> bool
        ensures { result ≡ option_map_or (is_nobody (jobs_reading_of self.now) name.now) (read_of port.now) false }
    {
        match read_number(port) {
            None => false,
            Some(port) => {
                port < u64::from(self.base.ports()) && self.procs.place_named(port, name).is_none()
            }
        }
    }

    fn open_caller(&mut self, number: u32, port: u64, place: Option<usize>) -> Result<(), TextFault>
        ensures { GivesRead (λ _. jobs_reading_of self.new) result
            (with_caller number port place (jobs_reading_of self.old)) }
    {
        match place {
            None => Err(bad(number, Reason::Order)),
            Some(place) => {
                let process = Process { port, place };
                self.callers.reserve(1)?;
                self.callers.add(process);
                self.base.open_block();
                self.block.open(process);
                Ok(())
            }
        }
    }

    /// Reads an item at which an open phase is over.
    fn read_border(
        &mut self,
        alloc: Global,
        number: u32,
        word: &[u8],
        arguments: &FirstTwo,
    ) -> Result<(), TextFault>
        ensures { GivesRead (λ _. jobs_reading_of self.new) result
            (after_shared (jobs_reading_of self.old) number word.now arguments.now Sort.Border) }
    {
        let is_open = self.base.is_in_phase();
        self.read_by_session(alloc, number, word, arguments)?;
        Ok(self.close_phase(alloc, is_open)?)
    }

    fn close_phase(&mut self, alloc: Global, is_open: bool) -> Result<(), NoMemory>
        ensures { OnOk result (jobs_reading_of self.new ≡ with_phase_closed is_open (jobs_reading_of self.old)) }
    {
        self.block.close();
        self.callers = Buffer::new(alloc);
        let own = mem::replace(&mut self.own, Buffer::new(alloc));
        if is_open {
            self.parts.reserve(1)?;
            self.parts.add(JobsPart { own });
        }
        Ok(())
    }

    /// Reads an item that stands inside a block.
    fn read_inside(
        &mut self,
        alloc: Global,
        number: u32,
        word: &[u8],
        arguments: &FirstTwo,
    ) -> Result<(), TextFault>
        ensures { GivesRead (λ _. jobs_reading_of self.new) result
            (after_shared (jobs_reading_of self.old) number word.now arguments.now Sort.Inside) }
    {
        if self.block.is_exited() {
            return Err(bad(number, Reason::Order));
        }
        self.base.read_step(alloc, number, word, arguments)
    }

    /// Counts a step.
    fn spend(&mut self, number: u32) -> Result<(), TextFault>
        ensures { GivesRead (λ _. jobs_reading_of self.new) result
            (with_base (jobs_reading_of self.old) (spend number (jobs_reading_of self.old).base)) }
    {
        self.base.spend(number)
    }

    /// Reads the line of a process.
    fn read_proc(&mut self, alloc: Global, number: u32, line: &[u8]) -> Result<(), TextFault>
        ensures { GivesRead (λ _. jobs_reading_of self.new) result
            (after_proc (jobs_reading_of self.old) number (words_of line.now)) }
    {
        if !self.is_before_phases() {
            return Err(bad(number, Reason::Order));
        }
        match words_in(line) {
            Err(reason) => Err(bad(number, reason)),
            Ok(words) => match proc_of(self.base.ports(), &self.procs, &words) {
                Err(reason) => Err(bad(number, reason)),
                Ok(proc) => self.take_proc(alloc, number, proc),
            },
        }
    }

    /// Whether `ports` has stood, and no phase has begun.
    fn is_before_phases(&self) -> bool
        ensures { result ≡ is_before_phases (jobs_reading_of self.now) }
    {
        !(self.base.ports() == 0) && !self.base.is_in_phase() && !self.base.is_ended()
    }

    fn take_proc(&mut self, alloc: Global, number: u32, proc: PortProc) -> Result<(), TextFault>
        requires { IsTrue (is_name proc.proc.name.bytes) }
        ensures { GivesRead (λ _. jobs_reading_of self.new) result
            (with_proc (jobs_reading_of self.old) number (bare proc)) }
    {
        if has_stood(&self.procs, &proc) {
            return Err(bad(number, Reason::Order));
        }
        if self.procs.count_on(proc.port) >= MOST_PROCESSES {
            return Err(bad(number, Reason::Limit));
        }
        self.block.close();
        Ok(self.procs.add(alloc, proc)?)
    }

    /// Reads a call of job control.
    fn read_call(
        &mut self,
        number: u32,
        verb: JobVerb,
        arguments: &FirstTwo,
    ) -> Result<(), TextFault>
        ensures { GivesRead (λ _. jobs_reading_of self.new) result
            (after_call (jobs_reading_of self.old) number verb arguments.now) }
    {
        if !self.block.is_caller() {
            return Err(bad(number, Reason::Order));
        }
        match call_of(verb, arguments) {
            Err(reason) => Err(bad(number, reason)),
            Ok(call) => self.take_call(number, call),
        }
    }

    fn take_call(&mut self, number: u32, call: OwnCall) -> Result<(), TextFault>
        ensures { GivesRead (λ _. jobs_reading_of self.new) result (with_call (jobs_reading_of self.old) number call) }
    {
        self.add_own(call)?;
        self.exit_by(call)?;
        self.spend(number)
    }

    /// Adds a call to the last caller's block.
    fn add_own(&mut self, call: OwnCall) -> Result<(), NoMemory>
        ensures { OnOk result (jobs_reading_of self.new ≡ with_own (jobs_reading_of self.old) call) }
    {
        self.own.reserve(1)?;
        self.own.add(PlacedCall {
            script: self.callers.len().saturating_sub(1),
            place: self.base.place(),
            call,
        });
        Ok(())
    }

    /// Notes that the process of the open block has exited, where the call is its end.
    fn exit_by(&mut self, call: OwnCall) -> Result<(), NoMemory>
        ensures { OnOk result (jobs_reading_of self.new ≡ with_exit call (jobs_reading_of self.old)) }
    {
        match call {
            OwnCall::Exit => self.exit(),
            _ => Ok(()),
        }
    }

    fn exit(&mut self) -> Result<(), NoMemory>
        ensures { OnOk result
            (jobs_reading_of self.new ≡ exits (jobs_reading_of self.old).open_block (jobs_reading_of self.old)) }
    {
        self.block.exit()
    }

    /// The session, where the text ends before the line with this number.
    fn finish(self, number: u32) -> Result<JobsSession, TextFault>
        ensures { GivesRead bare_session_of result (jobs_at_end (jobs_reading_of self) number) }
    {
        let JobsReader {
            base,
            block: _,
            procs,
            callers: _,
            own: _,
            parts,
        } = self;
        let session = base.finish(number)?;
        Ok(JobsSession {
            session,
            procs: procs.into_list(),
            parts,
        })
    }
}

fn has_stood(procs: &ProcTable, proc: &PortProc) -> bool
    ensures { result ≡ has_stood procs.now (bare proc.now) }
{
    procs
        .place_named(u64::from(proc.port), proc.proc.name.as_bytes())
        .is_some()
        || (proc.proc.leader && procs.has_leader(proc))
}

/// The session of processes that a text spells. `Bad` comes exactly where it spells none, and names its first wrong
/// line, counted from 1 and as far as 32 bits count, and why that line is wrong.
pub fn parse_jobs(alloc: Global, text: &[u8]) -> Result<JobsSession, TextFault>
    ensures { GivesRead bare_session_of result (jobs_in text.now) }
{
    let mut reader = JobsReader::new(alloc);
    let mut rest = text;
    let mut number = 1u32;
    while let Some((line, after)) = split_line(rest) {
        reader.read_line(alloc, number, line)?;
        rest = after;
        number = number.saturating_add(1);
    }
    reader.finish(number)
}
