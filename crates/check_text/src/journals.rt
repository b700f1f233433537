//! The reader of journals: which line is due, and the runs of the ports as far as they were read.

ghost use Rattle.std.specs.Prelude.{◌≡◌, ◌-◌, [], ◌∷◌, ◌++◌, Ok, IfOk, OnOk, map, slice_get};
ghost use Rattle.std.specs.List.{range_with_len};
ghost use Rattle.tty_calls.specs.Sessions.{session_of};
ghost use Rattle.text_lines.specs.Lines.{words_of};
ghost use Rattle.session_text.specs.Reading.{GivesRead};
ghost use Rattle.check_text.specs.Callers.{callers_on};
ghost use Rattle.check_text.specs.Journals.{first_journals, run_due as due_run, entries_due as due_entries};
ghost use Rattle.check_text.specs.Journals.{overruns_due as due_overruns, is_over as is_last, entry_by};
ghost use Rattle.check_text.specs.Journals.{line_by, journals_after_line, runs_at_end};
ghost use Rattle.check_text.specs.Results.{ReadsAs};
ghost use Rattle.check_text.specs.Runs.{run_of};
ghost use Rattle.check_text.specs.Views.{callers_of, entry_with, journals_of};

use super::callers::Callers;
use super::entries::{entry_in, fixed_in, heading_in, numbers_in, overrun_in};
use super::faults::LineFault;
use super::read_entries::{ReadEntry, add_entry};
use session_text::{BadLine, Reason, TextFault};
use std::alloc::Global;
use std::mem;
use text_lines::{is_comment, split_word};
use tty_base::{Buffer, Chars, LineReport, NoMemory, Overruns};
use tty_calls::{Journal, PortRun, Session};

/// Which line is due.
#[derive(Clone, Copy)]
pub(crate) enum Due {
    Journals,
    /// The heading of a port's journal.
    Journal,
    /// This one and so many less one are still to come.
    Entry(u32),
    /// The heading of a port's overruns.
    Overruns,
    /// This one and so many less one are still to come.
    Overrun(u32),
    /// The numbers of a port's line.
    Numbers,
    Done,
    /// Nothing may follow.
    Over,
}

/// Where the reader of journals stands, and what it has read.
#[derive(Drop)]
pub(crate) struct Journals {
    /// The callers of each port.
    callers: Vec<Callers>,
    due: Due,
    /// The runs of the first ports, and what was read of the next port's.
    runs: Vec<PortRun>,
    entries: Journal,
    overruns: Overruns,
    /// The characters of the entry that is read.
    characters: Chars,
}

impl Journals {
    /// Before the first line after a session.
    pub(crate) fn new(alloc: Global, session: &Session) -> Result<Journals, NoMemory>
        ensures { IfOk result (λ journals. journals_of journals ≡ first_journals (session_of session.now)) }
    {
        Ok(Journals {
            callers: callers_by_port(alloc, session)?,
            due: Due::Journals,
            runs: Vec::new(alloc),
            entries: Journal::new(alloc),
            overruns: Buffer::new(alloc),
            characters: Chars::new(alloc),
        })
    }

    /// Reads the line with this number.
    pub(crate) fn read_line(
        &mut self,
        alloc: Global,
        number: u32,
        line: &[u8],
    ) -> Result<(), TextFault>
        ensures { GivesRead (λ _. journals_of self.new) result
            (journals_after_line (journals_of self.old) number (words_of line.now)) }
    {
        match split_word(line) {
            None => Ok(()),
            Some((word, _)) => {
                if is_comment(word) {
                    return Ok(());
                }
                match self.read_words(alloc, line) {
                    Ok(()) => Ok(()),
                    Err(LineFault::Wrong(reason)) => Err(TextFault::Bad(BadLine {
                        line: number,
                        reason,
                    })),
                    Err(LineFault::NoMemory) => Err(TextFault::NoMemory),
                }
            }
        }
    }

    fn read_words(&mut self, alloc: Global, words: &[u8]) -> Result<(), LineFault>
        ensures { ReadsAs (λ _. journals_of self.new) result
            (line_by (journals_of self.old) self.old.due (words_of words.now)) }
    {
        match self.due {
            Due::Journals => self.read_start(words),
            Due::Journal => self.read_journal_heading(words),
            Due::Entry(left) => self.read_entry(alloc, left, words),
            Due::Overruns => self.read_overruns_heading(words),
            Due::Overrun(left) => self.read_overrun(left, words),
            Due::Numbers => self.read_numbers(alloc, words),
            Due::Done => self.read_end(words),
            Due::Over => Err(LineFault::Wrong(Reason::Order)),
        }
    }

    fn read_start(&mut self, words: &[u8]) -> Result<(), LineFault>
        ensures { ReadsAs (λ _. journals_of self.new) result
            (line_by (journals_of self.old) Due.Journals (words_of words.now)) }
    {
        fixed_in(b"journals".as_slice(), words)?;
        self.due = run_due(self.callers.len(), self.runs.len());
        Ok(())
    }

    fn read_journal_heading(&mut self, words: &[u8]) -> Result<(), LineFault>
        ensures { ReadsAs (λ _. journals_of self.new) result
            (line_by (journals_of self.old) Due.Journal (words_of words.now)) }
    {
        let count = heading_in(b"journal".as_slice(), self.runs.len(), words)?;
        self.due = entries_due(count);
        Ok(())
    }

    fn read_overruns_heading(&mut self, words: &[u8]) -> Result<(), LineFault>
        ensures { ReadsAs (λ _. journals_of self.new) result
            (line_by (journals_of self.old) Due.Overruns (words_of words.now)) }
    {
        let count = heading_in(b"overruns".as_slice(), self.runs.len(), words)?;
        self.due = overruns_due(count);
        Ok(())
    }

    fn read_end(&mut self, words: &[u8]) -> Result<(), LineFault>
        ensures { ReadsAs (λ _. journals_of self.new) result
            (line_by (journals_of self.old) Due.Done (words_of words.now)) }
    {
        fixed_in(b"done".as_slice(), words)?;
        self.due = Due::Over;
        Ok(())
    }

    fn read_entry(&mut self, alloc: Global, left: u32, words: &[u8]) -> Result<(), LineFault>
        ensures { ReadsAs (λ _. journals_of self.new) result
            (line_by (journals_of self.old) (Due.Entry left) (words_of words.now)) }
    {
        let callers = self.callers.as_slice();
        let entry = entry_due(alloc, callers, self.runs.len(), words, &mut self.characters)?;
        self.take_entry(&entry, left)
    }

    /// Adds an entry, whose characters are those that were read last.
    fn take_entry(&mut self, entry: &ReadEntry, left: u32) -> Result<(), LineFault>
        ensures { ReadsAs (λ _. journals_of self.new) result
            (Ok (record (journals_of self.old) {
              due = due_entries (left - 1);
              entries = (journals_of self.old).entries ++ entry_with self.old.characters.items entry.now ∷ [];
            })) }
    {
        add_entry(&mut self.entries, &entry.lent(self.characters.as_slice()))?;
        self.due = entries_due(left.saturating_sub(1));
        Ok(())
    }

    fn read_overrun(&mut self, left: u32, words: &[u8]) -> Result<(), LineFault>
        ensures { ReadsAs (λ _. journals_of self.new) result
            (line_by (journals_of self.old) (Due.Overrun left) (words_of words.now)) }
    {
        let overrun = overrun_in(words)?;
        self.overruns.reserve(1)?;
        self.overruns.add(overrun);
        self.due = overruns_due(left.saturating_sub(1));
        Ok(())
    }

    fn read_numbers(&mut self, alloc: Global, words: &[u8]) -> Result<(), LineFault>
        ensures { ReadsAs (λ _. journals_of self.new) result
            (line_by (journals_of self.old) Due.Numbers (words_of words.now)) }
    {
        let port = self.runs.len();
        let numbers = numbers_in(port, words)?;
        let journal = mem::replace(&mut self.entries, Journal::new(alloc));
        let overruns = mem::replace(&mut self.overruns, Buffer::new(alloc));
        let line = LineReport {
            arrived: numbers.arrived,
            fifo_lost: numbers.lost,
            sent: u64::from(numbers.sent),
            overruns,
        };
        add_run(&mut self.runs, PortRun { journal, line })?;
        self.due = run_due(self.callers.len(), port + 1);
        Ok(())
    }

    /// Takes the runs out, where the text ends before the line with this number.
    pub(crate) fn finish(&mut self, number: u32) -> Result<Vec<PortRun>, TextFault>
        ensures { GivesRead (λ runs. map run_of runs.items) result (runs_at_end (journals_of self.old) number) }
    {
        if !is_over(self.due) {
            return Err(TextFault::Bad(BadLine {
                line: number,
                reason: Reason::Order,
            }));
        }
        let alloc = *self.runs.allocator();
        Ok(mem::replace(&mut self.runs, Vec::new(alloc)))
    }
}

/// The entry that a line writes, of the port that is due; its characters become these.
fn entry_due(
    alloc: Global,
    callers: &[Callers],
    port: usize,
    words: &[u8],
    characters: &mut Chars,
) -> Result<ReadEntry, LineFault>
    ensures { ReadsAs (entry_with characters.new.items) result
        (entry_by (slice_get (map callers_of callers.now) port) (words_of words.now)) }
{
    match callers.get(port) {
        Some(callers) => entry_in(alloc, callers, words, characters),
        None => Err(LineFault::Wrong(Reason::Order)),
    }
}

fn callers_by_port(alloc: Global, session: &Session) -> Result<Vec<Callers>, NoMemory>
    ensures { IfOk result (λ callers.
        map callers_of callers.items
        ≡ map (λ port. callers_on port (session_of session.now)) (range_with_len 0 session.now.ports)) }
{
    let mut callers = Vec::new(alloc);
    for port in 0..session.ports {
        callers.push(Callers::on_port(alloc, session, usize::from(port))?)?;
    }
    Ok(callers)
}

fn add_run(runs: &mut Vec<PortRun>, run: PortRun) -> Result<(), NoMemory>
    ensures { OnOk result (runs.new.items ≡ runs.old.items ++ run ∷ []) }
{
    runs.push(run)?;
    Ok(())
}

fn run_due(ports: usize, port: usize) -> Due
    ensures { result ≡ due_run ports port }
{
    if port < ports {
        Due::Journal
    } else {
        Due::Done
    }
}

fn entries_due(left: u32) -> Due
    ensures { result ≡ due_entries left }
{
    if left == 0 {
        Due::Overruns
    } else {
        Due::Entry(left)
    }
}

fn overruns_due(left: u32) -> Due
    ensures { result ≡ due_overruns left }
{
    if left == 0 {
        Due::Numbers
    } else {
        Due::Overrun(left)
    }
}

fn is_over(due: Due) -> bool
    ensures { result ≡ is_last due }
{
    matches!(due, Due::Over)
}
