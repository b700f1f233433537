//! The top call without threads: it does what the words ask for, and ends with a status.

ghost use Rattle.std.specs.Prelude.{◌≡◌, ◌⊎◌, ◌≢◌, ◌≤◌, [], None, IfSome, IfOk, OnErr, length};
ghost use Rattle.tty_base.specs.Sizes.{MOST_TEXT};
ghost use Rattle.tty_base.specs.Outside.{Rose, TookCount, LeavesRest};
ghost use Rattle.tty_one.specs.Endings.{AreOfOne, IsOfOne, AreRunOne, AreGen, AskCheck, AskModem, AskJobs, AskVtOne};
ghost use Rattle.tty_one.specs.Endings.{AskOneToRead, IsStatus, IsStatusOr, IsShort, IsOfSource, IsTold, texts_of};
ghost use Rattle.tty_one.specs.Reported.{nothing, returned};
ghost use Rattle.tty_one.specs.Consoles.{CompletesConsoles};
ghost use Rattle.tty_one.specs.Processes.{CompletesProcesses};
ghost use Rattle.tty_one.specs.ModemLines.{CompletesModemLines};
ghost use Rattle.tty_one.specs.Outcome.{IsDone, IsToldRefused, IsToldIllegal, IsBroken, Completes, CompletesCheck};
ghost use Rattle.tty_one.specs.Works.{brought, IsWork, HasOwn, CanEndWith, ReadsNothing};

use crate::consoles::run_vt;
use crate::judging::run_check;
use crate::modems::run_modem;
use crate::playing::{run_number, run_one};
use crate::processes::run_jobs;
use crate::words::{Command, command_of};
use crate::works::{Ending, Ran, Work};
use std::alloc::Global;
use tty_base::{NoMemory, Sink, Source};

/// Does what the words ask for, and ends with a status: 0 the work is done, 1 the text read is not in its
/// grammar, 2 the words are none of these, 3 reading failed, 4 writing failed, 5 no memory was left, 6 the
/// text is too long, 7 the journals that were read are not all legal. What is told goes to the sink: at 0
/// the session's report, with its journals where the words ask for them, the summary of a number's session,
/// or that the journals are legal; else the line of the status.
///
/// The words are `run --one`, and with journals `run --one --journal` or `run --journal --one`; `gen` with a
/// number up to 4,294,967,295, whose session is played and nothing read; `check`; and `vt --one`, by which a session of
/// consoles is read and played; `modem`, by which a session of ports with modem lines is; and `jobs`, by which a
/// session of processes is. The words that ask for threads are other words here.
pub fn tty_one<S: Source, K: Sink>(
    alloc: Global,
    words: &[&str],
    source: &mut S,
    sink: &mut K,
) -> Ran
    // 2 comes exactly for other words, unless its line could not be given, and nothing is read.
    ensures other_words { (AreOfOne (texts_of words.now) → ⊥)
        → ((result.status ≡ 2) ⊎ (result.status ≡ 4)) × (source.new ≡ source.old) × (returned result ≡ nothing) }
    ensures known_words { AreOfOne (texts_of words.now) → result.status ≢ 2 }
    ensures read_fault { result.status ≡ 3 → Rose (S.faults source.old) (S.faults source.new) }
    ensures write_fault { result.status ≡ 4 → Rose (K.faults sink.old) (K.faults sink.new) }
    // 6 comes exactly where one byte more than the longest text was read, unless its line could not
    // be given.
    ensures too_long { IfSome (S.left source.old)
        (λ bytes. result.status ≡ 6 → TookCount 4194305 bytes (S.left source.new)) }
    ensures long { IfSome (S.left source.old)
        (λ bytes. TookCount 4194305 bytes (S.left source.new) → (result.status ≡ 6) ⊎ (result.status ≡ 4)) }
    ensures told { IfSome (K.given sink.old) (λ before. IsTold result.status before (K.given sink.new)) }
    ensures statuses { IsStatus result.status }
    // 0: the session is the one that the text spells that was read, or the one of the number; each run is
    // legal and in the order of one thread, and the sink was given the text of that session and these
    // runs, or their summary. Or the runs that the text spells are all legal, and it was given that. Or the text
    // spells a session of consoles, and each of them and their board was played likewise. Or it spells a session of
    // ports with modem lines, or of processes: each run is legal, and in order, for the session that the log passes
    // down to the ports, which is returned; and the log has just what the modem lines, or job control, say.
    ensures done { result.status ≡ 0
        → IsDone (texts_of words.now) (S.left source.old) (K.given sink.old) (K.given sink.new) (returned result) }
    // 1: the text that was read is not in its grammar, and the sink was given its first wrong line.
    ensures bad_session { result.status ≡ 1
        → IsToldRefused (texts_of words.now) (S.left source.old) (K.given sink.old) (K.given sink.new) }
    // 7: the runs that the text spells are not all legal, and the sink was given the verdict that fits them.
    ensures not_legal { result.status ≡ 7
        → IsToldIllegal (texts_of words.now) (S.left source.old) (K.given sink.old) (K.given sink.new) }
    // 4: what was to be given is the text of the status that there would have been; that of 3 or of 6 stands
    // only where the words ask for a text to be read.
    ensures broken { result.status ≡ 4
        → IsBroken (AreOfOne (texts_of words.now)) (AskOneToRead (texts_of words.now)) (texts_of words.now)
        (S.faults source.old) (S.faults source.new) (S.left source.old) (S.left source.new) (K.given sink.old)
        (K.given sink.new) (returned result) }
    ensures no_runs { result.status ≢ 0 → result.status ≢ 4 → returned result ≡ nothing }
    ensures none_judged { AskCheck (texts_of words.now) → result.runs.items ≡ [] }
    ensures no_entries { (AskVtOne (texts_of words.now) → ⊥) → result.vt.items ≡ [] }
    ensures no_log { (AskJobs (texts_of words.now) → ⊥) → result.jobs.items ≡ [] }
    ensures no_modem_log { (AskModem (texts_of words.now) → ⊥) → result.modem.items ≡ [] }
    ensures none_derived { (AskModem (texts_of words.now) ⊎ AskJobs (texts_of words.now) → ⊥) → result.derived ≡ None }
    // The source has left an end of what it had left.
    ensures rest { IfSome (S.left source.old) (λ bytes. LeavesRest bytes (S.left source.new)) }
    // Where a session is to be read and reading did not fail, a text that spells a session is played, and
    // one that spells none is refused, unless the text could not be given or memory was wanting.
    ensures complete { IfSome (S.left source.old) (λ bytes. AreRunOne (texts_of words.now) → length bytes ≤ MOST_TEXT
        → (Rose (S.faults source.old) (S.faults source.new) → ⊥) → Completes bytes result.status) }
    // The session of a number is played, unless its summary could not be given or memory was wanting, and
    // nothing is read.
    ensures made { AreGen (texts_of words.now) → IsStatusOr 0 result.status }
    ensures unread { AreGen (texts_of words.now) → source.new ≡ source.old }
    // Likewise journals are judged: 0 exactly where every run is legal, else 7.
    ensures judged { IfSome (S.left source.old) (λ bytes. AskCheck (texts_of words.now) → length bytes ≤ MOST_TEXT
        → (Rose (S.faults source.old) (S.faults source.new) → ⊥) → CompletesCheck bytes result.status) }
    // Likewise a text that spells a session of consoles is played, and one that spells none is refused.
    ensures consoles { IfSome (S.left source.old) (λ bytes. AskVtOne (texts_of words.now) → length bytes ≤ MOST_TEXT
        → (Rose (S.faults source.old) (S.faults source.new) → ⊥) → CompletesConsoles bytes result.status) }
    // .. and a session of ports with modem lines.
    ensures modem_lines { IfSome (S.left source.old) (λ bytes. AskModem (texts_of words.now) → length bytes ≤ MOST_TEXT
        → (Rose (S.faults source.old) (S.faults source.new) → ⊥) → CompletesModemLines bytes result.status) }
    // .. and a session of processes.
    ensures processes { IfSome (S.left source.old) (λ bytes. AskJobs (texts_of words.now) → length bytes ≤ MOST_TEXT
        → (Rose (S.faults source.old) (S.faults source.new) → ⊥) → CompletesProcesses bytes result.status) }
{
    let Some(command) = command_of(words) else {
        return Work::ended(alloc, Ending::BadWords).tell(sink);
    };
    match work_on(alloc, source, command) {
        Ok(work) => work.tell(sink),
        Err(NoMemory) => Ran::starved(alloc),
    }
}

/// Does what a command asks for.
fn work_on<S: Source>(alloc: Global, source: &mut S, command: Command) -> Result<Work, NoMemory>
    requires { IsOfOne command }
    ensures from { IfOk result (λ work.
        IsOfSource work.ending (S.faults source.old) (S.faults source.new) (S.left source.old) (S.left source.new)) }
    ensures work { IfOk result (λ work. IsWork command (S.left source.old) work.ending (brought work)) }
    ensures own { IfOk result (λ work. HasOwn command (brought work)) }
    ensures can { IfOk result (λ work. CanEndWith command work.ending) }
    ensures short { OnErr result (IsShort (S.left source.old) (S.left source.new)) }
    ensures rest { IfSome (S.left source.old) (λ bytes. LeavesRest bytes (S.left source.new)) }
    ensures unread { ReadsNothing command → source.new ≡ source.old }
{
    match command {
        Command::Run { .. } | Command::Vt => unreachable!(),
        Command::RunOne { journals } => run_one(alloc, source, journals),
        Command::Modem => run_modem(alloc, source),
        Command::Jobs => run_jobs(alloc, source),
        Command::Gen(number) => run_number(alloc, number),
        Command::Check => run_check(alloc, source),
        Command::VtOne => run_vt(alloc, source),
    }
}
