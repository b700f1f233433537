//! The top call: what the words ask for is done, on threads where they say so.

ghost use Rattle.std.specs.Prelude.{◌≡◌, ◌⊎◌, ◌≢◌, ◌≤◌, [], None, IfSome, IfOk, OnErr, length};
ghost use Rattle.tty_base.specs.Sizes.{MOST_TEXT};
ghost use Rattle.tty_base.specs.Outside.{Rose, TookCount, LeavesRest};
ghost use Rattle.tty_one.specs.Endings.{AreKnown, AreRun, AreGen, AskCheck, AskConsoles, AskModem, AskJobs, AskToPlay};
ghost use Rattle.tty_one.specs.Endings.{AskToRead, AskVt, IsOfSource, IsOnThreads, IsShort, IsStatus, IsStatusOr};
ghost use Rattle.tty_one.specs.Endings.{IsTold, texts_of};
ghost use Rattle.tty_one.specs.Reported.{nothing, returned};
ghost use Rattle.tty_one.specs.Consoles.{CompletesConsoles};
ghost use Rattle.tty_one.specs.Processes.{CompletesProcesses};
ghost use Rattle.tty_one.specs.ModemLines.{CompletesModemLines};
ghost use Rattle.tty_one.specs.Outcome.{IsDone, IsToldRefused, IsToldIllegal, IsBroken, Completes, CompletesCheck};
ghost use Rattle.tty_one.specs.Works.{brought, HasOwn, IsWork};
ghost use Rattle.tty_run.specs.Headline.{AreConsolesToldOnThreads, IsPlayedOnThreads};

use crate::consoles::run_vt;
use crate::playing::run;
use std::alloc::Global;
use std::sync::Wait;
use std::thread::Threads;
use tty_base::{NoMemory, Sink, Source};
use tty_one::{Command, Ran, Work, command_on_threads, tty_one};
use tty_port::Gate;

/// Does what the words ask for, and ends with a status: 0 the work is done, 1 the text read is not in its
/// grammar, 2 the words are none of the program's, 3 reading failed, 4 writing failed, 5 no memory was left,
/// 6 the text is too long, 7 the journals that were read are not all legal. What is told goes to the sink:
/// at 0 the session's report, with its journals where the words ask for them, the summary of a number's
/// session, or that the journals are legal; else the line of the status. Of a session of consoles, of one of ports with
/// modem lines, and of one of processes, the report is its own.
///
/// By `run` the session is played on threads: in each phase each port has one for each caller, one each for
/// line and flusher, and one for a clock that has ticks. By `vt` a session of consoles is: in each phase there is one
/// for the keyboard and one for each operator, and each console has one for each caller and one for its flusher. The
/// other words are those of `tty_one`, which needs no thread.
pub fn tty_run<R: Threads + Wait + Sync, S: Source, K: Sink, G: Gate + Sync>(
    rt: &R,
    alloc: Global,
    words: &[&str],
    source: &mut S,
    sink: &mut K,
    gate: &G,
) -> Ran
    // On threads, for every schedule: on status 0 the text that was read spells a session; each of its ports
    // has one returned run, which is legal; and the sink was given the text of that session and these runs.
    // On status 4 after a run it was given a front of it.
    ensures headline { AreRun (texts_of words.now)
        → result.status ≡ 0
        → IsPlayedOnThreads (texts_of words.now) (S.left source.old) (K.given sink.old) (K.given sink.new)
        result.runs.items }
    // Likewise of a session of consoles: the returned entries are a board run and the account of the session, in which
    // each key stands once, in order, and likewise each operator's calls other than refused ones, phase by phase; the
    // returned run of each console is legal, with the keys that went there in place of what a line receives; and the
    // sink was given the report of these entries and runs, in which a console's rows are the screen of its wire.
    ensures consoles_headline { AskVt (texts_of words.now)
        → result.status ≡ 0
        → AreConsolesToldOnThreads (S.left source.old) (K.given sink.old) (K.given sink.new) (returned result) }
    // 2 comes exactly for other words, unless its line could not be given, and nothing is read.
    ensures other_words { (AreKnown (texts_of words.now) → ⊥)
        → ((result.status ≡ 2) ⊎ (result.status ≡ 4)) × (source.new ≡ source.old) × (returned result ≡ nothing) }
    ensures known_words { AreKnown (texts_of words.now) → result.status ≢ 2 }
    ensures read_fault { result.status ≡ 3 → Rose (S.faults source.old) (S.faults source.new) }
    ensures write_fault { result.status ≡ 4 → Rose (K.faults sink.old) (K.faults sink.new) }
    // 6 comes exactly where one byte more than the longest text was read, unless its line could not
    // be given.
    ensures too_long { IfSome (S.left source.old)
        (λ bytes. result.status ≡ 6 → TookCount 4194305 bytes (S.left source.new)) }
    ensures long { IfSome (S.left source.old)
        (λ bytes. TookCount 4194305 bytes (S.left source.new) → (result.status ≡ 6) ⊎ (result.status ≡ 4)) }
    ensures told { IfSome (K.given sink.old) (λ before. IsTold result.status before (K.given sink.new)) }
    ensures statuses { IsStatus result.status }
    // 0: the session is the one that the text spells that was read, or the one of the number; each run is
    // legal, and on one thread in its order, and the sink was given the text of that session and these
    // runs, or their summary. Or the runs that the text spells are all legal, and it was given that. Or the text
    // spells a session of consoles, and each of them and their board was played, on threads or on one. Or it spells a
    // session of ports with modem lines, or of processes, and their ports were played on one: their log is returned,
    // and the session that they were played.
    ensures done { result.status ≡ 0
        → IsDone (texts_of words.now) (S.left source.old) (K.given sink.old) (K.given sink.new) (returned result) }
    // 1: the text that was read is not in its grammar, and the sink was given its first wrong line.
    ensures bad_session { result.status ≡ 1
        → IsToldRefused (texts_of words.now) (S.left source.old) (K.given sink.old) (K.given sink.new) }
    // 7: the runs that the text spells are not all legal, and the sink was given the verdict that fits them.
    ensures not_legal { result.status ≡ 7
        → IsToldIllegal (texts_of words.now) (S.left source.old) (K.given sink.old) (K.given sink.new) }
    // 4: what was to be given is the text of the status that there would have been; that of 3 or of 6 stands
    // only where the words ask for a text to be read.
    ensures broken { result.status ≡ 4
        → IsBroken (AreKnown (texts_of words.now)) (AskToRead (texts_of words.now)) (texts_of words.now)
        (S.faults source.old) (S.faults source.new) (S.left source.old) (S.left source.new) (K.given sink.old)
        (K.given sink.new) (returned result) }
    ensures no_runs { result.status ≢ 0 → result.status ≢ 4 → returned result ≡ nothing }
    ensures none_judged { AskCheck (texts_of words.now) → result.runs.items ≡ [] }
    ensures no_entries { (AskConsoles (texts_of words.now) → ⊥) → result.vt.items ≡ [] }
    ensures no_log { (AskJobs (texts_of words.now) → ⊥) → result.jobs.items ≡ [] }
    ensures no_modem_log { (AskModem (texts_of words.now) → ⊥) → result.modem.items ≡ [] }
    ensures none_derived { (AskModem (texts_of words.now) ⊎ AskJobs (texts_of words.now) → ⊥) → result.derived ≡ None }
    // The source has left an end of what it had left.
    ensures rest { IfSome (S.left source.old) (λ bytes. LeavesRest bytes (S.left source.new)) }
    // Where a session is to be read and reading did not fail, a text that spells a session is played, and
    // one that spells none is refused, unless the text could not be given or memory was wanting.
    ensures complete { IfSome (S.left source.old) (λ bytes.
        AskToPlay (texts_of words.now)
        → length bytes ≤ MOST_TEXT
        → (Rose (S.faults source.old) (S.faults source.new) → ⊥)
        → Completes bytes result.status) }
    // The session of a number is played, unless its summary could not be given or memory was wanting, and
    // nothing is read.
    ensures made { AreGen (texts_of words.now) → IsStatusOr 0 result.status }
    ensures unread { AreGen (texts_of words.now) → source.new ≡ source.old }
    // Likewise journals are judged: 0 exactly where every run is legal, else 7.
    ensures judged { IfSome (S.left source.old) (λ bytes. AskCheck (texts_of words.now) → length bytes ≤ MOST_TEXT
        → (Rose (S.faults source.old) (S.faults source.new) → ⊥) → CompletesCheck bytes result.status) }
    // Likewise a text that spells a session of consoles is played, and one that spells none is refused.
    ensures consoles { IfSome (S.left source.old) (λ bytes. AskConsoles (texts_of words.now) → length bytes ≤ MOST_TEXT
        → (Rose (S.faults source.old) (S.faults source.new) → ⊥) → CompletesConsoles bytes result.status) }
    // .. and a session of ports with modem lines.
    ensures modem_lines { IfSome (S.left source.old) (λ bytes. AskModem (texts_of words.now) → length bytes ≤ MOST_TEXT
        → (Rose (S.faults source.old) (S.faults source.new) → ⊥) → CompletesModemLines bytes result.status) }
    // .. and a session of processes.
    ensures processes { IfSome (S.left source.old) (λ bytes. AskJobs (texts_of words.now) → length bytes ≤ MOST_TEXT
        → (Rose (S.faults source.old) (S.faults source.new) → ⊥) → CompletesProcesses bytes result.status) }
{
    let Some(command) = command_on_threads(words) else {
        return tty_one(alloc, words, source, sink);
    };
    match work_on(rt, alloc, source, command, gate) {
        Ok(work) => work.tell(sink),
        Err(NoMemory) => Ran::starved(alloc),
    }
}

/// Does what a command asks for, on threads.
fn work_on<R: Threads + Wait + Sync, S: Source, G: Gate + Sync>(
    rt: &R,
    alloc: Global,
    source: &mut S,
    command: Command,
    gate: &G,
) -> Result<Work, NoMemory>
    requires { IsOnThreads command }
    ensures from { IfOk result (λ work.
        IsOfSource work.ending (S.faults source.old) (S.faults source.new) (S.left source.old) (S.left source.new)) }
    ensures work { IfOk result (λ work. IsWork command (S.left source.old) work.ending (brought work)) }
    ensures own { IfOk result (λ work. HasOwn command (brought work)) }
    ensures short { OnErr result (IsShort (S.left source.old) (S.left source.new)) }
    ensures rest { IfSome (S.left source.old) (λ bytes. LeavesRest bytes (S.left source.new)) }
{
    match command {
        Command::Run { journals } => run(rt, alloc, source, journals, gate),
        Command::Vt => run_vt(rt, alloc, source, gate),
        Command::RunOne { .. }
        | Command::Modem
        | Command::Jobs
        | Command::Gen(_)
        | Command::Check
        | Command::VtOne => unreachable!(),
    }
}
