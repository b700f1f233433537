//! How the program runs and ends.

ghost use Rattle.std.specs.Prelude.{◌≡◌, ◌⊎◌, [], IfOk, IfSome, IfNone, OnErr};
ghost use Rattle.std.specs.Process.{exit_status};
ghost use Rattle.tty_one.specs.Endings.{texts_of};
ghost use Rattle.tty_main.specs.ExitStatus.{IsEnded, IsStarved, words_after_name};

use crate::command_line::{Arguments, words_of};
use std::alloc::Global;
use std::io::{Read, Write};
use std::mem;
use std::process::ExitCode;
use std::sync::Wait;
use std::thread::Threads;
use tty_base::{NoMemory, Sink, Source, StdSink, StdSource};
use tty_port::OpenGate;
use tty_run::{Ran, tty_run};

/// The exit status where memory was wanting.
const NO_MEMORY: u8 = 5;

/// Does what the arguments of the program ask for, its name left out, and ends with the status of `tty_run`
/// as the exit status. Arguments that are not text are no known words: they end with 2. Where no memory is
/// left to collect them, the program ends with 5, and nothing is read or given.
///
/// What is promised speaks of the bytes that the reader has left and of those that the writer holds, for
/// each reader and writer that tells them.
pub fn run_main<R: Threads + Wait + Sync, I: Read, O: Write>(
    rt: &R,
    alloc: Global,
    arguments: Result<Arguments, NoMemory>,
    source: &mut StdSource<I>,
    sink: &mut StdSink<O>,
) -> ExitCode
    ensures words { IfOk arguments (λ found. IfSome found (λ all.
        IsStarved (source.new ≡ source.old) (sink.new ≡ sink.old) (exit_status result)
        ⊎ IsEnded (source.new ≡ source.old) (words_after_name all.items) source.old.faults source.new.faults
        sink.old.faults sink.new.faults source.old.bytes source.new.bytes sink.old.bytes sink.new.bytes
        (exit_status result))) }
    ensures no_text { IfOk arguments (λ found. IfNone found (IsEnded (source.new ≡ source.old) [] source.old.faults
        source.new.faults sink.old.faults sink.new.faults source.old.bytes source.new.bytes sink.old.bytes
        sink.new.bytes (exit_status result))) }
    ensures starved { OnErr arguments (IsStarved (source.new ≡ source.old) (sink.new ≡ sink.old) (exit_status result)) }
{
    match arguments {
        Ok(Some(all)) => run_arguments(rt, alloc, all.as_slice(), source, sink),
        Ok(None) => run_words(rt, alloc, &[], source, sink),
        Err(NoMemory) => ExitCode::from(NO_MEMORY),
    }
}

fn run_arguments<R: Threads + Wait + Sync, S: Source, K: Sink>(
    rt: &R,
    alloc: Global,
    arguments: &[String],
    source: &mut S,
    sink: &mut K,
) -> ExitCode
    ensures { IsStarved (source.new ≡ source.old) (sink.new ≡ sink.old) (exit_status result)
        ⊎ IsEnded (source.new ≡ source.old) (words_after_name arguments.now) (S.faults source.old) (S.faults source.new)
        (K.faults sink.old) (K.faults sink.new) (S.left source.old) (S.left source.new) (K.given sink.old)
        (K.given sink.new) (exit_status result) }
{
    match words_of(alloc, arguments) {
        Ok(words) => run_words(rt, alloc, words.as_slice(), source, sink),
        Err(NoMemory) => ExitCode::from(NO_MEMORY),
    }
}

/// Ends with the status of `tty_run`. The process ends: no journal is walked to be freed.
fn run_words<R: Threads + Wait + Sync, S: Source, K: Sink>(
    rt: &R,
    alloc: Global,
    words: &[&str],
    source: &mut S,
    sink: &mut K,
) -> ExitCode
    ensures { IsEnded (source.new ≡ source.old) (texts_of words.now) (S.faults source.old) (S.faults source.new)
        (K.faults sink.old) (K.faults sink.new) (S.left source.old) (S.left source.new) (K.given sink.old)
        (K.given sink.new) (exit_status result) }
{
    let Ran {
        status,
        runs,
        vt,
        modem,
        jobs,
        derived,
    } = tty_run(rt, alloc, words, source, sink, &OpenGate);
    mem::forget(runs);
    mem::forget(vt);
    mem::forget(modem);
    mem::forget(jobs);
    mem::forget(derived);
    ExitCode::from(status)
}
