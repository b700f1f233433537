//! Standard input and output, or any reader and writer, as a source and a sink.
ghost use Rattle.std.specs.Prelude.{◌≡◌, ◌≢◌, [], Some, ◌<◌, ◌≤◌, ◌++◌, take};
ghost use Rattle.std.specs.Prelude.{length, IfOk, IfErr, IfSome, OnErr, MatchResult};
ghost use Rattle.std.specs.Io.KnownBytes.{ReadConsumes, WriteAppends};
ghost use Rattle.std.specs.IoError.{error_kind};
ghost use Rattle.tty_base.specs.Memory.{faults_after};
ghost use Rattle.tty_base.specs.Outside.{Rose, Gives, Stream};

use super::sinks::Sink;
use super::sources::{Failed, Source};
use std::io;
use std::io::{ErrorKind, Read, Write};
use std::marker::Model;

/// Standard input, or another reader, as a source. It has left what the reader has left, where that
/// tells. A read that a signal interrupted is made again, and is no fault.
#[derive(Drop)]
pub struct StdSource<R: Read> {
    reader: R,
    faults: u64,
}

impl<R: Read> Model for StdSource<R> {
    ghost use Rattle.tty_base.specs.Outside.{Stream};

    ghost Value = { Stream };

    ghost view = { λ s. record { bytes = R.remaining s.reader; faults = s.faults } };
}

impl<R: Read> StdSource<R> {
    /// A source over a reader that has not failed yet.
    pub fn new(reader: R) -> StdSource<R>
        ensures { result ≡ record { bytes = R.remaining reader; faults = 0 } }
    {
        StdSource { reader, faults: 0 }
    }
}

impl<R: Read> Source for StdSource<R> {
    ghost left = { λ s. s.bytes };

    ghost faults = { λ s. s.faults };

    fn read(&mut self, buf: &mut [u8]) -> Result<usize, Failed>
        ensures count { self.old.faults ≤ self.new.faults }
        ensures room { IfOk result (λ k. k ≤ length buf.old) }
        ensures gives { IfOk result (λ k. IfSome self.old.bytes (λ bytes. Gives k bytes buf.new self.new.bytes)) }
        ensures end { IfOk result (λ k. k ≡ 0 → 0 < length buf.old → IfSome self.old.bytes (λ bytes. bytes ≡ [])) }
        ensures failed { OnErr result (Rose self.old.faults self.new.faults) }
        ensures same { OnErr result (IfSome self.old.bytes (λ bytes. self.new.bytes ≡ Some bytes)) }

        ensures counts { MatchResult result
            (λ _. self.new.faults ≡ self.old.faults)
            (λ _. self.new.faults ≡ faults_after self.old.faults) }
    {
        match read_past_signals(&mut self.reader, buf) {
            Ok(count) => Ok(count),
            Err(_) => {
                self.faults = self.faults.saturating_add(1);
                Err(Failed)
            }
        }
    }
}

/// One read, made again where a signal interrupted it.
fn read_past_signals<R: Read>(reader: &mut R, buf: &mut [u8]) -> io::Result<usize>
    ensures room { IfOk result (λ k. k ≤ length buf.old) }
    ensures length { length buf.new ≡ length buf.old }
    ensures bytes { ReadConsumes (R.remaining reader.old) (R.remaining reader.new) result buf.new }
    ensures again { IfErr result (λ error. error_kind error ≢ ErrorKind.Interrupted) }
{
    for _ in 0..u64::MAX {
        match reader.read(buf) {
            Err(error) if error.kind() == ErrorKind::Interrupted => {}
            done => return done,
        }
    }
    Err(io::Error::from(ErrorKind::TimedOut))
}

/// Standard output, or another writer, as a sink. It was given what the writer holds, where that
/// tells. A write that took nothing is a fault; one that a signal interrupted is made again, and is
/// none.
#[derive(Drop)]
pub struct StdSink<W: Write> {
    writer: W,
    faults: u64,
}

impl<W: Write> Model for StdSink<W> {
    ghost use Rattle.tty_base.specs.Outside.{Stream};

    ghost Value = { Stream };

    ghost view = { λ s. record { bytes = W.contents s.writer; faults = s.faults } };
}

impl<W: Write> StdSink<W> {
    /// A sink over a writer that has not failed yet.
    pub fn new(writer: W) -> StdSink<W>
        ensures { result ≡ record { bytes = W.contents writer; faults = 0 } }
    {
        StdSink { writer, faults: 0 }
    }
}

impl<W: Write> Sink for StdSink<W> {
    ghost given = { λ s. s.bytes };

    ghost faults = { λ s. s.faults };

    fn write(&mut self, bytes: &[u8]) -> Result<usize, Failed>
        requires { 0 < length bytes.now }
        ensures count { self.old.faults ≤ self.new.faults }
        ensures some { IfOk result (λ k. 0 < k) }
        ensures room { IfOk result (λ k. k ≤ length bytes.now) }
        ensures takes { IfOk result (λ k. IfSome self.old.bytes (λ before.
            self.new.bytes ≡ Some (before ++ take k bytes.now))) }
        ensures failed { OnErr result (Rose self.old.faults self.new.faults) }
        ensures same { OnErr result (IfSome self.old.bytes (λ before. self.new.bytes ≡ Some before)) }

        ensures counts { MatchResult result
            (λ _. self.new.faults ≡ self.old.faults)
            (λ _. self.new.faults ≡ faults_after self.old.faults) }
    {
        match write_past_signals(&mut self.writer, bytes) {
            Ok(count) if count > 0 => Ok(count),
            _ => {
                self.faults = self.faults.saturating_add(1);
                Err(Failed)
            }
        }
    }
}

/// One write, made again where a signal interrupted it.
fn write_past_signals<W: Write>(writer: &mut W, bytes: &[u8]) -> io::Result<usize>
    ensures room { IfOk result (λ k. k ≤ length bytes.now) }
    ensures bytes { WriteAppends (W.contents writer.old) (W.contents writer.new) result bytes.now }
    ensures again { IfErr result (λ error. error_kind error ≢ ErrorKind.Interrupted) }
{
    for _ in 0..u64::MAX {
        match writer.write(bytes) {
            Err(error) if error.kind() == ErrorKind::Interrupted => {}
            done => return done,
        }
    }
    Err(io::Error::from(ErrorKind::TimedOut))
}
