//! Standard streams that are read and written where a device fails, as tests.

use std::alloc::Global;
use std::io;
use std::io::{ErrorKind, Read, Write};
use tty_base::{Failed, Sink, Source, StdSink, StdSource, TakeFault, read_all, write_all};

/// A device that fails at its first call with this fault, and then moves one byte at each: out of a
/// text, or into nothing.
#[derive(Drop)]
struct Flaky {
    fault: Option<ErrorKind>,
    text: &'static [u8],
}

impl Flaky {
    fn fail_once(&mut self) -> io::Result<()> {
        match self.fault.take() {
            Some(kind) => Err(io::Error::from(kind)),
            None => Ok(()),
        }
    }
}

impl Read for Flaky {
    fn read(&mut self, buf: &mut [u8]) -> io::Result<usize> {
        self.fail_once()?;
        if buf.is_empty() {
            return Ok(0);
        }
        match self.text {
            [] => Ok(0),
            [first, rest @ ..] => {
                buf[0] = *first;
                self.text = rest;
                Ok(1)
            }
        }
    }
}

impl Write for Flaky {
    fn write(&mut self, buf: &[u8]) -> io::Result<usize> {
        self.fail_once()?;
        Ok(buf.len().min(1))
    }

    fn flush(&mut self) -> io::Result<()> {
        Ok(())
    }
}

/// A device that fails at its first call, and then gives `hello`.
fn failing(kind: ErrorKind) -> Flaky {
    Flaky {
        fault: Some(kind),
        text: b"hello",
    }
}

/// Whether a source gives `hello`.
fn gives(alloc: Global, source: &mut StdSource<Flaky>) -> Result<bool, TakeFault> {
    let text = read_all(alloc, source, 9)?;
    Ok(text.as_slice() == b"hello".as_slice())
}

/// Whether a read of a few bytes answers so.
fn answers(source: &mut StdSource<Flaky>, wanted: Result<usize, Failed>) -> bool {
    let mut buf = [0u8; 4];
    source.read(&mut buf) == wanted
}

/// Whether standard input that fails is a fault, and gives its text after; and a signal is none.
fn input_goes_on(alloc: Global) -> Result<bool, TakeFault> {
    let mut broken = StdSource::new(failing(ErrorKind::BrokenPipe));
    let is_fault = answers(&mut broken, Err(Failed));
    let is_given = gives(alloc, &mut broken)? && answers(&mut broken, Ok(0));
    let mut signalled = StdSource::new(failing(ErrorKind::Interrupted));
    Ok(is_fault && is_given && gives(alloc, &mut signalled)?)
}

/// Whether a write of two bytes answers so.
fn takes(sink: &mut StdSink<Flaky>, wanted: Result<usize, Failed>) -> bool {
    sink.write(b"hi") == wanted
}

/// Whether standard output that fails is a fault and can go on; and a signal is none.
fn output_goes_on() -> bool {
    let mut broken = StdSink::new(failing(ErrorKind::BrokenPipe));
    let is_fault = takes(&mut broken, Err(Failed)) && takes(&mut broken, Ok(1));
    let mut signalled = StdSink::new(failing(ErrorKind::Interrupted));
    is_fault && write_all(&mut signalled, b"hi") == Ok(())
}

/// Whether standard output adds to what its writer holds.
fn output_is_added(alloc: Global) -> bool {
    let mut text = Vec::new(alloc);
    let is_put = write_all(&mut StdSink::new(&mut text), b"hello") == Ok(());
    is_put && text.as_slice() == b"hello".as_slice()
}

#[test]
fn standard_streams_that_fail_are_told_and_go_on(rt: HostRuntime) {
    assert!(rt; input_goes_on(rt.alloc()) == Ok(true));
    assert!(rt; output_goes_on() && output_is_added(rt.alloc()));
}
