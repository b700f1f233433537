//! The program: its arguments, standard input and standard output are handed to `run_main`, which ends with
//! the exit status.
#![tactic(auto)]

use std::io;
use std::process::ExitCode;
use tty_base::{StdSink, StdSource};
use tty_main::{arguments, run_main};

fn main(rt: HostRuntime) -> ExitCode {
    let mut source = StdSource::new(rt.reader());
    let mut sink = StdSink::new(io::writer(&rt));
    run_main(&rt, rt.alloc(), arguments(&rt), &mut source, &mut sink)
}
