//! The lines of a report that tell what became of a port: its line, its input, its counts, its signals, its
//! generation and its wire.

ghost use Rattle.std.specs.Prelude.{◌≡◌, ◌++◌, OnOk, string_bytes};
ghost use Rattle.tty_calls.specs.Sessions.{session_of};
ghost use Rattle.session_print.specs.Ends.{end_of};
ghost use Rattle.session_print.specs.Lines.{newline, port_text, line_line, flip_text, counts_line};
ghost use Rattle.session_print.specs.Lines.{signals_line, signals_text, generation_line, wire_line};
ghost use Rattle.session_print.specs.Printing.{sums_on, sums_line};

use super::digits::put_hex;
use super::fields::put_fields;
use super::sums::Sums;
use super::words::{put_counts, spaced_signal};
use std::alloc::AllocError;
use tty_base::{Counts, LineReport, Signal};
use tty_calls::{PortEnd, PortRun, Session};

/// Adds the lines of a port, of whose journal these are the sums.
pub(crate) fn put_port(
    text: &mut String,
    port: usize,
    session: &Session,
    run: &PortRun,
    sums: Sums,
    end: &PortEnd,
) -> Result<(), AllocError>
    requires { sums ≡ sums_on run.now }
    ensures { OnOk result (string_bytes text.new
        ≡ string_bytes text.old ++ port_text (session_of session.now) port run.now (end_of end.now)) }
{
    put_line(text, port, session, &run.line)?;
    put_input(text, port, sums)?;
    put_count_line(text, port, &end.counts)?;
    put_signals(text, port, end.signals.as_slice())?;
    put_generation(text, port, end.generation)?;
    put_wire(text, port, end.wire.as_slice())?;
    Ok(())
}

fn put_line(
    text: &mut String,
    port: usize,
    session: &Session,
    line: &LineReport,
) -> Result<(), AllocError>
    ensures { OnOk result
        (string_bytes text.new ≡ string_bytes text.old ++ line_line (session_of session.now) port line.now) }
{
    put_fields(
        text,
        &[
            ("port ", port as u64),
            (" line arrived=", u64::from(line.arrived)),
            (" lost=", u64::from(line.fifo_lost)),
            (" sent=", line.sent),
            (" overrun=", line.overruns.len() as u64),
        ],
        "",
    )?;
    put_flip(text, port, session)
}

/// Adds the capacity of a port's flip buffer, from version 2 on, and the end of the line.
fn put_flip(text: &mut String, port: usize, session: &Session) -> Result<(), AllocError>
    ensures { OnOk result
        (string_bytes text.new ≡ string_bytes text.old ++ (flip_text (session_of session.now) port ++ newline)) }
{
    if session.version != 2 {
        return text.push_str("\n");
    }
    let flip = session.flips.as_slice().get(port).copied().unwrap_or(0);
    put_fields(text, &[(" flip=", u64::from(flip))], "\n")
}

/// Adds how many characters were flushed, and how many were dropped.
fn put_input(text: &mut String, port: usize, sums: Sums) -> Result<(), AllocError>
    ensures { OnOk result (string_bytes text.new ≡ string_bytes text.old ++ sums_line port sums) }
{
    let Sums { flushed, dropped } = sums;
    put_fields(
        text,
        &[
            ("port ", port as u64),
            (" input taken=", flushed),
            (" dropped=", dropped),
        ],
        "\n",
    )
}

fn put_count_line(text: &mut String, port: usize, counts: &Counts) -> Result<(), AllocError>
    ensures { OnOk result (string_bytes text.new ≡ string_bytes text.old ++ counts_line port counts.now) }
{
    put_fields(text, &[("port ", port as u64)], " counts ")?;
    put_counts(text, counts)?;
    text.push_str("\n")
}

fn put_signals(text: &mut String, port: usize, signals: &[Signal]) -> Result<(), AllocError>
    ensures { OnOk result (string_bytes text.new ≡ string_bytes text.old ++ signals_line port signals.now) }
{
    put_fields(text, &[("port ", port as u64)], " signals")?;
    put_signal_names(text, signals)?;
    text.push_str("\n")
}

fn put_signal_names(text: &mut String, signals: &[Signal]) -> Result<(), AllocError>
    ensures { OnOk result (string_bytes text.new ≡ string_bytes text.old ++ signals_text signals.now) }
{
    if signals.is_empty() {
        return text.push_str(" -");
    }
    for signal in signals {
        text.push_str(spaced_signal(*signal))?;
    }
    Ok(())
}

fn put_generation(text: &mut String, port: usize, generation: u32) -> Result<(), AllocError>
    ensures { OnOk result (string_bytes text.new ≡ string_bytes text.old ++ generation_line port generation) }
{
    let generation = u64::from(generation);
    put_fields(
        text,
        &[("port ", port as u64), (" generation ", generation)],
        "\n",
    )
}

fn put_wire(text: &mut String, port: usize, wire: &[u8]) -> Result<(), AllocError>
    ensures { OnOk result (string_bytes text.new ≡ string_bytes text.old ++ wire_line port wire.now) }
{
    if wire.is_empty() {
        return put_fields(text, &[("port ", port as u64)], " wire -\n");
    }
    put_fields(text, &[("port ", port as u64)], " wire ")?;
    put_hex(text, wire)?;
    text.push_str("\n")
}
