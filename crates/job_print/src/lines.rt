//! The lines that tell of job control: each call that was answered without the port, and each signal.

ghost use Rattle.std.specs.Prelude.{◌≡◌, ◌++◌, IfOk, OnOk, string_bytes};
ghost use Rattle.session_print.specs.Words.{errno_name};
ghost use Rattle.job_print.specs.Lines.{answer_line, answer_text as text_of_answer};
ghost use Rattle.job_print.specs.Lines.{name_at, signal_line, signal_text, target_text};

use job_control::{JobAnswer, JobSignal, Proc, Target};
use std::alloc::Global;
use tty_base::{Bytes, Errno, NoMemory};

/// Adds the line of a call that was answered without the port: by this caller of the port, and so many of its calls
/// before it.
pub fn put_answer(
    text: &mut String,
    port: u8,
    name: &str,
    step: u32,
    verb: &str,
    answer: JobAnswer,
) -> Result<(), NoMemory>
    ensures { OnOk result
        (string_bytes text.new ≡ string_bytes text.old ++ answer_line port name.now step verb.now answer) }
{
    write!(text, "{port}.{name}.{step} {verb} ")?;
    add_answer(text, answer)?;
    Ok(text.push_str("\n")?)
}

/// Adds the line of a signal. A process is told by its name.
pub fn put_signal(
    text: &mut String,
    port: u8,
    procs: &[Proc],
    signal: JobSignal,
    target: Target,
) -> Result<(), NoMemory>
    ensures { OnOk result (string_bytes text.new ≡ string_bytes text.old ++ signal_line port procs.now signal target) }
{
    let signal = signal_text(signal);
    write!(text, "job {port} {signal}")?;
    add_target(text, procs, target)?;
    Ok(text.push_str("\n")?)
}

/// What a call was answered without the port, as a report has it.
pub fn answer_text(alloc: Global, answer: JobAnswer) -> Result<Bytes, NoMemory>
    ensures { IfOk result (λ text. text.items ≡ text_of_answer answer) }
{
    let mut text = String::new(alloc);
    add_answer(&mut text, answer)?;
    Ok(Bytes::from_vec(text.into_bytes()))
}

fn add_answer(text: &mut String, answer: JobAnswer) -> Result<(), NoMemory>
    ensures { OnOk result (string_bytes text.new ≡ string_bytes text.old ++ text_of_answer answer) }
{
    match answer {
        JobAnswer::Done => Ok(text.push_str("ok")?),
        JobAnswer::Number(number) => Ok(write!(text, "{number}")?),
        JobAnswer::Refused(errno) => Ok(text.push_str(errno_name(errno))?),
        JobAnswer::NotPermitted => Ok(text.push_str("EPERM")?),
        JobAnswer::Stopped(signal) => {
            text.push_str("stopped ")?;
            Ok(text.push_str(signal_text(signal))?)
        }
    }
}

fn add_target(text: &mut String, procs: &[Proc], target: Target) -> Result<(), NoMemory>
    ensures { OnOk result (string_bytes text.new ≡ string_bytes text.old ++ target_text procs.now target) }
{
    match target {
        Target::Group(group) => Ok(write!(text, " group {group}")?),
        Target::Process(place) => {
            text.push_str(" process ")?;
            add_name(text, procs, place)
        }
        Target::Nobody => Ok(text.push_str(" -")?),
    }
}

fn add_name(text: &mut String, procs: &[Proc], place: u16) -> Result<(), NoMemory>
    ensures { OnOk result (string_bytes text.new ≡ string_bytes text.old ++ name_at procs.now place) }
{
    match procs.get(usize::from(place)) {
        None => Ok(()),
        Some(proc) => Ok(text.push_str(proc.name.as_str())?),
    }
}

fn signal_text(signal: JobSignal) -> &'static str
    ensures { result.now ≡ signal_text signal }
{
    match signal {
        JobSignal::Int => "INT",
        JobSignal::Quit => "QUIT",
        JobSignal::Susp => "SUSP",
        JobSignal::Ttin => "TTIN",
        JobSignal::Ttou => "TTOU",
        JobSignal::Hup => "HUP",
        JobSignal::Cont => "CONT",
    }
}

fn errno_name(errno: Errno) -> &'static str
    ensures { result.now ≡ errno_name errno }
{
    match errno {
        Errno::EBADF => "EBADF",
        Errno::EEXIST => "EEXIST",
        Errno::EBUSY => "EBUSY",
        Errno::EAGAIN => "EAGAIN",
        Errno::EIO => "EIO",
        Errno::EINVAL => "EINVAL",
        Errno::ENOTTY => "ENOTTY",
        Errno::EMSGSIZE => "EMSGSIZE",
    }
}
