//! Answers of a port's calls as numbers, and arguments by theirs.

ghost use Rattle.std.specs.Prelude.{◌≡◌, ◌≢◌};
ghost use Rattle.tty_calls.specs.Plain.{answer_of};
ghost use Rattle.tty_terminal.specs.Outcomes.{Outcome};
ghost use Rattle.tty_terminal.specs.Meeting.{Meets};
ghost use Rattle.tty_c.specs.Answers.{no_memory};
ghost use Rattle.tty_c.specs.Calls.{errno_number, modes_number, counts_number, count_at, answer_number};
ghost use Rattle.tty_c.specs.Calls.{outcome_number, access_of, when_of, queue_of, act_of};

use crate::answers::WAITS;
use tty_base::{Counts, Errno};
use tty_calls::{Access, Act, Answer, Queue, When};
use tty_modes::Modes;
use tty_terminal::Met;

/// What is told of modes and counts, which are more than a number.
#[derive(Clone, Copy, Debug, PartialEq, Eq)]
pub enum Detail {
    Nothing,
    /// Whether a flag is set.
    Flag(u32),
    /// A control character.
    Character(u8),
    /// One of the counts.
    Count(u8),
}

/// The negated number of an error (errno.h).
fn errno_number(errno: Errno) -> i64
    ensures number { result ≡ errno_number errno }
    ensures apart { result ≢ no_memory }
{
    match errno {
        Errno::EBADF => -9,
        Errno::EEXIST => -17,
        Errno::EBUSY => -16,
        Errno::EAGAIN => -11,
        Errno::EIO => -5,
        Errno::EINVAL => -22,
        Errno::ENOTTY => -25,
        Errno::EMSGSIZE => -90,
    }
}

fn modes_number(told: &Detail, modes: &Modes) -> i64
    ensures number { result ≡ modes_number told.now modes.now }
    ensures apart { result ≢ no_memory }
{
    match told {
        Detail::Flag(flag) => { if modes.has(*flag) { 1 } else { 0 } }
        Detail::Character(place) => i64::from(modes.cc(*place)),
        _ => 0,
    }
}

fn count_at(counts: &Counts, place: u8) -> u64
    ensures { result ≡ count_at counts.now place }
{
    match place {
        0 => counts.mark,
        1 => counts.parity,
        2 => counts.frame,
        3 => counts.breaks,
        4 => counts.cut,
        5 => counts.echo,
        6 => counts.pin,
        7 => counts.pout,
        8 => counts.pbad,
        9 => counts.pfull,
        _ => 0,
    }
}

fn counts_number(told: &Detail, counts: &Counts) -> i64
    ensures number { result ≡ counts_number told.now counts.now }
    ensures apart { result ≢ no_memory }
{
    match told {
        Detail::Count(place) => count_at(counts, *place).min(9223372036854775807) as i64,
        _ => 0,
    }
}

/// An answer as a number.
fn answer_number(told: &Detail, answer: &Answer) -> i64
    ensures number { result ≡ answer_number told.now (answer_of answer.now) }
    ensures apart { result ≢ no_memory }
{
    match answer {
        Answer::Done | Answer::Idle => 0,
        Answer::Count(count) => i64::from(*count),
        Answer::Got(bytes) => bytes.len() as i64,
        Answer::Number(number) => i64::from(*number),
        Answer::ModesAre(modes) => modes_number(told, modes),
        Answer::CountsAre(counts) => counts_number(told, counts),
        Answer::Refused(errno) => errno_number(*errno),
    }
}

/// What a call met as a number.
#[tactic(auto, using(crate::proofs::Telling::told_gives, crate::proofs::Telling::told_takes, crate::proofs::Telling::told_waits))]
pub fn met_number(told: &Detail, met: &Met) -> i64
    ensures number { (o : Outcome) → Meets o met.now → result ≡ outcome_number told.now o }
    ensures apart { result ≢ no_memory }
{
    match met {
        Met::Gives(answer) => answer_number(told, answer),
        Met::Takes(count) => i64::from(*count),
        Met::Waits => WAITS,
    }
}

/// What a handle may be used for, by the numbers of fcntl.h.
pub fn access_of(number: u8) -> Option<Access>
    ensures { result ≡ access_of number }
{
    match number {
        0 => Some(Access::R),
        1 => Some(Access::W),
        2 => Some(Access::Rw),
        _ => None,
    }
}

/// When modes are set, by the numbers of termios.h.
pub fn when_of(number: u8) -> Option<When>
    ensures { result ≡ when_of number }
{
    match number {
        0 => Some(When::Now),
        1 => Some(When::Drain),
        2 => Some(When::Flush),
        _ => None,
    }
}

/// What is dropped, by the numbers of termios.h.
pub fn queue_of(number: u8) -> Option<Queue>
    ensures { result ≡ queue_of number }
{
    match number {
        0 => Some(Queue::Input),
        1 => Some(Queue::Output),
        2 => Some(Queue::Both),
        _ => None,
    }
}

/// What flow control is told, by the numbers of termios.h.
pub fn act_of(number: u8) -> Option<Act>
    ensures { result ≡ act_of number }
{
    match number {
        0 => Some(Act::Ooff),
        1 => Some(Act::Oon),
        2 => Some(Act::Ioff),
        3 => Some(Act::Ion),
        _ => None,
    }
}
