//! The line of a phase: its parts, each window of characters, and each other step, followed by a flush of what
//! it has put. A follower is called behind each flush.

ghost use Rattle.std.specs.Prelude.{◌≡◌, ◌≤◌, ◌<◌, ◌^◌, ◌-◌, [], ◌∷◌, IsTrue};
ghost use Rattle.std.specs.Prelude.{IfSome, IfOk, IfErr, All, length, map, take};
ghost use Rattle.tty_base.specs.Sizes.{PIECE};
ghost use Rattle.tty_base.specs.Lines.{is_step};
ghost use Rattle.line_steps.specs.Steps.{rx_step, steps_of as steps_of_part};
ghost use Rattle.word_ring.specs.Ends.{NothingWaits};
ghost use Rattle.uart_line.specs.GoodSteps.{good_steps};
ghost use Rattle.uart_line.specs.WholeWindow.{TakesWindow};
ghost use Rattle.uart_line.specs.Received.{closed_script};
ghost use Rattle.play_base.specs.Scenes.{BeginsRun};
ghost use Rattle.one_thread.specs.Acts.{BeginsLine, PlaysItsLine, StopsItsLine, FlushesOnce};
ghost use Rattle.one_thread.specs.Following.{Follows, FollowsLine};
ghost use Rattle.one_thread.specs.LineInside.{line_at, StandsBefore, DoesSteps, DoesFirstSteps};
ghost use Rattle.one_thread.specs.LineInside.{FlushesSince, DeniesCut, FlushesCut, run_after};

use crate::followers::Follower;
use flip_buffer::FlipIn;
use line_steps::{LinePart, LineSteps};
use port_core::{Flushed, Port};
use tty_base::{Flag, Flagged, LineStep, rest_of};
use tty_calls::Denied;
use uart_line::Line;
use uart_regs::TIMEOUT;

/// The most characters of one flush. A cut gives fewer.
const PIECE: u64 = tty_base::sizes::PIECE as u64;

/// Plays the line of a phase: its steps, the two that close it, and its end. Answers the number of the next flush run.
pub fn play_line<F: Follower>(
    port: &mut Port,
    putter: &mut FlipIn,
    line: &mut Line,
    follower: &mut F,
    steps: &LineSteps,
    run: u32,
) -> Result<u32, Denied>
    requires begins { BeginsLine steps.now.items port.old putter.old line.old run }
    requires good { All (λ step. IsTrue (is_step step)) steps.now.items }
    ensures ok { IfOk result
        (λ next. PlaysItsLine steps.now.items port.old port.new putter.old putter.new line.old line.new run next) }
    ensures err { IfErr result
        (λ d. StopsItsLine d steps.now.items port.old port.new putter.old putter.new line.old line.new run) }
    ensures follows { FollowsLine F.follows port.old port.new putter.old follower.old follower.new result }
{
    port.known();
    port.meet(putter);
    let next = play_steps(port, putter, line, follower, steps, run)?;
    port.known();
    port.line_end(putter)?;
    port.known();
    Ok(next)
}

/// The steps of the line, and the two that close it.
fn play_steps<F: Follower>(
    port: &mut Port,
    putter: &mut FlipIn,
    line: &mut Line,
    follower: &mut F,
    steps: &LineSteps,
    run: u32,
) -> Result<u32, Denied>
    requires good { All (λ step. IsTrue (is_step step)) steps.now.items }
    requires stands { StandsBefore (closed_script steps.now.items) (line_at port.old putter.old line.old) run }
    ensures does { DoesSteps (closed_script steps.now.items) (line_at port.old putter.old line.old)
        (line_at port.new putter.new line.new) run result }
    ensures follows { Follows F.follows port.old port.new follower.old follower.new result }
{
    let mut next = run;
    for part in steps.parts() {
        next = play_part(port, putter, line, follower, part, next)?;
    }
    close(port, putter, line, follower, next)
}

/// The two steps that close a line.
#[inline(never)]
fn close<F: Follower>(
    port: &mut Port,
    putter: &mut FlipIn,
    line: &mut Line,
    follower: &mut F,
    run: u32,
) -> Result<u32, Denied>
    requires stands { StandsBefore (closed_script []) (line_at port.old putter.old line.old) run }
    ensures does { DoesSteps (closed_script []) (line_at port.old putter.old line.old)
        (line_at port.new putter.new line.new) run result }
    ensures follows { Follows F.follows port.old port.new follower.old follower.new result }
{
    let next = play_step(port, putter, line, follower, LineStep::Unmask, run)?;
    let idle = LineStep::Idle(TIMEOUT as u16);
    play_step(port, putter, line, follower, idle, next)
}

/// A part of the line. Mostly good characters arrive.
fn play_part<F: Follower>(
    port: &mut Port,
    putter: &mut FlipIn,
    line: &mut Line,
    follower: &mut F,
    part: &LinePart,
    run: u32,
) -> Result<u32, Denied>
    requires good { All (λ step. IsTrue (is_step step)) (steps_of_part part.now) }
    requires stands { StandsBefore (steps_of_part part.now) (line_at port.old putter.old line.old) run }
    ensures does { DoesSteps (steps_of_part part.now) (line_at port.old putter.old line.old)
        (line_at port.new putter.new line.new) run result }
    ensures follows { Follows F.follows port.old port.new follower.old follower.new result }
{
    match part {
        LinePart::Run(Flag::Normal, bytes) => {
            play_run(port, putter, line, follower, bytes.as_slice(), run)
        }
        LinePart::Run(flag, bytes) => {
            play_flagged(port, putter, line, follower, *flag, bytes.as_slice(), run)
        }
        LinePart::One(step) => play_step(port, putter, line, follower, *step, run),
    }
}

/// Good characters, a window at a time.
fn play_run<F: Follower>(
    port: &mut Port,
    putter: &mut FlipIn,
    line: &mut Line,
    follower: &mut F,
    bytes: &[u8],
    run: u32,
) -> Result<u32, Denied>
    requires stands { StandsBefore (good_steps bytes.now) (line_at port.old putter.old line.old) run }
    ensures does { DoesSteps (good_steps bytes.now) (line_at port.old putter.old line.old)
        (line_at port.new putter.new line.new) run result }
    ensures follows { Follows F.follows port.old port.new follower.old follower.new result }
{
    let mut next = run;
    let mut at = 0;
    while at < bytes.len() {
        let passed = play_window(port, putter, line, follower, rest_of(bytes, at), next)?;
        at += passed.steps;
        next = passed.run;
    }
    Ok(next)
}

/// Characters with a flag, one after the other.
#[inline(never)]
fn play_flagged<F: Follower>(
    port: &mut Port,
    putter: &mut FlipIn,
    line: &mut Line,
    follower: &mut F,
    flag: Flag,
    bytes: &[u8],
    run: u32,
) -> Result<u32, Denied>
    requires good { All (λ step. IsTrue (is_step step)) (map (rx_step flag) bytes.now) }
    requires stands { StandsBefore (map (rx_step flag) bytes.now) (line_at port.old putter.old line.old) run }
    ensures does { DoesSteps (map (rx_step flag) bytes.now) (line_at port.old putter.old line.old)
        (line_at port.new putter.new line.new) run result }
    ensures follows { Follows F.follows port.old port.new follower.old follower.new result }
{
    let mut next = run;
    for place in 0..bytes.len() {
        let byte = bytes[place];
        let step = LineStep::Rx(Flagged { byte, flag });
        next = play_step(port, putter, line, follower, step, next)?;
    }
    Ok(next)
}

/// What the next steps of a line came to.
#[derive(Clone, Copy)]
struct Passed {
    /// How many steps that were.
    steps: usize,
    /// The number of the next flush run.
    run: u32,
}

/// The first of these good characters, or a whole window of them, and what follows their flush.
#[inline(always)]
fn play_window<F: Follower>(
    port: &mut Port,
    putter: &mut FlipIn,
    line: &mut Line,
    follower: &mut F,
    bytes: &[u8],
    run: u32,
) -> Result<Passed, Denied>
    requires some { 0 < length bytes.now }
    requires stands { StandsBefore (good_steps bytes.now) (line_at port.old putter.old line.old) run }
    ensures some { IfOk result (λ passed. 0 < passed.steps) }
    ensures within { IfOk result (λ passed. passed.steps ≤ length bytes.now) }
    ensures does { DoesFirstSteps (good_steps bytes.now) (line_at port.old putter.old line.old)
        (line_at port.new putter.new line.new) run result }
    ensures follows { Follows F.follows port.old port.new follower.old follower.new result }
{
    port.known();
    let passed = flush_window(port, putter, line, bytes, run);
    port.known();
    let passed = passed?;
    follower.follow(port)?;
    Ok(passed)
}

/// A step, and what follows its flush. Answers the number of the next flush run.
#[inline(always)]
fn play_step<F: Follower>(
    port: &mut Port,
    putter: &mut FlipIn,
    line: &mut Line,
    follower: &mut F,
    step: LineStep,
    run: u32,
) -> Result<u32, Denied>
    requires good { IsTrue (is_step step) }
    requires stands { StandsBefore (step ∷ []) (line_at port.old putter.old line.old) run }
    ensures does { DoesSteps (step ∷ []) (line_at port.old putter.old line.old)
        (line_at port.new putter.new line.new) run result }
    ensures follows { Follows F.follows port.old port.new follower.old follower.new result }
{
    port.known();
    let next = flush_step(port, putter, line, step, run);
    port.known();
    let next = next?;
    follower.follow(port)?;
    Ok(next)
}

/// Plays the first of these good characters, or a whole window of them, and a flush of what was put.
#[inline(always)]
fn flush_window(
    port: &mut Port,
    putter: &mut FlipIn,
    line: &mut Line,
    bytes: &[u8],
    run: u32,
) -> Result<Passed, Denied>
    requires some { 0 < length bytes.now }
    requires stands { StandsBefore (good_steps bytes.now) (line_at port.old putter.old line.old) run }
    ensures some { IfOk result (λ passed. 0 < passed.steps) }
    ensures within { IfOk result (λ passed. passed.steps ≤ length bytes.now) }
    ensures does { DoesFirstSteps (good_steps bytes.now) (line_at port.old putter.old line.old)
        (line_at port.new putter.new line.new) run result }
    ensures flushes { FlushesOnce port.old port.new }
{
    match window_to_give(port, putter, line, bytes) {
        Some(window) => give_window(port, putter, line, window, run),
        None => flush_first(port, putter, line, bytes, run),
    }
}

/// The bytes of the whole window that comes, where they are eight and nothing waits in the flip buffer.
#[inline(always)]
fn window_to_give<'a>(
    port: &Port,
    putter: &FlipIn,
    line: &Line,
    bytes: &'a [u8],
) -> Option<&'a [u8; 8]>
    ensures within { IfSome result (λ window. 8 ≤ length bytes.now) }
    ensures first { IfSome result (λ window. take 8 bytes.now ≡ window.now) }
    ensures open { IfSome result (λ window. TakesWindow line.now 8) }
    ensures clear { IfSome result (λ window. NothingWaits putter.now port.now.flip) }
{
    let window = bytes.first_chunk::<8>()?;
    match line.whole_window(bytes.len()) {
        Some(8) if port.nothing_waits(putter) => Some(window),
        _ => None,
    }
}

/// The good characters of a whole window go past the flip buffer, as if they were put and flushed.
#[inline(always)]
fn give_window(
    port: &mut Port,
    putter: &mut FlipIn,
    line: &mut Line,
    window: &[u8; 8],
    run: u32,
) -> Result<Passed, Denied>
    requires open { TakesWindow line.old 8 }
    requires clear { NothingWaits putter.old port.old.flip }
    requires stands { StandsBefore (good_steps window.now) (line_at port.old putter.old line.old) run }
    ensures steps { IfOk result (λ passed. passed.steps ≡ 8) }
    ensures does { DoesFirstSteps (good_steps window.now) (line_at port.old putter.old line.old)
        (line_at port.new putter.new line.new) run result }
    ensures flushes { FlushesOnce port.old port.new }
{
    port.known();
    line.receive_window(window);
    let flushed = port.flush_given(putter, run, window)?;
    Ok(Passed {
        steps: 8,
        run: run_after(run, flushed),
    })
}

/// The first of these good characters arrives in a step of its own.
#[inline(always)]
fn flush_first(
    port: &mut Port,
    putter: &mut FlipIn,
    line: &mut Line,
    bytes: &[u8],
    run: u32,
) -> Result<Passed, Denied>
    requires some { 0 < length bytes.now }
    requires stands { StandsBefore (good_steps bytes.now) (line_at port.old putter.old line.old) run }
    ensures some { IfOk result (λ passed. 0 < passed.steps) }
    ensures within { IfOk result (λ passed. passed.steps ≤ length bytes.now) }
    ensures does { DoesFirstSteps (good_steps bytes.now) (line_at port.old putter.old line.old)
        (line_at port.new putter.new line.new) run result }
    ensures flushes { FlushesOnce port.old port.new }
{
    let step = LineStep::Rx(Flagged::good(bytes[0]));
    let next = flush_step(port, putter, line, step, run)?;
    Ok(Passed {
        steps: 1,
        run: next,
    })
}

/// Plays a step of the line, and a flush of what it has put. Answers the number of the next flush run.
#[inline(never)]
fn flush_step(
    port: &mut Port,
    putter: &mut FlipIn,
    line: &mut Line,
    step: LineStep,
    run: u32,
) -> Result<u32, Denied>
    requires good { IsTrue (is_step step) }
    requires stands { StandsBefore (step ∷ []) (line_at port.old putter.old line.old) run }
    ensures does { DoesSteps (step ∷ []) (line_at port.old putter.old line.old)
        (line_at port.new putter.new line.new) run result }
    ensures flushes { FlushesOnce port.old port.new }
{
    let before = putter.sent();
    line.step(step, putter);
    flush_since(port, putter, before, run)
}

/// Flushes as much as can be of what was put since so many were put. Answers the number of the next flush run.
#[inline(always)]
fn flush_since(port: &mut Port, putter: &mut FlipIn, before: u64, run: u32) -> Result<u32, Denied>
    requires ring { putter.old.ring ≡ port.old.flip.ring }
    requires run { BeginsRun run port.old }
    ensures ok { IfOk result (λ next. FlushesSince before port.old port.new putter.old putter.new run next) }
    ensures err { IfErr result (λ d. DeniesCut d port.old port.new putter.old putter.new) }
{
    let put = putter.sent().saturating_sub(before).min(PIECE) as u32;
    if put == 0 {
        return Ok(run);
    }
    flush_cut(port, putter, run, put)
}

/// Flushes what was put last, so many characters at most. Answers the number of the next flush run.
#[inline(always)]
fn flush_cut(port: &mut Port, putter: &mut FlipIn, run: u32, most: u32) -> Result<u32, Denied>
    requires ring { putter.old.ring ≡ port.old.flip.ring }
    requires run { BeginsRun run port.old }
    requires some { 1 ≤ most }
    requires few { most ≤ PIECE }
    ensures ok { IfOk result (λ next. FlushesCut port.old port.new putter.old putter.new run most next) }
    ensures err { IfErr result (λ d. DeniesCut d port.old port.new putter.old putter.new) }
{
    port.known();
    port.hear(putter);
    let flushed = port.flush_piece(run, 0, most)?;
    port.meet(putter);
    Ok(run_after(run, flushed))
}

/// The number of the next flush run.
fn run_after(run: u32, flushed: Flushed) -> u32
    requires { run < 2 ^ 32 - 1 }
    ensures { result ≡ run_after run flushed }
{
    match flushed {
        Flushed::Took(_) => run + 1,
        Flushed::Nothing => run,
    }
}
