//! The steps of a serial line, kept so that a character takes one byte where its neighbours have the same flag.
#![tactic(auto)]

ghost use Rattle.std.specs.Prelude.{◌≡◌, ◌≤◌, ◌-◌, ◌^◌, [], ◌∷◌, ◌++◌, if◌then◌else◌};
ghost use Rattle.std.specs.Prelude.{IfOk, OnOk, OnErr, length, map, take, min};
ghost use Rattle.line_steps.specs.Steps.{MOST_AT_ONCE, rx_step, steps_of, steps_in};

use std::alloc::Global;
use std::marker::Model;
use tty_base::{Flag, Flagged, LineStep, Moves, NoMemory, front_of};

/// The most steps of a run that are written out at once.
const MOST_AT_ONCE: usize = 64;

/// What happens on a line: characters with one flag, one after the other, or one step of any kind.
#[derive(Debug, Drop)]
pub enum LinePart {
    /// Characters that arrive one after the other, each with this flag.
    Run(Flag, Vec<u8>),
    /// One step, of any kind.
    One(LineStep),
}

/// The steps of a line, in order. Characters that arrive one after the other, with the same flag, take one byte each.
#[derive(Debug, Drop)]
pub struct LineSteps {
    parts: Vec<LinePart>,
}

impl Model for LineSteps {
    ghost use Rattle.line_steps.specs.Steps.{StepList, steps_in};

    ghost Value = { StepList };

    ghost view = { λ steps. record { items = steps_in steps.parts.items } };
}

impl Moves for LineSteps {}

impl LineSteps {
    /// No steps. It takes no memory.
    pub fn new(alloc: Global) -> LineSteps
        ensures { result ≡ record { items = [] } }
    {
        LineSteps {
            parts: Vec::new(alloc),
        }
    }

    /// Adds a step.
    pub fn add(&mut self, step: LineStep) -> Result<(), NoMemory>
        ensures ok { OnOk result (self.new.items ≡ self.old.items ++ step ∷ []) }
        ensures err { OnErr result (self.new ≡ self.old) }
    {
        self.parts.push(LinePart::One(step))?;
        Ok(())
    }

    /// Adds the arrivals of these bytes, each with this flag.
    pub fn add_run(&mut self, flag: Flag, bytes: Vec<u8>) -> Result<(), NoMemory>
        ensures ok { OnOk result (self.new.items ≡ self.old.items ++ map (rx_step flag) bytes.items) }
        ensures err { OnErr result (self.new ≡ self.old) }
    {
        if add_to_last(&mut self.parts, flag, bytes.as_slice())? {
            return Ok(());
        }
        self.parts.push(LinePart::Run(flag, bytes))?;
        Ok(())
    }

    /// The parts that the steps are kept in, in order.
    #[inline(always)]
    pub fn parts(&self) -> &[LinePart]
        ensures { steps_in result.now ≡ self.now.items }
    {
        self.parts.as_slice()
    }

    /// How many steps there are, as far as can be counted.
    pub fn len(&self) -> usize
        ensures { result ≡ min (length self.now.items) (2 ^ 64 - 1) }
    {
        let mut count: usize = 0;
        for part in self.parts.as_slice() {
            count = count.saturating_add(part.len());
        }
        count
    }

    /// The steps one by one.
    pub fn written_out(&self, alloc: Global) -> Result<Vec<LineStep>, NoMemory>
        ensures { IfOk result (λ steps. steps.items ≡ self.now.items) }
    {
        let mut steps = Vec::new(alloc);
        steps.reserve(self.len())?;
        for part in self.parts.as_slice() {
            part.write_out(&mut steps)?;
        }
        Ok(steps)
    }
}

impl LinePart {
    /// How many steps it is.
    fn len(&self) -> usize
        ensures { result ≡ length (steps_of self.now) }
    {
        match self {
            LinePart::Run(_, bytes) => bytes.len(),
            LinePart::One(_) => 1,
        }
    }

    /// Adds the arrivals of these bytes, where it is a run of this flag, and answers whether it is.
    fn extend(&mut self, flag: Flag, bytes: &[u8]) -> Result<bool, NoMemory>
        ensures ok { IfOk result
            (λ added. steps_of self.new ≡ steps_of self.old ++ (if added then map (rx_step flag) bytes.now else [])) }
        ensures err { OnErr result (steps_of self.new ≡ steps_of self.old) }
    {
        match self {
            LinePart::Run(same, run) => {
                if *same != flag {
                    return Ok(false);
                }
                run.extend_from_slice(bytes)?;
                Ok(true)
            }
            LinePart::One(_) => Ok(false),
        }
    }

    /// Adds its steps one by one.
    fn write_out(&self, steps: &mut Vec<LineStep>) -> Result<(), NoMemory>
        ensures { OnOk result (steps.new.items ≡ steps.old.items ++ steps_of self.now) }
    {
        match self {
            LinePart::Run(flag, bytes) => write_run(steps, *flag, bytes.as_slice()),
            LinePart::One(step) => {
                steps.push(*step)?;
                Ok(())
            }
        }
    }
}

/// Adds the arrivals of these bytes to the last part, where that is a run of this flag, and answers whether it is.
fn add_to_last(parts: &mut [LinePart], flag: Flag, bytes: &[u8]) -> Result<bool, NoMemory>
    ensures ok { IfOk result
        (λ added. steps_in parts.new ≡ steps_in parts.old ++ (if added then map (rx_step flag) bytes.now else [])) }
    ensures err { OnErr result (steps_in parts.new ≡ steps_in parts.old) }
{
    let count = parts.len();
    if count == 0 {
        return Ok(false);
    }
    parts[count - 1].extend(flag, bytes)
}

/// Adds the arrivals of these bytes one by one.
fn write_run(steps: &mut Vec<LineStep>, flag: Flag, bytes: &[u8]) -> Result<(), NoMemory>
    ensures { OnOk result (steps.new.items ≡ steps.old.items ++ map (rx_step flag) bytes.now) }
{
    let mut piece = [LineStep::Break; MOST_AT_ONCE];
    let mut rest = bytes;
    while !rest.is_empty() {
        let (front, after) = rest.split_at(rest.len().min(MOST_AT_ONCE));
        set_piece(&mut piece, flag, front);
        steps.extend_from_slice(front_of(&piece, front.len()))?;
        rest = after;
    }
    Ok(())
}

/// Makes the first steps of a piece the arrivals of these bytes.
fn set_piece(piece: &mut [LineStep; MOST_AT_ONCE], flag: Flag, bytes: &[u8])
    requires { length bytes.now ≤ MOST_AT_ONCE }
    ensures { take (length bytes.now) piece.new ≡ map (rx_step flag) bytes.now }
{
    // mostly good ones come, and a flag that is known takes half the time
    match flag {
        Flag::Normal => set_flagged(piece, Flag::Normal, bytes),
        _ => set_flagged(piece, flag, bytes),
    }
}

#[inline(always)]
fn set_flagged(piece: &mut [LineStep; MOST_AT_ONCE], flag: Flag, bytes: &[u8])
    requires { length bytes.now ≤ MOST_AT_ONCE }
    ensures { take (length bytes.now) piece.new ≡ map (rx_step flag) bytes.now }
{
    for place in 0..bytes.len() {
        let byte = bytes[place];
        piece[place] = LineStep::Rx(Flagged { byte, flag });
    }
}
