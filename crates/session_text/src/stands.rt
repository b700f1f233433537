//! Where the reader of a text stands, how the next item is judged there, and where the reader stands after it.

ghost use Rattle.std.specs.Prelude.{◌≡◌, ◌-◌, ◌∷◌, ◌++◌, [], Some, OnOk, IsTrue, map, slice_index, length};
ghost use Rattle.std.specs.List.{list_any};
ghost use Rattle.session_text.specs.Kinds.{modes_in};
ghost use Rattle.session_text.specs.Stands.{first_stand, may_stand, in_phase, holds, same_key, has_stood, callers_on};
ghost use Rattle.session_text.specs.Stands.{arrivals, has_many, is_over, is_good, late_fault, item_fault, verdict_on};
ghost use Rattle.session_text.specs.Stands.{verb_verdict, first_verdict, left_after, stand_after};
ghost use Rattle.session_text.specs.Views.{stand_of, key_of};

use super::faults::Reason;
use super::kinds::{fault_in, may_have};
use super::verbs::{CallVerb, LineVerb, Verb, verb_of};
use arrayvec::ArrayString;
use std::alloc::Global;
use text_lines::{Arguments, name_of};
use tty_base::sizes::{
    MOST_ARRIVALS, MOST_CALLERS, MOST_MODE_WORDS, MOST_PHASES, MOST_PORTS, MOST_STEPS, MOST_TICKS,
};
use tty_base::{Buffer, NoMemory};
use tty_modes::is_same;

/// The most arguments of a `modes` item: a handle, a time and the mode words.
const MOST_MODE_ARGUMENTS: usize = MOST_MODE_WORDS + 2;

/// Which items may come next.
#[derive(Clone, Copy)]
pub enum ItemPlace {
    /// Before the first item.
    Start,
    /// After the header.
    Head,
    /// After `ports`, and before the first phase.
    Before,
    /// In a phase, before its first block.
    Phase,
    /// In a line block.
    Line,
    /// In a clock block.
    Clock,
    /// In a caller's block.
    Caller,
    /// After `end`.
    Ended,
}

/// A caller of the open phase.
#[derive(Drop)]
pub(crate) struct Key {
    name: ArrayString<16>,
    port: u64,
}

/// Where the reader of a text stands.
#[derive(Drop)]
pub(crate) struct Stand {
    place: ItemPlace,
    version: u8,
    ports: u8,
    /// The ports that had their `flip`.
    flips: Buffer<u64>,
    /// The ports that had their line block, and their clock block, in the open phase.
    lines: Buffer<u64>,
    clocks: Buffer<u64>,
    /// The callers of the open phase.
    callers: Buffer<Key>,
    /// The port of the open block.
    port: u64,
    /// How many phases and steps may still come, and for each port characters and ticks.
    phases_left: u64,
    steps_left: u64,
    characters_left: [u64; MOST_PORTS],
    ticks_left: [u64; MOST_PORTS],
}

impl Stand {
    /// Before the first item.
    pub(crate) fn new(alloc: Global) -> Stand
        ensures { stand_of result ≡ first_stand }
    {
        Stand {
            place: ItemPlace::Start,
            version: 0,
            ports: 0,
            flips: Buffer::new(alloc),
            lines: Buffer::new(alloc),
            clocks: Buffer::new(alloc),
            callers: Buffer::new(alloc),
            port: 0,
            phases_left: MOST_PHASES as u64,
            steps_left: MOST_STEPS as u64,
            characters_left: [MOST_ARRIVALS as u64; MOST_PORTS],
            ticks_left: [MOST_TICKS as u64; MOST_PORTS],
        }
    }

    pub(crate) fn place(&self) -> ItemPlace
        ensures { result ≡ self.now.place }
    {
        self.place
    }

    pub(crate) fn version(&self) -> u8
        ensures { result ≡ self.now.version }
    {
        self.version
    }

    pub(crate) fn ports(&self) -> u8
        ensures { result ≡ self.now.ports }
    {
        self.ports
    }

    /// The port of the open block.
    pub(crate) fn port(&self) -> u64
        ensures { result ≡ self.now.port }
    {
        self.port
    }

    /// The verb of a line, from its first word and its arguments, or why the line is wrong. So many of
    /// the arguments behind the second are mode words.
    #[inline(always)]
    pub(crate) fn judge(
        &self,
        word: &[u8],
        arguments: &Arguments,
        modes: usize,
    ) -> Result<Verb, Reason>
        requires { modes ≡ length (modes_in arguments.now) }
        ensures { result ≡ verdict_on (stand_of self.now) word.now arguments.now }
    {
        if matches!(self.place, ItemPlace::Start) {
            return self.judge_first(word, arguments, modes);
        }
        match verb_of(self.version, word) {
            None => Err(Reason::Word),
            Some(verb) => self.judge_item(verb, arguments, modes),
        }
    }

    /// The first item has to be the header.
    #[inline(never)]
    fn judge_first(&self, word: &[u8], arguments: &Arguments, modes: usize) -> Result<Verb, Reason>
        requires { modes ≡ length (modes_in arguments.now) }
        ensures { result ≡ first_verdict (stand_of self.now) word.now arguments.now }
    {
        if is_same(word, b"tty-session".as_slice())
            && is_good(self.ports, Verb::Session, arguments, modes)
        {
            Ok(Verb::Session)
        } else {
            Err(Reason::Header)
        }
    }

    #[inline(always)]
    fn judge_item(&self, verb: Verb, arguments: &Arguments, modes: usize) -> Result<Verb, Reason>
        requires { modes ≡ length (modes_in arguments.now) }
        ensures { result ≡ verb_verdict (stand_of self.now) (Some verb) arguments.now }
    {
        match self.item_fault(verb, arguments, modes) {
            None => Ok(verb),
            Some(reason) => Err(reason),
        }
    }

    /// What is wrong with an item, if something is. Most are calls: these are judged here, and the others apart.
    #[inline(always)]
    fn item_fault(&self, verb: Verb, arguments: &Arguments, modes: usize) -> Option<Reason>
        requires { modes ≡ length (modes_in arguments.now) }
        ensures { result ≡ item_fault (stand_of self.now) verb arguments.now }
    {
        match verb {
            Verb::Call(call) => self.any_fault(Verb::Call(call), arguments, modes),
            _ => self.fault_apart(verb, arguments, modes),
        }
    }

    #[inline(never)]
    fn fault_apart(&self, verb: Verb, arguments: &Arguments, modes: usize) -> Option<Reason>
        requires { modes ≡ length (modes_in arguments.now) }
        ensures { result ≡ item_fault (stand_of self.now) verb arguments.now }
    {
        self.any_fault(verb, arguments, modes)
    }

    #[inline(always)]
    fn any_fault(&self, verb: Verb, arguments: &Arguments, modes: usize) -> Option<Reason>
        requires { modes ≡ length (modes_in arguments.now) }
        ensures { result ≡ item_fault (stand_of self.now) verb arguments.now }
    {
        if !may_stand(verb, self.place) {
            return Some(Reason::Order);
        }
        if !may_have(verb, arguments.count()) {
            return Some(Reason::Word);
        }
        match fault_in(self.ports, verb, arguments, modes) {
            Some(reason) => Some(reason),
            None => self.late_fault(verb, arguments),
        }
    }

    #[inline(always)]
    fn late_fault(&self, verb: Verb, arguments: &Arguments) -> Option<Reason>
        ensures { result ≡ late_fault (stand_of self.now) verb arguments.now }
    {
        if self.has_stood(verb, arguments) {
            return Some(Reason::Order);
        }
        if self.is_over(verb, arguments) {
            return Some(Reason::Limit);
        }
        None
    }

    /// Whether an item that may stand once has stood.
    #[inline(always)]
    fn has_stood(&self, verb: Verb, arguments: &Arguments) -> bool
        ensures { result ≡ has_stood (stand_of self.now) verb arguments.now }
    {
        match verb {
            Verb::Flip => holds(self.flips.as_slice(), arguments.first_number()),
            Verb::Line => holds(self.lines.as_slice(), arguments.first_number()),
            Verb::Clock => holds(self.clocks.as_slice(), arguments.first_number()),
            Verb::Caller => {
                let name = arguments.first();
                has_key(self.callers.as_slice(), name, arguments.second_number())
            }
            _ => false,
        }
    }

    /// Whether an item passes a total.
    #[inline(always)]
    fn is_over(&self, verb: Verb, arguments: &Arguments) -> bool
        ensures { result ≡ is_over (stand_of self.now) verb arguments.now }
    {
        match verb {
            Verb::Phase => self.phases_left == 0,
            Verb::Caller => {
                callers_on(arguments.second_number(), self.callers.as_slice()) >= MOST_CALLERS
            }
            Verb::Step(step) => {
                self.steps_left == 0
                    || left_on(&self.characters_left, self.port) < arrivals(step, arguments)
            }
            Verb::Tick => {
                self.steps_left == 0
                    || left_on(&self.ticks_left, self.port) < arguments.first_number()
            }
            Verb::Call(call) => self.steps_left == 0 || has_many(call, arguments.count()),
            _ => false,
        }
    }

    /// Goes on by an item that is not wrong.
    #[inline(always)]
    pub(crate) fn take(
        &mut self,
        alloc: Global,
        verb: Verb,
        arguments: &Arguments,
    ) -> Result<(), NoMemory>
        requires { IsTrue (is_good self.old.ports verb arguments.now) }
        ensures { OnOk result (stand_of self.new ≡ stand_after (stand_of self.old) verb arguments.now) }
    {
        match verb {
            Verb::Session => {
                self.version = arguments.first_number() as u8;
                self.place = ItemPlace::Head;
                Ok(())
            }
            Verb::Ports => {
                self.ports = arguments.first_number() as u8;
                self.place = ItemPlace::Before;
                Ok(())
            }
            Verb::Flip => add_port(&mut self.flips, arguments.first_number()),
            Verb::Phase => {
                self.open_phase(alloc);
                Ok(())
            }
            Verb::Line => self.open_line(arguments.first_number()),
            Verb::Clock => self.open_clock(arguments.first_number()),
            Verb::Caller => self.open_caller(arguments),
            Verb::Step(step) => {
                self.step(arrivals(step, arguments));
                Ok(())
            }
            Verb::Tick => {
                self.tick(arguments.first_number());
                Ok(())
            }
            Verb::Call(_) => {
                self.steps_left = self.steps_left.saturating_sub(1);
                Ok(())
            }
            Verb::End => {
                self.place = ItemPlace::Ended;
                Ok(())
            }
        }
    }

    fn open_phase(&mut self, alloc: Global)
        ensures { stand_of self.new ≡ stand_after (stand_of self.old) Verb.Phase [] }
    {
        self.place = ItemPlace::Phase;
        self.lines = Buffer::new(alloc);
        self.clocks = Buffer::new(alloc);
        self.callers = Buffer::new(alloc);
        self.phases_left = self.phases_left.saturating_sub(1);
    }

    fn open_line(&mut self, port: u64) -> Result<(), NoMemory>
        ensures { OnOk result (stand_of self.new
            ≡ record (stand_of self.old) {
              place = ItemPlace.Line;
              lines = (stand_of self.old).lines ++ port ∷ [];
              port = port;
            }) }
    {
        add_port(&mut self.lines, port)?;
        self.place = ItemPlace::Line;
        self.port = port;
        Ok(())
    }

    fn open_clock(&mut self, port: u64) -> Result<(), NoMemory>
        ensures { OnOk result (stand_of self.new
            ≡ record (stand_of self.old) {
              place = ItemPlace.Clock;
              clocks = (stand_of self.old).clocks ++ port ∷ [];
              port = port;
            }) }
    {
        add_port(&mut self.clocks, port)?;
        self.place = ItemPlace::Clock;
        self.port = port;
        Ok(())
    }

    fn open_caller(&mut self, arguments: &Arguments) -> Result<(), NoMemory>
        requires { IsTrue (is_good self.old.ports Verb.Caller arguments.now) }
        ensures { OnOk result (stand_of self.new ≡ stand_after (stand_of self.old) Verb.Caller arguments.now) }
    {
        let port = arguments.second_number();
        let name = name_of(arguments.first());
        self.callers.reserve(1)?;
        self.callers.add(Key { name, port });
        self.place = ItemPlace::Caller;
        self.port = port;
        Ok(())
    }

    fn step(&mut self, count: u64)
        ensures { stand_of self.new
            ≡ record (stand_of self.old) {
              steps_left = (stand_of self.old).steps_left - 1;
              characters_left = left_after (stand_of self.old).characters_left (stand_of self.old).port count;
            } }
    {
        self.steps_left = self.steps_left.saturating_sub(1);
        spend(&mut self.characters_left, self.port, count);
    }

    fn tick(&mut self, count: u64)
        ensures { stand_of self.new
            ≡ record (stand_of self.old) {
              steps_left = (stand_of self.old).steps_left - 1;
              ticks_left = left_after (stand_of self.old).ticks_left (stand_of self.old).port count;
            } }
    {
        self.steps_left = self.steps_left.saturating_sub(1);
        spend(&mut self.ticks_left, self.port, count);
    }
}

fn is_good(ports: u8, verb: Verb, arguments: &Arguments, modes: usize) -> bool
    requires { modes ≡ length (modes_in arguments.now) }
    ensures { result ≡ is_good ports verb arguments.now }
{
    may_have(verb, arguments.count()) && fault_in(ports, verb, arguments, modes).is_none()
}

/// Whether an item may stand at a place. The header stands before the first place alone.
#[inline(always)]
fn may_stand(verb: Verb, place: ItemPlace) -> bool
    ensures { result ≡ may_stand verb place }
{
    match verb {
        Verb::Session => false,
        Verb::Ports => matches!(place, ItemPlace::Head),
        Verb::Flip => matches!(place, ItemPlace::Before),
        Verb::Phase | Verb::End => matches!(place, ItemPlace::Before) || in_phase(place),
        Verb::Line | Verb::Clock | Verb::Caller => in_phase(place),
        Verb::Tick => matches!(place, ItemPlace::Clock),
        Verb::Step(_) => matches!(place, ItemPlace::Line),
        Verb::Call(_) => matches!(place, ItemPlace::Caller),
    }
}

pub(crate) fn in_phase(place: ItemPlace) -> bool
    ensures { result ≡ in_phase place }
{
    matches!(
        place,
        ItemPlace::Phase | ItemPlace::Line | ItemPlace::Clock | ItemPlace::Caller
    )
}

fn holds(ports: &[u64], port: u64) -> bool
    ensures { result ≡ holds ports.now port }
{
    ports.iter().any(|other| *other == port)
}

fn has_key(keys: &[Key], name: &[u8], port: u64) -> bool
    ensures { result ≡ list_any (λ key. same_key name.now port (key_of key)) keys.now }
{
    keys.iter().any(|key| is_key(key, name, port))
}

fn is_key(key: &Key, name: &[u8], port: u64) -> bool
    ensures { result ≡ same_key name.now port (key_of key.now) }
{
    key.port == port && key.name.as_bytes() == name
}

fn callers_on(port: u64, keys: &[Key]) -> usize
    ensures { result ≡ callers_on port (map key_of keys.now) }
{
    keys.iter().filter(|key| key.port == port).count()
}

/// How many characters a line's item lets arrive.
fn arrivals(verb: LineVerb, arguments: &Arguments) -> u64
    ensures { result ≡ arrivals verb arguments.now }
{
    match verb {
        LineVerb::Rx | LineVerb::Rxp | LineVerb::Rxf => arguments.first().len() as u64 / 2,
        LineVerb::Break => 1,
        _ => 0,
    }
}

/// Whether these are the arguments of too many mode words.
fn has_many(verb: CallVerb, count: usize) -> bool
    ensures { result ≡ has_many verb count }
{
    match verb {
        CallVerb::SetModes => count > MOST_MODE_ARGUMENTS,
        _ => false,
    }
}

fn left_on(left: &[u64], port: u64) -> u64
    ensures { result ≡ slice_index left.now port }
{
    left.get(port as usize).copied().unwrap_or(0)
}

fn spend(left: &mut [u64], port: u64, count: u64)
    ensures { left.new ≡ left_after left.old port count }
{
    let place = port as usize;
    if place < left.len() {
        left[place] = left[place].saturating_sub(count);
    }
}

fn add_port(ports: &mut Buffer<u64>, port: u64) -> Result<(), NoMemory>
    ensures { OnOk result (ports.new.items ≡ ports.old.items ++ port ∷ []) }
{
    ports.reserve(1)?;
    ports.add(port);
    Ok(())
}
