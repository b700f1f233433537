//! The wire, held output, and what halts it.

ghost use Rattle.std.specs.Prelude.{◌≡◌, ◌≤◌, ◌<◌, ◌+◌, ◌-◌, [], ◌∷◌, ◌++◌, length, take, false};
ghost use Rattle.std.specs.Prelude.{true, IfOk, OnOk, OnErr, if◌then◌else◌, vec_len, vec_capacity};
ghost use Rattle.tty_base.specs.Sizes.{MOST_HELD};
ghost use Rattle.flow_control.specs.Output.{after_reset, after_start, after_tco_on, with_held_sent};
ghost use Rattle.flow_control.specs.Output.{has_room, idle_output, is_halted, on_wire};
ghost use Rattle.flow_control.specs.Output.{after_release, room_of, after_try, without_front};

use std::alloc::Global;
use std::marker::Model;
use tty_base::sizes::MOST_HELD;
use tty_base::{Bytes, Moves, NoMemory};

/// What a port sends: the wire, which is all that went out and was not taken, and behind it up to 4,096 bytes that
/// wait while output is halted. Two halts can stand, that of STOP and that of TCOOFF (tcflow(3)); the one that goes
/// last lets out what waits, in the order in which it was sent.
///
/// Room on the wire is reserved before bytes are sent, so that only `new` and `reserve` take memory. Contracts see it
/// as `spare`; what each call takes of it at most is its clause `spent`.
#[derive(Debug, Drop)]
pub struct Wire {
    wire: Bytes,
    held: Vec<u8>,
    stopped: bool,
    off: bool,
    noted: bool,
}

impl Model for Wire {
    ghost use Rattle.std.specs.Prelude.{◌≡◌, ◌≤◌, false, [], vec_len, vec_capacity};
    ghost use Rattle.tty_base.specs.Sizes.{MOST_HELD};
    ghost use Rattle.flow_control.specs.Output.{Output};

    ghost Value = { Output };

    ghost view = { λ w. record {
      wire = w.wire.items;
      spare = w.wire.spare;
      held = w.held.items;
      stopped = w.stopped;
      off = w.off;
      noted = w.noted;
    } };

    ghost invariant = { λ w. record {
      bounded : vec_len w.held ≤ MOST_HELD;
      reserved : MOST_HELD ≤ vec_capacity w.held;
      only_halted : w.stopped ≡ false → w.off ≡ false → w.held.items ≡ [];
    } };
}

impl Moves for Wire {}

impl Wire {
    /// An empty wire, without a halt, with room for 4,096 held bytes.
    pub fn new(alloc: Global) -> Result<Wire, NoMemory>
        ensures { IfOk result (λ w. w ≡ idle_output) }
    {
        Ok(Wire {
            wire: Bytes::new(alloc),
            held: Vec::with_capacity(alloc, MOST_HELD)?,
            stopped: false,
            off: false,
            noted: false,
        })
    }

    /// Makes room on the wire for `more` further bytes. Room grows by doubling, and where it is there nothing is done.
    /// `NoMemory` leaves all as it was.
    pub fn reserve(&mut self, more: usize) -> Result<(), NoMemory>
        ensures same { self.new ≡ record self.old { spare = self.new.spare } }
        ensures ok { OnOk result (more ≤ self.new.spare) }
        ensures grows { self.old.spare ≤ self.new.spare }
        ensures err { OnErr result (self.new ≡ self.old) }
    {
        self.wire.reserve(more)
    }

    /// Sends bytes: to the wire, or, while output is halted, to what is held. False comes exactly where output is
    /// halted and the bytes exceed the room; nothing changes then.
    pub fn send(&mut self, bytes: &[u8]) -> bool
        requires { length bytes.now ≤ self.old.spare }
        ensures room { result ≡ has_room self.old bytes.now }
        ensures sent { self.new ≡ after_try self.old bytes.now }
        ensures spent { self.old.spare ≤ self.new.spare + length bytes.now }
    {
        if !self.halted() {
            // one byte and eight are the rule, and a copy of as many as come costs more
            match bytes {
                [byte] => self.wire.add(*byte),
                [a, b, c, d, e, f, g, h] => {
                    self.wire
                        .append([*a, *b, *c, *d, *e, *f, *g, *h].as_slice());
                }
                _ => self.wire.append(bytes),
            }
            return true;
        }
        if bytes.len() > self.room() {
            return false;
        }
        hold(&mut self.held, bytes);
        true
    }

    /// Sends one byte, as `send` does.
    #[inline(always)]
    pub fn send_byte(&mut self, byte: u8) -> bool
        requires { 0 < self.old.spare }
        ensures room { result ≡ has_room self.old (byte ∷ []) }
        ensures sent { self.new ≡ after_try self.old (byte ∷ []) }
        ensures spent { self.old.spare ≤ self.new.spare + 1 }
    {
        if self.halted() {
            return self.send([byte].as_slice());
        }
        self.wire.add(byte);
        true
    }

    /// STOP halts output.
    pub fn stop(&mut self)
        ensures { self.new ≡ record self.old { stopped = true } }
    {
        self.stopped = true;
    }

    /// START resumes output that STOP halted.
    pub fn start(&mut self)
        requires { length self.old.held ≤ self.old.spare }
        ensures after { self.new ≡ after_start self.old }
        // What goes to the wire was held.
        ensures spent { self.old.spare + length self.new.held ≤ self.new.spare + length self.old.held }
    {
        if !self.off {
            self.flush();
        }
        self.stopped = false;
    }

    /// Resumes output that STOP halted, where this applies.
    pub fn start_where(&mut self, applies: bool)
        requires { length self.old.held ≤ self.old.spare }
        ensures after { self.new ≡ (if applies then after_start self.old else self.old) }
        ensures spent { self.old.spare + length self.new.held ≤ self.new.spare + length self.old.held }
    {
        if applies {
            self.start();
        }
    }

    /// TCOOFF halts output.
    pub fn tco_off(&mut self)
        ensures { self.new ≡ record self.old { off = true } }
    {
        self.off = true;
    }

    /// TCOON resumes output that TCOOFF halted, also where STOP halted it too. Without TCOOFF it does nothing.
    pub fn tco_on(&mut self)
        requires { length self.old.held ≤ self.old.spare }
        ensures after { self.new ≡ after_tco_on self.old }
        ensures spent { self.old.spare + length self.new.held ≤ self.new.spare + length self.old.held }
    {
        if self.off {
            self.release();
        }
    }

    /// Clears both halts and the note, and drops the held bytes.
    pub fn reset(&mut self)
        ensures { self.new ≡ after_reset self.old }
    {
        self.held.clear();
        self.stopped = false;
        self.off = false;
        self.noted = false;
    }

    /// Clears both halts and sends the held bytes.
    pub fn release(&mut self)
        requires { length self.old.held ≤ self.old.spare }
        ensures after { self.new ≡ after_release self.old }
        ensures spent { self.old.spare + length self.new.held ≤ self.new.spare + length self.old.held }
    {
        self.flush();
        self.stopped = false;
        self.off = false;
    }

    /// Drops the held bytes.
    pub fn drop_held(&mut self)
        ensures { self.new ≡ record self.old { held = [] } }
    {
        self.held.clear();
    }

    /// Puts one byte on the wire, past a halt.
    pub fn urgent(&mut self, b: u8)
        requires { 0 < self.old.spare }
        ensures after { self.new ≡ on_wire self.old (b ∷ []) }
        ensures spent { self.old.spare ≤ self.new.spare + 1 }
    {
        self.wire.add(b);
    }

    /// How many more bytes can be held.
    pub fn room(&self) -> usize
        ensures { result ≡ room_of self.now }
    {
        MOST_HELD - self.held.len()
    }

    /// How many bytes are held.
    pub fn held(&self) -> usize
        ensures count { result ≡ length self.now.held }
        ensures bounded { result ≤ MOST_HELD }
    {
        self.held.len()
    }

    /// Whether output is halted. Without a halt nothing is held.
    pub fn halted(&self) -> bool
        ensures value { result ≡ is_halted self.now }
        ensures nothing_held { is_halted self.now ≡ false → self.now.held ≡ [] }
    {
        self.stopped || self.off
    }

    /// The bytes that went to the wire and were not taken, in order.
    pub fn wire(&self) -> &[u8]
        ensures { result.now ≡ self.now.wire }
    {
        self.wire.as_slice()
    }

    /// Moves the first `n` bytes of the wire to the end of `out`, for a user who runs for ever. Their room is free
    /// again.
    pub fn take_front(&mut self, n: usize, out: &mut Bytes)
        requires within { n ≤ length self.old.wire }
        requires room { n ≤ out.old.spare }
        ensures front { out.new ≡ record { items = out.old.items ++ take n self.old.wire; spare = out.old.spare - n } }
        ensures rest { self.new ≡ without_front n self.old }
    {
        self.wire.take_front(n, out);
    }

    /// The bytes that went to the wire and were not taken, as a list of their own. It takes no memory.
    pub fn into_wire(self) -> Bytes
        ensures { result.items ≡ self.wire }
    {
        let Wire {
            wire,
            held: _,
            stopped: _,
            off: _,
            noted: _,
        } = self;
        wire
    }

    /// Whether it is noted that STOP was sent for ixoff.
    pub fn noted(&self) -> bool
        ensures { result ≡ self.now.noted }
    {
        self.noted
    }

    /// Sets or clears that note.
    pub fn set_noted(&mut self, on: bool)
        ensures { self.new ≡ record self.old { noted = on } }
    {
        self.noted = on;
    }

    // Sends the held bytes.
    fn flush(&mut self)
        requires { length self.old.held ≤ self.old.spare }
        ensures { self.new ≡ with_held_sent self.old }
    {
        self.wire.append(self.held.as_slice());
        self.held.clear();
    }
}

// Adds to the held bytes, in room that was reserved.
fn hold(held: &mut Vec<u8>, bytes: &[u8])
    requires { vec_len held.old + length bytes.now ≤ vec_capacity held.old }
    ensures items { held.new.items ≡ held.old.items ++ bytes.now }
    ensures capacity { vec_capacity held.old ≤ vec_capacity held.new }
{
    if let [byte] = bytes {
        held.push_reserved(*byte);
        return;
    }
    match held.extend_from_slice(bytes) {
        Ok(()) => {}
        Err(_) => unreachable!(),
    }
}
