//! A source and a sink in memory, for tests.
ghost use Rattle.std.specs.Prelude.{◌≡◌, ◌⊎◌, [], Some, Ok, Err, ◌+◌, ◌-◌, ◌++◌, ◌≤◌, ◌<◌};
ghost use Rattle.std.specs.Prelude.{◌↔◌, min, take, drop, length, IfOk, OnErr, IsErr, Contains};
ghost use Rattle.tty_base.specs.Outside.{Rose, Gives};
ghost use Rattle.tty_base.specs.Memory.{call_after, faults_after};

use super::buffers::{Bytes, NoMemory};
use super::sinks::Sink;
use super::sources::{Failed, Source};
use std::alloc::Global;
use std::marker::Model;

/// A source over bytes in memory, for tests: it gives at most `piece` bytes at a call, and fails at
/// the calls whose numbers, from 0, it was given.
#[derive(Drop)]
pub struct MemSource {
    bytes: Bytes,
    at: usize,
    piece: usize,
    fails: Vec<u32>,
    calls: u32,
    faults: u64,
}

impl Model for MemSource {
    ghost use Rattle.std.specs.Prelude.{◌≤◌, drop, length};
    ghost use Rattle.tty_base.specs.Memory.{MemoryIn};

    ghost Value = { MemoryIn };

    ghost view = { λ s. record {
      left = drop s.at s.bytes.items;
      piece = s.piece;
      fails = s.fails.items;
      calls = s.calls;
      faults = s.faults;
    } };

    ghost invariant = { λ s. (s.at ≤ length s.bytes.items) × (1 ≤ s.piece) };
}

impl MemSource {
    /// A source of these bytes. `piece` is at least 1.
    pub fn new(bytes: Bytes, piece: usize, fails: Vec<u32>) -> MemSource
        requires { 1 ≤ piece }
        ensures { result ≡ record { left = bytes.items; piece = piece; fails = fails.items; calls = 0; faults = 0 } }
    {
        MemSource {
            bytes,
            at: 0,
            piece,
            fails,
            calls: 0,
            faults: 0,
        }
    }
}

impl Source for MemSource {
    ghost left = { λ s. Some s.left };

    ghost faults = { λ s. s.faults };

    fn read(&mut self, buf: &mut [u8]) -> Result<usize, Failed>
        ensures count { self.old.faults ≤ self.new.faults }
        ensures room { IfOk result (λ k. k ≤ length buf.old) }
        ensures gives { IfOk result (λ k. Gives k self.old.left buf.new (Some self.new.left)) }
        ensures end { IfOk result (λ k. k ≡ 0 → 0 < length buf.old → self.old.left ≡ []) }
        ensures failed { OnErr result (Rose self.old.faults self.new.faults) }
        ensures same { OnErr result (Some self.new.left ≡ Some self.old.left) }

        ensures fails { IsErr result ↔ Contains self.old.fails self.old.calls }
        ensures ok { IfOk result (λ k. (k ≡ min (min (length self.old.left) self.old.piece) (length buf.old))
            × (self.new ≡ record self.old { left = drop k self.old.left; calls = call_after self.old.calls })) }
        ensures err { OnErr result (self.new ≡ record self.old {
          calls = call_after self.old.calls;
          faults = faults_after self.old.faults;
        }) }
    {
        let call = self.calls;
        self.calls = call.saturating_add(1);
        if self.fails.contains(&call) {
            self.faults = self.faults.saturating_add(1);
            return Err(Failed);
        }
        let rest = &self.bytes.as_slice()[self.at..];
        let count = rest.len().min(self.piece).min(buf.len());
        buf[..count].copy_from_slice(&rest[..count]);
        self.at += count;
        Ok(count)
    }
}

/// A sink into memory, for tests: it takes at most `piece` bytes at a call and `room` bytes in all,
/// and fails at the calls whose numbers, from 0, it was given, and where no room is left.
#[derive(Drop)]
pub struct MemSink {
    bytes: Bytes,
    room: usize,
    piece: usize,
    fails: Vec<u32>,
    calls: u32,
    faults: u64,
}

impl Model for MemSink {
    ghost use Rattle.std.specs.Prelude.{◌≤◌};
    ghost use Rattle.tty_base.specs.Memory.{MemoryOut};

    ghost Value = { MemoryOut };

    ghost view = { λ s. record {
      given = s.bytes.items;
      room = s.room;
      piece = s.piece;
      fails = s.fails.items;
      calls = s.calls;
      faults = s.faults;
    } };

    ghost invariant = { λ s. (1 ≤ s.piece) × (s.room ≤ s.bytes.spare) };
}

impl MemSink {
    /// A sink that was given nothing. `piece` is at least 1.
    pub fn new(
        alloc: Global,
        piece: usize,
        room: usize,
        fails: Vec<u32>,
    ) -> Result<MemSink, NoMemory>
        requires { 1 ≤ piece }
        ensures { IfOk result (λ s. s ≡ record {
          given = [];
          room = room;
          piece = piece;
          fails = fails.items;
          calls = 0;
          faults = 0;
        }) }
    {
        let mut bytes = Bytes::new(alloc);
        bytes.reserve(room)?;
        Ok(MemSink {
            bytes,
            room,
            piece,
            fails,
            calls: 0,
            faults: 0,
        })
    }

    /// The bytes given so far.
    pub fn given(&self) -> &[u8]
        ensures { result.now ≡ self.now.given }
    {
        self.bytes.as_slice()
    }
}

impl Sink for MemSink {
    ghost given = { λ s. Some s.given };

    ghost faults = { λ s. s.faults };

    fn write(&mut self, bytes: &[u8]) -> Result<usize, Failed>
        requires { 0 < length bytes.now }
        ensures count { self.old.faults ≤ self.new.faults }
        ensures some { IfOk result (λ k. 0 < k) }
        ensures room { IfOk result (λ k. k ≤ length bytes.now) }
        ensures takes { IfOk result (λ k. Some self.new.given ≡ Some (self.old.given ++ take k bytes.now)) }
        ensures failed { OnErr result (Rose self.old.faults self.new.faults) }
        ensures same { OnErr result (Some self.new.given ≡ Some self.old.given) }

        ensures fails { IsErr result ↔ (self.old.room ≡ 0) ⊎ Contains self.old.fails self.old.calls }
        ensures ok { IfOk result (λ k. (k ≡ min (min (length bytes.now) self.old.piece) self.old.room)
            × (self.new ≡ record self.old {
              given = self.old.given ++ take k bytes.now;
              room = self.old.room - k;
              calls = call_after self.old.calls;
            })) }
        ensures err { OnErr result (self.new ≡ record self.old {
          calls = call_after self.old.calls;
          faults = faults_after self.old.faults;
        }) }
    {
        let call = self.calls;
        self.calls = call.saturating_add(1);
        if self.room == 0 || self.fails.contains(&call) {
            self.faults = self.faults.saturating_add(1);
            return Err(Failed);
        }
        let count = bytes.len().min(self.piece).min(self.room);
        self.room -= count;
        self.bytes.append(&bytes[..count]);
        Ok(count)
    }
}
