//! Calls in a list.

ghost use Rattle.std.specs.Prelude.{◌≡◌, ◌<◌, Some, [], ◌∷◌, ◌++◌, IfOk, OnOk, OnErr, length, slice_get};
ghost use Rattle.std.specs.Option.{option_map};
ghost use Rattle.tty_calls.specs.Plain.{call_of};
ghost use Rattle.tty_calls.specs.Kept.{IsWithinLists, kept_in};
ghost use Rattle.tty_calls.specs.Parts.{Extends};

use super::calls::{Access, Act, Call, Queue, When};
use super::parts::{ListPart, keep, part_in};
use std::alloc::Global;
use std::marker::Model;
use tty_base::{Moves, NoMemory};
use tty_modes::Word;

/// A call that names parts of lists.
#[derive(Clone, Copy)]
enum KeptCall {
    Open {
        h: u8,
        access: Access,
        nonblock: bool,
    },
    Close {
        h: u8,
    },
    Read {
        h: u8,
        n: u32,
    },
    Write {
        h: u8,
        bytes: ListPart,
    },
    GetModes {
        h: u8,
    },
    SetModes {
        h: u8,
        when: When,
        words: ListPart,
    },
    GetDisc {
        h: u8,
    },
    SetDisc {
        h: u8,
        number: u32,
    },
    Flush {
        h: u8,
        queue: Queue,
    },
    Xonc {
        h: u8,
        act: Act,
    },
    Inq {
        h: u8,
    },
    Outq {
        h: u8,
    },
    Excl {
        h: u8,
    },
    Nxcl {
        h: u8,
    },
    Drain {
        h: u8,
    },
    Counts {
        h: u8,
    },
    Vhangup {
        h: u8,
    },
    SendPacket {
        h: u8,
        bytes: ListPart,
    },
    TakePacket {
        h: u8,
    },
}

/// Calls, in order. One takes twelve bytes; the bytes and the mode words of all stand in a list each.
#[derive(Drop)]
pub struct Calls {
    kept: Vec<KeptCall>,
    bytes: Vec<u8>,
    words: Vec<Word>,
}

impl Model for Calls {
    ghost use Rattle.std.specs.Prelude.{All, length, map};
    ghost use Rattle.tty_calls.specs.Kept.{CallList, IsWithinLists, kept_in};

    ghost Value = { CallList };

    ghost view = { λ c. record { items = map (kept_in c.bytes.items c.words.items) c.kept.items } };

    ghost invariant = { λ c. All (IsWithinLists (length c.bytes.items) (length c.words.items)) c.kept.items };
}

impl Moves for Calls {}

/// A call that was kept, beside the lists that it names parts of.
#[inline(always)]
fn lent<'a>(bytes: &'a [u8], words: &'a [Word], kept: &KeptCall) -> Call<'a>
    requires { IsWithinLists (length bytes.now) (length words.now) kept.now }
    ensures { call_of result ≡ kept_in bytes.now words.now kept.now }
{
    match *kept {
        KeptCall::Open {
            h,
            access,
            nonblock,
        } => Call::Open {
            h,
            access,
            nonblock,
        },
        KeptCall::Close { h } => Call::Close { h },
        KeptCall::Read { h, n } => Call::Read { h, n },
        KeptCall::Write { h, bytes: part } => Call::Write {
            h,
            bytes: part_in(bytes, part),
        },
        KeptCall::GetModes { h } => Call::GetModes { h },
        KeptCall::SetModes {
            h,
            when,
            words: part,
        } => Call::SetModes {
            h,
            when,
            words: part_in(words, part),
        },
        KeptCall::GetDisc { h } => Call::GetDisc { h },
        KeptCall::SetDisc { h, number } => Call::SetDisc { h, number },
        KeptCall::Flush { h, queue } => Call::Flush { h, queue },
        KeptCall::Xonc { h, act } => Call::Xonc { h, act },
        KeptCall::Inq { h } => Call::Inq { h },
        KeptCall::Outq { h } => Call::Outq { h },
        KeptCall::Excl { h } => Call::Excl { h },
        KeptCall::Nxcl { h } => Call::Nxcl { h },
        KeptCall::Drain { h } => Call::Drain { h },
        KeptCall::Counts { h } => Call::Counts { h },
        KeptCall::Vhangup { h } => Call::Vhangup { h },
        KeptCall::SendPacket { h, bytes: part } => Call::SendPacket {
            h,
            bytes: part_in(bytes, part),
        },
        KeptCall::TakePacket { h } => Call::TakePacket { h },
    }
}

impl Calls {
    /// No calls. It takes no memory.
    pub fn new(alloc: Global) -> Calls
        ensures { result ≡ record { items = [] } }
    {
        Calls {
            kept: Vec::new(alloc),
            bytes: Vec::new(alloc),
            words: Vec::new(alloc),
        }
    }

    /// How many calls there are.
    #[inline(always)]
    pub fn len(&self) -> usize
        ensures { result ≡ length self.now.items }
    {
        self.kept.len()
    }

    /// The call at a place, counted from 0.
    #[inline(always)]
    pub fn get(&self, place: usize) -> Option<Call<'_>>
        ensures { option_map call_of result ≡ slice_get self.now.items place }
    {
        let kept = self.kept.as_slice().get(place)?;
        let bytes = self.bytes.as_slice();
        let words = self.words.as_slice();
        Some(lent(bytes, words, kept))
    }

    /// The call at a place, counted from 0, where one stands.
    #[inline(always)]
    pub fn at(&self, place: usize) -> Call<'_>
        requires { place < length self.now.items }
        ensures { slice_get self.now.items place ≡ Some (call_of result) }
    {
        let kept = &self.kept.as_slice()[place];
        let bytes = self.bytes.as_slice();
        let words = self.words.as_slice();
        lent(bytes, words, kept)
    }

    /// Adds a call. `NoMemory` leaves the list as it was.
    #[inline(always)]
    pub fn add(&mut self, call: &Call) -> Result<(), NoMemory>
        ensures ok { OnOk result (self.new.items ≡ self.old.items ++ call_of call.now ∷ []) }
        ensures err { OnErr result (self.new ≡ self.old) }
    {
        self.kept.reserve(1)?;
        let kept = kept_of(&mut self.bytes, &mut self.words, call)?;
        self.kept.push_reserved(kept);
        Ok(())
    }
}

/// A call as it is kept, with its bytes and words added to those of others.
#[inline(always)]
fn kept_of(bytes: &mut Vec<u8>, words: &mut Vec<Word>, call: &Call) -> Result<KeptCall, NoMemory>
    ensures grows { Extends bytes.old.items bytes.new.items × Extends words.old.items words.new.items }
    ensures call { IfOk result (λ kept. kept_in bytes.new.items words.new.items kept ≡ call_of call.now) }
    ensures kept { IfOk result (λ kept. IsWithinLists (length bytes.new.items) (length words.new.items) kept) }
    ensures err { OnErr result ((bytes.new.items ≡ bytes.old.items) × (words.new.items ≡ words.old.items)) }
{
    Ok(match *call {
        Call::Open {
            h,
            access,
            nonblock,
        } => KeptCall::Open {
            h,
            access,
            nonblock,
        },
        Call::Close { h } => KeptCall::Close { h },
        Call::Read { h, n } => KeptCall::Read { h, n },
        Call::Write { h, bytes: more } => KeptCall::Write {
            h,
            bytes: keep(bytes, more)?,
        },
        Call::GetModes { h } => KeptCall::GetModes { h },
        Call::SetModes {
            h,
            when,
            words: more,
        } => KeptCall::SetModes {
            h,
            when,
            words: keep(words, more)?,
        },
        Call::GetDisc { h } => KeptCall::GetDisc { h },
        Call::SetDisc { h, number } => KeptCall::SetDisc { h, number },
        Call::Flush { h, queue } => KeptCall::Flush { h, queue },
        Call::Xonc { h, act } => KeptCall::Xonc { h, act },
        Call::Inq { h } => KeptCall::Inq { h },
        Call::Outq { h } => KeptCall::Outq { h },
        Call::Excl { h } => KeptCall::Excl { h },
        Call::Nxcl { h } => KeptCall::Nxcl { h },
        Call::Drain { h } => KeptCall::Drain { h },
        Call::Counts { h } => KeptCall::Counts { h },
        Call::Vhangup { h } => KeptCall::Vhangup { h },
        Call::SendPacket { h, bytes: more } => KeptCall::SendPacket {
            h,
            bytes: keep(bytes, more)?,
        },
        Call::TakePacket { h } => KeptCall::TakePacket { h },
    })
}
