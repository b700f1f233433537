//! N_SLIP: characters of the line become packets that wait, and packets are sent.

ghost use Rattle.std.specs.Prelude.{◌≡◌, ◌+◌, ◌-◌, ◌<◌, ◌≤◌, [], ◌∷◌, ◌++◌, List, length};
ghost use Rattle.std.specs.Prelude.{map, take, drop, nat_le, IfOk, if◌then◌else◌};
ghost use Rattle.slip_frames.specs.Slip.{max_packet};
ghost use Rattle.flow_control.specs.Output.{room_of, after_send};
ghost use Rattle.tty_base.specs.declared.counters.Counts.{Counts};
ghost use Rattle.flow_control.specs.Counting.{with_count};
ghost use Rattle.flow_control.specs.declared.tally.Counter.TheVariants.{PacketOut};
ghost use Rattle.n_slip.specs.Discipline.{most_waiting, fresh_slip, first_packet, after_character, after_characters};
ghost use Rattle.n_slip.specs.Discipline.{counts_with_flag, counts_after_character, counts_after_characters};
ghost use Rattle.n_slip.specs.History.{Happening, HasSeen, character, packet_take, flush};

use crate::queue::{MOST, Queue};
use flow_control::{Counter, Tally, Wire};
use slip_frames::{Decoder, Fed};
use std::alloc::Global;
use std::marker::Model;
use tty_base::{Bytes, Flag, Flagged, NoMemory, rest_of};

/// N_SLIP on a port: it receives packets, of which at most 64 wait to be taken, and sends packets. It takes all its
/// memory in `new`.
#[derive(Drop)]
pub struct NSlip {
    decoder: Decoder,
    queue: Queue,
}

impl Model for NSlip {
    ghost use Rattle.n_slip.specs.Discipline.{Slip};

    ghost Value = { Slip };

    ghost view = { λ s. record { piece = s.decoder.piece; packets = s.queue } };
}

impl NSlip {
    /// Nothing was received, and there is room for 64 packets of the longest.
    pub fn new(alloc: Global) -> Result<NSlip, NoMemory>
        ensures value { IfOk result (λ slip. slip ≡ fresh_slip) }
        ensures seen { IfOk result (λ slip. HasSeen slip []) }
    {
        Ok(NSlip {
            decoder: Decoder::new(alloc)?,
            queue: Queue::new(alloc)?,
        })
    }

    /// Takes a character of the line. Where it ends a packet, the packet waits, or is dropped where 64 wait already.
    /// It counts the character's flag, and what the piece was that it ended.
    pub fn receive(&mut self, c: Flagged, tally: &mut Tally)
        ensures after { self.new ≡ after_character self.old c }
        ensures counts { tally.new ≡ record tally.old { counts = counts_after_character self.old c tally.old.counts } }
        ensures seen { (events : List Happening)
            → HasSeen self.old events
            → HasSeen self.new (events ++ character c ∷ []) }
    {
        self.step(c, tally)
    }

    /// Takes characters of the line, one after the other: all of them, since N_SLIP accepts every one.
    pub fn receive_all(&mut self, chars: &[Flagged], tally: &mut Tally)
        ensures after { self.new ≡ after_characters self.old chars.now }
        ensures counts { tally.new
            ≡ record tally.old { counts = counts_after_characters self.old chars.now tally.old.counts } }
        ensures seen { (events : List Happening) → HasSeen self.old events →
            HasSeen self.new (events ++ map character chars.now) }
    {
        let mut done = 0;
        while done < chars.len() {
            done += self.receive_some(rest_of(chars, done), tally);
        }
    }

    /// How many packets wait.
    pub fn waiting(&self) -> usize
        ensures len { result ≡ length self.now.packets }
        ensures few { result ≤ most_waiting }
    {
        self.queue.len()
    }

    /// The length of the first packet that waits, or 0 where none does.
    pub fn first_len(&self) -> usize
        ensures first { result ≡ length (first_packet self.now) }
        ensures short { result ≤ max_packet }
    {
        self.queue.first_len()
    }

    /// Takes the oldest packet that waits: its bytes go to the end of `out`, in room for [`NSlip::first_len`] of
    /// them. The answer is its length.
    pub fn take_packet(&mut self, out: &mut Bytes) -> u32
        requires some { 0 < length self.old.packets }
        requires room { length (first_packet self.old) ≤ out.old.spare }
        ensures len { result ≡ length (first_packet self.old) }
        ensures out { out.new
            ≡ record {
              items = out.old.items ++ first_packet self.old;
              spare = out.old.spare - length (first_packet self.old);
            } }
        ensures after { self.new ≡ record self.old { packets = drop 1 self.old.packets } }
        ensures seen { (events : List Happening)
            → HasSeen self.old events
            → HasSeen self.new (events ++ packet_take ∷ []) }
    {
        self.queue.take(out)
    }

    /// Sends a packet that was encoded, whole and counted, or else answers false and changes nothing: exactly where
    /// its bytes exceed the room for held output.
    pub fn send_packet(&mut self, encoded: &[u8], wire: &mut Wire, tally: &mut Tally) -> bool
        requires { length encoded.now ≤ wire.old.spare }
        ensures room { result ≡ nat_le (length encoded.now) (room_of wire.old) }
        ensures wire { wire.new ≡ (if result then after_send wire.old encoded.now else wire.old) }
        ensures counts { tally.new
            ≡ (if result then record tally.old { counts = with_count tally.old.counts PacketOut 1 } else tally.old) }
        ensures spent { wire.old.spare ≤ wire.new.spare + length encoded.now }
        ensures same { self.new ≡ self.old }
    {
        if encoded.len() > wire.room() {
            return false;
        }
        let _sent = wire.send(encoded);
        tally.count(Counter::PacketOut, 1);
        true
    }

    /// Drops the packets that wait. A piece that has begun goes on.
    pub fn flush_in(&mut self)
        ensures after { self.new ≡ record self.old { packets = [] } }
        ensures seen { (events : List Happening) → HasSeen self.old events → HasSeen self.new (events ++ flush ∷ []) }
    {
        self.queue.clear();
    }

    /// Takes a run at the front, or else the first character. Answers how many.
    #[inline(always)]
    fn receive_some(&mut self, chars: &[Flagged], tally: &mut Tally) -> usize
        requires some { 0 < length chars.now }
        ensures some { 0 < result }
        ensures within { result ≤ length chars.now }
        ensures after { self.new ≡ after_characters self.old (take result chars.now) }
        ensures counts { tally.new
            ≡ record tally.old { counts = counts_after_characters self.old (take result chars.now) tally.old.counts } }
    {
        let count = self.receive_run(chars);
        if count > 0 {
            return count;
        }
        self.step(chars[0], tally);
        1
    }

    /// Takes the characters at the front that stand for themselves within a piece, all at once: none of them is
    /// counted. Answers how many: none, where the first ends a piece, is flagged or an ESC or after one, or the piece
    /// is spoilt.
    #[inline(always)]
    fn receive_run(&mut self, chars: &[Flagged]) -> usize
        ensures within { result ≤ length chars.now }
        ensures after { self.new ≡ after_characters self.old (take result chars.now) }
        ensures counts { (counts : Counts) → counts_after_characters self.old (take result chars.now) counts ≡ counts }
    {
        self.decoder.feed_run(chars)
    }

    fn step(&mut self, c: Flagged, tally: &mut Tally)
        ensures after { self.new ≡ after_character self.old c }
        ensures counts { tally.new ≡ record tally.old { counts = counts_after_character self.old c tally.old.counts } }
    {
        count_flag(c.flag, tally);
        match self.decoder.feed(c) {
            Fed::Going | Fed::Empty => {}
            Fed::Packet if self.queue.len() < MOST => {
                self.queue.push(self.decoder.packet());
                tally.count(Counter::PacketIn, 1);
            }
            Fed::Packet => tally.count(Counter::PacketFull, 1),
            Fed::Bad => tally.count(Counter::PacketBad, 1),
        }
    }
}

fn count_flag(flag: Flag, tally: &mut Tally)
    ensures { tally.new ≡ record tally.old { counts = counts_with_flag tally.old.counts flag } }
{
    match flag {
        Flag::Normal => {}
        Flag::Break => tally.count(Counter::Break, 1),
        Flag::Parity => tally.count(Counter::Parity, 1),
        Flag::Frame => tally.count(Counter::Frame, 1),
        Flag::Overrun => tally.count(Counter::Mark, 1),
    }
}
