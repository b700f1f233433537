//! Packets from the characters of a line.

ghost use Rattle.std.specs.Prelude.{◌≡◌, ◌≤◌, ◌<◌, ◌+◌, slice_index_or, false, IsTrue, ◌∷◌};
ghost use Rattle.std.specs.Prelude.{◌++◌, ◌≢◌, [], List, length, take, IfOk};
ghost use Rattle.std.specs.List.{AllByRecursion};
ghost use Rattle.char_lanes.specs.Runs.{IsInBounds};
ghost use Rattle.slip_frames.specs.Slip.{byte_after_escape, outcomes, max_packet};
ghost use Rattle.slip_frames.specs.Decoding.{WasFed, outcomes_by_answer, answer_to, decoding_after_character};
ghost use Rattle.slip_frames.specs.Decoding.{decoding_after_characters, IsText, new_decoding, spelling};
ghost use Rattle.slip_frames.specs.Decoding.{bad_piece, with_byte, with_text_byte, answer_to_end, packet_in};

use crate::{END, ESC, ESC_END, ESC_ESC, MAX_PACKET};
use char_lanes::push_run;
use std::alloc::Global;
use std::marker::Model;
use tty_base::{Flag, Flagged, NoMemory, front_of};

/// What one more character of the line gave.
#[derive(Clone, Copy, Debug, PartialEq, Eq)]
pub enum Fed {
    /// The piece goes on.
    Going,
    /// The piece ended and spells nothing.
    Empty,
    /// The piece ended and spells a packet.
    Packet,
    /// The piece ended, and has a flagged character or spells more than a packet has.
    Bad,
}

#[derive(Clone, Copy, Debug, PartialEq, Eq)]
enum Parse {
    /// A piece whose bytes are kept.
    Plain,
    /// A piece whose bytes are kept, and whose last character is an ESC.
    Escaped,
    /// A piece that is bad already.
    Spoilt,
    /// Nothing of a new piece, and the bytes are the packet that has just ended.
    Ended,
}

/// Reads SLIP packets (RFC 1055) from the characters of a line. A good END ends a piece of the line; what the
/// piece was is told by the answer to that END. ESC before a byte that RFC 1055 doesn't name is left out, and
/// so is an ESC at a piece's end. A flagged character ends no piece and spoils the one that it is in.
#[derive(Drop)]
pub struct Decoder {
    bytes: Vec<u8>,
    piece: Parse,
}

impl Model for Decoder {
    ghost use Rattle.std.specs.Prelude.{◌≤◌};
    ghost use Rattle.slip_frames.specs.Decoding.{Decoding};

    ghost Value = { Decoding };

    ghost use Rattle.slip_frames.specs.Inside.{decoding_of, IsReserved};

    ghost view = { decoding_of };

    ghost invariant = { IsReserved };
}

impl Decoder {
    /// A decoder that was fed nothing, with room for the longest packet: `feed` takes no memory.
    pub fn new(alloc: Global) -> Result<Decoder, NoMemory>
        ensures fed { IfOk result (λ d. WasFed d []) }
        ensures value { IfOk result (λ d. d ≡ new_decoding) }
    {
        Ok(Decoder {
            bytes: Vec::with_capacity(alloc, MAX_PACKET)?,
            piece: Parse::Plain,
        })
    }

    /// Takes the next character. With its answer the decoder has told, in order, what each piece of all that it
    /// was fed is, and nothing else.
    pub fn feed(&mut self, c: Flagged) -> Fed
        ensures fed { (list : List Flagged) → WasFed self.old list → WasFed self.new (list ++ c ∷ []) }
        ensures outcomes { (list : List Flagged) → WasFed self.old list →
            outcomes (list ++ c ∷ []) ≡ outcomes list ++ outcomes_by_answer result self.new.packet }

        // What one more character makes of it, for what keeps a decoder.
        ensures result { result ≡ answer_to self.old.piece c }
        ensures after { self.new ≡ decoding_after_character self.old c }
    {
        self.step(c)
    }

    /// Takes the characters at the front that stand for themselves within a piece, as far as a packet has room.
    /// Answers how many; each gave [`Fed::Going`].
    #[inline(always)]
    pub fn feed_run(&mut self, chars: &[Flagged]) -> usize
        ensures within { result ≤ length chars.now }
        ensures text { AllByRecursion IsText (take result chars.now) }
        ensures after { self.new ≡ decoding_after_characters self.old (take result chars.now) }
    {
        let room = match self.piece {
            Parse::Plain => MAX_PACKET - self.bytes.len(),
            Parse::Ended => MAX_PACKET,
            Parse::Escaped | Parse::Spoilt => return 0,
        };
        let chars = front_of(chars, chars.len().min(room));
        if !starts_with_text(chars) {
            return 0;
        }
        self.forget_packet();
        let count = push_run(&mut self.bytes, chars, 0, u8::MAX, [END, ESC].as_slice());
        self.piece = Parse::Plain;
        count
    }

    /// The packet that the last character ended, or nothing where it ended none.
    pub fn packet(&self) -> &[u8]
        ensures packet { result.now ≡ self.now.packet }
        ensures short { length result.now ≤ max_packet }
    {
        match self.piece {
            Parse::Ended => self.bytes.as_slice(),
            _ => &[],
        }
    }

    fn step(&mut self, c: Flagged) -> Fed
        ensures result { result ≡ answer_to self.old.piece c }
        ensures after { self.new ≡ decoding_after_character self.old c }
    {
        self.forget_packet();
        match c.flag {
            Flag::Normal if c.byte == END => return self.end_piece(),
            Flag::Normal => self.add_byte(c.byte),
            Flag::Break | Flag::Parity | Flag::Frame | Flag::Overrun => self.piece = Parse::Spoilt,
        }
        Fed::Going
    }

    fn forget_packet(&mut self)
        ensures { self.new ≡ record self.old { packet = [] } }
    {
        if matches!(self.piece, Parse::Ended) {
            self.bytes.clear();
            self.piece = Parse::Plain;
        }
    }

    fn end_piece(&mut self) -> Fed
        requires { self.old.packet ≡ [] }
        ensures result { result ≡ answer_to_end self.old.piece }
        ensures after { self.new ≡ record { piece = spelling [] false; packet = packet_in self.old.piece } }
    {
        if matches!(self.piece, Parse::Spoilt) {
            self.bytes.clear();
            self.piece = Parse::Plain;
            return Fed::Bad;
        }
        self.piece = Parse::Ended;
        if self.bytes.is_empty() {
            Fed::Empty
        } else {
            Fed::Packet
        }
    }

    fn add_byte(&mut self, b: u8)
        requires { self.old.packet ≡ [] }
        ensures { self.new ≡ record { piece = with_byte self.old.piece b; packet = [] } }
    {
        match self.piece {
            Parse::Spoilt => {}
            Parse::Escaped => self.keep(byte_after_escape(b)),
            Parse::Plain | Parse::Ended => match b {
                ESC => self.piece = Parse::Escaped,
                _ => self.keep(b),
            },
        }
    }

    fn keep(&mut self, b: u8)
        requires none { self.old.packet ≡ [] }
        requires going { self.old.piece ≢ bad_piece }
        ensures { self.new ≡ record { piece = with_text_byte (packet_in self.old.piece) b; packet = [] } }
    {
        if self.bytes.len() < MAX_PACKET {
            self.bytes.push_reserved(b);
            self.piece = Parse::Plain;
        } else {
            self.piece = Parse::Spoilt;
        }
    }
}

/// What a byte after [`ESC`] stands for.
fn byte_after_escape(b: u8) -> u8
    ensures { result ≡ byte_after_escape b }
{
    match b {
        ESC_END => END,
        ESC_ESC => ESC,
        _ => b,
    }
}

/// Whether a good character stands for itself within a piece.
fn is_text(c: Flagged) -> bool
    ensures { IsTrue result → IsInBounds 0 255 (END ∷ ESC ∷ []) c }
{
    match c.flag {
        Flag::Normal => c.byte != END && c.byte != ESC,
        Flag::Break | Flag::Parity | Flag::Frame | Flag::Overrun => false,
    }
}

/// Whether there is a first character, and it stands for itself within a piece.
#[inline(always)]
fn starts_with_text(chars: &[Flagged]) -> bool
    ensures some { IsTrue result → 0 < length chars.now }
    ensures text { (c : Flagged) → IsTrue result → IsInBounds 0 255 (END ∷ ESC ∷ []) (slice_index_or chars.now 0 c) }
{
    match chars {
        [first, ..] => is_text(*first),
        [] => false,
    }
}
