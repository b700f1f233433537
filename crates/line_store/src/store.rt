//! Unread input: bytes, and the ends of pieces among them.

ghost use Rattle.std.specs.Prelude.{◌≡◌, ◌+◌, ◌-◌, ◌<◌, ◌≤◌, ◌↔◌, IfOk, [], ◌∷◌};
ghost use Rattle.std.specs.Prelude.{◌++◌, length, map, take, drop, slice_index};
ghost use Rattle.std.specs.List.{AllByRecursion};
ghost use Rattle.tty_base.specs.Sizes.{MOST_UNREAD, MOST_ENDS};
ghost use Rattle.line_store.specs.Good.{IsGood, bytes_in};
ghost use Rattle.line_store.specs.Unread.{Byte, End, bytes_of, end_count, first_piece, read_size, line_of, after_line};
ghost use Rattle.line_store.specs.Pieces.{after_front};

use super::queue::Queue;
use std::alloc::Global;
use std::marker::Model;
use tty_base::sizes::MOST_READ;
use tty_base::{Bytes, Flagged, NoMemory, front_of};

/// Unread input: at most 4,096 bytes, in pieces, and at most 4,096 ends of pieces. A piece is ended
/// by its delimiter, the last byte, or by an EOF mark. Contracts see the list of bytes and ends.
#[derive(Drop)]
pub struct Store {
    bytes: Queue<u8>,
    lengths: Queue<u16>,
    unended: usize,
}

impl Model for Store {
    ghost use Rattle.std.specs.Prelude.{List};
    ghost use Rattle.line_store.specs.Unread.{Item};
    ghost use Rattle.line_store.specs.Pieces.{items_of, IsStore};

    ghost Value = { List Item };

    ghost view = { λ s. items_of s.lengths s.bytes };

    ghost invariant = { λ s. IsStore s.lengths s.bytes s.unended };
}

impl Store {
    /// An empty store, with room for all that it ever holds. No other call takes memory.
    pub fn new(alloc: Global) -> Result<Store, NoMemory>
        ensures { IfOk result (λ store. store ≡ []) }
    {
        Ok(Store {
            bytes: Queue::new(alloc)?,
            lengths: Queue::new(alloc)?,
            unended: 0,
        })
    }

    /// Stores a byte.
    #[inline(always)]
    pub fn push(&mut self, b: u8)
        requires { length (bytes_of self.old) < MOST_UNREAD }
        ensures { self.new ≡ self.old ++ Byte b ∷ [] }
    {
        self.bytes.push(b);
        self.unended += 1;
    }

    /// Stores bytes.
    pub fn append(&mut self, bytes: &[u8])
        requires { length (bytes_of self.old) + length bytes.now ≤ MOST_UNREAD }
        ensures { self.new ≡ self.old ++ map Byte bytes.now }
    {
        self.bytes.append(bytes);
        self.unended += bytes.len();
    }

    /// Stores the bytes of the good characters at the front. Answers how many.
    #[inline(always)]
    pub fn append_good(&mut self, chars: &[Flagged]) -> usize
        requires { length (bytes_of self.old) + length chars.now ≤ MOST_UNREAD }
        ensures within { result ≤ length chars.now }
        ensures good { AllByRecursion IsGood (take result chars.now) }
        ensures stored { self.new ≡ self.old ++ map Byte (bytes_in (take result chars.now)) }
    {
        let count = self.bytes.append_good(chars);
        self.unended += count;
        count
    }

    /// Ends the last piece: by its last byte, the delimiter, or with an EOF mark.
    pub fn end_line(&mut self)
        requires { end_count self.old < MOST_ENDS }
        ensures { self.new ≡ self.old ++ End ∷ [] }
    {
        self.lengths.push(self.unended as u16);
        self.unended = 0;
    }

    /// How many bytes `take_line` gives where it is asked for at most `n`.
    pub fn line_len(&self, n: u32) -> u32
        ensures { result ≡ length (line_of (read_size n) self.now) }
    {
        (n as usize).min(MOST_READ).min(self.first_len()) as u32
    }

    /// Takes at most `n` bytes of the first piece, and at most 4,096, adds them to `out`, and answers
    /// how many. Where these are all its bytes, its end goes too, so that an EOF mark alone gives none.
    pub fn take_line(&mut self, n: u32, out: &mut Bytes) -> u32
        requires complete { 0 < end_count self.old }
        requires room { length (line_of (read_size n) self.old) ≤ out.old.spare }
        ensures count { result ≡ length (line_of (read_size n) self.old) }
        ensures line { out.new ≡ record {
          items = out.old.items ++ line_of (read_size n) self.old;
          spare = out.old.spare - result;
        } }
        ensures left { self.new ≡ after_line (read_size n) self.old }
    {
        let count = (n as usize).min(MOST_READ).min(self.first_len());
        move_front(&mut self.bytes, count, out);
        shorten_first(&mut self.lengths, count);
        count as u32
    }

    /// How many bytes `take_raw` gives where it is asked for at most `n`.
    pub fn raw_len(&self, n: u32) -> u32
        ensures { result ≡ length (take (read_size n) (bytes_of self.now)) }
    {
        (n as usize).min(MOST_READ).min(self.bytes.len()) as u32
    }

    /// Takes at most `n` bytes and at most 4,096 of a store without ends, adds them to `out`, and
    /// answers how many.
    pub fn take_raw(&mut self, n: u32, out: &mut Bytes) -> u32
        requires plain { end_count self.old ≡ 0 }
        requires room { length (take (read_size n) (bytes_of self.old)) ≤ out.old.spare }
        ensures count { result ≡ length (take (read_size n) (bytes_of self.old)) }
        ensures bytes { out.new ≡ record {
          items = out.old.items ++ take (read_size n) (bytes_of self.old);
          spare = out.old.spare - result;
        } }
        ensures left { self.new ≡ drop (read_size n) self.old }
    {
        let count = (n as usize).min(MOST_READ).min(self.bytes.len());
        move_front(&mut self.bytes, count, out);
        self.unended -= count;
        count as u32
    }

    /// Forgets all ends. The bytes stay, in order.
    pub fn plain(&mut self)
        ensures { self.new ≡ map Byte (bytes_of self.old) }
    {
        self.lengths.clear();
        self.unended = self.bytes.len();
    }

    /// Forgets all bytes and ends.
    pub fn clear(&mut self)
        ensures { self.new ≡ [] }
    {
        self.bytes.clear();
        self.lengths.clear();
        self.unended = 0;
    }

    /// How many bytes are unread.
    pub fn len(&self) -> usize
        ensures len { result ≡ length (bytes_of self.now) }
        ensures most { result ≤ MOST_UNREAD }
    {
        self.bytes.len()
    }

    /// How many ends stand: how many pieces are complete.
    pub fn lines(&self) -> usize
        ensures lines { result ≡ end_count self.now }
        ensures most { result ≤ MOST_ENDS }
    {
        self.lengths.len()
    }

    /// The bytes of the first piece, lent without a copy. There is none only where an EOF mark
    /// comes first, or nothing is unread.
    pub fn front(&self) -> &[u8]
        ensures prefix { result.now ≡ take (length result.now) (bytes_of self.now) }
        ensures empty { (result.now ≡ []) ↔ (first_piece self.now ≡ []) }
    {
        front_of(self.bytes.as_slice(), self.first_len())
    }

    /// How many bytes the first piece has.
    fn first_len(&self) -> usize
        ensures len { result ≡ length (first_piece self.now) }
        ensures within { result ≤ length (bytes_of self.now) }
    {
        match self.lengths.as_slice() {
            [first, ..] => usize::from(*first),
            [] => self.bytes.len(),
        }
    }
}

/// The lengths of pieces after so many bytes of the first piece went: where these were all, it went with its end.
fn shorten_first(lengths: &mut Queue<u16>, count: usize)
    requires some { 0 < length lengths.old }
    requires within { count ≤ slice_index lengths.old 0 }
    ensures { lengths.new ≡ after_front count lengths.old }
{
    let first = usize::from(lengths.as_slice()[0]);
    if count == first {
        lengths.skip(1);
    } else {
        lengths.set_first((first - count) as u16);
    }
}

/// Moves the first bytes, so many, to the end of `out`.
fn move_front(bytes: &mut Queue<u8>, count: usize, out: &mut Bytes)
    requires within { count ≤ length bytes.old }
    requires room { count ≤ out.old.spare }
    ensures rest { bytes.new ≡ drop count bytes.old }
    ensures front { out.new ≡ record { items = out.old.items ++ take count bytes.old; spare = out.old.spare - count } }
{
    out.append(front_of(bytes.as_slice(), count));
    bytes.skip(count);
}
