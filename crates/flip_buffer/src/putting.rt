//! Bytes that have one flag are put four at a time, and what is left one by one: each four leave what four times
//! `put_known` would.
ghost use Rattle.std.specs.Prelude.{◌≡◌, ◌+◌, ◌<◌, ◌≤◌, [], ◌∷◌, ◌++◌, map, length, take};
ghost use Rattle.tty_base.specs.Sizes.{MOST_SENT};
ghost use Rattle.flip_buffer.specs.Packed.{char_of, with_flag, FlagMark};

use crate::input::FlipIn;
use crate::packed::mark_of;
use tty_base::Flag;

impl FlipIn {
    /// Puts bytes, each with this flag, for which there is room by the latest head that was loaded.
    pub fn put_run(&mut self, bytes: &[u8], flag: Flag)
        requires small { length self.old.sent + length bytes.now ≤ MOST_SENT }
        requires room { length self.old.sent + length bytes.now ≤ self.old.floor + self.old.capacity }
        ensures { self.new ≡ record self.old { sent = self.old.sent ++ with_flag flag bytes.now } }
    {
        let mark = mark_of(flag);
        let whole = bytes.len() / 4;
        for k in 0..whole {
            self.put_four(four_at(bytes, 4 * k, flag, mark));
        }
        for at in 4 * whole..bytes.len() {
            self.put_one(one_at(bytes, at, flag, mark));
        }
    }

    // Puts the characters that four numbers stand for, for which there is room by the latest head that was loaded.
    #[inline(always)]
    fn put_four(&mut self, numbers: [u16; 4])
        requires small { length self.old.sent + 4 ≤ MOST_SENT }
        requires room { length self.old.sent + 4 ≤ self.old.floor + self.old.capacity }
        ensures { self.new ≡ record self.old { sent = self.old.sent ++ map char_of numbers } }
    {
        self.putter.put_four(numbers);
    }

    // Puts the character that a number stands for, for which there is room by the latest head that was loaded.
    #[inline(always)]
    fn put_one(&mut self, number: u16)
        requires small { length self.old.sent < MOST_SENT }
        requires room { length self.old.sent < self.old.floor + self.old.capacity }
        ensures { self.new ≡ record self.old { sent = self.old.sent ++ char_of number ∷ [] } }
    {
        self.putter.put_known(number);
    }
}

/// The numbers of the four characters from the place `at` on.
#[inline(always)]
fn four_at(bytes: &[u8], at: usize, flag: Flag, mark: u16) -> [u16; 4]
    requires within { at + 4 ≤ length bytes.now }
    requires marks { FlagMark flag mark }
    ensures { with_flag flag (take (at + 4) bytes.now) ≡ with_flag flag (take at bytes.now) ++ map char_of result }
{
    [
        one_at(bytes, at, flag, mark),
        one_at(bytes, at + 1, flag, mark),
        one_at(bytes, at + 2, flag, mark),
        one_at(bytes, at + 3, flag, mark),
    ]
}

/// The number of the character at the place `at`.
#[inline(always)]
fn one_at(bytes: &[u8], at: usize, flag: Flag, mark: u16) -> u16
    requires within { at < length bytes.now }
    requires marks { FlagMark flag mark }
    ensures { with_flag flag (take (at + 1) bytes.now) ≡ with_flag flag (take at bytes.now) ++ char_of result ∷ [] }
{
    let _ = flag; // for the contract alone
    u16::from(bytes[at]) + mark
}
