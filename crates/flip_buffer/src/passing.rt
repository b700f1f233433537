//! Good characters go from the one end straight to the other, where both are at hand and nothing waits.
ghost use Rattle.std.specs.Prelude.{◌≡◌, ◌↔◌, ◌+◌, ◌≤◌, length, IsTrue};
ghost use Rattle.tty_base.specs.Sizes.{MOST_SENT};
ghost use Rattle.word_ring.specs.Ends.{NothingWaits, Passes};
ghost use Rattle.tty_base.specs.Characters.{good_characters};

use crate::input::FlipIn;
use crate::output::FlipOut;

impl FlipOut {
    /// Whether nothing that was put waits to be taken, as both ends know.
    #[inline(always)]
    pub fn nothing_waits(&self, input: &FlipIn) -> bool
        ensures { IsTrue result ↔ NothingWaits input.now self.now }
    {
        self.taker.nothing_waits(&input.putter)
    }

    /// Takes the good characters of these bytes from the other end, where nothing waits: as if each was
    /// put, all of them pushed and taken, and the head loaded.
    #[inline(always)]
    pub fn pass(&mut self, input: &mut FlipIn, bytes: &[u8])
        requires ring { input.old.ring ≡ self.old.ring }
        requires clear { NothingWaits input.old self.old }
        requires room { length bytes.now ≤ self.old.capacity }
        requires small { length input.old.sent + length bytes.now ≤ MOST_SENT }
        ensures { Passes input.old input.new self.old self.new (good_characters bytes.now) }
    {
        self.taker.pass(&mut input.putter, bytes);
    }
}
