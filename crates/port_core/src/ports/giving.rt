//! Giving: good characters of the line go past the flip buffer to the line discipline, where nothing waits
//! in it and both of its ends are at hand.

ghost use Rattle.std.specs.Prelude.{◌≡◌, ◌↔◌, ◌+◌, ◌≤◌, false, length, IsTrue, IfOk, IfErr, OnOk};
ghost use Rattle.tty_base.specs.Sizes.{MOST_SENT};
ghost use Rattle.tty_base.specs.Characters.{good_characters};
ghost use Rattle.word_ring.specs.Ends.{NothingWaits};

use super::Port;
use super::flushing::Flushed;
use crate::entries::{entry_of_flush, reserve_piece};
use crate::flips::{put_good, receive_front, take_given};
use flip_buffer::FlipIn;
use tty_base::Chars;
use tty_calls::Denied;

impl Port {
    ghost use Rattle.port_core.specs.Flushes.{IsPieceOf};
    ghost use Rattle.port_core.specs.Given.{FlushesGiven, DeniesGiven};
    ghost use Rattle.port_core.specs.Ports.{IsOpen, is_stuck};

    /// Whether nothing that was put waits in the flip buffer, as both ends know.
    #[inline(always)]
    pub fn nothing_waits(&self, putter: &FlipIn) -> bool
        ensures { IsTrue result ↔ NothingWaits putter.now self.now.flip }
    {
        self.flip.nothing_waits(putter)
    }

    /// Puts the good characters of these bytes, and hands over as many of them as the discipline accepts:
    /// as if they were put, a piece of as many was flushed, and both ends met. Where that is denied they
    /// are put all the same.
    #[inline(always)]
    pub fn flush_given(
        &mut self,
        putter: &mut FlipIn,
        run: u32,
        bytes: &[u8; 8],
    ) -> Result<Flushed, Denied>
        requires ring { putter.old.ring ≡ self.old.flip.ring }
        requires clear { NothingWaits putter.old self.old.flip }
        requires piece { IsPieceOf self.old run 0 8 }
        requires small { length putter.old.sent + 8 ≤ MOST_SENT }
        ensures open { OnOk result (IsOpen self.old) }
        ensures ok { IfOk result
            (λ flushed. FlushesGiven self.old self.new putter.old putter.new run (good_characters bytes.now) flushed) }
        ensures err { IfErr result
            (λ d. DeniesGiven d self.old self.new putter.old putter.new (good_characters bytes.now)) }
    {
        if self.is_willing() {
            self.give_piece(putter, run, bytes)
        } else {
            self.flush_put(putter, run, bytes)
        }
    }

    /// Whether an entry can be made, the discipline accepts, and the line is not over.
    #[inline(always)]
    fn is_willing(&self) -> bool
        ensures entry { IsTrue result → IsOpen self.now }
        ensures free { IsTrue result → is_stuck self.now.terminal ≡ false }
        ensures line { IsTrue result → self.now.terminal.line_over ≡ false }
    {
        self.gate().is_ok() && !self.is_stuck() && !self.terminal.line_is_over()
    }

    /// Gives the characters where all of that holds: what the discipline accepts never waits in the flip
    /// buffer.
    #[inline(always)]
    fn give_piece(
        &mut self,
        putter: &mut FlipIn,
        run: u32,
        bytes: &[u8; 8],
    ) -> Result<Flushed, Denied>
        requires ring { putter.old.ring ≡ self.old.flip.ring }
        requires clear { NothingWaits putter.old self.old.flip }
        requires piece { IsPieceOf self.old run 0 8 }
        requires small { length putter.old.sent + 8 ≤ MOST_SENT }
        requires entry { IsOpen self.old }
        requires free { is_stuck self.old.terminal ≡ false }
        requires line { self.old.terminal.line_over ≡ false }
        ensures open { OnOk result (IsOpen self.old) }
        ensures ok { IfOk result
            (λ flushed. FlushesGiven self.old self.new putter.old putter.new run (good_characters bytes.now) flushed) }
        ensures err { IfErr result
            (λ d. DeniesGiven d self.old self.new putter.old putter.new (good_characters bytes.now)) }
    {
        let mut chars = Chars::new(self.alloc);
        if reserve_piece(&mut self.journal, &mut self.terminal, &mut chars, 8).is_err() {
            return self.flush_put(putter, run, bytes);
        }
        chars.add_good(bytes);
        let generation = self.terminal.generation();
        // The discipline is first: how many it accepts tells how many pass the flip buffer.
        let received = receive_front(&mut self.terminal, &mut chars, 8);
        take_given(&mut self.flip, putter, bytes, received);
        self.terminal.note_piece(run, 0);
        let entry = entry_of_flush(run, 0, generation, chars.as_slice());
        self.journal.add(&entry);
        Ok(Flushed::Took(received as u32))
    }

    /// Gives them to any port: first all are put, then the piece is flushed.
    #[inline(never)]
    fn flush_put(
        &mut self,
        putter: &mut FlipIn,
        run: u32,
        bytes: &[u8; 8],
    ) -> Result<Flushed, Denied>
        requires ring { putter.old.ring ≡ self.old.flip.ring }
        requires clear { NothingWaits putter.old self.old.flip }
        requires piece { IsPieceOf self.old run 0 8 }
        requires small { length putter.old.sent + 8 ≤ MOST_SENT }
        ensures open { OnOk result (IsOpen self.old) }
        ensures ok { IfOk result
            (λ flushed. FlushesGiven self.old self.new putter.old putter.new run (good_characters bytes.now) flushed) }
        ensures err { IfErr result
            (λ d. DeniesGiven d self.old self.new putter.old putter.new (good_characters bytes.now)) }
    {
        put_good(putter, bytes);
        self.hear(putter);
        let flushed = self.flush_piece(run, 0, 8)?;
        self.meet(putter);
        Ok(flushed)
    }
}
