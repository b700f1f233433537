//! Flushing: characters go from the flip buffer to the line discipline.

ghost use Rattle.std.specs.Prelude.{◌≡◌, false, IfOk, IfErr, OnOk};

use super::Port;
use crate::entries::{entry_of_flush, reserve_piece, starve};
use crate::flips::{hand_over, look_at};
use tty_base::Chars;
use tty_calls::Denied;

/// What a piece of a flush run came to.
#[derive(Clone, Copy, PartialEq, Eq)]
pub enum Flushed {
    /// So many characters were handed over.
    Took(u32),
    /// No handle is live, the discipline does not accept, or no character is there.
    Nothing,
}

impl Port {
    ghost use Rattle.port_core.specs.Flushes.{IsPieceOf, Flushes};
    ghost use Rattle.port_core.specs.Ports.{IsOpen, Denies, is_stuck};

    /// Hands over a piece of a flush run: at least one character and at most `most`, as long as the
    /// discipline accepts.
    #[inline(always)]
    pub fn flush_piece(&mut self, run: u32, part: u32, most: u32) -> Result<Flushed, Denied>
        requires { IsPieceOf self.old run part most }
        ensures open { OnOk result (IsOpen self.old) }
        ensures flushed { IfOk result (λ flushed. Flushes self.old self.new run part most flushed) }
        ensures err { IfErr result (λ d. Denies d self.old self.new) }
    {
        self.gate()?;
        if self.is_stuck() {
            return Ok(Flushed::Nothing);
        }
        self.hand_piece(run, part, most as usize)
    }

    /// Hands over a piece where the discipline accepts. Memory is taken before the look, for as many
    /// characters as it can show.
    #[inline(always)]
    fn hand_piece(&mut self, run: u32, part: u32, most: usize) -> Result<Flushed, Denied>
        requires piece { IsPieceOf self.old run part most }
        requires open { IsOpen self.old }
        requires free { is_stuck self.old.terminal ≡ false }
        ensures flushed { IfOk result (λ flushed. Flushes self.old self.new run part most flushed) }
        ensures err { IfErr result (λ d. Denies d self.old self.new) }
    {
        let mut chars = Chars::new(self.alloc);
        if reserve_piece(&mut self.journal, &mut self.terminal, &mut chars, most).is_err() {
            return Err(starve(&mut self.starved));
        }
        let count = look_at(&mut self.flip, &self.terminal).min(most);
        if count == 0 {
            return Ok(Flushed::Nothing);
        }
        let generation = self.terminal.generation();
        let took = hand_over(&mut self.terminal, &mut self.flip, count, &mut chars);
        self.terminal.note_piece(run, part);
        let entry = entry_of_flush(run, part, generation, chars.as_slice());
        self.journal.add(&entry);
        Ok(Flushed::Took(took as u32))
    }
}
