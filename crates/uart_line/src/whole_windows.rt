//! Whole windows of good characters: where none wait and as many come as the trigger says, the handler
//! takes each as it came. No register has to be asked, and no step is made of their bytes.
ghost use Rattle.std.specs.Prelude.{◌≡◌, ◌<◌, ◌≤◌, ◌+◌, ℕ, List, ◌++◌, take, length, IfSome};
ghost use Rattle.tty_base.specs.declared.characters.Flagged.{Flagged};
ghost use Rattle.tty_base.specs.declared.lines.LineStep.{LineStep};
ghost use Rattle.uart_line.specs.Received.{received_list};
ghost use Rattle.uart_line.specs.LineState.{HasDone, IsUncut};
ghost use Rattle.uart_line.specs.Offered.{HandsOver};
ghost use Rattle.tty_base.specs.Characters.{good_characters};
ghost use Rattle.uart_line.specs.GoodSteps.{good_steps};
ghost use Rattle.uart_line.specs.WholeWindow.{TakesWindow};
ghost use Rattle.uart_regs.specs.Registers.{bit};

use super::Line;

impl Line {
    /// How many characters make a whole window, where none wait, the handler is not masked, and at least
    /// so many come.
    #[inline(always)]
    pub fn whole_window(&self, coming: usize) -> Option<usize>
        ensures within { IfSome result (λ count. count ≤ coming) }
        ensures open { IfSome result (λ count. TakesWindow self.now count) }
    {
        let count = usize::from(self.uart.trigger());
        if self.masked || self.window > 0 || coming < count {
            return None;
        }
        Some(count)
    }

    /// Does the steps in which the good characters of a whole window arrive, at the last of which the
    /// handler runs. Each is appended, wherever the caller puts them.
    #[inline(always)]
    pub fn receive_window(&mut self, bytes: &[u8])
        requires open { TakesWindow self.old (length bytes.now) }
        requires room { self.old.report.arrived + length bytes.now ≤ self.old.most }
        ensures done { (before : List LineStep)
            → HasDone self.old before
            → HasDone self.new (before ++ good_steps bytes.now) }
        ensures room { self.new.most ≡ self.old.most }
        ensures arrived { self.new.report.arrived ≡ self.old.report.arrived + length bytes.now }
        ensures handed { self.new.handed ≡ self.old.handed + length bytes.now }
        ensures within { self.new.handed ≤ self.new.most }

        // No cut stands before the last of them.
        ensures uncut { (before : List LineStep) → HasDone self.old before
            → (k : ℕ) → k < length bytes.now → IsUncut self.old before (take k (good_steps bytes.now)) }

        ensures hands_over { (before : List LineStep) → HasDone self.old before
            → (capacity : ℕ) (sent : List Flagged) (heads : List ℕ)
            → HandsOver capacity (received_list before) (received_list (before ++ good_steps bytes.now))
            sent (sent ++ good_characters bytes.now) heads heads
            self.old.report.overruns.items self.new.report.overruns.items }
    {
        let count = bytes.len();
        self.report.arrived += count as u32;
        self.count_appended(count);
    }

    /// So many were appended.
    #[inline(always)]
    fn count_appended(&mut self, count: usize)
        requires { self.old.handed + length self.old.registers.fifo + bit self.old.registers.overrun + count
            ≤ self.old.report.arrived }
        ensures { self.new
            ≡ record self.old {
              handed = self.old.handed + count;
              report = record self.old.report { sent = self.old.report.sent + count };
            } }
    {
        let _ = &self.most; // known: its bound
        self.report.sent += count as u64;
        self.handed += count as u32;
    }
}
