//! Laws of what is handed over.
ghost use Rattle.std.specs.Prelude.{◌≡◌, ℕ, List, []};
ghost use Rattle.tty_base.specs.declared.characters.Flagged.{Flagged};
ghost use Rattle.tty_base.specs.declared.lines.Overrun.{Overrun};
ghost use Rattle.uart_line.specs.Offered.{HandsOver, kept_list, AreShown};

/// What was appended is what was handed over without the places of the overruns. These rise, and each
/// tells how many were appended before it and that the buffer was full.
pub fn overruns_are_shown()
    ensures kept { (capacity : ℕ) (all sent : List Flagged) (heads : List ℕ) (overruns : List Overrun)
        → HandsOver capacity [] all [] sent [] heads [] overruns → sent ≡ kept_list all overruns }
    ensures shown { (capacity : ℕ) (all sent : List Flagged) (heads : List ℕ) (overruns : List Overrun)
        → HandsOver capacity [] all [] sent [] heads [] overruns → AreShown capacity 0 0 overruns }
{}

/// What is handed over by one run and then by the next is handed over by both.
pub fn runs_follow_each_other()
    ensures { (capacity : ℕ) (a0 a1 a2 s0 s1 s2 : List Flagged) (h0 h1 h2 : List ℕ) (o0 o1 o2 : List Overrun)
        → HandsOver capacity a0 a1 s0 s1 h0 h1 o0 o1 → HandsOver capacity a1 a2 s1 s2 h1 h2 o1 o2
        → HandsOver capacity a0 a2 s0 s2 h0 h2 o0 o2 }
{}
