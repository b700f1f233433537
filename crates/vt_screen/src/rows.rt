//! Worked rows, as a law: what texts leave in the rows of a screen.

ghost use Rattle.std.specs.Prelude.{◌≡◌, [], ◌∷◌, ◌++◌, replicate};
ghost use Rattle.vt_screen.specs.Paper.{blank_row};
ghost use Rattle.vt_screen.specs.Rows.{newlines, row_of, row_with};

/// A law: screens of worked texts.
pub fn worked_screens()
    ensures first_row { row_of (0x68 ∷ 0x69 ∷ []) 0 ≡ row_with (0x68 ∷ 0x69 ∷ []) }
    ensures blank_below { row_of (0x68 ∷ 0x69 ∷ []) 24 ≡ blank_row }
    ensures next_row { row_of (0x6a ∷ 0x0d ∷ 0x0a ∷ []) 0 ≡ row_with (0x6a ∷ []) }
    ensures last_row { row_of (newlines 24 ++ 0x61 ∷ []) 24 ≡ row_with (0x61 ∷ []) }
    ensures scrolled { row_of (newlines 25 ++ 0x61 ∷ []) 24 ≡ row_with (0x61 ∷ []) }
    ensures column_79 { row_of (replicate 80 0x78 ++ 0x79 ∷ []) 0 ≡ replicate 80 0x78 }
    ensures after_79 { row_of (replicate 80 0x78 ++ 0x79 ∷ []) 1 ≡ row_with (0x79 ∷ []) }
    ensures tab { row_of (0x61 ∷ 0x62 ∷ 0x0d ∷ 0x09 ∷ 0x63 ∷ []) 0
        ≡ row_with (0x61 ∷ 0x62 ∷ replicate 6 32 ++ 0x63 ∷ []) }
    ensures last_tab { row_of (replicate 75 0x61 ++ 0x09 ∷ 0x62 ∷ 0x63 ∷ []) 0
        ≡ replicate 75 0x61 ++ replicate 4 32 ++ 0x62 ∷ [] }
    ensures back { row_of (0x08 ∷ 0x61 ∷ 0x08 ∷ 0x62 ∷ 0x63 ∷ []) 0 ≡ row_with (0x62 ∷ 0x63 ∷ []) }
    ensures nothing { row_of (0x00 ∷ 0x1b ∷ 0x7f ∷ 0xff ∷ []) 0 ≡ row_with (0xff ∷ []) }
{}
