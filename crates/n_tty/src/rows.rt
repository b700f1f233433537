//! Worked rows, as laws: editing with its echo, parity errors and breaks, long lines, and flow control.

ghost use Rattle.std.specs.Prelude.{◌≡◌, false, true, [], ◌∷◌, ◌++◌, length, replicate};
ghost use Rattle.tty_base.specs.declared.characters.Flag.TheVariants.{Normal, Break, Parity};
ghost use Rattle.tty_base.specs.declared.counters.Signal.TheVariants.{Int};
ghost use Rattle.tty_modes.specs.declared.places.TheConstants.{BRKINT, IGNPAR, INPCK, IUTF8, IXANY, IXOFF, PARMRK};
ghost use Rattle.tty_modes.specs.declared.words.Word.TheVariants.{On, Raw};
ghost use Rattle.tty_modes.specs.Settings.{sane_modes};
ghost use Rattle.n_tty.specs.Reading.{after_read};
ghost use Rattle.n_tty.specs.Receiving.{after_character};
ghost use Rattle.tty_base.specs.Characters.{good_characters};
ghost use Rattle.n_tty.specs.Rows.{line_results, with_flag, modes_by, after_line_of, after_characters};
ghost use Rattle.n_tty.specs.Rows.{reads_of, halted_port, edited_port, unread_port, wire_after_rule};
ghost use Rattle.n_tty.specs.States.{fresh_tty};
ghost use Rattle.n_tty.specs.Writing.{piece_size, piece_text};

/// A law: an erased byte leaves the screen and the line.
pub fn erase_is_echoed()
    ensures { line_results [] (64 ∷ []) (good_characters (0x61 ∷ 0x62 ∷ 0x7f ∷ 0x63 ∷ 0x0d ∷ []))
        ≡ record {
          reads = (0x61 ∷ 0x63 ∷ 0x0a ∷ []) ∷ [];
          wire = 0x61 ∷ 0x62 ∷ 0x08 ∷ 0x20 ∷ 0x08 ∷ 0x63 ∷ 0x0d ∷ 0x0a ∷ [];
        } }
{}

/// A law: a TAB is erased by as many backspaces as it took columns.
pub fn tab_erase()
    ensures { line_results [] (64 ∷ []) (good_characters (0x61 ∷ 0x62 ∷ 0x63 ∷ 0x09 ∷ 0x7f ∷ 0x0a ∷ []))
        ≡ record {
          reads = (0x61 ∷ 0x62 ∷ 0x63 ∷ 0x0a ∷ []) ∷ [];
          wire = 0x61 ∷ 0x62 ∷ 0x63 ∷ 0x09 ∷ 0x08 ∷ 0x08 ∷ 0x08 ∷ 0x08 ∷ 0x08 ∷ 0x0d ∷ 0x0a ∷ [];
        } }
{}

/// A law: EOF ends a piece, with bytes and without.
pub fn eof_pieces()
    ensures { line_results [] (64 ∷ 2 ∷ []) (good_characters (0x04 ∷ 0x61 ∷ 0x62 ∷ 0x04 ∷ []))
        ≡ record { reads = [] ∷ (0x61 ∷ 0x62 ∷ []) ∷ []; wire = 0x61 ∷ 0x62 ∷ [] } }
{}

/// A law: WERASE, KILL and LNEXT, with their echo.
pub fn word_kill_and_quote()
    ensures { line_results [] (64 ∷ 64 ∷ 64 ∷ [])
        (good_characters (0x66 ∷ 0x6f ∷ 0x6f ∷ 0x20 ∷ 0x62 ∷ 0x61 ∷ 0x72 ∷ 0x17 ∷ 0x78 ∷ 0x0a ∷ 0x61 ∷ 0x62 ∷ 0x15
        ∷ 0x0a ∷ 0x16 ∷ 0x03 ∷ 0x0a ∷ []))
        ≡ record {
          reads = (0x66 ∷ 0x6f ∷ 0x6f ∷ 0x20 ∷ 0x78 ∷ 0x0a ∷ []) ∷ (0x0a ∷ []) ∷ (0x03 ∷ 0x0a ∷ []) ∷ [];
          wire =
              0x66 ∷ 0x6f ∷ 0x6f ∷ 0x20 ∷ 0x62 ∷ 0x61 ∷ 0x72 ∷ 0x08 ∷ 0x20 ∷ 0x08 ∷ 0x08 ∷ 0x20 ∷ 0x08 ∷ 0x08 ∷ 0x20
              ∷ 0x08 ∷ 0x78 ∷ 0x0d ∷ 0x0a ∷ 0x61 ∷ 0x62 ∷ 0x08 ∷ 0x20 ∷ 0x08 ∷ 0x08 ∷ 0x20 ∷ 0x08 ∷ 0x0d ∷ 0x0a ∷ 0x5e
              ∷ 0x08 ∷ 0x5e ∷ 0x43 ∷ 0x0d ∷ 0x0a ∷ [];
        } }
{}

/// A law: a parity error is marked, dropped, stored as 00 or ignored.
pub fn parity_errors()
    ensures marked { line_results (Raw ∷ On INPCK ∷ On PARMRK ∷ []) (64 ∷ [])
        (with_flag Normal 0x41 ∷ with_flag Parity 0x42 ∷ with_flag Normal 0xff ∷ [])
        ≡ record { reads = (0x41 ∷ 0xff ∷ 0x00 ∷ 0x42 ∷ 0xff ∷ 0xff ∷ []) ∷ []; wire = [] } }
    ensures dropped { line_results (Raw ∷ On INPCK ∷ On IGNPAR ∷ []) (64 ∷ [])
        (with_flag Normal 0x41 ∷ with_flag Parity 0x42 ∷ with_flag Normal 0xff ∷ [])
        ≡ record { reads = (0x41 ∷ 0xff ∷ []) ∷ []; wire = [] } }
    ensures zero { line_results (Raw ∷ On INPCK ∷ []) (64 ∷ [])
        (with_flag Normal 0x41 ∷ with_flag Parity 0x42 ∷ with_flag Normal 0xff ∷ [])
        ≡ record { reads = (0x41 ∷ 0x00 ∷ 0xff ∷ []) ∷ []; wire = [] } }
    ensures ignored { line_results (Raw ∷ []) (64 ∷ [])
        (with_flag Normal 0x41 ∷ with_flag Parity 0x42 ∷ with_flag Normal 0xff ∷ [])
        ≡ record { reads = (0x41 ∷ 0x42 ∷ 0xff ∷ []) ∷ []; wire = [] } }
{}

/// A law: a break is stored as 00 or marked, or raises INT and drops what is unread.
pub fn breaks()
    ensures zero { line_results (Raw ∷ []) (64 ∷ []) (with_flag Normal 0x61 ∷ with_flag Break 0 ∷ [])
        ≡ record { reads = (0x61 ∷ 0x00 ∷ []) ∷ []; wire = [] } }
    ensures interrupt { line_results (Raw ∷ On BRKINT ∷ []) (64 ∷ []) (with_flag Normal 0x61 ∷ with_flag Break 0 ∷ [])
        ≡ record { reads = [] ∷ []; wire = [] } }
    ensures signal { (after_line_of (modes_by (Raw ∷ On BRKINT ∷ []))
        (with_flag Normal 0x61 ∷ with_flag Break 0 ∷ [])).tally.signals.items ≡ Int ∷ [] }
    ensures marked { line_results (Raw ∷ On PARMRK ∷ []) (64 ∷ []) (with_flag Normal 0x61 ∷ with_flag Break 0 ∷ [])
        ≡ record { reads = (0x61 ∷ 0xff ∷ 0x00 ∷ 0x00 ∷ []) ∷ []; wire = [] } }
{}

/// A law: with iutf8 ERASE removes a character, and without it a byte.
pub fn erases_characters()
    ensures character { line_results (On IUTF8 ∷ []) (64 ∷ []) (good_characters (0xc3 ∷ 0xa9 ∷ 0x7f ∷ 0x62 ∷ 0x0d ∷ []))
        ≡ record {
          reads = (0x62 ∷ 0x0a ∷ []) ∷ [];
          wire = 0xc3 ∷ 0xa9 ∷ 0x08 ∷ 0x20 ∷ 0x08 ∷ 0x62 ∷ 0x0d ∷ 0x0a ∷ [];
        } }
    ensures byte { line_results [] (64 ∷ []) (good_characters (0xc3 ∷ 0xa9 ∷ 0x7f ∷ 0x62 ∷ 0x0d ∷ []))
        ≡ record {
          reads = (0xc3 ∷ 0x62 ∷ 0x0a ∷ []) ∷ [];
          wire = 0xc3 ∷ 0xa9 ∷ 0x08 ∷ 0x20 ∷ 0x08 ∷ 0x62 ∷ 0x0d ∷ 0x0a ∷ [];
        } }
{}

/// A law: a line has at most 4,095 bytes and its delimiter; what is cut is echoed all the same.
pub fn long_line_is_cut()
    ensures read { reads_of sane_modes (65536 ∷ [])
        (after_characters sane_modes (good_characters (0x61 ∷ 0x61 ∷ 0x61 ∷ 0x0a ∷ [])) (edited_port 4094 0x61)).tty
        ≡ (replicate 4095 0x61 ++ 0x0a ∷ []) ∷ [] }
    ensures cut { (after_characters sane_modes (good_characters (0x61 ∷ 0x61 ∷ 0x61 ∷ 0x0a ∷ []))
        (edited_port 4094 0x61)).tally.counts.cut ≡ 2 }
    ensures wire { (after_characters sane_modes (good_characters (0x61 ∷ 0x61 ∷ 0x61 ∷ 0x0a ∷ []))
        (edited_port 4094 0x61)).output.wire
        ≡ 0x61 ∷ 0x61 ∷ 0x61 ∷ 0x0d ∷ 0x0a ∷ [] }
{}

/// A law: STOP is sent where more than 3,968 bytes are unread, once, and START where 128 are.
pub fn ixoff_stops_and_starts()
    ensures not_yet { (after_character (modes_by (Raw ∷ On IXOFF ∷ [])) 0 (with_flag Normal 0x61)
        (unread_port 3967 0x61)).output.wire ≡ [] }
    ensures stop { (after_character (modes_by (Raw ∷ On IXOFF ∷ [])) 0 (with_flag Normal 0x61)
        (unread_port 3968 0x61)).output.wire ≡ 0x13 ∷ [] }
    ensures once { (after_characters (modes_by (Raw ∷ On IXOFF ∷ [])) (good_characters (0x61 ∷ 0x61 ∷ []))
        (unread_port 3968 0x61)).output.wire ≡ 0x13 ∷ [] }
    ensures waits { wire_after_rule (modes_by (Raw ∷ On IXOFF ∷ []))
        (after_read (modes_by (Raw ∷ On IXOFF ∷ [])) 3871 (unread_port 4000 0x61).tty) true ≡ [] }
    ensures start { wire_after_rule (modes_by (Raw ∷ On IXOFF ∷ []))
        (after_read (modes_by (Raw ∷ On IXOFF ∷ [])) 3872 (unread_port 4000 0x61).tty) true ≡ 0x11 ∷ [] }
{}

/// A law: under a halt a piece of a write takes what can be held.
pub fn halted_write()
    ensures some { piece_size sane_modes fresh_tty (halted_port (replicate 4090 0x61)).output (replicate 100 0x62) ≡ 6 }
    ensures whole_only { piece_size sane_modes fresh_tty (halted_port (replicate 4090 0x61)).output
        (0x62 ∷ 0x0a ∷ 0x62 ∷ 0x0a ∷ 0x62 ∷ []) ≡ 4 }
    ensures most { piece_size sane_modes fresh_tty (halted_port []).output (replicate 100 0x62) ≡ 64 }
    ensures text { piece_text sane_modes fresh_tty (halted_port (replicate 4090 0x61)).output (0x62 ∷ 0x0a ∷ [])
        ≡ 0x62 ∷ 0x0d ∷ 0x0a ∷ [] }
{}

/// A law: STOP halts and START resumes; with ixany any character resumes, and is itself read.
pub fn resumes()
    ensures stop { (after_character sane_modes 0 (with_flag Normal 0x13) (halted_port [])).output.stopped ≡ true }
    ensures start { (after_character sane_modes 0 (with_flag Normal 0x11) (halted_port (0x68 ∷ []))).output
        ≡ record { wire = 0x68 ∷ []; spare = 0; held = []; stopped = false; off = false; noted = false } }
    ensures any { (after_character (modes_by (On IXANY ∷ [])) 0 (with_flag Normal 0x78)
        (halted_port (0x68 ∷ []))).output.wire ≡ 0x68 ∷ 0x78 ∷ [] }
    ensures read { (after_character (modes_by (On IXANY ∷ [])) 0 (with_flag Normal 0x78)
        (halted_port (0x68 ∷ []))).tty.edit ≡ 0x78 ∷ [] }
    ensures held { (after_character sane_modes 0 (with_flag Normal 0x78)
        (halted_port (0x68 ∷ []))).output.held ≡ 0x68 ∷ 0x78 ∷ [] }
{}

/// A law: echo that does not fit whole in what can be held is dropped whole, and counted.
pub fn echo_is_whole()
    ensures held { length
        (after_character sane_modes 0 (with_flag Normal 0x0a) (halted_port (replicate 4095 0x61))).output.held ≡ 4095 }
    ensures counted { (after_character sane_modes 0 (with_flag Normal 0x0a)
        (halted_port (replicate 4095 0x61))).tally.counts.echo ≡ 2 }
{}
