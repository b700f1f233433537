//! Worked rows, as laws: packets, echo, and what a signal drops.

ghost use Rattle.std.specs.Prelude.{◌≡◌, true, false, [], ◌∷◌, ◌++◌};
ghost use Rattle.tty_modes.specs.Settings.{sane_modes};
ghost use Rattle.tty_modes.specs.Word.{after_word};
ghost use Rattle.tty_modes.specs.declared.places.TheConstants.{IUTF8};
ghost use Rattle.tty_modes.specs.declared.words.Word.TheVariants.{On};
ghost use Rattle.opost_out.specs.Column.{posted_text};
ghost use Rattle.flow_control.specs.Output.{idle_output};
ghost use Rattle.n_slip.specs.Discipline.{fresh_slip};
ghost use Rattle.slip_frames.specs.Decoding.{spelling};
ghost use Rattle.ldisc_switch.specs.declared.kinds.Kind.{Kind};
ghost use Rattle.ldisc_switch.specs.declared.discipline.Disc.{Disc};
ghost use Rattle.ldisc_switch.specs.Disciplines.{fresh_of, after_ixoff_rule_of};
ghost use Rattle.ldisc_switch.specs.Happenings.{write, flush, mode_change, packet_take, after_all};
ghost use Rattle.ldisc_switch.specs.Posted.{text_of_all};
ghost use Rattle.ldisc_switch.specs.Rows.{conditions_under, all_characters, full_output};

/// A law: N_SLIP hears a packet, which waits until it is taken or flushed.
pub fn packets_wait()
    ensures heard { after_all (fresh_of Kind.Slip)
        (all_characters (conditions_under sane_modes idle_output) (0xc0 ∷ 0x41 ∷ 0xdb ∷ 0xdc ∷ 0xc0 ∷ []))
        ≡ Disc.Slip (record fresh_slip { packets = (0x41 ∷ 0xc0 ∷ []) ∷ [] }) }
    ensures taken { after_all (fresh_of Kind.Slip)
        (all_characters (conditions_under sane_modes idle_output) (0x41 ∷ 0xc0 ∷ 0x42 ∷ 0xc0 ∷ []) ++ packet_take ∷ [])
        ≡ Disc.Slip (record fresh_slip { packets = (0x42 ∷ []) ∷ [] }) }
    ensures flushed { after_all (fresh_of Kind.Slip)
        (all_characters (conditions_under sane_modes idle_output) (0x41 ∷ 0xc0 ∷ 0x42 ∷ []) ++ flush ∷ [])
        ≡ Disc.Slip (record { piece = spelling (0x42 ∷ []) false; packets = [] }) }
{}

/// A law: echo and pieces of writes are posted, and no echo that finds no room. A signal first drops what is held.
pub fn texts_are_posted()
    ensures echo { text_of_all (fresh_of Kind.Tty)
        (all_characters (conditions_under sane_modes idle_output) (0x61 ∷ 0x0d ∷ []))
        ≡ posted_text false (0x61 ∷ 0x0d ∷ 0x0a ∷ []) }
    ensures erased { text_of_all (fresh_of Kind.Tty)
        (all_characters (conditions_under sane_modes idle_output) (0x61 ∷ 0x7f ∷ []))
        ≡ posted_text false (0x61 ∷ 0x08 ∷ 0x20 ∷ 0x08 ∷ []) }
    ensures write { text_of_all (fresh_of Kind.Tty) (write sane_modes idle_output (0x62 ∷ 0x0a ∷ []) ∷ [])
        ≡ posted_text false (0x62 ∷ 0x0d ∷ 0x0a ∷ []) }
    ensures refused { text_of_all (fresh_of Kind.Tty) (write sane_modes full_output (0x62 ∷ []) ∷ []) ≡ [] }
    ensures dropped { text_of_all (fresh_of Kind.Tty)
        (all_characters (conditions_under sane_modes full_output) (0x61 ∷ [])) ≡ [] }
    ensures signal { text_of_all (fresh_of Kind.Tty)
        (all_characters (conditions_under sane_modes full_output) (0x03 ∷ []))
        ≡ posted_text false (0x5e ∷ 0x43 ∷ []) }
    ensures marked { let utf8 = after_word sane_modes (On IUTF8) in
        text_of_all (fresh_of Kind.Tty) (all_characters (conditions_under sane_modes idle_output) (0x61 ∷ [])
        ++ mode_change sane_modes utf8 ∷ all_characters (conditions_under utf8 idle_output) (0x62 ∷ []))
        ≡ posted_text false (0x61 ∷ []) ++ posted_text true (0x62 ∷ []) }
    ensures packets { text_of_all (fresh_of Kind.Slip)
        (all_characters (conditions_under sane_modes idle_output) (0x61 ∷ 0xc0 ∷ [])) ≡ [] }
{}

/// A law: under N_SLIP the note goes, and START is sent.
pub fn note_goes_under_n_slip()
    ensures noted { after_ixoff_rule_of sane_modes (fresh_of Kind.Slip) (record idle_output { noted = true; spare = 4 })
        ≡ record idle_output { wire = 0x11 ∷ []; spare = 3 } }
    ensures quiet { after_ixoff_rule_of sane_modes (fresh_of Kind.Slip) idle_output ≡ idle_output }
{}
