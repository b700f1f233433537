//! Worked journals: runs, and with one word changed none.

ghost use Rattle.std.specs.Prelude.{◌≡◌, [], ◌∷◌, length};
ghost use Rattle.tty_base.specs.declared.counters.Errno.{Errno};
ghost use Rattle.tty_calls.specs.Plain.{done, count_is, got, refused};
ghost use Rattle.tty_terminal.specs.Terminals.{Terminal, opening};
ghost use Rattle.tty_terminal.specs.Runs.{IsRun};
ghost use Rattle.tty_terminal.specs.Rows.{three_bytes_calls, three_bytes_counts, three_bytes, with_other_bytes};
ghost use Rattle.tty_terminal.specs.Rows.{with_old_generation, without_flush, without_new_generation};
ghost use Rattle.tty_terminal.specs.Rows.{LeadsFrom, half_line_calls, half_line, hangup_calls, hangup};
ghost use Rattle.tty_terminal.specs.Rows.{stopped_terminal, stopped_calls, stopped_write, timed_calls, timed_read};
ghost use Rattle.tty_terminal.specs.Rows.{one_tick, exclusive_calls, exclusive_use, filling, filling_calls};
ghost use Rattle.tty_terminal.specs.Rows.{filled_read, idle_calls, idle_answer, idle_too_early, end_too_early};

/// A law: a caller that opens the port, and in the next phase reads the three bytes that were sent
/// and closes it, makes a journal that is a run.
pub fn three_bytes_is_a_run()
    ensures { (t : Terminal) × IsRun three_bytes_calls three_bytes_counts 4096 three_bytes t }
{}

/// A law: that journal is no run with another byte in the answer, with an entry of an older
/// generation, without the flush, or with the generation that stands still at the last close.
pub fn changed_three_bytes_is_no_run()
    ensures other_bytes { (t : Terminal) → IsRun three_bytes_calls three_bytes_counts 4096 with_other_bytes t → ⊥ }
    ensures old_generation { (t : Terminal)
        → IsRun three_bytes_calls three_bytes_counts 4096 with_old_generation t
        → ⊥ }
    ensures no_flush { (t : Terminal) → IsRun three_bytes_calls three_bytes_counts 4096 without_flush t → ⊥ }
    ensures no_new_generation { (t : Terminal)
        → IsRun three_bytes_calls three_bytes_counts 4096 without_new_generation t
        → ⊥ }
{}

/// A law: a change to N_SLIP and back drops a line that is half typed.
pub fn change_drops_a_half_line()
    ensures run { (t : Terminal) × LeadsFrom half_line_calls (1 ∷ []) (opening 1 4096) (half_line (got (10 ∷ []))) t }
    ensures no_run { (t : Terminal)
        → LeadsFrom half_line_calls (1 ∷ []) (opening 1 4096) (half_line (got (97 ∷ 98 ∷ 10 ∷ []))) t
        → ⊥ }
{}

/// A law: after a hangup a read through the old handle gives the end of the file, a write through it
/// is refused, a write that had parts answers these, and its close is not the last.
pub fn hangup_leaves_dead_handles()
    ensures run { (t : Terminal)
        × LeadsFrom hangup_calls (3 ∷ []) (opening 3 4096) (hangup (got []) (refused Errno.EIO) 1) t }
    ensures no_input { (t : Terminal)
        → LeadsFrom hangup_calls (3 ∷ []) (opening 3 4096) (hangup (refused Errno.EIO) (refused Errno.EIO) 1) t
        → ⊥ }
    ensures no_write { (t : Terminal)
        → LeadsFrom hangup_calls (3 ∷ []) (opening 3 4096) (hangup (got []) (count_is 0) 1) t
        → ⊥ }
    ensures no_last_close { (t : Terminal)
        → LeadsFrom hangup_calls (3 ∷ []) (opening 3 4096) (hangup (got []) (refused Errno.EIO) 2) t
        → ⊥ }
{}

/// A law: a write that STOP halts takes what can be held, waits, and is answered after START.
pub fn stopped_write_goes_on()
    ensures run { (t : Terminal)
        × (LeadsFrom stopped_calls (1 ∷ []) stopped_terminal (stopped_write 6 (count_is 10)) t
        × (length t.output.wire ≡ 4100)) }
    ensures longer_part { (t : Terminal)
        → LeadsFrom stopped_calls (1 ∷ []) stopped_terminal (stopped_write 7 (count_is 10)) t
        → ⊥ }
    ensures rest_alone { (t : Terminal)
        → LeadsFrom stopped_calls (1 ∷ []) stopped_terminal (stopped_write 6 (count_is 4)) t
        → ⊥ }
{}

/// A law: with MIN and TIME a read of fewer bytes is ready after a tick, and not before.
pub fn tick_makes_a_read_ready()
    ensures run { (t : Terminal) × LeadsFrom timed_calls (1 ∷ []) (opening 1 4096) (timed_read one_tick) t }
    ensures no_tick { (t : Terminal) → LeadsFrom timed_calls (1 ∷ []) (opening 1 4096) (timed_read []) t → ⊥ }
{}

/// A law: under exclusive use an open is refused, and after it is not.
pub fn exclusive_use_keeps_others_out()
    ensures run { (t : Terminal)
        × LeadsFrom exclusive_calls (2 ∷ []) (opening 2 4096) (exclusive_use (refused Errno.EBUSY)) t }
    ensures admitted { (t : Terminal) → LeadsFrom exclusive_calls (2 ∷ []) (opening 2 4096) (exclusive_use done) t → ⊥ }
{}

/// A law: with ixoff a full buffer sends STOP, and the read that empties it START.
pub fn ixoff_stops_and_starts_round_a_read()
    ensures run { (t : Terminal)
        × (LeadsFrom filling_calls (1 ∷ []) filling (filled_read (121 ∷ [])) t × (t.output.wire ≡ 19 ∷ 17 ∷ [])) }
    ensures no_last_byte { (t : Terminal) → LeadsFrom filling_calls (1 ∷ []) filling (filled_read []) t → ⊥ }
{}

/// A law: a caller that waits is answered idle where nothing can come any more, and not earlier; and
/// no phase ends while a caller waits.
pub fn idle_where_nothing_can_come()
    ensures run { (t : Terminal) × LeadsFrom idle_calls (2 ∷ []) (opening 2 4096) idle_answer t }
    ensures too_early { (t : Terminal) → LeadsFrom idle_calls (2 ∷ []) (opening 2 4096) idle_too_early t → ⊥ }
    ensures no_end { (t : Terminal) → LeadsFrom idle_calls (2 ∷ []) (opening 2 4096) end_too_early t → ⊥ }
{}
