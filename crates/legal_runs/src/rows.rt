//! Worked journals: in the order of one thread, and with an entry elsewhere not.

ghost use Rattle.std.specs.Prelude.{[]};
ghost use Rattle.tty_terminal.specs.Rows.{three_bytes};
ghost use Rattle.legal_runs.specs.Order.{IsInOneOrder};
ghost use Rattle.legal_runs.specs.Rows.{three_bytes_session, three_bytes_consoles, late_flush, early_clock};
ghost use Rattle.legal_runs.specs.Rows.{waiters_session, waiters, last_waiter_first, both_told, early_tick};

/// A law: three bytes come, are flushed at the end of the line's window, and are read once the line is
/// over.
pub fn three_bytes_are_in_order()
    ensures { IsInOneOrder 0 three_bytes_session three_bytes [] }
{}

/// A law: they are not in order where the flush stands after the line's end, or where the clock ends
/// before a caller that can go on.
pub fn moved_three_bytes_are_not_in_order()
    ensures late_flush { IsInOneOrder 0 three_bytes_session late_flush [] → ⊥ }
    ensures early_clock { IsInOneOrder 0 three_bytes_session early_clock [] → ⊥ }
{}

/// A law: on a console the clock ends before a caller that can go on.
pub fn a_console_ends_its_clock_first()
    ensures early_clock { IsInOneOrder 0 three_bytes_consoles early_clock [] }
    ensures late_clock { IsInOneOrder 0 three_bytes_consoles three_bytes [] → ⊥ }
{}

/// A law: callers that wait in vain are told so from the first on, once the clock is over, and each is
/// over before the next one is told.
pub fn waiters_are_told_in_order()
    ensures { IsInOneOrder 0 waiters_session waiters [] }
{}

/// A law: it is out of order to tell the last one first, to tell both before the first is over, and to
/// let a tick pass while a caller can go on.
pub fn moved_waiters_are_not_in_order()
    ensures last_first { IsInOneOrder 0 waiters_session last_waiter_first [] → ⊥ }
    ensures both_told { IsInOneOrder 0 waiters_session both_told [] → ⊥ }
    ensures early_tick { IsInOneOrder 0 waiters_session early_tick [] → ⊥ }
{}
