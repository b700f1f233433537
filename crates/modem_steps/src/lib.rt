//! Sessions of ports with modem lines: which events may be logged beside a port's journal, and the session that the
//! port was played.
#![tactic(auto)]

ghost use Rattle.std.specs.Prelude.{◌≡◌, []};
ghost use Rattle.modem_steps.specs.Derived.{derived};
ghost use Rattle.modem_steps.specs.Steps.{IsModemRun};
ghost use Rattle.tty_calls.specs.declared.journals.Who.TheVariants.{Caller, Clock, Session};
ghost use Rattle.modem_steps.specs.Order.{turn_at, goes_on, sets_pin, is_told, IsInModemOrder};
ghost use Rattle.modem_steps.specs.Rows.{asked_early, port_of, opened_early, not_hung_up, raised_early};
ghost use Rattle.modem_steps.specs.Rows.{hung_up_under_clocal, told_twice, given_up_early, dial_in};
ghost use Rattle.modem_steps.specs.Rows.{dial_in_log, dial_in_played, dial_in_journal, local_line};
ghost use Rattle.modem_steps.specs.Rows.{local_line_log, local_line_played, local_line_journal, no_carrier};
ghost use Rattle.modem_steps.specs.Rows.{no_carrier_log, no_carrier_played, no_carrier_journal};
ghost use Rattle.modem_steps.specs.Rows.{asked_in_other_phase, later_open_port, later_open_state};
ghost use Rattle.modem_steps.specs.Rows.{dial_in_port, dial_in_state, no_carrier_port, no_carrier_state};

/// A law: an open waits for the carrier, and who reads is hung up where it is lost.
pub fn dial_in()
    ensures log { IsModemRun (port_of dial_in dial_in_log dial_in_journal) dial_in_log }
    ensures played { derived dial_in dial_in_log ≡ dial_in_played }
{}

/// A law: under CLOCAL a carrier that came and went hangs nothing up, and is told once.
pub fn local_line()
    ensures log { IsModemRun (port_of local_line local_line_log local_line_journal) local_line_log }
    ensures played { derived local_line local_line_log ≡ local_line_played }
{}

/// A law: an open that waits in vain is answered idle, and has opened nothing.
pub fn no_carrier()
    ensures log { IsModemRun (port_of no_carrier no_carrier_log no_carrier_journal) no_carrier_log }
    ensures played { derived no_carrier no_carrier_log ≡ no_carrier_played }
{}

/// A law: a log is none of the port where an open goes on without a carrier, a lost carrier hangs nothing up, or
/// hangs up under CLOCAL, the lines are told otherwise, a change is told twice, a call is answered in another phase
/// than its own, or an open is given up too early.
pub fn wrong_logs_are_none()
    ensures opened_early { IsModemRun (port_of dial_in opened_early dial_in_journal) opened_early → ⊥ }
    ensures not_hung_up { IsModemRun (port_of dial_in not_hung_up dial_in_journal) not_hung_up → ⊥ }
    ensures raised_early { IsModemRun (port_of dial_in raised_early dial_in_journal) raised_early → ⊥ }
    ensures under_clocal { IsModemRun (port_of local_line hung_up_under_clocal local_line_journal) hung_up_under_clocal
        → ⊥ }
    ensures told_twice { IsModemRun (port_of local_line told_twice local_line_journal) told_twice → ⊥ }
    ensures other_phase { IsModemRun (port_of local_line asked_in_other_phase local_line_journal) asked_in_other_phase
        → ⊥ }
    ensures given_up { IsModemRun (port_of no_carrier given_up_early no_carrier_journal) given_up_early → ⊥ }
{}

/// A law: whose turn it is while a call comes in, and where no carrier comes; and that an open of a later phase waits
/// for nothing.
pub fn turns_of_an_open()
    ensures item_first { turn_at dial_in_port (dial_in_state 0) 1 ≡ sets_pin }
    ensures then_open { turn_at dial_in_port (dial_in_state 1) 1 ≡ goes_on (Caller 0) }
    ensures then_own { turn_at dial_in_port (dial_in_state 2) 2 ≡ goes_on (Caller 0) }
    ensures end_of_carrier { turn_at dial_in_port (dial_in_state 3) 3 ≡ goes_on (Caller 1) }
    ensures clock { turn_at dial_in_port (dial_in_state 3) 4 ≡ goes_on Clock }
    ensures phase { turn_at dial_in_port (dial_in_state 3) 5 ≡ goes_on Session }
    ensures carrier_falls { turn_at dial_in_port (dial_in_state 3) 8 ≡ sets_pin }
    ensures hangup { turn_at dial_in_port (dial_in_state 4) 8 ≡ goes_on (Caller 1) }
    ensures reader { turn_at dial_in_port (dial_in_state 5) 9 ≡ goes_on (Caller 0) }
    ensures in_vain { turn_at no_carrier_port (no_carrier_state 0) 3 ≡ is_told 0 }
    ensures goes_on { turn_at no_carrier_port (no_carrier_state 1) 3 ≡ goes_on (Caller 0) }
    ensures later { turn_at later_open_port later_open_state 1 ≡ goes_on (Caller 0) }
{}

/// A law: worked logs are in the order of one thread, and a log is not where a call is answered before the line's end.
pub fn worked_logs_are_in_order()
    ensures dial_in { IsInModemOrder (port_of dial_in dial_in_log dial_in_journal) dial_in_log [] }
    ensures local_line { IsInModemOrder (port_of local_line local_line_log local_line_journal) local_line_log [] }
    ensures no_carrier { IsInModemOrder (port_of no_carrier no_carrier_log no_carrier_journal) no_carrier_log [] }
    ensures too_early { IsInModemOrder (port_of local_line asked_early local_line_journal) asked_early [] → ⊥ }
{}
