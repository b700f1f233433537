//! What follows from the definitions of modem lines alone: a session of ports with modem lines has one run in the order
//! of one thread.
#![tactic(auto)]

ghost use Rattle.std.specs.Prelude.{ℕ};
ghost use Rattle.tty_calls.specs.declared.journals.PortRun.{PortRun};
ghost use Rattle.tty_terminal.specs.Terminals.{Terminal};
ghost use Rattle.modem_text.specs.Events.{ModemLog};
ghost use Rattle.modem_text.specs.Sessions.{ModemSession};
ghost use Rattle.modem_steps.specs.Steps.{IsModemRun};
ghost use Rattle.modem_steps.specs.Rows.{port_of};
ghost use Rattle.order_laws.specs.Same.{IsSamePort};
ghost use Rattle.modem_laws.specs.OneRun.{IsPlayedWhole};
ghost use Rattle.modem_laws.specs.Rows.{asks_and_reads, asked_while_reading, reading_journal};
ghost use Rattle.modem_laws.specs.Rows.{two_writes, one_unlogged, two_writes_journal};

/// A law: a session of ports with modem lines has one run on each port. Two runs of a port that are legal and in the
/// order of one thread, each for the session that its log derives, with the whole log of modem lines beside it in which
/// each event is in its turn, have the same journal, line report and log, and lead to the same terminal.
pub fn a_port_with_modem_lines_has_one_run()
    ensures { (p : ℕ) (session : ModemSession) (log other : ModemLog) (run again : PortRun) (t u : Terminal)
        → IsPlayedWhole p session log run t
        → IsPlayedWhole p session other again u
        → IsSamePort p log other run again t u }
{}

/// A law: a log is none of its port where a call of modem lines is answered while another call of its caller is under
/// way, or where an answer of the port is logged for another call.
pub fn further_logs_are_none()
    ensures under_way { IsModemRun (port_of asks_and_reads asked_while_reading reading_journal) asked_while_reading
        → ⊥ }
    ensures other_call { IsModemRun (port_of two_writes one_unlogged two_writes_journal) one_unlogged → ⊥ }
{}
