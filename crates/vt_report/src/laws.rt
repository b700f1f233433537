//! What follows from the definitions alone.

ghost use Rattle.std.specs.Prelude.{◌≡◌, List};
ghost use Rattle.tty_calls.specs.declared.journals.PortRun.{PortRun};
ghost use Rattle.session_print.specs.Ends.{PlainEnd};
ghost use Rattle.vt_consoles.specs.declared.entries.VtEntry.{VtEntry};
ghost use Rattle.vt_text.specs.Sessions.{PlainVtSession};
ghost use Rattle.vt_account.specs.Keyed.{HasAllPhases, keyed};
ghost use Rattle.vt_report.specs.Report.{report_text};

/// A law: the session that the consoles play has the same report.
pub fn a_played_session_has_the_same_report()
    ensures { (session : PlainVtSession) (entries : List VtEntry) (runs : List PortRun) (ends : List PlainEnd)
        → HasAllPhases session
        → report_text (record session { calls = keyed session entries }) entries runs ends
        ≡ report_text session entries runs ends }
{}
