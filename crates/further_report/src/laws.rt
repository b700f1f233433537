//! Worked reports, as laws.

ghost use Rattle.std.specs.Prelude.{◌≡◌};
ghost use Rattle.further_report.specs.ModemRows.{dial_in, dial_in_log, dial_in_report, local_line};
ghost use Rattle.further_report.specs.ModemRows.{local_line_log, local_line_report, no_carrier};
ghost use Rattle.further_report.specs.ModemRows.{no_carrier_log, no_carrier_report, report_of};
ghost use Rattle.further_report.specs.JobRows.{foreground_report, foreground_told, shell_ends_report, shell_ends_told};

/// A law: the reports of worked sessions with modem lines.
pub fn worked_modem_reports_are_told()
    ensures dial_in { report_of dial_in dial_in_log 2 ≡ dial_in_report }
    ensures local_line { report_of local_line local_line_log 1 ≡ local_line_report }
    ensures no_carrier { report_of no_carrier no_carrier_log 1 ≡ no_carrier_report }
{}

/// A law: the reports of worked sessions of processes.
pub fn worked_job_reports_are_told()
    ensures foreground { foreground_told ≡ foreground_report }
    ensures shell_ends { shell_ends_told ≡ shell_ends_report }
{}
