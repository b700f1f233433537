//! Worked lines, as a law.

ghost use Rattle.std.specs.Prelude.{◌≡◌};
ghost use Rattle.job_print.specs.Rows.{worked_lines, worked_text};

/// A law: the lines of a worked report.
pub fn worked_lines_are_told()
    ensures { worked_lines ≡ worked_text }
{}
