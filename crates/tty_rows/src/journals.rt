//! Sessions that are told with their journals, which stand before the end of the report.

use super::rows::Row;
use super::three_bytes::{JOURNALS, REPORT, SESSION};
use super::{overruns, waiting};

/// The overrun is shown at 4,096 characters of which none was taken.
const OF_ONE_OVERRUN: &str = "journals
journal 0 4
*line 0 0 0 line_end 4096
*clock 0 0 0 clock_end
*session 0 0 0 phase_end
*session 1 0 0 hangup [n61*4096]
overruns 0 1
4096 4096 0
line 0 4097 0 4096
done
";

/// A call that waits makes an entry, and its answer another.
const OF_NOTHING_COMES: &str = "journals
journal 0 8
*line 0 0 0 line_end 0
a 0 0 0 answer ok
a 1 0 0 wait
*clock 0 0 0 clock_end
a 1 0 0 answer idle
a 2 0 0 caller_end
*session 0 0 0 phase_end
*session 1 0 0 hangup -
overruns 0 0
line 0 0 0 0
done
";

const THREE_BYTES: Row = Row {
    session: SESSION,
    report: REPORT,
};

/// Each with its journals.
pub(crate) const ROWS: [(Row, &str); 3] = [
    (overruns::ONE_OVERRUN, OF_ONE_OVERRUN),
    (waiting::NOTHING_COMES, OF_NOTHING_COMES),
    (THREE_BYTES, JOURNALS),
];
