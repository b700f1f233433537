//! Whether a call of a row met what it was to meet.

use row_tables::{Wanted, is_answer};
use tty_terminal::Met;

pub(crate) fn is_met(met: &Met, wanted: &Wanted) -> bool {
    match met {
        Met::Gives(answer) => is_answer(answer, wanted),
        Met::Takes(count) => matches!(wanted, Wanted::Takes(wanted) if wanted == count),
        Met::Waits => matches!(wanted, Wanted::Waits),
    }
}
