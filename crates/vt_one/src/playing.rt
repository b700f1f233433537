//! A session of consoles played on one thread, and what became of its board and its consoles.

ghost use Rattle.std.specs.Prelude.{◌≡◌, ◌≤◌, IfErr, IfOk, OnOk, length};
ghost use Rattle.tty_base.specs.Sizes.{MOST_ENTRIES};
ghost use Rattle.tty_calls.specs.Limits.{IsWithinLimits};
ghost use Rattle.tty_calls.specs.Sessions.{session_of};
ghost use Rattle.play_base.specs.Played.{ArePlayed, AreInOneOrder};
ghost use Rattle.vt_text.specs.Sessions.{vt_session_of};
ghost use Rattle.vt_account.specs.InOrder.{IsBoardDenied, entries_in_order};
ghost use Rattle.vt_account.specs.Keyed.{IsWithinKeys, keyed};
ghost use Rattle.vt_one.specs.Played.{IsVtInOrder, IsVtPlayed};

use one_thread::play;
use play_base::Played;
use std::alloc::Global;
use tty_base::NoMemory;
use tty_calls::{Denied, Session};
use vt_account::{entries_in_order_are_an_account, keyed_sessions_are_within_limits, play_board};
use vt_consoles::Board;
use vt_text::VtSession;

/// What became of a session of consoles: its board, and of each console the run, and what a report prints of its end.
#[derive(Drop)]
pub struct VtPlayed {
    pub board: Board,
    pub consoles: Played,
}

/// Plays a session of consoles on one thread. Afterwards the session's calls are those of the session that its
/// consoles play. A console whose journal is full is played no further. `Full` comes exactly where the session has more
/// entries than a board may have.
pub fn play_vt(alloc: Global, session: &mut VtSession) -> Result<VtPlayed, Denied>
    requires { IsWithinKeys (vt_session_of session.old) }
    ensures played { IfOk result (λ played. IsVtPlayed (vt_session_of session.old) played.board.entries
        played.consoles.runs.items played.consoles.ends.items) }
    ensures in_order { IfOk result
        (λ played. IsVtInOrder (vt_session_of session.old) played.board.entries played.consoles.runs.items) }
    ensures room { OnOk result (length (entries_in_order (vt_session_of session.old)) ≤ MOST_ENTRIES) }
    ensures denied { IfErr result (λ denied. IsBoardDenied (vt_session_of session.old) denied) }
    ensures keyed { IfOk result
        (λ played. session_of session.new.calls ≡ keyed (vt_session_of session.old) played.board.entries) }
    ensures phases { session.new.phases ≡ session.old.phases }
{
    keyed_sessions_are_within_limits();
    entries_in_order_are_an_account();
    let board = play_board(alloc, session)?;
    let consoles = play_consoles(alloc, &session.calls)?;
    Ok(VtPlayed { board, consoles })
}

fn play_consoles(alloc: Global, session: &Session) -> Result<Played, Denied>
    requires { IsWithinLimits (session_of session.now) }
    ensures played { IfOk result (λ played. ArePlayed (session_of session.now) played.runs.items played.ends.items) }
    ensures in_order { IfOk result (λ played. AreInOneOrder (session_of session.now) played.runs.items) }
    ensures denied { IfErr result (λ denied. denied ≡ Denied.NoMemory) }
{
    match play(alloc, session) {
        Ok(played) => Ok(played),
        Err(NoMemory) => Err(Denied::NoMemory),
    }
}
