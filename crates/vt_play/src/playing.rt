//! The beginning and the end of a session of consoles.

ghost use Rattle.std.specs.Prelude.{IfOk};
ghost use Rattle.vt_text.specs.Sessions.{PlainVtSession, vt_session_of};
ghost use Rattle.vt_account.specs.Keyed.{IsWithinKeys};
ghost use Rattle.vt_one.specs.Played.{IsVtPlayed};
ghost use Rattle.vt_play.specs.Phases.{IsVtBefore, IsVtOver};

use crate::consoles::{end_all, open_all};
use crate::phases::VtInPlay;
use many_threads::beside;
use std::alloc::Global;
use tty_base::NoMemory;
use tty_base::sizes::MOST_ENTRIES;
use vt_consoles::Board;
use vt_one::VtPlayed;
use vt_text::VtSession;

/// A session of consoles before its first phase.
pub(crate) fn open(alloc: Global, session: &VtSession) -> Result<VtInPlay, NoMemory>
    requires { IsWithinKeys (vt_session_of session.now) }
    ensures { IfOk result (IsVtBefore (vt_session_of session.now) 0) }
{
    let consoles = open_all(alloc, session)?;
    let board = Board::new(alloc, session.calls.ports, MOST_ENTRIES);
    let (consoles, board) = beside(consoles, board)?;
    Ok(VtInPlay {
        board,
        consoles,
        first: 0,
    })
}

/// Ends a session of consoles whose phases were played.
pub(crate) fn end(alloc: Global, in_play: VtInPlay) -> Result<VtPlayed, NoMemory>
    requires { (session : PlainVtSession) × IsVtOver session in_play }
    ensures { (session : PlainVtSession)
        → IsVtOver session in_play
        → IfOk result
        (λ played. IsVtPlayed session played.board.entries played.consoles.runs.items played.consoles.ends.items) }
{
    let VtInPlay {
        board,
        consoles,
        first: _,
    } = in_play;
    let played = end_all(alloc, consoles);
    let (board, consoles) = beside(board, played)?;
    Ok(VtPlayed { board, consoles })
}
