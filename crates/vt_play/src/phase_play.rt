//! A phase of a session of consoles on threads, from its beginning to the beginning of the next.

ghost use Rattle.std.specs.Prelude.{◌≡◌, ◌+◌, ◌<◌, IfErr, IfOk, length};
ghost use Rattle.vt_text.specs.Sessions.{vt_session_of};
ghost use Rattle.vt_account.specs.InOrder.{IsBoardDenied};
ghost use Rattle.vt_account.specs.Keyed.{IsWithinKeys};
ghost use Rattle.vt_account.specs.Seats.{operator_names};
ghost use Rattle.vt_play.specs.Phases.{IsVtBefore};

use crate::on_threads::play_shared;
use crate::phases::{VtInPlay, close_all, next_first, share_all};
use crate::stage::PhaseOf;
use crate::taking::or_denied;
use crate::whole_consoles::whole_all;
use many_threads::beside;
use std::alloc::Global;
use std::sync::Wait;
use std::thread::Threads;
use tty_calls::{Denied, Names};
use tty_port::Gate;
use vt_text::VtSession;

/// Plays a phase of a session, of whose operators these are the names: the consoles, the operators and the keyboard,
/// side by side on threads.
pub(crate) fn play_phase<R: Threads + Wait + Sync, G: Gate + Sync>(
    rt: &R,
    alloc: Global,
    gate: &G,
    session: &VtSession,
    names: &Names,
    k: usize,
    in_play: VtInPlay,
) -> Result<VtInPlay, Denied>
    requires within { IsWithinKeys (vt_session_of session.now) }
    requires phase { k < length (vt_session_of session.now).calls.phases }
    requires names { names.now ≡ operator_names (vt_session_of session.now).phases }
    requires before { IsVtBefore (vt_session_of session.now) k in_play }
    ensures played { IfOk result (IsVtBefore (vt_session_of session.now) (k + 1)) }
    ensures denied { IfErr result (IsBoardDenied (vt_session_of session.now)) }
{
    let VtInPlay {
        board,
        consoles,
        first,
    } = in_play;
    let of = PhaseOf {
        session,
        names,
        k,
        first,
    };
    let (shared, seats, parts) = or_denied(share_all(alloc, of, board, consoles))?;
    let back = play_shared(rt, alloc, gate, of, &shared, seats, parts);
    let (shared, back) = or_denied(beside(shared, back))?;
    let (board, all) = close_all(of, shared, back)?;
    let consoles = whole_all(alloc, session, k, all);
    let (board, consoles) = or_denied(beside(board, consoles))?;
    Ok(VtInPlay {
        board,
        consoles,
        first: next_first(of),
    })
}
