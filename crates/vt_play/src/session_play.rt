//! A session of consoles played on threads.

ghost use Rattle.std.specs.Prelude.{◌≡◌, IfErr, IfOk};
ghost use Rattle.vt_text.specs.Sessions.{vt_session_of};
ghost use Rattle.vt_account.specs.InOrder.{IsBoardDenied};
ghost use Rattle.vt_account.specs.Keyed.{IsWithinKeys};
ghost use Rattle.vt_account.specs.Seats.{operator_names};
ghost use Rattle.vt_one.specs.Played.{IsVtPlayed};

use crate::phase_play::play_phase;
use crate::playing::{end, open};
use crate::taking::or_denied;
use std::alloc::Global;
use std::sync::Wait;
use std::thread::Threads;
use tty_calls::{Denied, Names};
use tty_port::Gate;
use vt_account::seats_of;
use vt_one::VtPlayed;
use vt_text::VtSession;

/// Plays a session, of whose operators these are the names.
fn play_named<R: Threads + Wait + Sync, G: Gate + Sync>(
    rt: &R,
    alloc: Global,
    gate: &G,
    session: &VtSession,
    names: &Names,
) -> Result<VtPlayed, Denied>
    requires within { IsWithinKeys (vt_session_of session.now) }
    requires names { names.now ≡ operator_names (vt_session_of session.now).phases }
    ensures played { IfOk result (λ played. IsVtPlayed (vt_session_of session.now) played.board.entries
        played.consoles.runs.items played.consoles.ends.items) }
    ensures denied { IfErr result (IsBoardDenied (vt_session_of session.now)) }
{
    let mut in_play = or_denied(open(alloc, session))?;
    for k in 0..session.phases.len() {
        in_play = play_phase(rt, alloc, gate, session, names, k, in_play)?;
    }
    or_denied(end(alloc, in_play))
}

/// Plays a session of consoles on threads. In each phase the keyboard, each operator, and the flusher and each caller
/// of each console have a thread, side by side, and all threads end before the next phase. A console whose journal is
/// full is played no further. `Full` comes only where the session has more entries than a board may have.
pub fn play_vt<R: Threads + Wait + Sync, G: Gate + Sync>(
    rt: &R,
    alloc: Global,
    session: &VtSession,
    gate: &G,
) -> Result<VtPlayed, Denied>
    requires { IsWithinKeys (vt_session_of session.now) }
    ensures played { IfOk result (λ played. IsVtPlayed (vt_session_of session.now) played.board.entries
        played.consoles.runs.items played.consoles.ends.items) }
    ensures denied { IfErr result (λ denied. IsBoardDenied (vt_session_of session.now) denied) }
{
    let names = or_denied(seats_of(alloc, session.phases.as_slice()))?;
    let played = play_named(rt, alloc, gate, session, &names);
    drop(names);
    played
}
