//! All consoles whole again after the threads of a phase.

ghost use Rattle.std.specs.Prelude.{◌≡◌, ◌+◌, ◌<◌, ◌≤◌, ◌++◌, ◌∷◌, List, [], IfOk, length};
ghost use Rattle.vt_consoles.specs.declared.entries.VtEntry.{VtEntry};
ghost use Rattle.vt_text.specs.Sessions.{vt_session_of};
ghost use Rattle.vt_account.specs.Keyed.{IsWithinKeys};
ghost use Rattle.vt_threads.specs.declared.parting.PartedBack.{PartedBack};
ghost use Rattle.vt_play.specs.Parts.{AreBackOf, AreConsolesBefore, ConsolesArePlayed, ArePlayedIn};

use crate::parts::{AllBack, Kept};
use crate::taking::take_last;
use many_threads::beside;
use std::alloc::Global;
use tty_base::NoMemory;
use vt_text::VtSession;
use vt_threads::{Console, PartedBack, Rest, whole_console};

/// Takes the parts of the last console.
fn take_back(all: &mut AllBack) -> PartedBack
    requires { (bs : List PartedBack) × (b : PartedBack) × AreBackOf (bs ++ b ∷ []) all.old }
    ensures { (bs : List PartedBack) (b : PartedBack)
        → AreBackOf (bs ++ b ∷ []) all.old
        → (result ≡ b) × AreBackOf bs all.new }
{
    let port = take_last(&mut all.ports);
    let seats = take_last(&mut all.keyboard.seats);
    let own = take_last(&mut all.owns);
    let line = take_last(&mut all.keyboard.keyed.lines);
    let end = take_last(&mut all.keyboard.keyed.ends);
    let casting = take_last(&mut all.castings);
    let Kept { steps, standing } = take_last(&mut all.kept);
    PartedBack {
        port,
        seats,
        own,
        line,
        end,
        rest: Rest {
            casting,
            steps,
            standing,
        },
    }
}

/// All consoles before the next phase, from their parts after this one.
pub(crate) fn whole_all(
    alloc: Global,
    session: &VtSession,
    k: usize,
    mut all: AllBack,
) -> Result<Vec<Console>, NoMemory>
    requires within { IsWithinKeys (vt_session_of session.now) }
    requires phase { k < length (vt_session_of session.now).calls.phases }
    requires known { length all.kept.items ≤ (vt_session_of session.now).calls.ports }
    requires played { ConsolesArePlayed session.now k all }
    ensures count { IfOk result (λ consoles. length consoles.items ≡ length all.kept.items) }
    ensures before { (entries part : List VtEntry)
        → ArePlayedIn session.now k entries part all
        → IfOk result
        (λ consoles. AreConsolesBefore (vt_session_of session.now) (k + 1) (entries ++ part) consoles.items) }
{
    if all.kept.is_empty() {
        drop(all);
        return Ok(Vec::new(alloc));
    }
    let one = take_back(&mut all);
    let console = whole_console(session, all.kept.len(), k, one);
    let consoles = whole_all(alloc, session, k, all);
    let (console, mut consoles) = beside(console, consoles)?;
    consoles.push(console?)?;
    Ok(consoles)
}
