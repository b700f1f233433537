//! All consoles in their parts for the threads of a phase.

ghost use Rattle.std.specs.Prelude.{◌≡◌, ◌<◌, ◌≤◌, ◌++◌, ◌∷◌, ℕ, List, [], Some, IfOk, OnOk, length, slice_get};
ghost use Rattle.vt_text.specs.Sessions.{vt_session_of};
ghost use Rattle.vt_account.specs.Keyed.{IsWithinKeys};
ghost use Rattle.vt_threads.specs.Parting.{IsSomeConsoleBefore};
ghost use Rattle.vt_threads.specs.declared.consoles.Console.{Console};
ghost use Rattle.vt_threads.specs.declared.parting.Parted.{Parted};
ghost use Rattle.vt_play.specs.Parts.{ArePartedAll, ArePartsOf};

use crate::console_threads::OwnBack;
use crate::taking::push_beside;
use std::alloc::Global;
use tty_base::NoMemory;
use tty_port::SharedPort;
use vt_keyboard::{KeyLines, Keyboard};
use vt_text::VtSession;
use vt_threads::{Casting, Console, OwnSeats, Parted, Rest, Standing, part_console};

/// What of a console the threads of a phase do not even see.
#[derive(Drop)]
pub(crate) struct Kept {
    pub(crate) steps: Vec<u32>,
    pub(crate) standing: Standing,
}

/// All consoles in their parts, by their numbers.
#[derive(Drop)]
pub(crate) struct AllParts {
    pub(crate) ports: Vec<Option<SharedPort>>,
    pub(crate) keyboard: Keyboard,
    pub(crate) owns: Vec<Option<OwnSeats>>,
    pub(crate) castings: Vec<Casting>,
    pub(crate) kept: Vec<Kept>,
}

/// All consoles in their parts after the threads of a phase.
#[derive(Drop)]
pub(crate) struct AllBack {
    pub(crate) ports: Vec<Option<SharedPort>>,
    pub(crate) keyboard: Keyboard,
    pub(crate) owns: Vec<OwnBack>,
    pub(crate) castings: Vec<Casting>,
    pub(crate) kept: Vec<Kept>,
}

/// The parts of no console.
fn no_parts(alloc: Global) -> AllParts
    ensures { ArePartsOf [] result }
{
    AllParts {
        ports: Vec::new(alloc),
        keyboard: Keyboard {
            keyed: KeyLines {
                lines: Vec::new(alloc),
                ends: Vec::new(alloc),
            },
            seats: Vec::new(alloc),
        },
        owns: Vec::new(alloc),
        castings: Vec::new(alloc),
        kept: Vec::new(alloc),
    }
}

/// The parts of one console more.
fn add_parts(all: &mut AllParts, parted: Parted) -> Result<(), NoMemory>
    ensures { (qs : List Parted) → ArePartsOf qs all.old → OnOk result (ArePartsOf (qs ++ parted ∷ []) all.new) }
{
    let Parted {
        port,
        seats,
        own,
        line,
        end,
        rest,
    } = parted;
    let parted = (seats, own, line, end, rest);
    let (seats, own, line, end, rest) = push_beside(&mut all.ports, port, parted)?;
    let (own, line, end, rest) = push_beside(
        &mut all.keyboard.seats,
        seats,
        (own, line, end, rest),
    )?;
    let (own, end, rest) = push_beside(&mut all.keyboard.keyed.lines, line, (own, end, rest))?;
    let (own, rest) = push_beside(&mut all.keyboard.keyed.ends, end, (own, rest))?;
    let rest = push_beside(&mut all.owns, own, rest)?;
    let Rest {
        casting,
        steps,
        standing,
    } = rest;
    let kept = push_beside(&mut all.castings, casting, Kept { steps, standing })?;
    Ok(all.kept.push(kept)?)
}

/// Parts all consoles for a phase.
pub(crate) fn part_all(
    alloc: Global,
    session: &VtSession,
    k: usize,
    consoles: Vec<Console>,
) -> Result<AllParts, NoMemory>
    requires within { IsWithinKeys (vt_session_of session.now) }
    requires phase { k < length (vt_session_of session.now).calls.phases }
    requires known { length consoles.items ≤ (vt_session_of session.now).calls.ports }
    requires before { (p : ℕ) (c : Console)
        → slice_get consoles.items p ≡ Some c
        → IsSomeConsoleBefore (vt_session_of session.now) p k c }
    ensures { IfOk result (ArePartedAll session.now.calls k consoles.items) }
{
    let mut all = no_parts(alloc);
    for console in consoles {
        let number = all.kept.len();
        let parted = part_console(alloc, session, number, k, console)?;
        add_parts(&mut all, parted)?;
    }
    Ok(all)
}
