//! How the threads of the consoles are made, each with a promise of what comes of it.

ghost use Rattle.std.specs.Prelude.{◌≡◌, IfOk};
ghost use Rattle.many_threads.specs.Callers.{plain_cast};
ghost use Rattle.vt_threads.specs.Parting.{OwnCame};
ghost use Rattle.vt_play.specs.Stages.{CanOwn};

use crate::console_threads::{OwnBack, OwnSite, console_thread};
use core::thread::Stack;
use std::alloc::Global;
use std::snapshot::Snapshot;
use std::sync::Wait;
use std::thread::{Promise, PromisedHandle, Scope, Threads};
use tty_base::NoMemory;
use tty_port::Gate;
use vt_threads::OwnSeats;

/// The size of a thread's stack, as those of a port have it.
const STACK: usize = 1_048_576;

/// A console's thread runs the threads that meet there, from these seats.
#[derive(Drop)]
pub(crate) struct ConsolePromise<'s> {
    pub(crate) site: OwnSite<'s>,
    pub(crate) own: Snapshot<Option<OwnSeats>>,
}

impl<'s> Promise<Result<OwnBack, NoMemory>> for ConsolePromise<'s> {
    ghost kept_by = { λ p r.
        IfOk r (OwnCame p.site.port.now p.own.value
        (plain_cast p.site.scripts.now p.site.casting.now.cast.items)) };
}

/// Starts a console's thread. Where it cannot be made, those that were made give up. What its closure captures is plain
/// references: a struct with a lifetime among them would take the closure's `ensures` away.
pub(crate) fn start_console<'s, E, R: Threads + Wait + Sync, G: Gate + Sync>(
    scope: &Scope<'s, E>,
    rt: &'s R,
    alloc: Global,
    gate: &'s G,
    own: Option<OwnSeats>,
    promise: ConsolePromise<'s>,
) -> Result<PromisedHandle<Result<OwnBack, NoMemory>, ConsolePromise<'s>>, NoMemory>
    requires can { CanOwn promise.site.port.now own promise.site.scripts.now promise.site.casting.now.cast.items }
    requires of_own { promise.own.value ≡ own }
    ensures { IfOk result (λ h. h.promise ≡ promise.entry) }
{
    let OwnSite {
        start,
        port,
        casting,
        scripts,
    } = promise.site;
    let made = Stack::new().stack_size(STACK).spawn_scoped_with(
        scope,
        promise,
        move || -> Result<OwnBack, NoMemory>
            requires { CanOwn port.now own scripts.now casting.now.cast.items }
            ensures { IfOk result (OwnCame port.entry.now own
                (plain_cast scripts.entry.now casting.entry.now.cast.items)) }
        {
            let site = OwnSite {
                start,
                port,
                casting,
                scripts,
            };
            console_thread(rt, alloc, gate, site, own)
        },
    );
    match made {
        Ok(child) => Ok(child),
        Err(_) => Err(start.refuse(rt)),
    }
}
