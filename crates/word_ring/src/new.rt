//! A new ring.
ghost use Rattle.std.specs.Prelude.{◌≡◌, ◌<◌, ◌≤◌, false, [], IfOk};
ghost use Rattle.tty_base.specs.Sizes.{MOST_FLIP};
ghost use Rattle.word_ring.specs.Names.{NamesTellRings};

use crate::past::Past;
use crate::putter::Putter;
use crate::table::{Apart, HEAD, RingTable, TakeSlot};
use crate::taker::Taker;
use std::alloc::Global;
use std::sync::Arc;
use tty_base::NoMemory;

/// The two ends of a new ring, which has room for `n` numbers.
pub fn ring(alloc: Global, n: usize) -> Result<(Putter, Taker), NoMemory>
    requires { (0 < n) × (n ≤ MOST_FLIP) }
    ensures putter { IfOk result
        (λ e. e.0 ≡ record { ring = e.1.ring; capacity = n; sent = []; pushed = []; heads = []; floor = 0 }) }
    ensures taker { IfOk result (λ e.
        e.1
        ≡ record {
          ring = e.1.ring;
          capacity = n;
          taken = [];
          peeked = [];
          released = [];
          tails = [];
          floor = 0;
          ended = false;
          sent = [];
        }) }
{
    let capacity = n as u64;
    let words = vec![in alloc; 0u64; n / 4 + 4]?;
    let mut slots = Vec::new(alloc);
    slots.push(Past::none())?;
    let Ok((table, mut seat)) = RingTable::new(alloc, words.as_slice(), slots, &capacity) else {
        return Err(NoMemory);
    };
    table.shared.load::<TakeSlot>(&mut seat, HEAD);
    let other = table.shared.split_seat::<Apart>(&mut seat);
    let board = Arc::new(alloc, table)?;
    let shared = Arc::try_clone(&board)?;
    let putter = Putter {
        board,
        seat: other,
        capacity,
        sent: 0,
        word: 0,
        at: 2,
        shown: 0,
        head: 0,
    };
    let taker = Taker {
        board: shared,
        seat,
        capacity,
        taken: 0,
        next: 0,
        word: 0,
        start: 2,
        at: 2,
        tail: 0,
        ended: false,
    };
    Ok((putter, taker))
}

/// Rings of one name are one ring.
pub fn names_tell_rings()
    ensures { NamesTellRings }
{}
