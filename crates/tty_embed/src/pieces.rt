//! Receiving several characters in one call.

ghost use Rattle.std.specs.Prelude.{◌≡◌, ◌+◌, ◌*◌, ◌<◌, ◌≤◌, ◌^◌, length, map, take};
ghost use Rattle.n_tty.specs.States.{on_port, FitsModes};
ghost use Rattle.n_tty.specs.Spending.{pending_count};
ghost use Rattle.tty_embed.specs.Embedded.{good, after_accepted, accepted_count};

use flow_control::{Tally, Wire};
use n_tty::{CHARACTER_ROOM, NTty};
use tty_base::sizes::PIECE;
use tty_base::{Flag, Flagged, front_of};
use tty_modes::Modes;

/// Receives good characters, up to the first that is not accepted. Answers how many.
pub fn receive_bytes(
    disc: &mut NTty,
    bytes: &[u8],
    now: u64,
    modes: &Modes,
    wire: &mut Wire,
    tally: &mut Tally,
) -> usize
    requires few { length bytes.now ≤ PIECE }
    requires fitting { FitsModes modes.now disc.old }
    requires room { pending_count disc.old wire.old + CHARACTER_ROOM * length bytes.now ≤ wire.old.spare }
    requires signals { length bytes.now ≤ tally.old.signals.spare }
    requires column { disc.old.column < 2 ^ 32 }
    ensures within { result ≤ length bytes.now }
    ensures after { on_port disc.new wire.new tally.new
        ≡ after_accepted modes.now now (map good bytes.now) (on_port disc.old wire.old tally.old) }
    ensures count { result ≡ accepted_count modes.now now (map good bytes.now) (on_port disc.old wire.old tally.old) }
    ensures fits { FitsModes modes.now disc.new }
{
    let mut place = [Flagged {
        byte: 0,
        flag: Flag::Normal,
    }; PIECE];
    put_good(&mut place, bytes);
    disc.receive_all(front_of(&place, bytes.len()), now, modes, wire, tally)
}

/// Puts good characters of these bytes at the front of a place.
#[inline(always)]
fn put_good(place: &mut [Flagged], bytes: &[u8])
    requires { length bytes.now ≤ length place.old }
    ensures length { length place.new ≡ length place.old }
    ensures good { take (length bytes.now) place.new ≡ map good bytes.now }
{
    for i in 0..bytes.len() {
        place[i] = Flagged {
            byte: bytes[i],
            flag: Flag::Normal,
        };
    }
}
