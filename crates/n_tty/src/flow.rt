//! Software flow control of the input (termios(3), IXOFF).

ghost use Rattle.std.specs.Prelude.{◌≡◌, ◌+◌, ◌<◌, ◌≤◌};
ghost use Rattle.n_tty.specs.Flow.{must_stop, after_ixoff_rule};

use flow_control::Wire;
use tty_modes::Modes;
use tty_modes::places::{ICANON, IXOFF, VSTART, VSTOP};

/// More unread bytes than this send STOP, with ixoff.
const HIGH_WATER: usize = 3968;

/// So many unread bytes, or fewer, send START after STOP was sent.
const LOW_WATER: usize = 128;

/// Applies the rule for ixoff once, with so many bytes unread, and whether a piece is complete: STOP is sent
/// past a halt where input fills, and START where it has room again.
#[inline(always)]
pub fn apply_ixoff_rule(unread: usize, complete: bool, modes: &Modes, wire: &mut Wire)
    requires { 0 < wire.old.spare }
    ensures after { wire.new ≡ after_ixoff_rule modes.now unread complete wire.old }
    ensures held { wire.new.held ≡ wire.old.held }
    ensures spent { wire.old.spare ≤ wire.new.spare + 1 }
{
    // without ixoff, which is the rule, there is nothing to do
    if modes.has(IXOFF) || wire.noted() {
        steer_sender(unread, complete, modes, wire);
    }
}

/// Applies the rule for ixoff where ixoff is set, or STOP was sent.
#[inline(never)]
fn steer_sender(unread: usize, complete: bool, modes: &Modes, wire: &mut Wire)
    requires { 0 < wire.old.spare }
    ensures after { wire.new ≡ after_ixoff_rule modes.now unread complete wire.old }
    ensures held { wire.new.held ≡ wire.old.held }
    ensures spent { wire.old.spare ≤ wire.new.spare + 1 }
{
    if must_stop(unread, complete, modes, wire) {
        let stop = modes.cc(VSTOP);
        if stop != 0 {
            wire.urgent(stop);
            wire.set_noted(true);
        }
    } else if wire.noted() && (unread <= LOW_WATER || !modes.has(IXOFF)) {
        let start = modes.cc(VSTART);
        if start != 0 {
            wire.urgent(start);
        }
        wire.set_noted(false);
    }
}

/// Whether STOP must be sent.
fn must_stop(unread: usize, complete: bool, modes: &Modes, wire: &Wire) -> bool
    ensures { result ≡ must_stop modes.now unread complete wire.now }
{
    modes.has(IXOFF) && !wire.noted() && unread > HIGH_WATER && (!modes.has(ICANON) || complete)
}
