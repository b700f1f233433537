//! When a read without canonical mode is ready (termios(3), "Canonical and noncanonical mode").
#![tactic(auto)]

ghost use Rattle.std.specs.Prelude.{◌≡◌};
ghost use Rattle.read_rule.specs.Ready.{is_ready};

/// Whether a blocking read of at most `n` bytes is ready, by the four cases of MIN and TIME of
/// termios(3). `unread` is the number of unread bytes, `since` the tick at which the read began to
/// wait, `last` the tick at which the last byte was stored, and `now` the tick of now. A tick is a
/// tenth of a second, the unit of TIME. From a tick that is still to come no time has passed.
#[inline(always)]
#[tactic(auto, unfolding(crate::specs::Ready::is_ready))]
pub fn ready(n: u32, min: u8, time: u8, unread: u32, since: u64, last: u64, now: u64) -> bool
    ensures { result ≡ is_ready n min time unread since last now }
{
    let enough = unread >= n.min(u32::from(min));
    let ticks = u64::from(time);
    match (min, time) {
        (0, 0) => true,
        (_, 0) => enough,
        (0, _) => unread > 0 || now.saturating_sub(since) >= ticks,
        _ => enough || unread > 0 && now.saturating_sub(since.max(last)) >= ticks,
    }
}
