//! When a read under MIN and TIME is ready.

use read_rule::ready;

/// A read of at most 64 bytes under MIN 3 and TIME 5 that waits since tick 10; the last byte came at tick 12.
fn is_ready(unread: u32, now: u64) -> bool {
    ready(64, 3, 5, unread, 10, 12, now)
}

#[test]
fn three_bytes_or_half_a_second(rt: HostRuntime) {
    assert!(rt; !is_ready(2, 16) && is_ready(2, 17) && is_ready(3, 12));
}
