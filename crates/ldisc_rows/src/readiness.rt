//! When a read out of canonical mode is ready, in each case of MIN and TIME.

use read_rule::ready;

// A read of at most 4 bytes, which waits since tick 10; the last byte was stored at tick 12.
#[test]
fn each_case_of_min_and_time(rt: HostRuntime) {
    let rows = [
        (0, 0, 0, 12, true),
        (3, 0, 2, 99, false),
        (3, 0, 3, 12, true),
        (9, 0, 4, 12, true),
        (0, 5, 0, 14, false),
        (0, 5, 0, 15, true),
        (0, 5, 1, 12, true),
        (3, 5, 0, 99, false),
        (3, 5, 2, 16, false),
        (3, 5, 2, 17, true),
        (3, 5, 3, 12, true),
    ];
    for (min, time, unread, now, want) in rows {
        let is_ready = now >= 12 && ready(4, min, time, unread, 10, 12, now);
        assert!(rt; is_ready == want, "{unread} unread at {now}");
    }
}
