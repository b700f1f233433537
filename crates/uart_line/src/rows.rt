//! Worked scripts of a line.
ghost use Rattle.std.specs.Prelude.{◌≡◌};
ghost use Rattle.uart_line.specs.Received.{received_list, lost_count};
ghost use Rattle.uart_line.specs.Rows.{masked_burst, burst_output, burst_after_idle};
ghost use Rattle.uart_line.specs.Rows.{two_windows_output, one_window_output};

/// What is handed over of twenty characters that came while the handler was masked: sixteen, with a
/// mark after the first. Four character times cut what waits, and three do not.
pub fn worked_scripts_are_received()
    ensures burst { (received_list masked_burst ≡ burst_output) × (lost_count masked_burst ≡ 4) }
    ensures four_times { (received_list (burst_after_idle 4) ≡ two_windows_output)
        × (lost_count (burst_after_idle 4) ≡ 0) }
    ensures three_times { (received_list (burst_after_idle 3) ≡ one_window_output)
        × (lost_count (burst_after_idle 3) ≡ 3) }
{}
