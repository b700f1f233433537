//! Characters that come to a UART, and what a driver reads from its register.

use tty_base::Flagged;
use uart_regs::{Reg, Uart};

/// What three reads of a driver give after two characters came.
fn bytes_read() -> [u8; 3] {
    let mut uart = Uart::new();
    uart.arrive(Flagged::good(b'h'));
    uart.arrive(Flagged::good(b'i'));
    [uart.read(Reg::R0), uart.read(Reg::R0), uart.read(Reg::R0)]
}

#[test]
fn a_driver_reads_two_characters(rt: HostRuntime) {
    assert!(rt; bytes_read() == *b"hi\0");
}
