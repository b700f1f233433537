//! The registers of the 16550 receiver as they are read and written, as tests of worked values.

use std::process::Abort;
use tty_base::{Flag, Flagged};
use uart_regs::{Reg, Uart};

const GOOD: Flagged = Flagged {
    byte: 0x41,
    flag: Flag::Normal,
};

const BAD: Flagged = Flagged {
    byte: 0x42,
    flag: Flag::Parity,
};

/// What is done to a receiver, and what is to come of it.
#[derive(Clone, Copy)]
enum Step {
    /// So many good characters arrive.
    Arrive(u32),
    /// One with a parity error arrives.
    ArrivesBad,
    /// So many character times pass.
    Idles(u32),
    /// Whether an interrupt is pending.
    Pends(bool),
    /// This register reads so.
    Reads(Reg, u8),
    /// This register is written so.
    Writes(Reg, u8),
}

fn arrive_often(uart: &mut Uart, times: u32) {
    for _ in 0..times {
        uart.arrive(GOOD);
    }
}

/// Whether a step goes as it is to go.
fn goes(uart: &mut Uart, step: Step) -> bool {
    match step {
        Step::Arrive(times) => arrive_often(uart, times),
        Step::ArrivesBad => uart.arrive(BAD),
        Step::Idles(times) => uart.idle(times),
        Step::Pends(wanted) => return uart.pending() == wanted,
        Step::Reads(reg, wanted) => return uart.read(reg) == wanted,
        Step::Writes(reg, value) => uart.write(reg, value),
    }
    true
}

/// Each step goes as it is to go, from a receiver that was reset on.
fn tries(rt: &impl Abort, row: &[Step]) {
    let mut uart = Uart::new();
    for (place, step) in row.iter().enumerate() {
        let goes = goes(&mut uart, *step);
        assert!(rt; goes, "at step {place}");
    }
}

/// The FIFO fills and overruns.
const FILLS: &[Step] = &[
    Step::Reads(Reg::R2, 0xc1),
    Step::Arrive(3),
    Step::Reads(Reg::R5, 0x61),
    Step::Reads(Reg::R2, 0xc1),
    Step::Pends(false),
    Step::Idles(4),
    Step::Reads(Reg::R2, 0xcc),
    Step::Arrive(5),
    Step::Reads(Reg::R2, 0xc4),
    Step::Pends(true),
    Step::Arrive(9),
    Step::Reads(Reg::R5, 0x63),
    Step::Reads(Reg::R5, 0x61),
];

/// A character with a parity error stands at the front.
const PARITY: &[Step] = &[
    Step::ArrivesBad,
    Step::Reads(Reg::R2, 0xc6),
    Step::Reads(Reg::R5, 0xe5),
    Step::Reads(Reg::R5, 0x61),
    Step::Reads(Reg::R0, 0x42),
    Step::Reads(Reg::R0, 0),
];

/// Registers that are kept.
const KEPT: &[Step] = &[
    Step::Writes(Reg::R1, 0xff),
    Step::Writes(Reg::R4, 0xff),
    Step::Writes(Reg::R7, 0xa5),
    Step::Writes(Reg::R3, 0x83),
    Step::Writes(Reg::R1, 0x01),
    Step::Reads(Reg::R0, 0x0c),
    Step::Reads(Reg::R1, 0x01),
    Step::Reads(Reg::R3, 0x83),
    Step::Reads(Reg::R4, 0x1f),
    Step::Reads(Reg::R6, 0xb0),
    Step::Reads(Reg::R7, 0xa5),
    Step::Writes(Reg::R3, 0x03),
    Step::Reads(Reg::R1, 0x0f),
];

#[test]
fn the_receiver_fills_overruns_and_keeps_registers(rt: HostRuntime) {
    for row in [FILLS, PARITY, KEPT] {
        tries(&rt, row);
    }
}
