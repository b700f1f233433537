//! The receive side of a 16550 UART: its registers, its FIFO of 16 characters and its interrupts, after
//! the data sheet. Nothing here refuses or takes memory.
#![tactic(auto)]

ghost use Rattle.std.specs.Prelude.{◌≡◌, ◌≢◌, ◌*◌, ◌<◌, ◌≤◌};
ghost use Rattle.tty_base.specs.declared.characters.Flag.TheVariants.{Overrun};
ghost use Rattle.uart_regs.specs.Registers.{bit, is_set, is_break, is_parity_error, is_framing_error, is_error};

mod fifo;

pub use fifo::FIFO_DEPTH;
use fifo::Fifo;
use std::marker::Model;
use tty_base::{Flag, Flagged, Moves};

/// A register by its offset from the base address.
#[derive(Clone, Copy, PartialEq, Eq, Debug)]
pub enum Reg {
    /// Receiver buffer (RBR); with LCR bit 7 the low divisor latch.
    R0,
    /// Interrupt enable (IER); with LCR bit 7 the high divisor latch.
    R1,
    /// Interrupt identification (IIR) when read, FIFO control (FCR) when written.
    R2,
    /// Line control (LCR).
    R3,
    /// Modem control (MCR).
    R4,
    /// Line status (LSR).
    R5,
    /// Modem status (MSR).
    R6,
    /// Scratch (SCR).
    R7,
}

/// The character times after which a FIFO that nobody reads asks for service.
pub const TIMEOUT: u32 = 4;

// IER
const ENABLE_RECEIVED_DATA: u8 = 0;

const ENABLE_LINE_STATUS: u8 = 2;

// IIR
const FIFOS_ENABLED: u8 = 0xc0;

const NO_INTERRUPT: u8 = 0x01;

const RECEIVED_DATA: u8 = 0x04;

const RECEIVER_LINE_STATUS: u8 = 0x06;

const CHARACTER_TIMEOUT: u8 = 0x0c;

// FCR
const FIFO_ENABLE: u8 = 0;

const CLEAR_RECEIVE_FIFO: u8 = 1;

const TRIGGER_LOW: u8 = 6;

const TRIGGER_HIGH: u8 = 7;

// LCR
const DIVISOR_LATCH_ACCESS: u8 = 7;

/// Line status, bit 0: a character can be read.
pub const DATA_READY: u8 = 0;

/// Line status, bit 1: the full FIFO lost a character.
pub const OVERRUN_ERROR: u8 = 1;

/// Line status, bit 2: the front character has a parity error.
pub const PARITY_ERROR: u8 = 2;

/// Line status, bit 3: the front character has a framing error.
pub const FRAMING_ERROR: u8 = 3;

/// Line status, bit 4: the front character is a break.
pub const BREAK_INTERRUPT: u8 = 4;

/// Line status, bits 5 and 6.
const TRANSMITTER_EMPTY: u8 = 0x60;

/// Line status, bit 7: some character of the FIFO has an error.
const ERROR_IN_FIFO: u8 = 7;

// MSR: carrier, data set ready and clear to send
const MODEM_STATUS: u8 = 0xb0;

/// What a driver reads of one character.
#[derive(Clone, Copy, Debug, PartialEq, Eq)]
pub struct Reading {
    pub character: Flagged,
    /// That the FIFO has lost characters behind it.
    pub overrun: bool,
}

/// The receiver of a 16550 UART.
#[derive(Drop)]
pub struct Uart {
    fifo: Fifo,
    overrun: bool,
    idle: u32,
    trigger: u8,
    interrupts: u8,
    line_control: u8,
    modem_control: u8,
    scratch: u8,
    divisor_low: u8,
    divisor_high: u8,
}

impl Model for Uart {
    ghost use Rattle.uart_regs.specs.Registers.{Registers, IsReceiver};

    ghost Value = { Registers };

    ghost view = { λ u. record {
      fifo = u.fifo;
      overrun = u.overrun;
      idle = u.idle;
      trigger = u.trigger;
      interrupts = u.interrupts;
      line_control = u.line_control;
      modem_control = u.modem_control;
      scratch = u.scratch;
      divisor_low = u.divisor_low;
      divisor_high = u.divisor_high;
    } };

    ghost invariant = { λ u. IsReceiver record {
      fifo = u.fifo;
      overrun = u.overrun;
      idle = u.idle;
      trigger = u.trigger;
      interrupts = u.interrupts;
      line_control = u.line_control;
      modem_control = u.modem_control;
      scratch = u.scratch;
      divisor_low = u.divisor_low;
      divisor_high = u.divisor_high;
    } };
}

impl Moves for Uart {}

impl Uart {
    ghost use Rattle.uart_regs.specs.Registers.{IsReceiver, initial_registers, after_arrival};
    ghost use Rattle.uart_regs.specs.Registers.{after_idle, read_value, after_read, after_write};
    ghost use Rattle.uart_regs.specs.Registers.{is_pending, interrupt_identification, interrupt_code, line_status};
    ghost use Rattle.uart_regs.specs.Registers.{is_line_status, is_data_available, is_timeout};
    ghost use Rattle.uart_regs.specs.Registers.{selects_latches, has_error, after_fifo_control};
    ghost use Rattle.uart_regs.specs.Reading.{front_reading, after_front_reading};

    /// The receiver as the driver sets it up: FIFOs enabled with trigger 8, interrupts for received data
    /// and line status, no character.
    pub fn new() -> Uart
        ensures { result ≡ initial_registers }
    {
        Uart {
            fifo: Fifo::new(),
            overrun: false,
            idle: 0,
            trigger: 8,
            interrupts: 0x05,
            line_control: 0x03,
            modem_control: 0x0b,
            scratch: 0,
            divisor_low: 0x0c,
            divisor_high: 0,
        }
    }

    /// A character arrives on the line. A full FIFO keeps its 16 characters and sets the overrun error.
    pub fn arrive(&mut self, c: Flagged)
        requires { c.flag ≢ Overrun }
        ensures { self.new ≡ after_arrival self.old c }
    {
        if self.fifo.has_room() {
            self.fifo.push(c);
        } else {
            self.overrun = true;
        }
        self.idle = 0;
    }

    /// Lets `times` character times pass without an arrival.
    pub fn idle(&mut self, times: u32)
        ensures { self.new ≡ after_idle self.old times }
    {
        self.idle = self.idle.saturating_add(times).min(TIMEOUT);
    }

    /// Reads a register. Some reads change what the receiver holds, as the data sheet says.
    pub fn read(&mut self, reg: Reg) -> u8
        ensures value { result ≡ read_value self.old reg }
        ensures after { self.new ≡ after_read self.old reg }
        ensures receiver { IsReceiver self.old }
    {
        let _ = &self.fifo; // known: its bound
        match reg {
            Reg::R0 => self.read_offset_0(),
            Reg::R1 => self.read_offset_1(),
            Reg::R2 => self.interrupt_identification(),
            Reg::R3 => self.line_control,
            Reg::R4 => self.modem_control,
            Reg::R5 => self.read_line_status(),
            Reg::R6 => MODEM_STATUS,
            Reg::R7 => self.scratch,
        }
    }

    /// Writes a register. What is no receiver's, and what only reads, ignores the write.
    pub fn write(&mut self, reg: Reg, value: u8)
        ensures { self.new ≡ after_write self.old reg value }
    {
        match reg {
            Reg::R0 => self.write_offset_0(value),
            Reg::R1 => self.write_offset_1(value),
            Reg::R2 => self.control_fifo(value),
            Reg::R3 => self.line_control = value,
            Reg::R4 => self.modem_control = value & 0x1f,
            Reg::R5 | Reg::R6 => {}
            Reg::R7 => self.scratch = value,
        }
    }

    /// Reads line status and, where it says that a character is ready, the receiver buffer: what a
    /// driver does until none is ready.
    pub fn read_front(&mut self) -> Option<Reading>
        ensures reading { result ≡ front_reading self.old }
        ensures after { self.new ≡ after_front_reading self.old }
        ensures receiver { IsReceiver self.old }
    {
        let overrun = self.overrun;
        self.overrun = false;
        if self.fifo.is_empty() {
            self.fifo.clear(); // the next one stands in the first place again
            return None;
        }
        if self.selects_latches() {
            let flag = self.fifo.front_flag();
            self.fifo.clear_front();
            let character = Flagged {
                byte: self.divisor_low,
                flag,
            };
            return Some(Reading { character, overrun });
        }
        self.idle = 0;
        let character = self.fifo.take_front();
        Some(Reading { character, overrun })
    }

    /// The trigger: how many characters ask for service.
    pub fn trigger(&self) -> u8
        ensures value { result ≡ self.now.trigger }
        ensures receiver { IsReceiver self.now }
    {
        self.trigger
    }

    /// Whether an interrupt is pending: bit 0 of the interrupt identification would read 0.
    pub fn pending(&self) -> bool
        ensures value { result ≡ is_pending self.now }
        ensures receiver { IsReceiver self.now }
    {
        let _ = &self.fifo; // known: its bound
        self.interrupt_code() != NO_INTERRUPT
    }

    fn selects_latches(&self) -> bool
        ensures { result ≡ selects_latches self.now }
    {
        is_set(self.line_control, DIVISOR_LATCH_ACCESS)
    }

    fn read_offset_0(&mut self) -> u8
        ensures value { result ≡ read_value self.old Reg.R0 }
        ensures after { self.new ≡ after_read self.old Reg.R0 }
    {
        if self.selects_latches() {
            return self.divisor_low;
        }
        self.idle = 0; // a read begins the timeout again
        if self.fifo.is_empty() {
            return 0;
        }
        self.fifo.take_front().byte
    }

    fn write_offset_0(&mut self, value: u8)
        ensures { self.new ≡ after_write self.old Reg.R0 value }
    {
        if self.selects_latches() {
            self.divisor_low = value;
        }
    }

    fn read_offset_1(&self) -> u8
        ensures { result ≡ read_value self.now Reg.R1 }
    {
        if self.selects_latches() {
            self.divisor_high
        } else {
            self.interrupts
        }
    }

    fn write_offset_1(&mut self, value: u8)
        ensures { self.new ≡ after_write self.old Reg.R1 value }
    {
        if self.selects_latches() {
            self.divisor_high = value;
        } else {
            self.interrupts = value & 0x0f;
        }
    }

    fn interrupt_identification(&self) -> u8
        ensures { result ≡ interrupt_identification self.now }
    {
        FIFOS_ENABLED + self.interrupt_code()
    }

    fn interrupt_code(&self) -> u8
        ensures value { result ≡ interrupt_code self.now }
        ensures small { result ≤ 12 }
    {
        if self.has_line_status() {
            RECEIVER_LINE_STATUS
        } else if self.has_data_available() {
            RECEIVED_DATA
        } else if self.has_timeout() {
            CHARACTER_TIMEOUT
        } else {
            NO_INTERRUPT
        }
    }

    fn has_line_status(&self) -> bool
        ensures { result ≡ is_line_status self.now }
    {
        is_set(self.interrupts, ENABLE_LINE_STATUS)
            && (self.overrun || is_error(self.fifo.front_flag()))
    }

    fn has_data_available(&self) -> bool
        ensures { result ≡ is_data_available self.now }
    {
        is_set(self.interrupts, ENABLE_RECEIVED_DATA)
            && self.fifo.len() >= usize::from(self.trigger)
    }

    fn has_timeout(&self) -> bool
        ensures { result ≡ is_timeout self.now }
    {
        is_set(self.interrupts, ENABLE_RECEIVED_DATA)
            && !self.fifo.is_empty()
            && self.idle >= TIMEOUT
    }

    fn has_error(&self) -> bool
        ensures { result ≡ has_error self.now.fifo }
    {
        self.fifo.as_slice().iter().any(|c| is_error(c.flag))
    }

    fn line_status(&self) -> u8
        ensures { result ≡ line_status self.now }
    {
        let front = self.fifo.front_flag();
        TRANSMITTER_EMPTY
            + masked(!self.fifo.is_empty(), 1 << DATA_READY)
            + masked(self.overrun, 1 << OVERRUN_ERROR)
            + masked(is_parity_error(front), 1 << PARITY_ERROR)
            + masked(is_framing_error(front), 1 << FRAMING_ERROR)
            + masked(is_break(front), 1 << BREAK_INTERRUPT)
            + masked(self.has_error(), 1 << ERROR_IN_FIFO)
    }

    fn read_line_status(&mut self) -> u8
        ensures value { result ≡ line_status self.old }
        ensures after { self.new ≡ after_read self.old Reg.R5 }
    {
        let status = self.line_status();
        self.overrun = false; // a read of line status clears it
        self.fifo.clear_front();
        status
    }

    fn control_fifo(&mut self, value: u8)
        ensures { self.new ≡ after_fifo_control self.old value }
    {
        if !is_set(value, FIFO_ENABLE) {
            return;
        }
        if is_set(value, CLEAR_RECEIVE_FIFO) {
            self.fifo.clear();
        }
        self.trigger = match (is_set(value, TRIGGER_HIGH), is_set(value, TRIGGER_LOW)) {
            (false, false) => 1,
            (false, true) => 4,
            (true, false) => 8,
            (true, true) => 14,
        };
    }
}

/// Bit `place` of a register.
pub fn is_set(value: u8, place: u8) -> bool
    requires { place < 8 }
    ensures { result ≡ is_set value place }
{
    value >> place & 1 == 1
}

/// The bits of `mask`, or none.
fn masked(on: bool, mask: u8) -> u8
    ensures value { result ≡ bit on * mask }
    ensures at_most { result ≤ mask }
{
    if on { mask } else { 0 }
}

fn is_break(flag: Flag) -> bool
    ensures { result ≡ is_break flag }
{
    matches!(flag, Flag::Break)
}

fn is_parity_error(flag: Flag) -> bool
    ensures { result ≡ is_parity_error flag }
{
    matches!(flag, Flag::Parity)
}

fn is_framing_error(flag: Flag) -> bool
    ensures { result ≡ is_framing_error flag }
{
    matches!(flag, Flag::Frame)
}

fn is_error(flag: Flag) -> bool
    ensures { result ≡ is_error flag }
{
    is_parity_error(flag) || is_framing_error(flag) || is_break(flag)
}
