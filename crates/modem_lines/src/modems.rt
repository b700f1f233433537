//! The modem lines of a port, with the numbers of their bits (ioctl_tty(2), TIOCMGET; 16550, modem status register).

ghost use Rattle.std.specs.Prelude.{◌≡◌, ◌≤◌};
ghost use Rattle.modem_lines.specs.Lines.{first_lines, with_pin, loses_carrier, may_open, after_open};
ghost use Rattle.modem_lines.specs.Lines.{after_shut, has_bit, assigned, raised, lowered, bit_where};
ghost use Rattle.modem_lines.specs.Lines.{modem_bits, status_register, after_status};

use super::pins::Pin;
use std::marker::Model;

/// Data terminal ready (ioctl_tty(2), TIOCMGET).
pub const TIOCM_DTR: u32 = 0x002;
/// Request to send.
pub const TIOCM_RTS: u32 = 0x004;
/// Clear to send.
pub const TIOCM_CTS: u32 = 0x020;
/// Carrier detect.
pub const TIOCM_CAR: u32 = 0x040;
/// Ring.
pub const TIOCM_RNG: u32 = 0x080;
/// Data set ready.
pub const TIOCM_DSR: u32 = 0x100;

/// CTS changed (16550, modem status register).
pub const MSR_DCTS: u8 = 0x01;
/// DSR changed.
pub const MSR_DDSR: u8 = 0x02;
/// RI fell: the trailing edge of the ring indicator.
pub const MSR_TERI: u8 = 0x04;
/// DCD changed.
pub const MSR_DDCD: u8 = 0x08;
/// CTS is up.
pub const MSR_CTS: u8 = 0x10;
/// DSR is up.
pub const MSR_DSR: u8 = 0x20;
/// RI is up.
pub const MSR_RI: u8 = 0x40;
/// DCD is up.
pub const MSR_DCD: u8 = 0x80;

/// The modem lines of a port: DCD, DSR, CTS and RI from the modem, with what changed of them; DTR and RTS to the modem;
/// and the modes CLOCAL and HUPCL (termios(3)). No call takes memory or refuses.
#[derive(Clone, Copy, Debug)]
pub struct Modem {
    dcd: bool,
    dsr: bool,
    cts: bool,
    ri: bool,
    dcd_changed: bool,
    dsr_changed: bool,
    cts_changed: bool,
    ri_fell: bool,
    dtr: bool,
    rts: bool,
    clocal: bool,
    hupcl: bool,
}

impl Model for Modem {
    ghost use Rattle.modem_lines.specs.Lines.{Lines};

    ghost Value = { Lines };

    ghost view = { λ m. record {
      dcd = m.dcd;
      dsr = m.dsr;
      cts = m.cts;
      ri = m.ri;
      dcd_changed = m.dcd_changed;
      dsr_changed = m.dsr_changed;
      cts_changed = m.cts_changed;
      ri_fell = m.ri_fell;
      dtr = m.dtr;
      rts = m.rts;
      clocal = m.clocal;
      hupcl = m.hupcl;
    } };

    ghost inverse = { λ lines. record {
      dcd = lines.dcd;
      dsr = lines.dsr;
      cts = lines.cts;
      ri = lines.ri;
      dcd_changed = lines.dcd_changed;
      dsr_changed = lines.dsr_changed;
      cts_changed = lines.cts_changed;
      ri_fell = lines.ri_fell;
      dtr = lines.dtr;
      rts = lines.rts;
      clocal = lines.clocal;
      hupcl = lines.hupcl;
    } };
}

impl Modem {
    /// All lines are down, CLOCAL is clear and HUPCL is set.
    pub fn new() -> Modem
        ensures { result ≡ first_lines }
    {
        Modem {
            dcd: false,
            dsr: false,
            cts: false,
            ri: false,
            dcd_changed: false,
            dsr_changed: false,
            cts_changed: false,
            ri_fell: false,
            dtr: false,
            rts: false,
            clocal: false,
            hupcl: true,
        }
    }

    /// The modem gives a line this level. True says that the carrier went away while CLOCAL is clear, so that the
    /// port is to be hung up.
    pub fn set(&mut self, pin: Pin, up: bool) -> bool
        ensures after { self.new ≡ with_pin self.old pin up }
        ensures lost { result ≡ loses_carrier self.old pin up }
    {
        match pin {
            Pin::Dcd => {
                let lost = self.dcd && !up && !self.clocal;
                self.dcd_changed = self.dcd_changed || self.dcd != up;
                self.dcd = up;
                return lost;
            }
            Pin::Dsr => {
                self.dsr_changed = self.dsr_changed || self.dsr != up;
                self.dsr = up;
            }
            Pin::Cts => {
                self.cts_changed = self.cts_changed || self.cts != up;
                self.cts = up;
            }
            Pin::Ri => {
                self.ri_fell = self.ri_fell || self.ri && !up;
                self.ri = up;
            }
        }
        false
    }

    /// The lines that are up, as TIOCMGET tells them (ioctl_tty(2)).
    pub fn bits(&self) -> u32
        ensures { result ≡ modem_bits self.now }
    {
        word_where(self.dtr, TIOCM_DTR)
            + word_where(self.rts, TIOCM_RTS)
            + word_where(self.cts, TIOCM_CTS)
            + word_where(self.dcd, TIOCM_CAR)
            + word_where(self.ri, TIOCM_RNG)
            + word_where(self.dsr, TIOCM_DSR)
    }

    /// Reads the modem status register of the 16550, which clears what it tells of changes.
    pub fn msr(&mut self) -> u8
        ensures register { result ≡ status_register self.old }
        ensures after { self.new ≡ after_status self.old }
    {
        let register = byte_where(self.cts_changed, MSR_DCTS)
            + byte_where(self.dsr_changed, MSR_DDSR)
            + byte_where(self.ri_fell, MSR_TERI)
            + byte_where(self.dcd_changed, MSR_DDCD)
            + byte_where(self.cts, MSR_CTS)
            + byte_where(self.dsr, MSR_DSR)
            + byte_where(self.ri, MSR_RI)
            + byte_where(self.dcd, MSR_DCD);
        self.dcd_changed = false;
        self.dsr_changed = false;
        self.cts_changed = false;
        self.ri_fell = false;
        register
    }

    /// Whether an open need not wait for the carrier: it does not block, CLOCAL is set, or the carrier is there.
    pub fn may_open(&self, nonblock: bool) -> bool
        ensures { result ≡ may_open self.now nonblock }
    {
        nonblock || self.clocal || self.dcd
    }

    /// The port is opened, and nobody had it open: DTR and RTS go up.
    pub fn opened(&mut self)
        ensures { self.new ≡ after_open self.old }
    {
        self.dtr = true;
        self.rts = true;
    }

    /// The port is closed by the last that had it open, or is hung up: DTR and RTS go down where HUPCL is set.
    pub fn shut(&mut self)
        ensures { self.new ≡ after_shut self.old }
    {
        self.dtr = self.dtr && !self.hupcl;
        self.rts = self.rts && !self.hupcl;
    }

    /// DTR and RTS become those of `bits`; other bits do nothing (ioctl_tty(2), TIOCMSET).
    pub fn assign(&mut self, bits: u32)
        ensures { self.new ≡ assigned self.old bits }
    {
        self.dtr = has_bit(bits, TIOCM_DTR);
        self.rts = has_bit(bits, TIOCM_RTS);
    }

    /// Those of DTR and RTS that `bits` has go up (ioctl_tty(2), TIOCMBIS).
    pub fn raise(&mut self, bits: u32)
        ensures { self.new ≡ raised self.old bits }
    {
        self.dtr = self.dtr || has_bit(bits, TIOCM_DTR);
        self.rts = self.rts || has_bit(bits, TIOCM_RTS);
    }

    /// Those of DTR and RTS that `bits` has go down (ioctl_tty(2), TIOCMBIC).
    pub fn lower(&mut self, bits: u32)
        ensures { self.new ≡ lowered self.old bits }
    {
        self.dtr = self.dtr && !has_bit(bits, TIOCM_DTR);
        self.rts = self.rts && !has_bit(bits, TIOCM_RTS);
    }

    /// Sets or clears CLOCAL (ioctl_tty(2), TIOCSSOFTCAR): with it the port goes on without a carrier.
    pub fn softcar(&mut self, on: bool)
        ensures { self.new ≡ record self.old { clocal = on } }
    {
        self.clocal = on;
    }

    /// Sets or clears HUPCL (termios(3)): with it a last close or a hangup takes DTR and RTS down.
    pub fn hupcl(&mut self, on: bool)
        ensures { self.new ≡ record self.old { hupcl = on } }
    {
        self.hupcl = on;
    }

    /// Whether CLOCAL is set (ioctl_tty(2), TIOCGSOFTCAR).
    pub fn carrier_soft(&self) -> bool
        ensures { result ≡ self.now.clocal }
    {
        self.clocal
    }
}

// Whether a number has one of the bits of a mask.
fn has_bit(bits: u32, mask: u32) -> bool
    ensures { result ≡ has_bit bits mask }
{
    bits & mask != 0
}

fn word_where(on: bool, bit: u32) -> u32
    ensures value { result ≡ bit_where on bit }
    ensures within { result ≤ bit }
{
    if on { bit } else { 0 }
}

fn byte_where(on: bool, bit: u8) -> u8
    ensures value { result ≡ bit_where on bit }
    ensures within { result ≤ bit }
{
    if on { bit } else { 0 }
}
