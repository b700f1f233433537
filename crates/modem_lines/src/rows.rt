//! Worked rows, as laws: a carrier that comes and goes, HUPCL, and the bits of the modem status register.

ghost use Rattle.std.specs.Prelude.{◌≡◌, true, false};
ghost use Rattle.modem_lines.specs.declared.pins.Pin.TheVariants.{Dcd, Dsr, Cts, Ri};
ghost use Rattle.modem_lines.specs.Lines.{first_lines, with_pin, loses_carrier, may_open, after_open, after_shut};
ghost use Rattle.modem_lines.specs.Lines.{assigned, raised, lowered, modem_bits, status_register, after_status};

/// A law: a carrier comes, a first open sets DTR and RTS, and the carrier that is lost hangs up.
pub fn dial_in()
    ensures waits { may_open first_lines false ≡ false }
    ensures goes_on { may_open (with_pin first_lines Dcd true) false ≡ true }
    ensures lines { modem_bits (after_open (with_pin first_lines Dcd true)) ≡ 70 }
    ensures hangs_up { loses_carrier (after_open (with_pin first_lines Dcd true)) Dcd false ≡ true }
    ensures heeded_unless_local { loses_carrier (record (with_pin first_lines Dcd true) { clocal = true })
        Dcd false ≡ false }
{}

/// A law: a carrier that came and went is told once, although the line is as it was.
pub fn dial_out()
    ensures lines { modem_bits (after_open (with_pin (with_pin first_lines Dcd true) Dcd false)) ≡ 6 }
    ensures told { status_register (with_pin (with_pin first_lines Dcd true) Dcd false) ≡ 8 }
    ensures once { status_register (after_status (with_pin (with_pin first_lines Dcd true) Dcd false)) ≡ 0 }
{}

/// A law: without HUPCL the lines to the modem outlast the last close, and with it they do not.
pub fn hupcl_kept()
    ensures down { modem_bits (after_shut (after_open first_lines)) ≡ 0 }
    ensures kept { modem_bits (after_shut (after_open (record first_lines { hupcl = false }))) ≡ 6 }
    ensures set { modem_bits (assigned (after_open first_lines) 0x1fd) ≡ 4 }
    ensures gained { modem_bits (raised first_lines 0x1fb) ≡ 2 }
    ensures lost { modem_bits (lowered (after_open first_lines) 0x1fd) ≡ 2 }
{}

/// A law: the bits of the modem status register, of RI the fall alone.
pub fn status_register_bits()
    ensures ring { status_register (with_pin first_lines Ri true) ≡ 0x40 }
    ensures ring_ends { status_register (with_pin (with_pin first_lines Ri true) Ri false) ≡ 0x04 }
    ensures clear_to_send { status_register (with_pin first_lines Cts true) ≡ 0x11 }
    ensures data_set { status_register (with_pin first_lines Dsr true) ≡ 0x22 }
    ensures carrier { status_register (with_pin first_lines Dcd true) ≡ 0x88 }
    ensures unchanged { status_register (with_pin first_lines Dcd false) ≡ 0 }
{}
