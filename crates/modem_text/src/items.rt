//! What a line says that only a session with modem lines has: that a modem block begins, which level the modem gives
//! a line, or a call of modem lines.

ghost use Rattle.std.specs.Prelude.{◌≡◌, ◌≤◌, Ok};
ghost use Rattle.further_text.specs.Numbers.{handle_in};
ghost use Rattle.modem_text.specs.Items.{level_in, count_of, pin_item, bits_in, IsCall, IsBits, read_item, item_of};

use crate::verbs::ModemVerb;
use further_text::{bounded, handle_in, has_count, port_in};
use modem_lines::Pin;
use session_text::Reason;
use text_lines::FirstTwo;

/// A call of modem lines (ioctl_tty(2), modem control), by its handle.
#[derive(Clone, Copy)]
pub enum OwnCall {
    /// Asks for the lines that are up (TIOCMGET).
    Mget { h: u8 },
    /// Sets DTR and RTS to those of the bits (TIOCMSET).
    Mset { h: u8, bits: u32 },
    /// Raises those of DTR and RTS that the bits have (TIOCMBIS).
    Mbis { h: u8, bits: u32 },
    /// Lowers those of DTR and RTS that the bits have (TIOCMBIC).
    Mbic { h: u8, bits: u32 },
    /// Sets or clears CLOCAL (TIOCSSOFTCAR).
    Softcar { h: u8, on: bool },
    /// Asks for CLOCAL (TIOCGSOFTCAR).
    Getcar { h: u8 },
    /// Sets or clears HUPCL (termios(3)).
    Hupcl { h: u8, on: bool },
    /// Reads the modem status register of the 16550.
    Msr { h: u8 },
}

/// What a line says.
#[derive(Clone, Copy)]
pub enum ModemItem {
    /// The modem block of a port begins.
    Block { port: u8 },
    /// The modem gives a line this level.
    Pin(Pin, bool),
    Call(OwnCall),
}

/// What a line says whose first word is this verb, in a session with so many ports, or why it is wrong.
pub fn item_of(ports: u8, verb: ModemVerb, arguments: &FirstTwo) -> Result<ModemItem, Reason>
    ensures { result ≡ item_of ports verb arguments.now }
{
    if !has_count(arguments, count_of(verb)) {
        return Err(Reason::Word);
    }
    let arguments = arguments.whole();
    read_item(ports, verb, arguments.first(), arguments.second())
}

fn count_of(verb: ModemVerb) -> usize
    ensures count { result ≡ count_of verb }
    ensures few { result ≤ 2 }
{
    match verb {
        ModemVerb::Mset | ModemVerb::Mbis | ModemVerb::Mbic => 2,
        ModemVerb::Softcar | ModemVerb::Hupcl => 2,
        _ => 1,
    }
}

fn read_item(ports: u8, verb: ModemVerb, first: &[u8], second: &[u8]) -> Result<ModemItem, Reason>
    ensures { result ≡ read_item ports verb first.now second.now }
{
    match verb {
        ModemVerb::Modem => Ok(ModemItem::Block {
            port: port_in(ports, first)?,
        }),
        ModemVerb::Dcd => pin_item(Pin::Dcd, first),
        ModemVerb::Dsr => pin_item(Pin::Dsr, first),
        ModemVerb::Cts => pin_item(Pin::Cts, first),
        ModemVerb::Ri => pin_item(Pin::Ri, first),
        _ => read_call(ports, verb, first, second),
    }
}

fn read_call(ports: u8, verb: ModemVerb, first: &[u8], second: &[u8]) -> Result<ModemItem, Reason>
    requires { IsCall verb }
    ensures { result ≡ read_item ports verb first.now second.now }
{
    let h = handle_in(first)?;
    match verb {
        ModemVerb::Mget => Ok(ModemItem::Call(OwnCall::Mget { h })),
        ModemVerb::Getcar => Ok(ModemItem::Call(OwnCall::Getcar { h })),
        ModemVerb::Msr => Ok(ModemItem::Call(OwnCall::Msr { h })),
        ModemVerb::Softcar => {
            let on = level_in(second)?;
            Ok(ModemItem::Call(OwnCall::Softcar { h, on }))
        }
        ModemVerb::Hupcl => {
            let on = level_in(second)?;
            Ok(ModemItem::Call(OwnCall::Hupcl { h, on }))
        }
        _ => read_bits(ports, verb, h, first, second),
    }
}

fn read_bits(
    ports: u8,
    verb: ModemVerb,
    h: u8,
    first: &[u8],
    second: &[u8],
) -> Result<ModemItem, Reason>
    requires verb { IsBits verb }
    requires handle { handle_in first.now ≡ Ok h }
    ensures { result ≡ read_item ports verb first.now second.now }
{
    let bits = bits_in(second)?;
    match verb {
        ModemVerb::Mset => Ok(ModemItem::Call(OwnCall::Mset { h, bits })),
        ModemVerb::Mbis => Ok(ModemItem::Call(OwnCall::Mbis { h, bits })),
        ModemVerb::Mbic => Ok(ModemItem::Call(OwnCall::Mbic { h, bits })),
        _ => unreachable!(),
    }
}

fn pin_item(pin: Pin, word: &[u8]) -> Result<ModemItem, Reason>
    ensures { result ≡ pin_item pin word.now }
{
    Ok(ModemItem::Pin(pin, level_in(word)?))
}

fn level_in(word: &[u8]) -> Result<bool, Reason>
    ensures { result ≡ level_in word.now }
{
    Ok(bounded(1, word)? == 1)
}

fn bits_in(word: &[u8]) -> Result<u32, Reason>
    ensures { result ≡ bits_in word.now }
{
    Ok(bounded(511, word)? as u32)
}
