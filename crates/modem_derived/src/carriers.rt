//! The blocks of `carrier`, the caller that hangs a port up.

ghost use Rattle.std.specs.Prelude.{◌≡◌, [], ◌+◌, ◌==◌, IfOk, if◌then◌else◌, length, map};
ghost use Rattle.std.specs.Prelude.{slice_index_or};
ghost use Rattle.tty_calls.specs.Sessions.{session_of};
ghost use Rattle.modem_text.specs.Sessions.{carrier_block, carrier_name};
ghost use Rattle.modem_derived.specs.Blocks.{AreCarriers, block_of_further, carriers_in, items_of_port, pins_of};

use arrayvec::ArrayString;
use derived_session::FurtherBlock;
use modem_text::{ModemPart, ModemSession, PinItem};
use std::alloc::Global;
use tty_base::NoMemory;

/// The blocks of `carrier` of each phase.
pub(crate) fn carriers_of(
    alloc: Global,
    session: &ModemSession,
) -> Result<Vec<Vec<FurtherBlock>>, NoMemory>
    ensures { IfOk result (λ carriers. AreCarriers (session_of session.now.session).ports
        (length (session_of session.now.session).phases) session.now.parts.items (map (λ b. b.items) carriers.items)) }
{
    let mut carriers = Vec::new(alloc);
    for k in 0..session.session.phases.len() {
        let pins = pins_in(session.parts.as_slice(), k);
        let blocks = carriers_in(alloc, session.session.ports, pins)?;
        carriers.push(blocks)?;
    }
    Ok(carriers)
}

/// The items of the modem blocks of a phase.
fn pins_in(parts: &[ModemPart], k: usize) -> &[PinItem]
    ensures { result.now ≡ slice_index_or (map pins_of parts.now) k [] }
{
    match parts.get(k) {
        None => &[],
        Some(part) => part.pins.as_slice(),
    }
}

/// The blocks of `carrier` in a phase with these items: one on each port.
fn carriers_in(alloc: Global, ports: u8, pins: &[PinItem]) -> Result<Vec<FurtherBlock>, NoMemory>
    ensures { IfOk result (λ blocks. map block_of_further blocks.items ≡ carriers_in ports pins.now) }
{
    let mut blocks = Vec::new(alloc);
    for port in 0..ports {
        let block = carrier_block(port, pins)?;
        blocks.push(block)?;
    }
    Ok(blocks)
}

/// The block of `carrier` on a port. More items than can be counted are want of memory.
fn carrier_block(port: u8, pins: &[PinItem]) -> Result<FurtherBlock, NoMemory>
    ensures { IfOk result (λ block.
        block_of_further block ≡ carrier_block (length (items_of_port port pins.now)) port) }
{
    let steps = count_on(port, pins)?;
    Ok(FurtherBlock {
        port,
        name: carrier_name(),
        steps,
    })
}

/// How many items are of a port.
fn count_on(port: u8, pins: &[PinItem]) -> Result<u32, NoMemory>
    ensures { IfOk result (λ count. count ≡ length (items_of_port port pins.now)) }
{
    let mut count = 0;
    for item in pins {
        count = count_more(count, item.port == port)?;
    }
    Ok(count)
}

fn count_more(count: u32, more: bool) -> Result<u32, NoMemory>
    ensures { IfOk result (λ next. next ≡ (if more then count + 1 else count)) }
{
    if more {
        return count.checked_add(1).ok_or(NoMemory);
    }
    Ok(count)
}

/// The name of the caller that hangs a port up.
pub fn carrier_name() -> ArrayString<16>
    ensures { result.bytes ≡ carrier_name }
{
    let mut name = ArrayString::new();
    name.push_str("carrier");
    name
}
