//! What a session has beside its ports' part, phase by phase: the calls that no port sees, and the items of the modem
//! blocks.

ghost use Rattle.std.specs.Prelude.{◌≡◌, ◌++◌, ◌∷◌, [], ◌==◌, IfOk, OnOk, if◌then◌else◌, map};
ghost use Rattle.std.specs.Prelude.{slice_index_or};
ghost use Rattle.modem_derived.specs.Blocks.{items_of_port, own_of, pins_of};

use modem_text::{ModemPart, OwnCall, PinItem};
use passed_calls::PlacedCall;
use std::alloc::Global;
use tty_base::NoMemory;

/// The calls of a phase that no port sees.
pub(crate) fn own_in(parts: &[ModemPart], k: usize) -> &[PlacedCall<OwnCall>]
    ensures { result.now ≡ slice_index_or (map own_of parts.now) k [] }
{
    match parts.get(k) {
        None => &[],
        Some(part) => part.own.as_slice(),
    }
}

/// The items of the modem blocks of a phase.
fn pins_in(parts: &[ModemPart], k: usize) -> &[PinItem]
    ensures { result.now ≡ slice_index_or (map pins_of parts.now) k [] }
{
    match parts.get(k) {
        None => &[],
        Some(part) => part.pins.as_slice(),
    }
}

/// The items of a port's modem block in a phase.
pub(crate) fn items_in(
    alloc: Global,
    parts: &[ModemPart],
    k: usize,
    port: u8,
) -> Result<Vec<PinItem>, NoMemory>
    ensures { IfOk result (λ items. items.items ≡ items_of_port port (slice_index_or (map pins_of parts.now) k [])) }
{
    let mut items = Vec::new(alloc);
    for item in pins_in(parts, k) {
        add_item(&mut items, *item, port)?;
    }
    Ok(items)
}

/// Adds an item, where it is one of this port.
fn add_item(items: &mut Vec<PinItem>, item: PinItem, port: u8) -> Result<(), NoMemory>
    ensures { OnOk result (items.new.items ≡ items.old.items ++ (if item.port == port then item ∷ [] else [])) }
{
    if item.port == port {
        items.push(item)?;
    }
    Ok(())
}
