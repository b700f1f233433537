//! Where the name of a flag or of a control character may stand in its list, found without a walk over the names.

ghost use Rattle.std.specs.Prelude.{◌≡◌, ◌<◌, slice_index};
ghost use Rattle.tty_modes.specs.Slots.{slot_of};

/// The flag whose name has this slot. Where none has it, any flag may stand there.
const FLAG_SLOTS: [u8; 128] = [
    0, 0, 0, 0, 26, 0, 0, 1, 0, 0, 0, 0, 0, 0, 0, 0, 0, 0, 0, 0, 0, 16, 0, 0, 0, 0, 6, 0, 0, 0, 0,
    0, 0, 0, 0, 0, 0, 0, 13, 0, 27, 11, 0, 0, 7, 0, 2, 9, 0, 0, 0, 0, 0, 18, 0, 4, 0, 0, 0, 0, 0,
    0, 10, 0, 0, 15, 0, 12, 0, 0, 0, 0, 0, 0, 8, 0, 0, 0, 0, 0, 0, 0, 0, 0, 0, 0, 14, 0, 0, 3, 0,
    0, 0, 0, 0, 0, 0, 20, 5, 22, 0, 0, 25, 21, 0, 19, 23, 0, 24, 0, 0, 28, 0, 0, 17, 0, 0, 0, 0, 0,
    0, 0, 0, 0, 0, 0, 0, 0,
];

/// The control character whose name has this slot. Where none has it, any may stand there.
const CHARACTER_SLOTS: [u8; 128] = [
    0, 0, 0, 0, 0, 0, 0, 0, 10, 0, 0, 0, 0, 0, 0, 1, 0, 0, 0, 0, 0, 0, 3, 0, 0, 0, 0, 0, 0, 0, 0,
    0, 0, 0, 2, 0, 0, 0, 0, 0, 0, 0, 5, 0, 6, 0, 0, 0, 0, 0, 0, 0, 0, 0, 0, 0, 0, 0, 0, 0, 0, 0, 0,
    0, 0, 0, 0, 0, 0, 8, 0, 0, 0, 0, 0, 0, 4, 7, 0, 0, 14, 0, 0, 0, 0, 0, 11, 0, 0, 0, 0, 0, 0, 0,
    0, 0, 0, 12, 0, 13, 0, 0, 0, 0, 0, 9, 0, 0, 0, 0, 0, 0, 0, 0, 0, 0, 0, 0, 0, 0, 0, 0, 0, 0, 0,
    0, 0, 0,
];

/// A number below 128 that a name's length and three of its bytes give: another one for each name of a
/// list, none of which is shorter than three bytes.
#[inline(always)]
pub(crate) fn slot_of(name: &[u8]) -> usize
    ensures value { result ≡ slot_of name.now }
    ensures small { result < 128 }
{
    if name.len() < 3 {
        return 0;
    }
    let ends = name.len() % 64 + usize::from(name[0]);
    let last = usize::from(name[name.len() - 1]);
    (ends * 2 + usize::from(name[2]) * 9 + last) % 128
}

/// The flag whose name may have this slot.
#[inline(always)]
pub(crate) fn flag_near(slot: usize) -> u32
    requires { slot < 128 }
    ensures value { result ≡ slice_index FLAG_SLOTS slot }
    ensures small { result < 29 }
{
    u32::from(FLAG_SLOTS[slot])
}

/// The control character whose name may have this slot.
#[inline(always)]
pub(crate) fn character_near(slot: usize) -> u8
    requires { slot < 128 }
    ensures value { result ≡ slice_index CHARACTER_SLOTS slot }
    ensures small { result < 15 }
{
    CHARACTER_SLOTS[slot]
}
