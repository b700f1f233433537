//! The names of the flags and of the control characters.

ghost use Rattle.std.specs.Prelude.{◌≡◌, ◌<◌, [], length, map, slice_index_or};
ghost use Rattle.tty_modes.specs.Names.{flag_names, character_names};

use crate::bits::ModeBits;
use crate::places::{CHARACTER_COUNT, FLAG_COUNT};
use bitflags::Flag;

const CHARACTER_NAMES: [&str; 15] = [
    "intr", "quit", "erase", "kill", "eof", "time", "min", "start", "stop", "susp", "eol",
    "reprint", "werase", "lnext", "eol2",
];

/// The name of the flag at a place.
pub fn flag_name(flag: u32) -> &'static str
    requires { flag < FLAG_COUNT }
    ensures { result.now ≡ slice_index_or flag_names flag [] }
{
    name_at(ModeBits::FLAGS, flag as usize)
}

fn name_at(flags: &[Flag<ModeBits>], place: usize) -> &'static str
    requires { place < length flags.now }
    ensures { result.now ≡ slice_index_or (map (λ flag. flag.name.now) flags.now) place [] }
{
    flags[place].name
}

/// The name of the control character at a place.
pub fn character_name(place: u8) -> &'static str
    requires { place < CHARACTER_COUNT }
    ensures { result.now ≡ slice_index_or character_names place [] }
{
    CHARACTER_NAMES[place as usize]
}
