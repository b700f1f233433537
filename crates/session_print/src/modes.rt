//! The text of modes: the names of the flags that are set, and each control character.

ghost use Rattle.std.specs.Prelude.{◌≡◌, ◌++◌, ◌<◌, [], OnOk, codes, slice_index_or, string_bytes};
ghost use Rattle.tty_modes.specs.Names.{flag_names};
ghost use Rattle.tty_modes.specs.Settings.{character};
ghost use Rattle.tty_modes.specs.Word.{modes_text, word_text};
ghost use Rattle.tty_modes.specs.declared.words.Word.TheVariants.{Cc};
ghost use Rattle.tty_modes.specs.declared.places.TheConstants.{FLAG_COUNT, CHARACTER_COUNT};
ghost use Rattle.session_print.specs.Printing.{flags_text, characters_text};

use super::digits::put_number;
use std::alloc::AllocError;
use tty_modes::places::{CHARACTER_COUNT, FLAG_COUNT};
use tty_modes::{Modes, character_name, flag_name};

/// Adds the text of modes: the names of the set flags, and each control character.
#[inline(never)]
pub(crate) fn put_modes(text: &mut String, modes: &Modes) -> Result<(), AllocError>
    ensures { OnOk result (string_bytes text.new ≡ string_bytes text.old ++ modes_text modes.now) }
{
    put_flags(text, modes)?;
    put_character(text, modes, 0)?;
    put_further_characters(text, modes)
}

/// Adds the name of each flag that is set, and a blank.
fn put_flags(text: &mut String, modes: &Modes) -> Result<(), AllocError>
    ensures { OnOk result (string_bytes text.new ≡ string_bytes text.old ++ flags_text modes.now 0 29) }
{
    for flag in 0..FLAG_COUNT {
        if modes.has(flag) {
            put_flag(text, flag)?;
        }
    }
    Ok(())
}

/// Adds the name of a flag, and a blank.
fn put_flag(text: &mut String, flag: u32) -> Result<(), AllocError>
    requires { flag < FLAG_COUNT }
    ensures { OnOk result
        (string_bytes text.new ≡ string_bytes text.old ++ (slice_index_or flag_names flag [] ++ codes " ")) }
{
    text.push_str(flag_name(flag))?;
    text.push_str(" ")
}

/// Adds a blank and its word for each control character but the first.
fn put_further_characters(text: &mut String, modes: &Modes) -> Result<(), AllocError>
    ensures { OnOk result (string_bytes text.new ≡ string_bytes text.old ++ characters_text modes.now 1 14) }
{
    for place in 1..CHARACTER_COUNT {
        text.push_str(" ")?;
        put_character(text, modes, place)?;
    }
    Ok(())
}

/// Adds the word that says a control character.
fn put_character(text: &mut String, modes: &Modes, place: u8) -> Result<(), AllocError>
    requires { place < CHARACTER_COUNT }
    ensures { OnOk result
        (string_bytes text.new ≡ string_bytes text.old ++ word_text (Cc place (character modes.now place))) }
{
    text.push_str(character_name(place))?;
    text.push_str("=")?;
    put_number(text, u64::from(modes.cc(place)))
}
