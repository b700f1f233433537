//! Fields: words, each with the number that follows it. Most lines of a report are of these.

ghost use Rattle.std.specs.Prelude.{◌≡◌, ◌++◌, OnOk, string_bytes};
ghost use Rattle.session_print.specs.Printing.{fields_text};

use super::digits::put_number;
use std::alloc::AllocError;

/// Adds fields, and what stands at their end.
pub(crate) fn put_fields(
    text: &mut String,
    fields: &[(&str, u64)],
    end: &str,
) -> Result<(), AllocError>
    ensures { OnOk result (string_bytes text.new ≡ string_bytes text.old ++ fields_text fields.now end.now) }
{
    for field in fields {
        let (word, number) = *field;
        text.push_str(word)?;
        put_number(text, number)?;
    }
    text.push_str(end)
}
