//! Arguments that are numbers, and how a wrong one is told.

ghost use Rattle.std.specs.Prelude.{◌≡◌, ◌≤◌, ◌==◌, IfOk, length};
ghost use Rattle.further_text.specs.Numbers.{bounded, handle_in, port_in, ranged};

use session_text::{BadLine, Reason, TextFault};
use text_lines::{FirstTwo, read_number};
use tty_base::sizes::LAST_HANDLE;

/// A line is wrong for this reason.
pub fn bad(line: u32, reason: Reason) -> TextFault
    ensures { result ≡ TextFault.Bad (record { line = line; reason = reason }) }
{
    TextFault::Bad(BadLine { line, reason })
}

/// Whether a line has so many arguments, of two at most.
pub fn has_count(arguments: &FirstTwo, count: usize) -> bool
    requires { count ≤ 2 }
    ensures { result ≡ (length arguments.now == count) }
{
    arguments.are_all() && arguments.whole().count() == count
}

/// The number that a word is, which is not below the least and not above the most.
pub fn ranged(least: u64, most: u64, word: &[u8]) -> Result<u64, Reason>
    ensures number { result ≡ ranged least most word.now }
    ensures within { IfOk result (λ number. number ≤ most) }
{
    match read_number(word) {
        None => Err(Reason::Number),
        Some(number) => {
            if least <= number && number <= most {
                Ok(number)
            } else {
                Err(Reason::Limit)
            }
        }
    }
}

/// The number that a word is, which is not above the most.
pub fn bounded(most: u64, word: &[u8]) -> Result<u64, Reason>
    ensures number { result ≡ bounded most word.now }
    ensures within { IfOk result (λ number. number ≤ most) }
{
    ranged(0, most, word)
}

/// The port that a word is, which is below the number of ports.
pub fn port_in(ports: u8, word: &[u8]) -> Result<u8, Reason>
    ensures { result ≡ port_in ports word.now }
{
    match read_number(word) {
        None => Err(Reason::Number),
        Some(number) => {
            if number < u64::from(ports) {
                Ok(number as u8)
            } else {
                Err(Reason::Limit)
            }
        }
    }
}

/// The number of the handle that a word is.
pub fn handle_in(word: &[u8]) -> Result<u8, Reason>
    ensures { result ≡ handle_in word.now }
{
    Ok(bounded(LAST_HANDLE as u64, word)? as u8)
}
