//! Words that write bytes, each as two hexadecimal digits.

ghost use Rattle.std.specs.Prelude.{◌≡◌, ◌==◌, ◌%◌, ◌*◌, ◌+◌, ◌++◌, ℕ, IsTrue, Some, length, IfOk, OnOk, OnErr};
ghost use Rattle.std.specs.List.{list_all};
ghost use Rattle.hex.specs.Hex.{hex_digit_value, is_hex_digit};
ghost use Rattle.text_lines.specs.Sizes.{ROW};
ghost use Rattle.text_lines.specs.Values.{is_hex, bytes_of as bytes_written};

use std::alloc::Global;
use tty_base::NoMemory;

/// From this length on a word's bytes are written by rows.
const LONG: usize = 4_096;

/// How many bytes a row has.
const ROW: usize = 256;

/// Whether a word is HEX: an even number, not 0, of hexadecimal digits in either case.
pub fn is_hex(word: &[u8]) -> bool
    ensures { result ≡ is_hex word.now }
{
    !word.is_empty() && word.len() % 2 == 0 && are_hex_digits(word)
}

/// No byte ends the walk early, so that many are tested at once.
fn are_hex_digits(word: &[u8]) -> bool
    ensures { result ≡ list_all is_hex_digit word.now }
{
    let mut good = true;
    for byte in word {
        good = good & is_hex_digit(*byte);
    }
    good
}

#[inline(always)]
fn is_hex_digit(byte: u8) -> bool
    ensures { result ≡ is_hex_digit byte }
{
    byte.is_ascii_digit() || (b'a' <= byte && byte <= b'f') || (b'A' <= byte && byte <= b'F')
}

/// The byte that two hexadecimal digits write. Both are worked on at once: the low four bits of a
/// letter are 1 to 6, and bit 6 is set in letters alone.
#[inline(always)]
fn byte_in(high: u8, low: u8) -> u8
    requires high { IsTrue (is_hex_digit high) }
    requires low { IsTrue (is_hex_digit low) }
    ensures { (v w : ℕ) → Some v ≡ hex_digit_value high → Some w ≡ hex_digit_value low → result ≡ v * 16 + w }
{
    let both = u16::from(high) + u16::from(low) * 256;
    let values = (both & 0x0f0f) + (both / 64 & 0x0101) * 9;
    ((values * 16 + values / 256) % 256) as u8
}

/// Writes the bytes that digits write, each to its place.
fn write_bytes(digits: &[u8], bytes: &mut [u8])
    requires digits { IsTrue (list_all is_hex_digit digits.now) }
    requires room { length digits.now ≡ 2 * length bytes.old }
    ensures { bytes.new ≡ bytes_written digits.now }
{
    let (pairs, _) = digits.as_chunks::<2>();
    for place in 0..bytes.len() {
        let [high, low] = pairs[place];
        bytes[place] = byte_in(high, low);
    }
}

/// The bytes that HEX writes, and none where the word is not HEX.
pub fn bytes_of(alloc: Global, word: &[u8]) -> Result<Vec<u8>, NoMemory>
    ensures { IfOk result (λ bytes. bytes.items ≡ bytes_written word.now) }
{
    if is_hex(word) {
        bytes_in(alloc, word)
    } else {
        Ok(Vec::new(alloc))
    }
}

/// The bytes that HEX writes.
pub fn bytes_in(alloc: Global, word: &[u8]) -> Result<Vec<u8>, NoMemory>
    requires { IsTrue (is_hex word.now) }
    ensures { IfOk result (λ bytes. bytes.items ≡ bytes_written word.now) }
{
    if word.len() > LONG {
        return bytes_by_rows(alloc, word);
    }
    short_bytes_in(alloc, word)
}

/// Makes a list the bytes that HEX writes. Only where it is longer than ever before does it take memory;
/// `NoMemory` leaves it as it was.
pub fn bytes_into(bytes: &mut Vec<u8>, word: &[u8]) -> Result<(), NoMemory>
    requires { IsTrue (is_hex word.now) }
    ensures ok { OnOk result (bytes.new.items ≡ bytes_written word.now) }
    ensures err { OnErr result (bytes.new.items ≡ bytes.old.items) }
{
    write_digits(bytes, word)
}

/// What was in the list is overwritten, and room is filled only behind it.
#[inline(always)]
fn write_digits(bytes: &mut Vec<u8>, word: &[u8]) -> Result<(), NoMemory>
    requires digits { IsTrue (list_all is_hex_digit word.now) }
    requires even { length word.now % 2 ≡ 0 }
    ensures ok { OnOk result (bytes.new.items ≡ bytes_written word.now) }
    ensures err { OnErr result (bytes.new.items ≡ bytes.old.items) }
{
    bytes.resize(word.len() / 2, 0)?;
    write_bytes(word, bytes);
    Ok(())
}

#[inline(always)]
fn short_bytes_in(alloc: Global, word: &[u8]) -> Result<Vec<u8>, NoMemory>
    requires digits { IsTrue (list_all is_hex_digit word.now) }
    requires even { length word.now % 2 ≡ 0 }
    ensures { IfOk result (λ bytes. bytes.items ≡ bytes_written word.now) }
{
    let mut bytes = Vec::with_capacity(alloc, word.len() / 2)?;
    write_digits(&mut bytes, word)?;
    Ok(bytes)
}

/// The bytes of a long word, row by row, so that no room is filled before its bytes are written.
#[inline(never)]
fn bytes_by_rows(alloc: Global, word: &[u8]) -> Result<Vec<u8>, NoMemory>
    requires { IsTrue (is_hex word.now) }
    ensures { IfOk result (λ bytes. bytes.items ≡ bytes_written word.now) }
{
    let mut bytes = Vec::with_capacity(alloc, word.len() / 2)?;
    let mut rest = word;
    while rest.len() >= 2 * ROW {
        let (digits, after) = rest.split_at(2 * ROW);
        add_row(&mut bytes, digits)?;
        rest = after;
    }
    let last = short_bytes_in(alloc, rest)?;
    bytes.extend_from_slice(&last)?;
    Ok(bytes)
}

fn add_row(bytes: &mut Vec<u8>, digits: &[u8]) -> Result<(), NoMemory>
    requires digits { IsTrue (list_all is_hex_digit digits.now) }
    requires room { length digits.now ≡ 2 * ROW }
    ensures { OnOk result (bytes.new.items ≡ bytes.old.items ++ bytes_written digits.now) }
{
    let mut row = [0; ROW];
    write_bytes(digits, &mut row);
    Ok(bytes.extend_from_slice(&row)?)
}
