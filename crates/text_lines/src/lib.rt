//! Texts by lines and words: what parts them, and what a word may be.
//!
//! A line ends at LF, and the last LF may be missing. Words are parted by blanks, TABs and CRs; every other byte is
//! part of a word. A number is `0` or 1 to 10 decimal digits without a leading 0. A name is a letter a to z, and up to
//! 15 letters a to z, digits or `_`. HEX is an even number, not 0, of hexadecimal digits in either case.
#![tactic(auto)]

mod arguments;
mod hexadecimal;
mod lines;
mod names;
mod numbers;

pub use arguments::{Arguments, FirstTwo};
pub use hexadecimal::{bytes_in, bytes_into, bytes_of, is_hex};
pub use lines::{is_comment, split_line, split_word, word_at};
pub use names::{is_name, name_of};
pub use numbers::{is_number, number_at, number_of, read_number};
