//! The modes of a terminal after termios(3): which flags are set, the control characters, and the words by which both
//! are changed.
//!
//! A flag is named by its place in the list of flags, and a control character by its place in the list of characters
//! ([`places`]).
#![tactic(auto)]

mod bits;
mod names;
pub mod places;
mod reading;
mod settings;
mod slots;
mod texts;
mod words;

pub use names::{character_name, flag_name};
pub use reading::{BadWord, set_word, set_word_bytes, words_are_their_texts};
pub use settings::Modes;
pub use texts::is_same;
pub use words::Word;
