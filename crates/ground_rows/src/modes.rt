//! The words that set modes and the texts that are none, as tests of worked values.

use tty_modes::{BadWord, Word, set_word, set_word_bytes};

/// Texts that are no mode words, the first of them empty.
const OTHERS: &str = "
-
=
min
min=
min=01
min=+1
min=256
min=-1
=1
-raw
-sane
--echo
Echo
echo=1";

fn are_refused(texts: &str) -> bool {
    for text in texts.lines() {
        if set_word(text) != Err(BadWord) {
            return false;
        }
    }
    texts.starts_with('\n') && set_word_bytes(b"ech\xef") == Err(BadWord)
}

#[test]
fn words_are_read_and_other_texts_refused(rt: HostRuntime) {
    for (text, word) in [
        ("ignbrk", Word::On(0)),
        ("tostop", Word::On(28)),
        ("-iutf8", Word::Off(27)),
        ("eol2=255", Word::Cc(14, 255)),
        ("min=0", Word::Cc(6, 0)),
        ("raw", Word::Raw),
        ("sane", Word::Sane),
        ("-echo", Word::Off(19)),
    ] {
        let bytes = set_word_bytes(text.as_bytes());
        assert!(rt; set_word(text) == Ok(word) && bytes == Ok(word), "{text}");
    }
    assert!(rt; are_refused(OTHERS));
}
