//! Texts that are compared.

ghost use Rattle.std.specs.Prelude.{◌≡◌, ◌≤◌, ◌+◌, take, drop, length};
ghost use Rattle.std.specs.Str.{bytes_eq};

/// Whether a word is this text. Most words differ from it in length, and all are short: the library's
/// `==` costs more than such a word.
#[inline(always)]
pub fn is_same(word: &[u8], text: &[u8]) -> bool
    ensures { result ≡ bytes_eq word.now text.now }
{
    if word.len() != text.len() {
        return false;
    }
    if text.len() < 4 {
        are_bytes_same(word, text)
    } else {
        are_fours_same(word, text)
    }
}

#[inline(always)]
fn are_bytes_same(word: &[u8], text: &[u8]) -> bool
    requires { length word.now ≡ length text.now }
    ensures { result ≡ bytes_eq word.now text.now }
{
    for place in 0..text.len() {
        if word[place] != text[place] {
            return false;
        }
    }
    true
}

/// Whether two texts are the same, four bytes at a time. The last four are compared together with some that were seen.
#[inline(always)]
fn are_fours_same(word: &[u8], text: &[u8]) -> bool
    requires same { length word.now ≡ length text.now }
    requires some { 4 ≤ length text.now }
    ensures { result ≡ bytes_eq word.now text.now }
{
    let last = text.len() - 4;
    let mut place = 0;
    while place < last {
        if !is_same_at(word, text, place) {
            return false;
        }
        place += 4;
    }
    is_same_at(word, text, last)
}

/// Whether the four bytes from a place on are the same. As numbers they are compared at once.
#[inline(always)]
fn is_same_at(word: &[u8], text: &[u8], place: usize) -> bool
    requires word { place + 4 ≤ length word.now }
    requires text { place + 4 ≤ length text.now }
    ensures { result ≡ bytes_eq (take 4 (drop place word.now)) (take 4 (drop place text.now)) }
{
    let ours = four_at(word, place);
    let theirs = four_at(text, place);
    u32::from_le_bytes(ours) == u32::from_le_bytes(theirs)
}

#[inline(always)]
fn four_at(text: &[u8], place: usize) -> [u8; 4]
    requires { place + 4 ≤ length text.now }
    ensures { result ≡ take 4 (drop place text.now) }
{
    match text[place..].first_chunk::<4>() {
        Some(four) => *four,
        None => unreachable!(),
    }
}
