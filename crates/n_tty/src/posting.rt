//! Posting bytes: output processing at the column, and echo that is posted whole or dropped whole.

ghost use Rattle.std.specs.Prelude.{◌≡◌, ◌+◌, ◌*◌, ◌<◌, ◌≤◌, ◌^◌, ℕ, List, [], ◌∷◌, true};
ghost use Rattle.std.specs.Prelude.{length, if◌then◌else◌, nat_lt, slice_index, take, drop};
ghost use Rattle.tty_base.specs.Sizes.{COLUMNS_OF_BYTE, COUNT_END, MOST_POSTED, PIECE};
ghost use Rattle.flow_control.specs.Output.{has_room, after_send, after_try};
ghost use Rattle.n_tty.specs.Posting.{column_past_text, column_after_try, all_posted_bytes, tally_after_try};
ghost use Rattle.n_tty.specs.Writing.{fitting_count};

use char_lanes::bytes_between;
use flow_control::{Counter, Tally, Wire};
use opost_out::Out;
use tty_base::{front_of, rest_of};
use tty_modes::Modes;

/// Posts bytes that fit.
pub fn post(out: &mut Out, bytes: &[u8], modes: &Modes, wire: &mut Wire)
    requires column { out.old < COUNT_END + 2 ^ 32 }
    requires short { length bytes.now ≤ PIECE }
    requires spare { length (all_posted_bytes modes.now out.old bytes.now) ≤ wire.old.spare }
    requires room { has_room wire.old (all_posted_bytes modes.now out.old bytes.now) ≡ true }
    ensures column { out.new ≡ column_past_text modes.now out.old (all_posted_bytes modes.now out.old bytes.now) }
    ensures wire { wire.new ≡ after_send wire.old (all_posted_bytes modes.now out.old bytes.now) }
{
    for byte in bytes {
        let piece = out.post(*byte, modes);
        let _sent = wire.send(piece.as_slice());
    }
}

/// Posts bytes up to the first whose posted bytes do not fit in what can be held under a halt. Answers how many.
pub fn post_fitting(out: &mut Out, bytes: &[u8], modes: &Modes, wire: &mut Wire) -> usize
    requires column { out.old < COUNT_END + 2 ^ 32 }
    requires short { length bytes.now ≤ PIECE }
    requires spare { MOST_POSTED ≤ wire.old.spare }
    ensures count { result ≡ fitting_count modes.now out.old wire.old bytes.now }
    ensures column { out.new
        ≡ column_past_text modes.now out.old (all_posted_bytes modes.now out.old (take result bytes.now)) }
    ensures wire { wire.new ≡ after_send wire.old (all_posted_bytes modes.now out.old (take result bytes.now)) }
{
    let mut count = 0;
    while count < bytes.len() {
        let taken = post_run(out, rest_of(bytes, count), modes, wire);
        if taken == 0 {
            return count;
        }
        count += taken;
    }
    count
}

/// Posts the bytes from blank to tilde at the front, where all of them fit, or else the first byte, where
/// that fits. Answers how many it posted.
fn post_run(out: &mut Out, bytes: &[u8], modes: &Modes, wire: &mut Wire) -> usize
    requires column { out.old < COUNT_END + 2 ^ 33 }
    requires some { 0 < length bytes.now }
    requires short { length bytes.now ≤ PIECE }
    requires spare { 8 * length bytes.now ≤ wire.old.spare }
    ensures within { result ≤ length bytes.now }
    ensures none { result ≡ 0 → fitting_count modes.now out.old wire.old bytes.now ≡ 0 }
    ensures same { result ≡ 0 → (out.new ≡ out.old) × (wire.new ≡ wire.old) }
    ensures fitting { 0 < result
        → fitting_count modes.now out.old wire.old bytes.now
        ≡ result + fitting_count modes.now out.new wire.new (drop result bytes.now) }
    ensures column { 0 < result
        → out.new ≡ column_past_text modes.now out.old (all_posted_bytes modes.now out.old (take result bytes.now)) }
    ensures wire { 0 < result
        → wire.new ≡ after_send wire.old (all_posted_bytes modes.now out.old (take result bytes.now)) }
    ensures spent { wire.old.spare ≤ wire.new.spare + 8 * result }
    ensures moved { out.new ≤ out.old + COLUMNS_OF_BYTE * result }
{
    let plain = plain_len(bytes);
    if plain > 0 && has_room(plain, wire) {
        let _sent = wire.send(front_of(bytes, plain));
        out.pass(plain);
        return plain;
    }
    let byte = bytes[0];
    let mut ahead = *out;
    let piece = ahead.post(byte, modes);
    if !wire.send(piece.as_slice()) {
        return 0;
    }
    *out = ahead;
    1
}

/// How many bytes from blank to tilde stand at the front.
#[inline(always)]
fn plain_len(bytes: &[u8]) -> usize
    ensures within { result ≤ length bytes.now }
    ensures plain { (k : ℕ) → k < result → (32 ≤ slice_index bytes.now k) × (slice_index bytes.now k ≤ 126) }
{
    bytes_between(bytes, b' ', b'~')
}

/// Whether the first of some bytes fits with what is posted for it.
pub fn fits_any(out: &Out, bytes: &[u8], modes: &Modes, wire: &Wire) -> bool
    requires { out.now < COUNT_END + 2 ^ 32 }
    ensures { result ≡ nat_lt 0 (fitting_count modes.now out.now wire.now bytes.now) }
{
    let [byte, ..] = bytes else {
        return false;
    };
    if !wire.halted() {
        return true;
    }
    let mut ahead = *out;
    has_room(ahead.post(*byte, modes).len(), wire)
}

/// How many bytes are posted for some.
pub fn text_len(out: &Out, bytes: &[u8], modes: &Modes) -> usize
    requires column { out.now < COUNT_END + 2 ^ 32 }
    requires short { length bytes.now ≤ PIECE }
    ensures len { result ≡ length (all_posted_bytes modes.now out.now bytes.now) }
    ensures most { result ≤ 8 * length bytes.now }
{
    let mut ahead = *out;
    let mut count = 0;
    for byte in bytes {
        count += ahead.post(*byte, modes).len();
    }
    count
}

/// Whether so many posted bytes fit: without a halt, or in what can be held.
pub fn has_room(count: usize, wire: &Wire) -> bool
    ensures { (text : List ℕ) → length text ≡ count → result ≡ has_room wire.now text }
{
    !wire.halted() || count <= wire.room()
}

/// Posts an echo whole, or where it does not fit drops it whole and counts its bytes.
pub fn echo_bytes(out: &mut Out, echo: &[u8], modes: &Modes, wire: &mut Wire, tally: &mut Tally)
    requires column { out.old < COUNT_END + 2 ^ 32 }
    requires short { length echo.now ≤ 24 }
    requires spare { length (all_posted_bytes modes.now out.old echo.now) ≤ wire.old.spare }
    ensures column { out.new
        ≡ column_after_try modes.now wire.old out.old (all_posted_bytes modes.now out.old echo.now) }
    ensures wire { wire.new ≡ after_try wire.old (all_posted_bytes modes.now out.old echo.now) }
    ensures tally { tally.new ≡ tally_after_try wire.old (all_posted_bytes modes.now out.old echo.now) tally.old }
{
    let count = text_len(out, echo, modes);
    if has_room(count, wire) {
        post(out, echo, modes, wire);
    } else {
        tally.count(Counter::Echo, count as u64);
    }
}

/// Posts the echo of a printed byte, which is that byte under all modes, or where it does not fit counts it.
#[inline(always)]
pub fn echo_printed(out: &mut Out, byte: u8, wire: &mut Wire, tally: &mut Tally)
    requires column { out.old < COUNT_END + 2 ^ 32 }
    requires spare { 0 < wire.old.spare }
    ensures column { out.new ≡ (if has_room wire.old (byte ∷ []) then out.old + 1 else out.old) }
    ensures wire { wire.new ≡ after_try wire.old (byte ∷ []) }
    ensures tally { tally.new ≡ tally_after_try wire.old (byte ∷ []) tally.old }
{
    if wire.send_byte(byte) {
        out.pass(1);
    } else {
        tally.count(Counter::Echo, 1);
    }
}
