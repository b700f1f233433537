//! N_TTY as a value: what it receives, what a read takes and a write posts, and what new modes and a flush do to it.

ghost use Rattle.std.specs.Prelude.{◌≡◌, ◌+◌, ◌-◌, ◌*◌, ◌%◌, ◌<◌, ◌≤◌, ◌^◌, IfOk, true, not, ◌&&◌};
ghost use Rattle.std.specs.Prelude.{◌||◌, ◌++◌, length, take, nat_le, nat_lt};
ghost use Rattle.tty_base.specs.Sizes.{COLUMNS_OF_CHARACTER, COLUMNS_OF_PIECE, COUNT_END, MOST_HELD, MOST_POSTED};
ghost use Rattle.tty_base.specs.Sizes.{MOST_UNREAD, PIECE};
ghost use Rattle.tty_modes.specs.Settings.{has_flag};
ghost use Rattle.tty_modes.specs.declared.places.TheConstants.{ICANON};
ghost use Rattle.line_store.specs.Unread.{end_count};
ghost use Rattle.flow_control.specs.Output.{after_send};
ghost use Rattle.n_tty.specs.States.{NTtyState, fresh_tty, on_port, is_accepting};
ghost use Rattle.n_tty.specs.States.{most_unread, unread_count, has_piece, FitsModes};
ghost use Rattle.n_tty.specs.Storing.{without_input, after_recast};
ghost use Rattle.n_tty.specs.Flow.{after_ixoff_rule};
ghost use Rattle.n_tty.specs.Receiving.{after_character};
ghost use Rattle.n_tty.specs.Reading.{bytes_read, after_read, is_readable, ready_count};
ghost use Rattle.n_tty.specs.Spending.{pending_count};
ghost use Rattle.n_tty.specs.Writing.{piece_size, piece_text, after_write};

mod receiving;
mod running;

use crate::flow::apply_ixoff_rule;
use crate::posting::{fits_any, post_fitting};
use flow_control::{Tally, Wire};
use line_store::Store;
use n_tty_edit::Edit;
use opost_out::Out;
use std::alloc::Global;
use std::marker::Model;
use tty_base::sizes::{MOST_ENDS, MOST_LINE, MOST_TO_ACCEPT, MOST_TO_ACCEPT_MARKED, PIECE};
use tty_base::{Bytes, Flagged, Moves, NoMemory};
use tty_modes::Modes;
use tty_modes::places::{ICANON, PARMRK, VMIN, VTIME};

/// How much room on the wire one character takes at most, beyond what is pending: its echo as it is posted, what
/// taking it off the screen again can post, and STOP or START.
pub const CHARACTER_ROOM: usize = 41;

/// N_TTY: unread input in pieces, the line that is being edited, and the column of what was posted. Only
/// `new` takes memory.
#[derive(Drop)]
pub struct NTty {
    store: Store,
    edit: Edit,
    start: usize,
    quoted: bool,
    last: u64,
    out: Out,
}

impl Model for NTty {
    ghost use Rattle.std.specs.Prelude.{◌≤◌, ◌+◌, length};
    ghost use Rattle.tty_base.specs.Sizes.{MOST_UNREAD, MOST_LINE};
    ghost use Rattle.line_store.specs.Unread.{bytes_of};
    ghost use Rattle.n_tty.specs.States.{NTtyState};

    ghost Value = { NTtyState };

    ghost view = { λ t.
        record { items = t.store; edit = t.edit; start = t.start; quoted = t.quoted; last = t.last; column = t.out } };

    ghost invariant = { λ t.
        record { within : length (bytes_of t.store) + length t.edit ≤ MOST_UNREAD; line : length t.edit ≤ MOST_LINE } };
}

impl Moves for NTty {}

impl NTty {
    /// Nothing is unread and nothing was posted; there is room for all that it ever holds.
    pub fn new(alloc: Global) -> Result<NTty, NoMemory>
        ensures { IfOk result (λ tty. tty ≡ fresh_tty) }
    {
        Ok(NTty {
            store: Store::new(alloc)?,
            edit: Edit::new(alloc)?,
            start: 0,
            quoted: false,
            last: 0,
            out: Out::new(),
        })
    }

    /// Whether a character is accepted: there is room for it, or in canonical mode no piece is complete.
    #[inline(always)]
    pub fn accepts(&self, modes: &Modes) -> bool
        ensures { result ≡ is_accepting modes.now self.now }
    {
        self.store.lines() < MOST_ENDS
            && (self.unread() <= MOST_TO_ACCEPT_MARKED || self.has_room(modes))
    }

    /// Whether there is room for the bytes of one more character, or in canonical mode no piece is complete.
    #[inline(never)]
    fn has_room(&self, modes: &Modes) -> bool
        ensures { result ≡ (nat_le (unread_count self.now) (most_unread modes.now)
            || (has_flag modes.now ICANON && not (has_piece self.now))) }
    {
        let most = if modes.has(PARMRK) {
            MOST_TO_ACCEPT_MARKED
        } else {
            MOST_TO_ACCEPT
        };
        self.unread() <= most || modes.has(ICANON) && self.store.lines() == 0
    }

    /// Receives a character at a tick: stores it, edits with it, echoes it, steers output or raises a
    /// signal; then applies the rule for ixoff.
    #[inline(always)]
    pub fn receive(
        &mut self,
        c: Flagged,
        now: u64,
        modes: &Modes,
        wire: &mut Wire,
        tally: &mut Tally,
    )
        requires accepting { is_accepting modes.now self.old ≡ true }
        requires fitting { FitsModes modes.now self.old }
        requires room { pending_count self.old wire.old + CHARACTER_ROOM ≤ wire.old.spare }
        requires signal { 0 < tally.old.signals.spare }
        requires column { self.old.column < COUNT_END }
        ensures after { on_port self.new wire.new tally.new
            ≡ after_character modes.now now c (on_port self.old wire.old tally.old) }
        ensures fits { FitsModes modes.now self.new }
        // So several characters need room for what is pending once, and `CHARACTER_ROOM` for each.
        ensures spent { wire.old.spare + pending_count self.new wire.new
            ≤ wire.new.spare + (pending_count self.old wire.old + CHARACTER_ROOM) }
        ensures signals { tally.old.signals.spare ≤ tally.new.signals.spare + 1 }
        ensures moved { self.new.column ≤ self.old.column + COLUMNS_OF_CHARACTER }
        ensures past { self.old.last ≤ now → self.new.last ≤ now }
    {
        prove!(self.edit.bytes().len() <= MOST_LINE);
        self.take(c, now, modes, wire, tally);
        self.ixoff(modes, wire);
    }

    /// Whether a read of at most `n` bytes is ready, which has waited since a tick, by MIN and TIME or by
    /// a complete piece.
    #[inline(always)]
    pub fn ready(&self, n: u32, modes: &Modes, nonblock: bool, since: u64, now: u64) -> bool
        requires { FitsModes modes.now self.now }
        ensures { result ≡ is_readable modes.now nonblock n since now self.now }
    {
        if modes.has(ICANON) {
            return self.store.lines() > 0;
        }
        let (min, time) = (modes.cc(VMIN), modes.cc(VTIME));
        let unread = self.unread() as u32;
        if nonblock {
            unread > 0 || min == 0 && time == 0
        } else {
            read_rule::ready(n, min, time, unread, since, self.last, now)
        }
    }

    /// How many bytes `read` gives where it is asked for at most `n`: room for so many is to be reserved.
    pub fn read_len(&self, n: u32, modes: &Modes) -> u32
        requires { FitsModes modes.now self.now }
        ensures { result ≡ length (bytes_read modes.now n self.now) }
    {
        if modes.has(ICANON) {
            self.store.line_len(n)
        } else {
            self.store.raw_len(n)
        }
    }

    /// Reads at most `n` bytes, and at most 4,096: adds them to `out`, and answers how many. In canonical
    /// mode they are of the first piece, whose end goes with its last byte.
    pub fn read(&mut self, n: u32, modes: &Modes, out: &mut Bytes) -> u32
        requires fitting { FitsModes modes.now self.old }
        requires complete { has_flag modes.now ICANON ≡ true → 0 < end_count self.old.items }
        requires room { length (bytes_read modes.now n self.old) ≤ out.old.spare }
        ensures count { result ≡ length (bytes_read modes.now n self.old) }
        ensures bytes { out.new ≡ record {
          items = out.old.items ++ bytes_read modes.now n self.old;
          spare = out.old.spare - result;
        } }
        ensures left { self.new ≡ after_read modes.now n self.old }
        ensures fits { FitsModes modes.now self.new }
    {
        if modes.has(ICANON) {
            self.store.take_line(n, out)
        } else {
            self.store.take_raw(n, out)
        }
    }

    /// Posts bytes of a write, in order, at most a piece: up to the first whose posted bytes do not fit in what
    /// can be held under a halt. Answers how many it took.
    pub fn write_piece(&mut self, bytes: &[u8], modes: &Modes, wire: &mut Wire) -> usize
        requires fitting { FitsModes modes.now self.old }
        requires room { MOST_POSTED ≤ wire.old.spare }
        requires column { self.old.column < COUNT_END }
        ensures count { result ≡ piece_size modes.now self.old wire.old bytes.now }
        ensures wire { wire.new ≡ after_send wire.old (piece_text modes.now self.old wire.old bytes.now) }
        ensures after { self.new ≡ after_write modes.now wire.old bytes.now self.old }
        ensures fits { FitsModes modes.now self.new }
        ensures few { result ≤ PIECE }
        ensures spent { wire.old.spare ≤ wire.new.spare + MOST_POSTED }
        ensures moved { self.new.column ≤ self.old.column + COLUMNS_OF_PIECE }
    {
        post_fitting(&mut self.out, piece_of(bytes), modes, wire)
    }

    /// Whether a piece of a write takes any of these bytes: the first, where its posted bytes fit.
    pub fn can_write(&self, bytes: &[u8], modes: &Modes, wire: &Wire) -> bool
        requires { self.now.column < COUNT_END }
        ensures { result ≡ nat_lt 0 (piece_size modes.now self.now wire.now bytes.now) }
    {
        fits_any(&self.out, piece_of(bytes), modes, wire)
    }

    /// Goes over to other modes. Where canonical mode ends, all that is unread becomes plain and the
    /// quoting ends; where it begins, plain bytes become one piece that ends with an EOF mark.
    pub fn recast(&mut self, old: &Modes, new: &Modes)
        requires { FitsModes old.now self.old }
        ensures after { self.new ≡ after_recast old.now new.now self.old }
        ensures fits { FitsModes new.now self.new }
    {
        if modes_leave(old, new) {
            self.store.plain();
            self.store.append(self.edit.bytes());
            let _count = self.edit.kill();
            self.quoted = false;
        } else if modes_leave(new, old) && self.store.len() > 0 {
            self.store.end_line();
        }
    }

    /// Keeps the column within 32 bits, for a user who posts for ever.
    pub fn wrap_column(&mut self)
        ensures { self.new ≡ record self.old { column = self.old.column % 2 ^ 32 } }
    {
        self.out.wrap();
    }

    /// Drops unread input, the edited line and the quoting mark.
    pub fn flush_in(&mut self)
        ensures { self.new ≡ without_input self.old }
    {
        self.store.clear();
        let _count = self.edit.kill();
        self.quoted = false;
    }

    /// How many bytes are unread.
    pub fn unread(&self) -> usize
        ensures count { result ≡ unread_count self.now }
        ensures most { result ≤ MOST_UNREAD }
    {
        self.store.len() + self.edit.bytes().len()
    }

    /// How many bytes can still go to the wire for what is held, and for what erasing the edited line shows.
    pub fn pending(&self, wire: &Wire) -> usize
        ensures count { result ≡ pending_count self.now wire.now }
        ensures most { result ≤ MOST_HELD + 8 * MOST_LINE }
    {
        wire.held() + 8 * self.edit.bytes().len()
    }

    /// How many bytes can be read: in canonical mode those of complete pieces.
    pub fn inq(&self, modes: &Modes) -> u32
        requires { FitsModes modes.now self.now }
        ensures { result ≡ ready_count modes.now self.now }
    {
        let count = if modes.has(ICANON) {
            self.store.len()
        } else {
            self.unread()
        };
        count as u32
    }

    /// Applies the rule for ixoff once: STOP is sent past a halt where input fills, and START where it has
    /// room again.
    pub fn ixoff(&self, modes: &Modes, wire: &mut Wire)
        requires fitting { FitsModes modes.now self.now }
        requires room { 0 < wire.old.spare }
        ensures after { wire.new ≡ after_ixoff_rule modes.now (unread_count self.now) (has_piece self.now) wire.old }
        ensures held { wire.new.held ≡ wire.old.held }
        ensures spent { wire.old.spare ≤ wire.new.spare + 1 }
    {
        apply_ixoff_rule(self.unread(), self.store.lines() > 0, modes, wire);
    }
}

/// Whether canonical mode is in the first modes, and not in the second.
fn modes_leave(old: &Modes, new: &Modes) -> bool
    ensures { result ≡ (has_flag old.now ICANON && not (has_flag new.now ICANON)) }
{
    old.has(ICANON) && !new.has(ICANON)
}

/// The bytes that one piece of a write takes at most.
fn piece_of(bytes: &[u8]) -> &[u8]
    ensures { result.now ≡ take PIECE bytes.now }
{
    &bytes[..bytes.len().min(PIECE)]
}
