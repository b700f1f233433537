//! Taking a character: what each step of the rules does.

ghost use Rattle.std.specs.Prelude.{◌≡◌, ◌+◌, ◌-◌, ◌*◌, ◌%◌, ◌<◌, ◌≤◌, true, ◌&&◌, [], ◌∷◌, length, take};
ghost use Rattle.tty_base.specs.Sizes.{COUNT_END};
ghost use Rattle.tty_modes.specs.Settings.{has_flag};
ghost use Rattle.tty_modes.specs.declared.places.TheConstants.{ICANON};
ghost use Rattle.flow_control.specs.Output.{Output};
ghost use Rattle.echo_out.specs.Echo.{FitsEcho};
ghost use Rattle.n_tty.specs.States.{on_port};
ghost use Rattle.n_tty.specs.Storing.{most_stored, after_store};
ghost use Rattle.n_tty.specs.Editing.{after_erase, after_word_erase, after_kill};
ghost use Rattle.n_tty.specs.Flow.{after_signal};
ghost use Rattle.n_tty.specs.Receiving.{after_flagged, after_good, after_unquoted, after_mapped};
ghost use Rattle.n_tty.specs.Receiving.{after_signal_character, after_role, after_ordinary};
ghost use Rattle.n_tty.specs.Receiving.{after_delimiter, after_break, after_bad, with_echo};
ghost use Rattle.n_tty.specs.Roles.{mapped_byte, role_of};
ghost use Rattle.n_tty.specs.Taking.{MayStore, MayTake};

use super::NTty;
use crate::erasing::{Erasing, echo_erased};
use crate::posting::{echo_bytes, echo_printed};
use crate::roles::{Role, is_character, is_plain, mapped_byte, role_of, signal_of};
use crate::storing::{add_all, end_with, end_with_eof, start_of};
use echo_out::{EchoEvent, EraseKind, echo};
use flow_control::{Counter, Tally, Wire};
use n_tty_edit::is_printed;
use tty_base::sizes::MOST_LINE;
use tty_base::{Flag, Flagged, Signal};
use tty_modes::Modes;
use tty_modes::places::{
    BRKINT, ECHO, ICANON, IGNBRK, IGNPAR, INPCK, ISTRIP, IXANY, IXON, NOFLSH, PARMRK, VSTART, VSTOP,
};

/// What marks a character with an error, and is doubled as a character of its own (termios(3), PARMRK).
const MARK: u8 = 0xff;

impl NTty {
    /// Takes a character by its flag.
    #[inline(always)]
    pub(super) fn take(
        &mut self,
        c: Flagged,
        now: u64,
        modes: &Modes,
        wire: &mut Wire,
        tally: &mut Tally,
    )
        requires may { MayTake modes.now self.old wire.old tally.old }
        ensures after { on_port self.new wire.new tally.new
            ≡ after_flagged modes.now now c.flag c.byte (on_port self.old wire.old tally.old) }
    {
        match c.flag {
            Flag::Normal => self.take_good(c.byte, now, modes, wire, tally),
            Flag::Break => {
                tally.count(Counter::Break, 1);
                self.take_break(now, modes, wire, tally);
            }
            Flag::Parity => {
                tally.count(Counter::Parity, 1);
                self.take_bad(c.byte, now, modes, wire, tally);
            }
            Flag::Frame => {
                tally.count(Counter::Frame, 1);
                self.take_bad(c.byte, now, modes, wire, tally);
            }
            Flag::Overrun => tally.count(Counter::Mark, 1),
        }
    }

    /// Takes a break.
    #[inline(never)]
    fn take_break(&mut self, now: u64, modes: &Modes, wire: &mut Wire, tally: &mut Tally)
        requires may { MayTake modes.now self.old wire.old tally.old }
        ensures after { on_port self.new wire.new tally.new
            ≡ after_break modes.now now (on_port self.old wire.old tally.old) }
    {
        if modes.has(IGNBRK) {
            return;
        }
        if modes.has(BRKINT) {
            self.signal(Signal::Int, modes, wire, tally);
        } else if modes.has(PARMRK) {
            self.store_bytes([MARK, 0, 0].as_slice(), now, modes, tally);
        } else {
            self.store_bytes([0].as_slice(), now, modes, tally);
        }
    }

    /// Takes a character with a parity or framing error.
    #[inline(never)]
    fn take_bad(&mut self, b: u8, now: u64, modes: &Modes, wire: &mut Wire, tally: &mut Tally)
        requires may { MayTake modes.now self.old wire.old tally.old }
        ensures after { on_port self.new wire.new tally.new
            ≡ after_bad modes.now now b (on_port self.old wire.old tally.old) }
    {
        if !modes.has(INPCK) {
            self.take_by_rules(b, now, modes, wire, tally);
        } else if modes.has(IGNPAR) {
            return;
        } else if modes.has(PARMRK) {
            self.store_bytes([MARK, 0, b].as_slice(), now, modes, tally);
        } else {
            self.store_bytes([0].as_slice(), now, modes, tally);
        }
    }

    /// Takes a good character. Where it is not quoted and no rule can concern it, it is stored and echoed at once.
    #[inline(always)]
    fn take_good(&mut self, b: u8, now: u64, modes: &Modes, wire: &mut Wire, tally: &mut Tally)
        requires may { MayTake modes.now self.old wire.old tally.old }
        ensures after { on_port self.new wire.new tally.new
            ≡ after_good modes.now now b (on_port self.old wire.old tally.old) }
    {
        if !self.quoted && is_plain(b, modes) {
            self.take_ordinary(b, now, modes, wire, tally);
        } else {
            self.take_by_rules(b, now, modes, wire, tally);
        }
    }

    /// Takes a good character by all rules: a quoted one is ordinary.
    #[inline(never)]
    fn take_by_rules(&mut self, b: u8, now: u64, modes: &Modes, wire: &mut Wire, tally: &mut Tally)
        requires may { MayTake modes.now self.old wire.old tally.old }
        ensures after { on_port self.new wire.new tally.new
            ≡ after_good modes.now now b (on_port self.old wire.old tally.old) }
    {
        let b = if modes.has(ISTRIP) { b % 128 } else { b };
        if self.quoted {
            self.quoted = false;
            self.take_ordinary(b, now, modes, wire, tally);
        } else {
            self.take_unquoted(b, now, modes, wire, tally);
        }
    }

    /// Takes a byte that is not quoted: START and STOP steer output.
    fn take_unquoted(&mut self, b: u8, now: u64, modes: &Modes, wire: &mut Wire, tally: &mut Tally)
        requires may { MayTake modes.now self.old wire.old tally.old }
        ensures after { on_port self.new wire.new tally.new
            ≡ after_unquoted modes.now now b (on_port self.old wire.old tally.old) }
    {
        if modes.has(IXON) && is_character(VSTART, b, modes) {
            wire.start();
            return;
        }
        if modes.has(IXON) && is_character(VSTOP, b, modes) {
            wire.stop();
            return;
        }
        wire.start_where(modes.has(IXON) && modes.has(IXANY));
        match signal_of(b, modes) {
            Some(signal) => self.take_signal(signal, b, modes, wire, tally),
            None => self.take_mapped(b, now, modes, wire, tally),
        }
    }

    /// Takes a character that raises a signal.
    fn take_signal(
        &mut self,
        signal: Signal,
        b: u8,
        modes: &Modes,
        wire: &mut Wire,
        tally: &mut Tally,
    )
        requires room { length wire.old.held + 24 ≤ wire.old.spare }
        requires signal { 0 < tally.old.signals.spare }
        requires column { self.old.column < COUNT_END }
        ensures after { on_port self.new wire.new tally.new
            ≡ after_signal_character modes.now signal b (on_port self.old wire.old tally.old) }
    {
        self.signal(signal, modes, wire, tally);
        wire.start_where(modes.has(IXON));
        self.echo(EchoEvent::Plain(b), modes, wire, tally);
    }

    /// Takes a byte that neither is quoted, nor steers output, nor raises a signal.
    fn take_mapped(&mut self, b: u8, now: u64, modes: &Modes, wire: &mut Wire, tally: &mut Tally)
        requires may { MayTake modes.now self.old wire.old tally.old }
        ensures after { on_port self.new wire.new tally.new
            ≡ after_mapped modes.now now (mapped_byte modes.now b) (on_port self.old wire.old tally.old) }
    {
        let Some(b) = mapped_byte(b, modes) else {
            return;
        };
        if modes.has(ICANON) {
            self.take_canonical(b, now, modes, wire, tally);
        } else {
            self.take_ordinary(b, now, modes, wire, tally);
        }
    }

    /// Takes a byte in canonical mode, by its role.
    fn take_canonical(&mut self, b: u8, now: u64, modes: &Modes, wire: &mut Wire, tally: &mut Tally)
        requires canonical { has_flag modes.now ICANON ≡ true }
        requires may { MayTake modes.now self.old wire.old tally.old }
        ensures after { on_port self.new wire.new tally.new
            ≡ after_role modes.now now (role_of modes.now b) b (on_port self.old wire.old tally.old) }
    {
        match role_of(b, modes) {
            Role::Erase => self.erase(modes, wire, tally),
            Role::Kill => self.kill(modes, wire, tally),
            Role::WordErase => self.erase_word(modes, wire, tally),
            Role::Quote => {
                self.quoted = true;
                self.echo(EchoEvent::Quoted, modes, wire, tally);
            }
            Role::Newline => self.delimit(b, EchoEvent::Newline, now, modes, wire, tally),
            Role::Eof => end_with_eof(&mut self.store, &mut self.edit),
            Role::Delimiter => self.delimit(b, EchoEvent::Plain(b), now, modes, wire, tally),
            Role::Ordinary => self.take_ordinary(b, now, modes, wire, tally),
        }
    }

    /// Stores an ordinary byte, and echoes it also where it was cut.
    #[inline(always)]
    fn take_ordinary(&mut self, b: u8, now: u64, modes: &Modes, wire: &mut Wire, tally: &mut Tally)
        requires may { MayTake modes.now self.old wire.old tally.old }
        ensures after { on_port self.new wire.new tally.new
            ≡ after_ordinary modes.now now b (on_port self.old wire.old tally.old) }
    {
        if modes.has(PARMRK) && !modes.has(ISTRIP) && b == MARK {
            self.store_bytes([MARK, MARK].as_slice(), now, modes, tally);
        } else {
            self.store_byte(b, now, modes, tally);
        }
        self.echo_shown(b, modes, wire, tally);
    }

    /// Ends the line with its delimiter, and echoes it.
    fn delimit(
        &mut self,
        b: u8,
        event: EchoEvent,
        now: u64,
        modes: &Modes,
        wire: &mut Wire,
        tally: &mut Tally,
    )
        requires may { MayTake modes.now self.old wire.old tally.old }
        requires event { FitsEcho event }
        ensures after { on_port self.new wire.new tally.new
            ≡ after_delimiter modes.now now b event (on_port self.old wire.old tally.old) }
    {
        end_with(&mut self.store, &mut self.edit, b);
        self.last = now;
        self.echo(event, modes, wire, tally);
    }

    /// ERASE, with its echo.
    fn erase(&mut self, modes: &Modes, wire: &mut Wire, tally: &mut Tally)
        requires room { 24 ≤ wire.old.spare }
        requires column { self.old.column < COUNT_END }
        ensures after { on_port self.new wire.new tally.new
            ≡ after_erase modes.now (on_port self.old wire.old tally.old) }
    {
        if let Some(gone) = self.edit.erase(self.start, modes) {
            let event = EchoEvent::Erased {
                kind: EraseKind::Erase,
                removed: gone.first,
                width: gone.width,
            };
            self.echo(event, modes, wire, tally);
        }
    }

    /// WERASE, with its echo.
    fn erase_word(&mut self, modes: &Modes, wire: &mut Wire, tally: &mut Tally)
        requires room { 8 * length self.old.edit + 24 ≤ wire.old.spare }
        requires column { self.old.column < COUNT_END }
        ensures after { on_port self.new wire.new tally.new
            ≡ after_word_erase modes.now (on_port self.old wire.old tally.old) }
    {
        let erasing = Erasing {
            kind: EraseKind::Word,
            from: self.edit.bytes().len() - self.edit.word_len(),
            start: self.start,
        };
        echo_erased(&self.edit, erasing, &mut self.out, modes, wire, tally);
        let _count = self.edit.erase_word();
    }

    /// KILL, with its echo: of each byte, or of itself.
    fn kill(&mut self, modes: &Modes, wire: &mut Wire, tally: &mut Tally)
        requires room { 8 * length self.old.edit + 24 ≤ wire.old.spare }
        requires column { self.old.column < COUNT_END }
        ensures after { on_port self.new wire.new tally.new
            ≡ after_kill modes.now (on_port self.old wire.old tally.old) }
    {
        if self.edit.bytes().is_empty() {
            return;
        }
        let whole = echo(EchoEvent::Killed, modes);
        if whole.is_empty() {
            let erasing = Erasing {
                kind: EraseKind::Kill,
                from: 0,
                start: self.start,
            };
            echo_erased(&self.edit, erasing, &mut self.out, modes, wire, tally);
        } else {
            echo_bytes(&mut self.out, whole.as_slice(), modes, wire, tally);
        }
        let _count = self.edit.kill();
    }

    /// Stores the bytes of one character.
    fn store_bytes(&mut self, bytes: &[u8], now: u64, modes: &Modes, tally: &mut Tally)
        requires may { MayStore modes.now self.old }
        requires few { length bytes.now ≤ most_stored modes.now }
        ensures after { (output : Output) → on_port self.new output tally.new
            ≡ after_store modes.now now bytes.now (on_port self.old output tally.old) }
        ensures column { self.new.column ≡ self.old.column }
    {
        if !modes.has(ICANON) {
            self.store.append(bytes);
            self.last = now;
        } else if self.edit.bytes().len() + bytes.len() <= MOST_LINE {
            self.start = start_of(&self.edit, self.start, self.out.column());
            add_all(&mut self.edit, bytes);
            self.last = now;
        } else {
            tally.count(Counter::Cut, 1);
        }
    }

    /// Stores the one byte of a character.
    #[inline(always)]
    fn store_byte(&mut self, b: u8, now: u64, modes: &Modes, tally: &mut Tally)
        requires may { MayStore modes.now self.old }
        ensures after { (output : Output) → on_port self.new output tally.new
            ≡ after_store modes.now now (b ∷ []) (on_port self.old output tally.old) }
        ensures column { self.new.column ≡ self.old.column }
    {
        if !modes.has(ICANON) {
            self.store.push(b);
            self.last = now;
        } else if self.edit.bytes().len() < MOST_LINE {
            self.start = start_of(&self.edit, self.start, self.out.column());
            let _joined = self.edit.add(b);
            self.last = now;
        } else {
            tally.count(Counter::Cut, 1);
        }
    }

    /// Raises a signal, and drops input and held output without noflsh.
    fn signal(&mut self, signal: Signal, modes: &Modes, wire: &mut Wire, tally: &mut Tally)
        requires { 0 < tally.old.signals.spare }
        ensures after { on_port self.new wire.new tally.new
            ≡ after_signal modes.now signal (on_port self.old wire.old tally.old) }
        ensures spent { wire.new.spare ≡ wire.old.spare }
        ensures held { length wire.new.held ≤ length wire.old.held }
    {
        tally.raise(signal);
        if !modes.has(NOFLSH) {
            self.flush_in();
            wire.drop_held();
        }
    }

    /// Posts the echo of a byte that is shown.
    #[inline(always)]
    fn echo_shown(&mut self, b: u8, modes: &Modes, wire: &mut Wire, tally: &mut Tally)
        requires room { 24 ≤ wire.old.spare }
        requires column { self.old.column < COUNT_END }
        ensures after { on_port self.new wire.new tally.new
            ≡ with_echo modes.now (EchoEvent.Plain b) (on_port self.old wire.old tally.old) }
    {
        if !modes.has(ECHO) {
            return;
        }
        if is_printed(b) {
            echo_printed(&mut self.out, b, wire, tally);
            return;
        }
        self.echo(EchoEvent::Plain(b), modes, wire, tally);
    }

    /// Posts the echo of an event.
    fn echo(&mut self, event: EchoEvent, modes: &Modes, wire: &mut Wire, tally: &mut Tally)
        requires event { FitsEcho event }
        requires room { 24 ≤ wire.old.spare }
        requires column { self.old.column < COUNT_END }
        ensures after { on_port self.new wire.new tally.new
            ≡ with_echo modes.now event (on_port self.old wire.old tally.old) }
    {
        echo_bytes(
            &mut self.out,
            echo(event, modes).as_slice(),
            modes,
            wire,
            tally,
        );
    }
}
