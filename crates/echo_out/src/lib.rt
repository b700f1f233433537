//! What a terminal echoes of its input (termios(3), ECHO and the flags beside it), before output
//! processing.
#![tactic(auto)]

ghost use Rattle.std.specs.Prelude.{◌≡◌, ◌≤◌, false, [], ◌∷◌, replicate};
ghost use Rattle.tty_modes.specs.Settings.{has_flag};
ghost use Rattle.arrayvec.specs.ArrayVec.{array_vec_len};
ghost use Rattle.echo_out.specs.Echo.{shown_bytes, blanking_bytes, rubout_bytes, erase_echo};
ghost use Rattle.echo_out.specs.Echo.{kill_echo, kill_rubs_out, echo_of, FitsEcho};

use arrayvec::ArrayVec;
use tty_modes::Modes;
use tty_modes::places::{ECHO, ECHOCTL, ECHOE, ECHOK, ECHOKE, ECHONL, VERASE, VKILL};

const BS: u8 = 8;

const TAB: u8 = b'\t';

const NL: u8 = b'\n';

/// The bytes of one echo.
type Echo = ArrayVec<u8, 24>;

/// What is echoed.
#[derive(Clone, Copy, Debug, PartialEq, Eq)]
pub enum EchoEvent {
    /// A byte that is shown: an ordinary one, EOL or EOL2, or the character of a signal.
    Plain(u8),
    /// What an erasing character removed, with its width in columns: for ERASE the first byte of it, for
    /// WERASE and KILL each byte, from the end.
    Erased {
        kind: EraseKind,
        removed: u8,
        width: usize,
    },
    /// KILL as a whole, beside the bytes that it removed.
    Killed,
    /// LNEXT: the next character is quoted.
    Quoted,
    /// The NL that ends a line.
    Newline,
}

/// Which erasing character it was.
#[derive(Clone, Copy, Debug, PartialEq, Eq)]
pub enum EraseKind {
    Erase,
    Word,
    Kill,
}

/// The echo bytes of one event, before output processing. The width of what is erased is at most 8.
pub fn echo(event: EchoEvent, modes: &Modes) -> ArrayVec<u8, 24>
    requires { FitsEcho event }
    ensures { result.items ≡ echo_of modes.now event }
{
    if !modes.has(ECHO) {
        return unechoed(event, modes);
    }
    match event {
        EchoEvent::Plain(b) => shown_bytes(b, modes),
        EchoEvent::Erased {
            kind,
            removed,
            width,
        } => erase_echo(kind, removed, width, modes),
        EchoEvent::Killed => kill_echo(modes),
        EchoEvent::Quoted => {
            if modes.has(ECHOCTL) {
                pair(b'^', BS)
            } else {
                Echo::new()
            }
        }
        EchoEvent::Newline => one(NL),
    }
}

/// What is echoed without echo: the NL that ends a line, with echonl.
fn unechoed(event: EchoEvent, modes: &Modes) -> Echo
    requires { has_flag modes.now ECHO ≡ false }
    ensures { result.items ≡ echo_of modes.now event }
{
    match event {
        EchoEvent::Newline => {
            if modes.has(ECHONL) {
                one(NL)
            } else {
                Echo::new()
            }
        }
        _ => Echo::new(),
    }
}

/// A byte as it is shown.
fn shown_bytes(b: u8, modes: &Modes) -> Echo
    ensures bytes { result.items ≡ shown_bytes modes.now b }
    ensures short { array_vec_len result ≤ 2 }
{
    let is_control = (b < 32 && b != TAB && b != NL) || b == 127;
    if is_control && modes.has(ECHOCTL) {
        pair(b'^', b ^ 0x40)
    } else {
        one(b)
    }
}

fn erase_echo(kind: EraseKind, removed: u8, width: usize, modes: &Modes) -> Echo
    requires { width ≤ 8 }
    ensures { result.items ≡ erase_echo modes.now kind removed width }
{
    match kind {
        EraseKind::Erase => {
            if modes.has(ECHOE) {
                rubout_bytes(removed, width)
            } else {
                shown_bytes(modes.cc(VERASE), modes)
            }
        }
        EraseKind::Word => rubout_bytes(removed, width),
        EraseKind::Kill => {
            if kill_rubs_out(modes) {
                rubout_bytes(removed, width)
            } else {
                Echo::new()
            }
        }
    }
}

/// Whether KILL rubs its bytes out one by one.
fn kill_rubs_out(modes: &Modes) -> bool
    ensures { result ≡ kill_rubs_out modes.now }
{
    modes.has(ECHOE) && modes.has(ECHOK) && modes.has(ECHOKE)
}

fn kill_echo(modes: &Modes) -> Echo
    ensures { result.items ≡ kill_echo modes.now }
{
    if kill_rubs_out(modes) {
        return Echo::new();
    }
    let mut out = shown_bytes(modes.cc(VKILL), modes);
    if modes.has(ECHOK) {
        out.push(NL);
    }
    out
}

/// A byte of some width taken off the screen.
fn rubout_bytes(b: u8, width: usize) -> Echo
    requires { width ≤ 8 }
    ensures { result.items ≡ rubout_bytes b width }
{
    if b == TAB {
        backspaces(width)
    } else {
        blanking_bytes(width)
    }
}

fn backspaces(width: usize) -> Echo
    requires { width ≤ 8 }
    ensures { result.items ≡ replicate width 8 }
{
    let mut out = Echo::new();
    for _ in 0..width {
        out.push(BS);
    }
    out
}

fn blanking_bytes(width: usize) -> Echo
    requires { width ≤ 8 }
    ensures { result.items ≡ blanking_bytes width }
{
    let mut out = Echo::new();
    for _ in 0..width {
        out.push(BS);
        out.push(b' ');
        out.push(BS);
    }
    out
}

fn one(b: u8) -> Echo
    ensures bytes { result.items ≡ b ∷ [] }
    ensures len { array_vec_len result ≡ 1 }
{
    let mut out = Echo::new();
    out.push(b);
    out
}

fn pair(a: u8, b: u8) -> Echo
    ensures bytes { result.items ≡ a ∷ b ∷ [] }
    ensures len { array_vec_len result ≡ 2 }
{
    let mut out = one(a);
    out.push(b);
    out
}
