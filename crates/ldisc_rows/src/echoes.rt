//! What is echoed of each event, under the flags that decide it.

ghost use Rattle.std.specs.Prelude.{◌≡◌, true};
ghost use Rattle.echo_out.specs.Echo.{FitsEcho};

use echo_out::{EchoEvent, EraseKind, echo};
use tty_modes::places::{ECHO, ECHOCTL, ECHOE, ECHOK, ECHOKE, ECHONL};
use tty_modes::{Modes, Word};

fn erased(kind: EraseKind, removed: u8, width: usize) -> EchoEvent {
    EchoEvent::Erased {
        kind,
        removed,
        width,
    }
}

// The defaults with some flags changed: what is echoed of each event.
#[test]
fn each_event_by_the_flags(rt: HostRuntime) {
    let erase = erased(EraseKind::Erase, b'b', 1);
    let rows = [
        (Word::Sane, EchoEvent::Plain(b'a'), b"a".as_slice()),
        (Word::Sane, EchoEvent::Plain(3), b"^C"),
        (Word::Sane, EchoEvent::Plain(127), b"^?"),
        (Word::Sane, EchoEvent::Plain(9), b"\t"),
        (Word::Off(ECHOCTL), EchoEvent::Plain(3), b"\x03"),
        (Word::Off(ECHO), EchoEvent::Plain(b'a'), b""),
        (Word::Sane, erase, b"\x08 \x08"),
        (
            Word::Sane,
            erased(EraseKind::Erase, 3, 2),
            b"\x08 \x08\x08 \x08",
        ),
        (
            Word::Sane,
            erased(EraseKind::Erase, 9, 5),
            b"\x08\x08\x08\x08\x08",
        ),
        (Word::Off(ECHOE), erase, b"^?"),
        (
            Word::Off(ECHOE),
            erased(EraseKind::Word, b'b', 1),
            b"\x08 \x08",
        ),
        (Word::Sane, erased(EraseKind::Kill, b'b', 1), b"\x08 \x08"),
        (Word::Sane, EchoEvent::Killed, b""),
        (Word::Off(ECHOKE), erased(EraseKind::Kill, b'b', 1), b""),
        (Word::Off(ECHOKE), EchoEvent::Killed, b"^U\n"),
        (Word::Off(ECHOK), EchoEvent::Killed, b"^U"),
        (Word::Sane, EchoEvent::Quoted, b"^\x08"),
        (Word::Off(ECHOCTL), EchoEvent::Quoted, b""),
        (Word::Sane, EchoEvent::Newline, b"\n"),
        (Word::Off(ECHO), EchoEvent::Newline, b""),
    ];
    for (word, event, want) in rows {
        assert!(rt; echoes(&[word], event, want), "{event:?}");
    }
    let words = [Word::Raw, Word::On(ECHONL)];
    assert!(rt; echoes(&words, EchoEvent::Newline, b"\n"));
}

/// Whether this is echoed of an event, under the defaults changed by words.
fn echoes(words: &[Word], event: EchoEvent, want: &[u8]) -> bool {
    let mut modes = Modes::sane();
    for word in words {
        modes.apply(*word);
    }
    fits(event) && echo(event, &modes).as_slice() == want
}

/// Whether an echo of the event has at most so many columns as one can have.
fn fits(event: EchoEvent) -> bool
    ensures { result ≡ true → FitsEcho event }
{
    match event {
        EchoEvent::Erased { width, .. } => width <= 8,
        _ => true,
    }
}
