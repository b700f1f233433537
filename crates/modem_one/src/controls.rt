//! What calls make of the modem lines of a port, and what those of modem lines are answered.

ghost use Rattle.std.specs.Prelude.{◌≡◌, Some, if◌then◌else◌};
ghost use Rattle.tty_calls.specs.Plain.{answer_of, call_of};
ghost use Rattle.tty_terminal.specs.Terminals.{handle_at};
ghost use Rattle.passed_calls.specs.Scripts.{further};
ghost use Rattle.modem_steps.specs.Steps.{lines_after_call, lines_after_own, modem_gives, modem_handle, through};
ghost use Rattle.modem_one.specs.Controls.{has_live, is_close, is_done, is_hangup, is_open, lines_settled};

use live_handles::least_live;
use modem_lines::Modem;
use modem_text::OwnCall;
use port_core::Port;
use tty_base::Errno;
use tty_calls::{Answer, Call};

/// Makes a call of modem lines, which is refused without a live handle.
pub(crate) fn control(modem: &mut Modem, port: &Port, call: OwnCall) -> Answer
    ensures answer { answer_of result
        ≡ through (handle_at port.now.terminal (modem_handle call)) (modem_gives modem.old call) }
    ensures lines { modem.new ≡ lines_after_own modem.old port.now.terminal (Some (further call)) }
{
    match port.handle(handle_of(call)) {
        None => Answer::Refused(Errno::EBADF),
        Some(handle) => {
            if handle.live {
                make(modem, call)
            } else {
                Answer::Refused(Errno::EIO)
            }
        }
    }
}

fn handle_of(call: OwnCall) -> u8
    ensures { result ≡ modem_handle call }
{
    match call {
        OwnCall::Mget { h } => h,
        OwnCall::Mset { h, .. } => h,
        OwnCall::Mbis { h, .. } => h,
        OwnCall::Mbic { h, .. } => h,
        OwnCall::Softcar { h, .. } => h,
        OwnCall::Getcar { h } => h,
        OwnCall::Hupcl { h, .. } => h,
        OwnCall::Msr { h } => h,
    }
}

fn make(modem: &mut Modem, call: OwnCall) -> Answer
    ensures answer { answer_of result ≡ modem_gives modem.old call }
    ensures lines { modem.new ≡ lines_after_call modem.old call }
{
    match call {
        OwnCall::Mget { .. } => return Answer::Number(modem.bits()),
        OwnCall::Getcar { .. } => return Answer::Number(u32::from(modem.carrier_soft())),
        OwnCall::Msr { .. } => return Answer::Number(u32::from(modem.msr())),
        OwnCall::Mset { bits, .. } => modem.assign(bits),
        OwnCall::Mbis { bits, .. } => modem.raise(bits),
        OwnCall::Mbic { bits, .. } => modem.lower(bits),
        OwnCall::Softcar { on, .. } => modem.softcar(on),
        OwnCall::Hupcl { on, .. } => modem.hupcl(on),
    }
    Answer::Done
}

/// Whether a handle of the port is live.
pub(crate) fn has_live(port: &Port) -> bool
    ensures { result ≡ has_live port.now.terminal }
{
    least_live(port).is_some()
}

fn is_done(answer: &Answer) -> bool
    ensures { result ≡ is_done (answer_of answer.now) }
{
    matches!(answer, Answer::Done)
}

fn is_open(call: &Call) -> bool
    ensures { result ≡ is_open (call_of call.now) }
{
    matches!(call, Call::Open { .. })
}

fn is_close(call: &Call) -> bool
    ensures { result ≡ is_close (call_of call.now) }
{
    matches!(call, Call::Close { .. })
}

fn is_hangup(call: &Call) -> bool
    ensures { result ≡ is_hangup (call_of call.now) }
{
    matches!(call, Call::Vhangup { .. })
}

/// The port has answered a call: by the first open DTR and RTS go up, and by a last close or a hangup they go down.
pub(crate) fn settle(modem: &mut Modem, port: &Port, call: &Call, answer: &Answer, was_live: bool)
    ensures { modem.new
        ≡ (if is_done (answer_of answer.now)
        then lines_settled modem.old was_live (has_live port.now.terminal) (call_of call.now)
        else modem.old) }
{
    if is_done(answer) {
        settle_done(modem, port, call, was_live);
    }
}

fn settle_done(modem: &mut Modem, port: &Port, call: &Call, was_live: bool)
    ensures { modem.new ≡ lines_settled modem.old was_live (has_live port.now.terminal) (call_of call.now) }
{
    if is_open(call) {
        if !was_live {
            modem.opened();
        }
    } else if is_close(call) {
        if was_live && !has_live(port) {
            modem.shut();
        }
    } else if is_hangup(call) {
        modem.shut();
    }
}
