//! What calls are written as.

ghost use Rattle.std.specs.Prelude.{◌≡◌};
ghost use Rattle.tty_calls.specs.Plain.{call_of};
ghost use Rattle.session_print.specs.Words.{verb_of};

use tty_calls::Call;

/// A call that the port never sees.
pub(crate) trait FurtherCall: Copy {
    ghost use Rattle.std.specs.Prelude.{◌≡◌, ℕ, List};

    /// What it is written as.
    ghost verb_text: { Self → List ℕ };

    fn verb(self) -> &'static str
        ensures { result.now ≡ verb_text self };
}

/// What a call that is for the port is written as.
pub(crate) fn verb_of(call: &Call) -> &'static str
    ensures { result.now ≡ verb_of (call_of call.now) }
{
    match call {
        Call::Open { .. } => "open",
        Call::Close { .. } => "close",
        Call::Read { .. } => "read",
        Call::Write { .. } => "write",
        Call::GetModes { .. } => "getm",
        Call::SetModes { .. } => "modes",
        Call::GetDisc { .. } => "getd",
        Call::SetDisc { .. } => "setd",
        Call::Flush { .. } => "flush",
        Call::Xonc { .. } => "xonc",
        Call::Inq { .. } => "inq",
        Call::Outq { .. } => "outq",
        Call::Excl { .. } => "excl",
        Call::Nxcl { .. } => "nxcl",
        Call::Drain { .. } => "drain",
        Call::Counts { .. } => "counts",
        Call::Vhangup { .. } => "vhangup",
        Call::SendPacket { .. } => "send",
        Call::TakePacket { .. } => "take",
    }
}
