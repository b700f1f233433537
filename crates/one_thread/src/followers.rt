//! What goes along with the line of a phase.

ghost use Rattle.std.specs.Prelude.{◌≡◌, IfErr, OnOk};
ghost use Rattle.tty_calls.specs.declared.answers.Denied.TheVariants as denied;
ghost use Rattle.port_core.specs.Ports.{PortValue};

use port_core::Port;
use tty_calls::Denied;

/// Is called behind each flush of a line.
pub trait Follower {
    /// How it leaves a call, where it was so before and the port is so.
    ghost follows: { PortValue → Self → Self → Type 0 };

    /// The line has flushed at most once since the last call. Nothing but memory can be wanting.
    fn follow(&mut self, port: &Port) -> Result<(), Denied>
        ensures ok { OnOk result (follows port.now self.old self.new) }
        ensures err { IfErr result (λ d. d ≡ denied.NoMemory) };
}

/// Goes along with a line and does nothing.
#[derive(Clone, Copy)]
pub struct Nobody;

impl Follower for Nobody {
    ghost follows = { λ _ _ _. Unit {0} };

    #[inline(always)]
    fn follow(&mut self, _port: &Port) -> Result<(), Denied> {
        Ok(())
    }
}
