//! The live handles of a port: the least of them, through which a port is hung up when nobody asks for it.
#![tactic(auto)]

ghost use Rattle.std.specs.Prelude.{◌≡◌, position};
ghost use Rattle.handle_table.specs.Handles.{is_live};

use handle_table::HandleState;
use port_core::Port;
use tty_base::sizes::MOST_HANDLES;

fn is_live(handle: Option<HandleState>) -> bool
    ensures { result ≡ is_live handle }
{
    match handle {
        Some(handle) => handle.live,
        None => false,
    }
}

/// The least number of a live handle.
pub fn least_live(port: &Port) -> Option<u8>
    ensures { result ≡ position is_live port.now.terminal.handles }
{
    port.known();
    for h in 0..MOST_HANDLES {
        if is_live(port.handle(h)) {
            return Some(h);
        }
    }
    None
}
