//! The names of a port's callers.

ghost use Rattle.std.specs.Prelude.{◌≡◌, ◌∷◌, [], OnOk, map};
ghost use Rattle.tty_calls.specs.Sessions.{script_of};
ghost use Rattle.further_report.specs.Printing.{learned};

use tty_base::NoMemory;
use tty_calls::{Names, Script};

/// Learns the names of a port's scripts.
pub(crate) fn learn_all(names: &mut Names, port: u8, scripts: &[Script]) -> Result<(), NoMemory>
    ensures { OnOk result (names.new ≡ learned names.old port (map script_of scripts.now)) }
{
    for script in scripts {
        learn_one(names, port, script)?;
    }
    Ok(())
}

/// Learns the name of a script, where it is of the port.
fn learn_one(names: &mut Names, port: u8, script: &Script) -> Result<(), NoMemory>
    ensures { OnOk result (names.new ≡ learned names.old port (script_of script.now ∷ [])) }
{
    if script.port == port {
        names.learn(&script.name)?;
    }
    Ok(())
}
