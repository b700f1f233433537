//! Who has which seat at the board of a session.

ghost use Rattle.std.specs.Prelude.{◌≡◌, IfOk, OnOk, map};
ghost use Rattle.vt_text.specs.Sessions.{operators_of, vt_phase_of};
ghost use Rattle.vt_account.specs.Seats.{operator_names};
ghost use Rattle.vt_account.specs.Played.{names_behind};

use std::alloc::Global;
use tty_base::NoMemory;
use tty_calls::Names;
use vt_text::{OpScript, VtPhase};

/// The names of the operators of these phases. The number of an operator's seat is the number of its name, and the
/// keyboard has the next one.
pub fn seats_of(alloc: Global, phases: &[VtPhase]) -> Result<Names, NoMemory>
    ensures { IfOk result (λ names. names ≡ operator_names (map vt_phase_of phases.now)) }
{
    let mut names = Names::new(alloc);
    for phase in phases {
        learn_all(&mut names, phase.operators.as_slice())?;
    }
    Ok(names)
}

fn learn_all(names: &mut Names, operators: &[OpScript]) -> Result<(), NoMemory>
    ensures { OnOk result (names.new ≡ names_behind names.old (operators_of operators.now)) }
{
    for operator in operators {
        names.learn(&operator.name)?;
    }
    Ok(())
}
