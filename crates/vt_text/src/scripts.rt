//! The operators of a phase, one after the other.

ghost use Rattle.std.specs.Prelude.{◌≡◌, [], ◌∷◌, ◌++◌, IsTrue, OnOk};
ghost use Rattle.text_lines.specs.Values.{is_name};
ghost use Rattle.vt_text.specs.Sessions.{operators_of, operator_of};
ghost use Rattle.vt_text.specs.Items.{with_op_call};

use crate::sessions::{OpCall, OpScript};
use std::alloc::Global;
use text_lines::name_of;
use tty_base::{Buffer, NoMemory};

/// Adds an operator without calls.
pub(crate) fn add_operator(
    alloc: Global,
    operators: &mut Vec<OpScript>,
    name: &[u8],
) -> Result<(), NoMemory>
    requires { IsTrue (is_name name.now) }
    ensures { OnOk result (operators_of operators.new.items
        ≡ operators_of operators.old.items ++ record { name = name.now; calls = [] } ∷ []) }
{
    let script = OpScript {
        name: name_of(name),
        calls: Buffer::new(alloc),
    };
    Ok(operators.push(script)?)
}

/// Adds a call to the last operator's.
pub(crate) fn add_call(operators: &mut [OpScript], call: OpCall) -> Result<(), NoMemory>
    ensures { OnOk result (operators_of operators.new ≡ with_op_call call (operators_of operators.old)) }
{
    let count = operators.len();
    if count > 0 {
        add_to(&mut operators[count - 1], call)?;
    }
    Ok(())
}

fn add_to(script: &mut OpScript, call: OpCall) -> Result<(), NoMemory>
    ensures { OnOk result (operator_of script.new
        ≡ record (operator_of script.old) { calls = (operator_of script.old).calls ++ call ∷ [] }) }
{
    script.calls.reserve(1)?;
    script.calls.add(call);
    Ok(())
}
