//! What is wrong with the items that a session of ports lacks.

ghost use Rattle.std.specs.Prelude.{◌≡◌, ◌==◌, length};
ghost use Rattle.std.specs.List.{list_any};
ghost use Rattle.vt_text.specs.Sessions.{operators_of, operator_of};
ghost use Rattle.vt_text.specs.Items.{byte_fault, is_named, once_fault, wrong_unless};

use crate::sessions::OpScript;
use session_text::Reason;
use text_lines::{FirstTwo, read_number};
use tty_base::sizes::MOST_OPERATORS;

/// Whose block is open.
#[derive(Clone, Copy, PartialEq, Eq)]
pub(crate) enum Block {
    Neither,
    Caller,
    Operator,
}

/// Whether there is just one argument.
pub(crate) fn is_one(arguments: &FirstTwo) -> bool
    ensures { result ≡ (length arguments.now == 1) }
{
    arguments.are_all() && arguments.whole().count() == 1
}

pub(crate) fn is_none(arguments: &FirstTwo) -> bool
    ensures { result ≡ (length arguments.now == 0) }
{
    arguments.are_all() && arguments.whole().count() == 0
}

pub(crate) fn wrong_unless(reason: Reason, fits: bool) -> Option<Reason>
    ensures { result ≡ wrong_unless reason fits }
{
    if fits { None } else { Some(reason) }
}

/// What is wrong with the number of a console.
pub(crate) fn byte_fault(word: &[u8]) -> Option<Reason>
    ensures { result ≡ byte_fault word.now }
{
    match read_number(word) {
        None => Some(Reason::Number),
        Some(number) => wrong_unless(Reason::Limit, number <= 255),
    }
}

/// What is wrong with one operator more in a phase.
pub(crate) fn once_fault(operators: &[OpScript], name: &[u8]) -> Option<Reason>
    ensures { result ≡ once_fault (operators_of operators.now) name.now }
{
    if has_name(operators, name) {
        return Some(Reason::Order);
    }
    wrong_unless(Reason::Limit, operators.len() < MOST_OPERATORS)
}

fn has_name(operators: &[OpScript], name: &[u8]) -> bool
    ensures { result ≡ list_any (is_named name.now) (operators_of operators.now) }
{
    is_name_among(operators, name)
}

fn is_name_among(operators: &[OpScript], name: &[u8]) -> bool
    ensures { result ≡ list_any (λ o. is_named name.now (operator_of o)) operators.now }
{
    operators.iter().any(|operator| is_name_of(operator, name))
}

fn is_name_of(operator: &OpScript, name: &[u8]) -> bool
    ensures { result ≡ is_named name.now (operator_of operator.now) }
{
    operator.name.as_bytes() == name
}
