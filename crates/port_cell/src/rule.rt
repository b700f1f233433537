//! What the table under a cell is told once, and the rule that it keeps.

use crate::kept::Kept;
use crate::view::View;
use atomic_table::TableRule;
use std::snapshot::Snapshot;

/// What the table is told once: the value that the cell was given, and the number of its seats.
#[derive(Drop)]
pub struct Opening<V> {
    pub value: Snapshot<V>,
    pub seats: u64,
}

/// The rule, for proofs alone.
pub struct CellRule;

impl<V: Kept> TableRule<Option<V>, View<V::Name, V::Entry>, Opening<V>> for CellRule {
    ghost use Rattle.port_cell.specs.Rule.{Rule};
    ghost use Rattle.port_cell.specs.Views.{first_view};

    ghost holds = { λ key. Rule V.name V.list key.value.value key.seats };

    ghost first = { λ key. first_view (V.name key.value.value) (V.list key.value.value) };
}
