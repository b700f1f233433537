//! Laws of every state that the rule of a cell allows.

ghost use Rattle.port_cell.specs.Laws.{NobodyHoldsBesideOneAlone, GrowsByInstalling, StandsInTurn};

use crate::kept::Kept;

/// From the `settled` that answers Ok until the seat installs or unmarks, it is alone, and while it is,
/// nobody holds a reference: in every state that the cell's rule allows.
pub fn nobody_holds_beside_one_alone<V: Kept>()
    ensures { NobodyHoldsBesideOneAlone V.name V.list }
{}

/// The installed generation grows by installing and by nothing else.
pub fn generation_grows_by_installing<V: Kept>()
    ensures { GrowsByInstalling V.name V.list }
{}

/// The value that a seat finds at a turn has the generation in the reference word, and that one stands as
/// long as the seat has the turn and installs nothing.
pub fn the_word_stands_in_a_turn<V: Kept>()
    ensures { StandsInTurn V.name V.list }
{}
