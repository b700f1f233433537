//! The board in a cell.

use crate::board::Board;
use crate::entries::VtEvent;
use port_cell::Kept;

/// By this a board is told apart: how many consoles it has, and how many entries it may have. No value of this type
/// is made but in proofs.
pub struct BoardName {
    pub consoles: u8,
    pub limit: u32,
}

impl Kept for Board {
    type Name = BoardName;

    type Entry = VtEvent;

    ghost use Rattle.vt_consoles.specs.Histories.{history_of, name_of};

    ghost name = { name_of };

    ghost list = { history_of };

    fn count(&self) -> u64 {
        self.entries().len() as u64
    }

    fn generation(&self) -> u32 {
        let _entries = self.entries(); // known: the entries are a board run
        0
    }
}
