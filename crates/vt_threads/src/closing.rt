//! The board at the end of a phase.

ghost use Rattle.std.specs.Prelude.{◌≡◌, ℕ, List};
ghost use Rattle.port_cell.specs.Knowledge.{number_of};
ghost use Rattle.port_cell.specs.Seats.{EachSeat, HasAll};
ghost use Rattle.vt_consoles.specs.Boards.{IsBoard};
ghost use Rattle.vt_consoles.specs.Histories.{name_of};
ghost use Rattle.vt_consoles.specs.Shared.{IsHere, name_of_board, opening_board, seats_of};
ghost use Rattle.vt_text.specs.Sessions.{PlainVtPhase};
ghost use Rattle.vt_threads.specs.Closing.{SeatsPlayed};
ghost use Rattle.vt_keyboard.specs.Phases.{PhaseMade};

use vt_consoles::{Board, Seat, SharedBoard};

/// Ends the sharing of a board, with all its seats. Where each of them played its part of a phase, the board has gone
/// on by what the phase has for them, and by nothing else.
pub fn close_board(shared: SharedBoard, seats: Vec<Seat>) -> Board
    requires here { EachSeat (λ s. IsHere shared (number_of s) s) seats.items }
    requires all { HasAll (seats_of shared) seats.items }
    ensures name { name_of result ≡ name_of_board shared }
    ensures board { IsBoard result }
    ensures phase { (names : List (List ℕ)) (phase : PlainVtPhase) (first : ℕ) (went : List ℕ)
        → SeatsPlayed names phase first went shared seats.items
        → PhaseMade names phase first went (opening_board shared) result }
{
    shared.close(seats)
}
