//! The screen of a terminal that only prints: 25 rows of 80 cells, the last rows of all that was printed.
#![tactic(auto)]

mod rows;
mod screen;

pub use rows::worked_screens;
pub use screen::Screen;
