//! The lines that show a game to a player's client: the board line of FICS style 12, the holdings line and the line of
//! a game's end.
//!
//! The contract: `line12` writes exactly the 31 fields that `specs/Line12.antt` names, between single blanks, `line_b1`
//! the text of `specs/HoldingsLine.antt` and `end_line` that of `specs/EndLine.antt`, each in a place of its own, which
//! takes no memory. The other lines answer `NoMemory` only when out of memory.
#![tactic(auto)]

mod board;
mod continued;
mod created;
mod draft;
mod end;
mod game_line;
mod holdings;
mod item;
mod line;
mod match_line;
mod offer_lines;
mod text_board;
mod view;

pub use continued::continued_line;
pub use created::created_line;
pub use draft::Draft;
pub use end::{end_line, is_decisive};
pub use holdings::line_b1;
pub use item::{Item, ItemList, LineList};
pub use line::{line12, line12_fields};
pub use offer_lines::{
    abort_line, adjourn_line, decline_line, draw_line, takeback_line, taken_line,
};
pub use text_board::board1;
pub use view::{BoardView, Viewer};
