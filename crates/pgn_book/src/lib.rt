//! Games as PGN text.
//!
//! The contract: `export` writes exactly the text that `specs/Export.antt` defines of a game. The grammar of
//! `specs/Lexing.antt` and `specs/Games.antt` reads at most one list of games in a text, and in the export of a game
//! exactly that game. `specs/Reading.antt` reads a text a byte at a time, and finds exactly what the grammar reads,
//! however the text is cut; `PgnReader` gives, a game a call, what it finds, and each of these games may be exported.
//! Over a whole run of its calls these are the games that the grammar reads in the text that was fed, or else it tells
//! the line on which the text leaves the grammar: the last line that a beginning reaches with which a text that is read
//! begins. `of_stored` makes the game that PGN text can tell of a stored one, exactly where that is chess and replays.
#![tactic(auto)]

mod book;
mod bytes;
mod export_form;
mod game;
mod laws;
mod page;
mod place;
mod reader;
mod scan;
mod stage;
mod stored;
mod tag_texts;
mod text;
mod walk;

pub use export_form::export;
pub use game::{PgnGame, PgnResult, TagRow};
pub use laws::{
    exported_lines_fit, exports_read_back, games_that_are_read_can_be_exported, runs_read_the_text,
    texts_are_read_from_left_to_right, texts_are_read_in_pieces, texts_have_one_reading,
    worked_exports, worked_texts,
};
pub use reader::{PgnReader, PgnStep};
pub use stored::of_stored;
