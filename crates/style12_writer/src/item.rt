//! What waits for the viewers of a game.
use crate::view::BoardView;
use chess_model::{Colour, Kind, Why};
use collections::Listed;
use fics_words::Line;
use holdings_drops::Holdings;
use memory::{Duplicate, NoMemory};

/// Lines, seen as their list.
pub type LineList = Listed<Line>;

/// Items, seen as their list.
pub type ItemList = Listed<Item>;

/// One thing that the viewers of a game are told.
#[derive(Drop)]
pub enum Item {
    /// A board line.
    Board(BoardView),
    /// The men in hand at a board, by what `line_b1` takes.
    Hold {
        game: u16,
        white: Holdings,
        black: Holdings,
        came: Option<Kind>,
    },
    /// A line of text.
    Talk(Line),
    /// The line of a game's end, by what `end_line` takes.
    End {
        view: BoardView,
        why: Why,
        winner: Option<Colour>,
        own: bool,
    },
}

impl Duplicate for Item {
    fn duplicate(&self) -> Result<Item, NoMemory> {
        Ok(match self {
            Item::Board(view) => Item::Board(*view),
            Item::Hold {
                game,
                white,
                black,
                came,
            } => Item::Hold {
                game: *game,
                white: *white,
                black: *black,
                came: *came,
            },
            Item::Talk(line) => Item::Talk(line.duplicate()?),
            Item::End {
                view,
                why,
                winner,
                own,
            } => Item::End {
                view: *view,
                why: *why,
                winner: *winner,
                own: *own,
            },
        })
    }
}
