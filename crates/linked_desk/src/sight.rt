//! Who sees which board, and how.
ghost use Rattle.std.specs.Prelude.{◌≡◌};
ghost use Rattle.linked_desk.specs.Sight.{board_shown_as, observing, playing, sight};

use crate::seats::{board_of, colour_at};
use chess_model::Colour;
use fics_words::BoardNumber;
use style12_writer::{BoardView, Viewer};

/// How a board is seen: by the player of that seat, or by an observer, who has none. A player has relation 1 or -1 at
/// the own board and sees it from the own side; at the partner's board, as an observer everywhere, the relation is 0
/// and White is at the bottom.
pub fn viewer_of(seat: Option<u8>, view: &BoardView) -> Viewer
    ensures { result ≡ sight seat (board_shown_as view.now.game) view.now.face.to_move }
{
    let Some(seat) = seat else {
        return observing();
    };
    if board_of(seat).number() != board_in(view.game).number() {
        return observing();
    }
    playing(colour_at(seat), view.face.to_move)
}

/// How somebody looks on who doesn't play at the board.
fn observing() -> Viewer
    ensures { result ≡ observing }
{
    Viewer {
        relation: 0,
        flip: false,
    }
}

/// How a player of a colour looks at the own board: 1 where it is to move, -1 where the opponent is.
fn playing(own: Colour, to_move: Colour) -> Viewer
    ensures { result ≡ playing own to_move }
{
    let relation = if own.is_same(to_move) { 1 } else { -1 };
    Viewer {
        relation,
        flip: own.is_same(Colour::Black),
    }
}

/// Which board of its desk it is, by the number under which it is shown.
fn board_in(game: u16) -> BoardNumber
    ensures { result ≡ board_shown_as game }
{
    if game % 2 == 0 {
        BoardNumber::Second
    } else {
        BoardNumber::First
    }
}
