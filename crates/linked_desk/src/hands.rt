//! What viewers are told of the men in hand.
ghost use Rattle.std.specs.Prelude.{◌≡◌};
ghost use Rattle.game_board.specs.BoardFace.{last_played};
ghost use Rattle.linked_desk.specs.Hands.{changes_hands, ends_with_drop, first_hands, hands_at, hands_told, hold_item, is_drop, partner_hands_at};

use crate::game::Game;
use crate::views::game_number;
use chess_model::{Colour, Kind, Man, Move, Variant, has_drops};
use fics_words::{BoardNumber, DeskNumber};
use game_board::{GameBoard, Played, handed_over_as};
use style12_writer::Item;

impl Game {
    /// What is told of the hands at a board after a half-move there that captured this man.
    pub(crate) fn hands_at(
        &self,
        desk: DeskNumber,
        board: BoardNumber,
        captured: Option<Man>,
    ) -> Option<Item>
        ensures { result ≡ hands_at desk self.now board captured }
    {
        let board = self.boards.at(board)?;
        hands_told(desk, board, captured)
    }

    /// What is told of the hands at the other board of a pair, where a half-move at this one captured this man.
    pub(crate) fn partner_hands_at(
        &self,
        desk: DeskNumber,
        board: BoardNumber,
        captured: Option<Man>,
    ) -> Option<Item>
        ensures { result ≡ partner_hands_at desk self.now board captured }
    {
        let board = self.boards.at(board.other())?;
        let man = captured?;
        Some(hold_item(desk, board, Some(handed_over_as(man))))
    }
}

/// What is told of the hands at the start of a game, where its variant has hands.
pub(crate) fn first_hands(desk: DeskNumber, board: &GameBoard) -> Option<Item>
    ensures { result ≡ first_hands desk board.now }
{
    if !has_drops(board.terms().variant) {
        return None;
    }
    Some(hold_item(desk, board, None))
}

/// What is told of the hands of a board after a half-move there that captured this man.
fn hands_told(desk: DeskNumber, board: &GameBoard, captured: Option<Man>) -> Option<Item>
    ensures { result ≡ hands_told desk board.now captured }
{
    let is_drop = ends_with_drop(board.list());
    if !changes_hands(board.terms().variant, is_drop, captured) {
        return None;
    }
    let came = match captured {
        Some(man) => Some(handed_over_as(man)),
        None => None,
    };
    Some(hold_item(desk, board, came))
}

/// Both hands at a board as it stands, and the kind of the man that has just come, if one has.
fn hold_item(desk: DeskNumber, board: &GameBoard, came: Option<Kind>) -> Item
    ensures { result ≡ hold_item desk board.now came }
{
    let position = board.position();
    Item::Hold {
        game: game_number(desk, board.number()),
        white: position.hand(Colour::White),
        black: position.hand(Colour::Black),
        came,
    }
}

/// Whether a half-move, a drop or not, that captures this man changes the hands of its own board.
fn changes_hands(variant: Variant, is_drop: bool, captured: Option<Man>) -> bool
    ensures { result ≡ changes_hands variant is_drop captured }
{
    match variant {
        Variant::Chess => false,
        Variant::Crazyhouse => is_drop || captured.is_some(),
        Variant::Bughouse => is_drop,
        Variant::Fischer(_) => false,
    }
}

/// Whether the last half-move of a list, if there is one, is a drop.
fn ends_with_drop(list: &[Played]) -> bool
    ensures { result ≡ ends_with_drop (last_played list.now) }
{
    match list.last() {
        Some(half) => is_drop(&half.what),
        None => false,
    }
}

/// Whether a half-move is a drop.
fn is_drop(what: &Move) -> bool
    ensures { result ≡ is_drop what.now }
{
    match what {
        Move::Plain { .. } => false,
        Move::Castle { .. } => false,
        Move::Drop { .. } => true,
    }
}
