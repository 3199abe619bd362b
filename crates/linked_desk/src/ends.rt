//! The end of a game.
ghost use Rattle.std.specs.Prelude.{◌≡◌, ◌==◌, None, option_copied};
ghost use Rattle.std.specs.Option.{option_to_list};
ghost use Rattle.fics_words.specs.Boards.{board_number};
ghost use Rattle.linked_desk.specs.Ends.{end_item, ended_by, winner_on};
ghost use Rattle.linked_desk.specs.Views.{each_board};

use crate::ended::Ended;
use crate::game::Game;
use crate::views::view_of;
use chess_model::Colour;
use clock_ledger::Moment;
use fics_words::{BoardNumber, DeskNumber, Opponents};
use game_board::GameBoard;
use style12_writer::Item;

impl Game {
    /// Ends the running game, and tells it at each board. Takes no memory.
    pub(crate) fn end(&mut self, desk: DeskNumber, moment: Moment, end: Ended)
        requires running { self.old.ended ≡ None }
        ensures { self.new ≡ ended_by desk self.old moment end }
    {
        self.last = self.last.max(moment);
        self.ended = Some(end);
        let (first, second) = self.boards.both();
        let first = end_item(desk, &end, &self.seats.first, first);
        let second = end_beside(desk, &end, &self.seats.second, second);
        self.feed.add_both(first, second);
    }
}

/// What is told of the end at the second board, where there is one.
fn end_beside(
    desk: DeskNumber,
    end: &Ended,
    players: &Option<Opponents>,
    board: Option<&GameBoard>,
) -> Option<Item>
    ensures { option_to_list result ≡ each_board (end_item desk end.now) (option_to_list players.now)
        (option_to_list (option_copied board.entry)) }
{
    let Some(players) = players else {
        return None;
    };
    let Some(board) = board else {
        return None;
    };
    Some(end_item(desk, end, players, board))
}

/// What is told of the end at a board.
fn end_item(desk: DeskNumber, end: &Ended, players: &Opponents, board: &GameBoard) -> Item
    ensures { result ≡ end_item desk end.now players.now board.now }
{
    Item::End {
        view: view_of(desk, players, board),
        why: end.why,
        winner: winner_on(end, board.number()),
        own: ended_on(end, board.number()),
    }
}

/// Who won at a board: at the other board of a pair it is the partner, who has the other colour.
fn winner_on(end: &Ended, board: BoardNumber) -> Option<Colour>
    ensures { result ≡ winner_on end.now (board_number board) }
{
    if ended_on(end, board) {
        return end.winner;
    }
    match end.winner {
        Some(colour) => Some(colour.opposite()),
        None => None,
    }
}

/// Whether the game ended on the board of that number.
fn ended_on(end: &Ended, board: BoardNumber) -> bool
    ensures { result ≡ (board_number board == board_number end.now.board) }
{
    board.number() == end.board.number()
}
