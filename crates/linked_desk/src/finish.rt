//! The end of a game by the position on a board.
ghost use Rattle.std.specs.Prelude.{◌≡◌, None};
ghost use Rattle.linked_desk.specs.Finish.{end_at, end_on, finished};

use crate::ended::Ended;
use crate::game::Game;
use chess_model::{State, Why};
use clock_ledger::Moment;
use fics_words::{BoardNumber, DeskNumber};
use game_board::GameBoard;

impl Game {
    /// Ends the running game where the player to move at a board is mated or stalemated, and tells it at each board.
    /// Takes no memory.
    pub(crate) fn finish(&mut self, desk: DeskNumber, moment: Moment, board: BoardNumber)
        requires running { self.old.ended ≡ None }
        ensures { self.new ≡ finished desk self.old moment board }
    {
        let Some(end) = self.end_at(board) else {
            return;
        };
        self.end(desk, moment, end);
    }

    /// The end that the position on a board brings, if it does.
    fn end_at(&self, board: BoardNumber) -> Option<Ended>
        ensures { result ≡ end_at self.now board }
    {
        end_on(board, self.boards.at(board)?)
    }
}

/// The end that the position on the board of this number brings: mate (FIDE Laws, 5.1.1) or stalemate (5.2.1).
fn end_on(board: BoardNumber, on: &GameBoard) -> Option<Ended>
    ensures { result ≡ end_on board on.now }
{
    match on.state() {
        State::Mate => Some(Ended {
            why: Why::Mate,
            board,
            winner: Some(on.to_move().opposite()),
        }),
        State::Stalemate => Some(Ended {
            why: Why::Stalemate,
            board,
            winner: None,
        }),
        State::Safe => None,
        State::Check => None,
    }
}
