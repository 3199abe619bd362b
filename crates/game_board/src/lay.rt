//! Half-moves that are laid on a board as they are, as where a game that was played is looked at again.
ghost use Rattle.std.specs.Prelude.{◌≡◌, ◌<◌, IfSome};
ghost use Rattle.chess_model.specs.Limits.{most_halves};
ghost use Rattle.chess_model.specs.Allowed.{Allowed};
ghost use Rattle.clock_ledger.specs.Charges.{IsChargeable};
ghost use Rattle.game_board.specs.Board.{position_of};
ghost use Rattle.game_board.specs.Play.{captured_in};
ghost use Rattle.game_board.specs.Put.{with_put};

use crate::game_board::GameBoard;
use crate::played::Played;
use chess_model::Man;

impl GameBoard {
    /// Lays an allowed half-move on the board with the charge that it has, if it has one, and gives the man that it
    /// captures. It counts as played, and as one that came with its charge, like all before it. Whether a charge
    /// belongs there isn't asked, so a half-move that is only tried out may have none. Takes no memory.
    pub fn lay(&mut self, half: Played) -> Option<Man>
        requires allowed { Allowed (position_of self.old) half.what }
        requires room { self.old.played < most_halves }
        requires sound { IfSome half.charge IsChargeable }
        ensures captured { result ≡ captured_in self.old half.what }
        ensures after { self.new ≡ with_put self.old half }
    {
        let captured = self.add(&half);
        self.resumed = self.list.len() as u16;
        captured
    }
}
