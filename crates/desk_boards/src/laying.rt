//! Going through a game that was played: back to its start, and from there half-move by half-move.
ghost use Rattle.std.specs.Prelude.{◌≡◌, ◌<◌, IfSome, IsSome, length, map, slice_get};
ghost use Rattle.chess_model.specs.Limits.{most_halves};
ghost use Rattle.chess_model.specs.Allowed.{Allowed};
ghost use Rattle.clock_ledger.specs.Charges.{IsChargeable};
ghost use Rattle.game_board.specs.Board.{position_of};
ghost use Rattle.game_board.specs.Rewind.{rewound};
ghost use Rattle.fics_words.specs.Boards.{board_place};
ghost use Rattle.desk_boards.specs.Replaying.{boards_put};

use crate::boards::Boards;
use crate::linked::lay_linked;
use fics_words::BoardNumber;
use game_board::Played;

impl Boards {
    /// Goes back to the start of the game: no half-move is on any of the boards, and none was played. They keep their
    /// room.
    pub fn rewind(&mut self)
        ensures { self.new ≡ map rewound self.old }
    {
        self.first.rewind();
        if let Some(second) = &mut self.second {
            second.rewind();
        }
    }

    /// Lays an allowed half-move on a board, with the charge that it has, if it has one; whether a charge belongs there
    /// isn't asked. The other board of a pair learns of it. Takes no memory.
    pub fn lay(&mut self, board: BoardNumber, half: &Played)
        requires there { IsSome (slice_get self.old (board_place board)) }
        requires allowed { IfSome (slice_get self.old (board_place board))
            (λ b. Allowed (position_of b) half.now.what) }
        requires room { IfSome (slice_get self.old (board_place board)) (λ b. b.played < most_halves) }
        requires short { IfSome (slice_get self.old (board_place board)) (λ b. length b.list < most_halves) }
        requires sound { IfSome half.now.charge IsChargeable }
        ensures after { self.new ≡ boards_put self.old board half.now }
    {
        match board {
            BoardNumber::First => match &mut self.second {
                Some(second) => lay_linked(&mut self.first, second, half),
                None => {
                    let _captured = self.first.lay(*half);
                }
            },
            BoardNumber::Second => {
                if let Some(second) = &mut self.second {
                    lay_linked(second, &mut self.first, half);
                }
            }
        }
    }
}
