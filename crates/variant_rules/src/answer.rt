//! The half-move that a word stands for, or why it stands for none.
ghost use Rattle.std.specs.Prelude.{◌≡◌, IfOk, IfErr};
ghost use Rattle.chess_model.specs.Answer.{IsAnswer, IsRefusal};
ghost use Rattle.chess_model.specs.WordAnswer.{word_answer};

use crate::position::Position;
use chess_model::{Colour, Kind, Man, Move, MoveWord, Rejection, Square, Variant};
use rules_answers::AskedBoard;

impl AskedBoard for Position {
    ghost position = { λ p. p };

    fn rules(&self) -> Variant {
        self.variant
    }

    fn to_move(&self) -> Colour {
        self.to_move
    }

    fn man_on(&self, s: Square) -> Option<Man> {
        self.men.man(s)
    }

    fn in_hand(&self, k: Kind) -> u8 {
        self.hand(self.to_move).count(k)
    }

    fn goes(&self, m: &Move) -> bool {
        self.is_move(m)
    }

    fn stays_safe(&self, m: &Move) -> bool {
        self.is_safe_after(m)
    }
}

impl Position {
    /// The answer to a written word: the one allowed move that matches it, or the first cause why there is none.
    ///
    /// Two squares stand for the move between them, or for castling where the own king stands at home on file e and
    /// goes two squares. A kind and a target stand for the moves of the own men of that kind. A pawn that reaches
    /// the last rank without a letter becomes a queen; a letter on another move is ignored.
    pub fn resolve(&self, word: &MoveWord) -> Result<Move, Rejection>
        ensures value { result ≡ word_answer self.now word.now }
        ensures answered { IfOk result (IsAnswer self.now word.now) }
        ensures refused { IfErr result (IsRefusal self.now word.now) }
    {
        rules_answers::answer(self, word)
    }
}
