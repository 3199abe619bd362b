//! Which half-move a word stands for.
ghost use Rattle.std.specs.Prelude.{◌≡◌, IfOk, IfErr};
ghost use Rattle.chess_model.specs.Answer.{is_promotion, castling_of, IsAnswer, IsRefusal};
ghost use Rattle.chess_model.specs.WordAnswer.{word_answer};

use crate::placement::man_on;
use crate::plain_board::PlainBoard;
use chess_model::{Colour, Kind, Man, Move, MoveWord, Rejection, Square, Variant};
use rules_answers::AskedBoard;

impl AskedBoard for PlainBoard {
    ghost position = { λ p. p };

    fn rules(&self) -> Variant {
        self.variant
    }

    fn to_move(&self) -> Colour {
        self.to_move
    }

    fn man_on(&self, s: Square) -> Option<Man> {
        man_on(&self.men, s)
    }

    fn in_hand(&self, k: Kind) -> u8 {
        self.hand(self.to_move).count(k)
    }

    fn goes(&self, m: &Move) -> bool {
        self.is_move(m)
    }

    fn stays_safe(&self, m: &Move) -> bool {
        self.is_safe_after(m)
    }
}

impl PlainBoard {
    /// Whether a plain move between these squares brings an own pawn to its last rank.
    pub fn is_promotion(&self, from: Square, to: Square) -> bool
        ensures { result ≡ is_promotion self.now from to }
    {
        rules_answers::is_promotion(self, from, to)
    }

    /// The castling, long or not, that two squares stand for, where the own king is at home on file e: `e1g1`,
    /// `e1c1`, `e8g8` and `e8c8`.
    pub fn castling_of(&self, from: Square, to: Square) -> Option<bool>
        ensures { result ≡ castling_of self.now from to }
    {
        rules_answers::castling_of(self, from, to)
    }

    /// The answer to a written word: the one allowed move that matches it, or the first cause why there is none.
    ///
    /// Two squares stand for the move between them, or for castling where the own king stands at home on file e and
    /// goes two squares. A kind and a target stand for the moves of the own men of that kind. A pawn that reaches
    /// the last rank without a letter becomes a queen; a letter on another move is ignored.
    pub fn answer(&self, word: &MoveWord) -> Result<Move, Rejection>
        ensures value { result ≡ word_answer self.now word.now }
        ensures answered { IfOk result (IsAnswer self.now word.now) }
        ensures refused { IfErr result (IsRefusal self.now word.now) }
    {
        rules_answers::answer(self, word)
    }
}
