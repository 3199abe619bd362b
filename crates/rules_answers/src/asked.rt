//! What the answer to a word asks of a board.

use chess_model::{Colour, Kind, Man, Move, Square, Variant};

/// A board that stands for a position, and tells of it what a word's answer needs.
pub trait AskedBoard {
    ghost use Rattle.std.specs.Prelude.{◌≡◌, ◌↔◌, IsTrue};
    ghost use Rattle.chess_model.specs.Placement.{man_at};
    ghost use Rattle.chess_model.specs.Holdings.{count_in};
    ghost use Rattle.chess_model.specs.Position.{Position, hand_of_side};
    ghost use Rattle.chess_model.specs.Allowed.{IsMove, IsSafeAfter};

    /// The position for which the board stands.
    ghost position: { Self → Position };

    /// The rules of the game.
    fn rules(&self) -> Variant
        ensures { result ≡ (position self.now).variant };

    /// Whose turn it is.
    fn to_move(&self) -> Colour
        ensures { result ≡ (position self.now).to_move };

    /// The man on a square.
    fn man_on(&self, s: Square) -> Option<Man>
        ensures { result ≡ man_at (position self.now).men s };

    /// How many men of a kind the side to move has in hand.
    fn in_hand(&self, k: Kind) -> u8
        ensures { result ≡ count_in (hand_of_side (position self.now) (position self.now).to_move) k };

    /// Whether the move is allowed, the safety of the own king aside.
    fn goes(&self, m: &Move) -> bool
        ensures { IsTrue result ↔ IsMove (position self.now) m.now };

    /// Whether the own king isn't attacked after the move.
    fn stays_safe(&self, m: &Move) -> bool
        ensures { IsTrue result ↔ IsSafeAfter (position self.now) m.now };
}
