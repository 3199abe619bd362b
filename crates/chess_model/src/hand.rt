//! The men that a player may drop.
ghost use Rattle.std.specs.Prelude.{◌≡◌};
ghost use Rattle.chess_model.specs.Holdings.{count_in, hand_of};

use crate::man::Kind;

/// How many men of each kind a player may drop. No king is ever in hand.
#[derive(Clone, Copy, PartialEq, Eq)]
pub struct Hand {
    pub pawns: u8,
    pub knights: u8,
    pub bishops: u8,
    pub rooks: u8,
    pub queens: u8,
}

impl Hand {
    /// The hand without men.
    pub fn empty() -> Hand
        ensures { result ≡ hand_of (λ k. 0) }
    {
        Hand {
            pawns: 0,
            knights: 0,
            bishops: 0,
            rooks: 0,
            queens: 0,
        }
    }

    /// How many men of a kind there are; of kings always none.
    pub fn count(&self, k: Kind) -> u8
        ensures { result ≡ count_in self.now k }
    {
        match k {
            Kind::Pawn => self.pawns,
            Kind::Knight => self.knights,
            Kind::Bishop => self.bishops,
            Kind::Rook => self.rooks,
            Kind::Queen => self.queens,
            Kind::King => 0,
        }
    }
}
