//! Half-moves, the words that players write for them, and why a word has none.
use crate::man::Kind;
use crate::square::Square;

/// A half-move, of which the colour is known from its place in the game.
#[derive(Clone, Copy, PartialEq, Eq)]
pub enum Move {
    /// A man goes from a square to another; `promo` is what a pawn becomes on its last rank.
    Plain {
        from: Square,
        to: Square,
        promo: Option<Kind>,
    },
    /// Castling, `long` with the rook of the queen's side.
    Castle {
        long: bool,
    },
    /// A man in hand is put on an empty square.
    Drop {
        kind: Kind,
        to: Square,
    },
}

/// A move as a player writes it, before a position gives it its meaning.
#[derive(Clone, Copy, PartialEq, Eq)]
pub enum MoveWord {
    /// Two squares, as `e2e4`.
    Coordinate {
        from: Square,
        to: Square,
        promo: Option<Kind>,
    },
    /// A kind of man and a target, as `Nbd2`. `file` and `rank` count from 0 and narrow the origin.
    Named {
        kind: Kind,
        file: Option<u8>,
        rank: Option<u8>,
        to: Square,
        promo: Option<Kind>,
    },
    /// `O-O`, or `O-O-O` where `long`.
    Castle {
        long: bool,
    },
    /// A kind and a square, as `P@e4`.
    Drop {
        kind: Kind,
        to: Square,
    },
}

/// Why a word has no move in a position.
#[derive(Clone, Copy, PartialEq, Eq)]
pub enum Rejection {
    /// Two or more allowed moves match the word.
    Ambiguous,
    /// A matching move fails because the own king would be attacked after it, and for no other reason.
    LeavesKing,
    /// A castling word, and that castling isn't allowed.
    CastleForbidden,
    /// A drop word in chess or in Fischer random.
    NoDrops,
    /// The hand has no man of the kind.
    NotInHand,
    /// The square of the drop isn't empty.
    Occupied,
    /// A pawn dropped on the first or eighth rank.
    EndRank,
    /// No own man of the word's kind stands on its square, file or rank.
    NoPiece,
    /// There are such men, and none reaches the target.
    CannotReach,
}
