//! Colours, kinds of men, and men.
ghost use Rattle.std.specs.Prelude.{◌≡◌};
ghost use Rattle.chess_model.specs.Men.{same_colour, same_kind};
ghost use Rattle.chess_model.specs.Placement.{opposite};

/// The two sides.
#[derive(Clone, Copy, Debug, PartialEq, Eq)]
pub enum Colour {
    White,
    Black,
}

impl Colour {
    /// The other side.
    pub fn opposite(self) -> Colour
        ensures { result ≡ opposite self }
    {
        match self {
            Colour::White => Colour::Black,
            Colour::Black => Colour::White,
        }
    }

    /// Whether another colour is the same.
    pub fn is_same(self, other: Colour) -> bool
        ensures { result ≡ same_colour self other }
    {
        match self {
            Colour::White => matches!(other, Colour::White),
            Colour::Black => matches!(other, Colour::Black),
        }
    }
}

/// The six kinds of men (FIDE Laws, 2.2).
#[derive(Clone, Copy, PartialEq, Eq)]
pub enum Kind {
    Pawn,
    Knight,
    Bishop,
    Rook,
    Queen,
    King,
}

impl Kind {
    /// Whether another kind is the same.
    pub fn is_same(self, other: Kind) -> bool
        ensures { result ≡ same_kind self other }
    {
        match self {
            Kind::Pawn => matches!(other, Kind::Pawn),
            Kind::Knight => matches!(other, Kind::Knight),
            Kind::Bishop => matches!(other, Kind::Bishop),
            Kind::Rook => matches!(other, Kind::Rook),
            Kind::Queen => matches!(other, Kind::Queen),
            Kind::King => matches!(other, Kind::King),
        }
    }
}

/// A man on the board. `promoted` marks one that a pawn became.
#[derive(Clone, Copy, PartialEq, Eq)]
pub struct Man {
    pub colour: Colour,
    pub kind: Kind,
    pub promoted: bool,
}
