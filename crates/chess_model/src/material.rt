//! What the men of a colour count for.
ghost use Rattle.std.specs.Prelude.{◌≡◌, ◌≤◌};
ghost use Rattle.chess_model.specs.Material.{worth_of, square_worth, material_of};

use crate::man::{Colour, Kind, Man};

/// The material strength of a colour on a board: pawn 1, knight 3, bishop 3, rook 5, queen 9. A promoted man counts as
/// what it is.
pub fn material_of(colour: Colour, men: &[Option<Man>; 64]) -> u64
    ensures total { result ≡ material_of colour men.now }
    ensures most { result ≤ 576 }
{
    let mut total = 0;
    for square in men {
        total += square_worth(colour, *square);
    }
    total
}

/// The material strengths of White and of Black, found by one look at the board.
pub fn materials(men: &[Option<Man>; 64]) -> (u64, u64)
    ensures white { result.0 ≡ material_of Colour.White men.now }
    ensures black { result.1 ≡ material_of Colour.Black men.now }
    ensures most { (result.0 ≤ 576) × (result.1 ≤ 576) }
{
    let mut white = 0;
    let mut black = 0;
    for square in men {
        let (whites, blacks) = worths(*square);
        white += whites;
        black += blacks;
    }
    (white, black)
}

/// What a square adds to White's material and to Black's.
fn worths(square: Option<Man>) -> (u64, u64)
    ensures white { result.0 ≡ square_worth Colour.White square }
    ensures black { result.1 ≡ square_worth Colour.Black square }
    ensures most { (result.0 ≤ 9) × (result.1 ≤ 9) }
{
    let Some(man) = square else {
        return (0, 0);
    };
    let worth = worth_of(man.kind);
    match man.colour {
        Colour::White => (worth, 0),
        Colour::Black => (0, worth),
    }
}

/// What a square adds to a colour's material.
fn square_worth(colour: Colour, square: Option<Man>) -> u64
    ensures worth { result ≡ square_worth colour square }
    ensures most { result ≤ 9 }
{
    match square {
        Some(man) if man.colour.is_same(colour) => worth_of(man.kind),
        _ => 0,
    }
}

/// What a man of a kind counts for.
fn worth_of(kind: Kind) -> u64
    ensures worth { result ≡ worth_of kind }
    ensures most { result ≤ 9 }
{
    match kind {
        Kind::Pawn => 1,
        Kind::Knight | Kind::Bishop => 3,
        Kind::Rook => 5,
        Kind::Queen => 9,
        Kind::King => 0,
    }
}
