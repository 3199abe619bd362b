//! How the men stand at the start, in each variant.
ghost use Rattle.std.specs.Prelude.{◌≡◌, map, unwrap_or};
ghost use Rattle.chess_model.specs.Placement.{array_from, array_of, back_rank, unpromoted};

use crate::home_rank::{Files, home_rank};
use crate::limits::ARRAYS;
use crate::man::{Colour, Kind, Man};
use crate::variant::Variant;

const WHITE_PAWN: Option<Man> = Some(Man {
    colour: Colour::White,
    kind: Kind::Pawn,
    promoted: false,
});

const BLACK_PAWN: Option<Man> = Some(Man {
    colour: Colour::Black,
    kind: Kind::Pawn,
    promoted: false,
});

/// The kinds on the home ranks of chess, from file a to file h (FIDE Laws, 2.3).
const USUAL_RANK: Files = [
    Some(Kind::Rook),
    Some(Kind::Knight),
    Some(Kind::Bishop),
    Some(Kind::Queen),
    Some(Kind::King),
    Some(Kind::Bishop),
    Some(Kind::Knight),
    Some(Kind::Rook),
];

/// The placement of the start (FIDE Laws, 2.3): the man on each square, by the square's number.
pub fn array_for(v: Variant) -> [Option<Man>; 64]
    ensures { result ≡ array_of v }
{
    array_with(&rank_for(v))
}

/// The home ranks of a variant.
#[tactic(auto, unfolding(crate::specs::FischerArrays::numbered_rank))]
fn rank_for(v: Variant) -> Files
    ensures { map (λ man. unwrap_or man Kind.Pawn) result ≡ back_rank v }
{
    match v {
        Variant::Fischer(number) => home_rank(number % ARRAYS),
        _ => USUAL_RANK,
    }
}

/// The array in which both colours have these home ranks.
#[rattlefmt::skip]
fn array_with(files: &Files) -> [Option<Man>; 64]
    ensures { result ≡ array_from (map (λ man. unwrap_or man Kind.Pawn) files.now) }
{
    [
        white(files[0]), white(files[1]), white(files[2]), white(files[3]),
        white(files[4]), white(files[5]), white(files[6]), white(files[7]),
        WHITE_PAWN, WHITE_PAWN, WHITE_PAWN, WHITE_PAWN, WHITE_PAWN, WHITE_PAWN, WHITE_PAWN, WHITE_PAWN,
        None, None, None, None, None, None, None, None,
        None, None, None, None, None, None, None, None,
        None, None, None, None, None, None, None, None,
        None, None, None, None, None, None, None, None,
        BLACK_PAWN, BLACK_PAWN, BLACK_PAWN, BLACK_PAWN, BLACK_PAWN, BLACK_PAWN, BLACK_PAWN, BLACK_PAWN,
        black(files[0]), black(files[1]), black(files[2]), black(files[3]),
        black(files[4]), black(files[5]), black(files[6]), black(files[7]),
    ]
}

fn white(kind: Option<Kind>) -> Option<Man>
    ensures { result ≡ unpromoted Colour.White (unwrap_or kind Kind.Pawn) }
{
    Some(Man {
        colour: Colour::White,
        kind: kind.unwrap_or(Kind::Pawn),
        promoted: false,
    })
}

fn black(kind: Option<Kind>) -> Option<Man>
    ensures { result ≡ unpromoted Colour.Black (unwrap_or kind Kind.Pawn) }
{
    Some(Man {
        colour: Colour::Black,
        kind: kind.unwrap_or(Kind::Pawn),
        promoted: false,
    })
}
