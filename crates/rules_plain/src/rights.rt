//! The castlings that a half-move leaves possible.
ghost use Rattle.std.specs.Prelude.{◌≡◌};
ghost use Rattle.chess_model.specs.RightsAndCounts.{touches, keeps_right};
ghost use Rattle.chess_model.specs.Next.{next_rights};

use chess_model::{Colour, Move, Rights, Square, Variant};
use rules_answers::{home_of_king, home_of_rook};

/// Whether a half-move of the colour `by` leaves or reaches the square s; castling leaves the king's home.
fn touches_square(v: Variant, by: Colour, m: &Move, s: Square) -> bool
    ensures { result ≡ touches v by m.now s }
{
    match m {
        Move::Plain { from, to, promo: _ } => *from == s || *to == s,
        Move::Castle { long: _ } => home_of_king(v, by) == s,
        Move::Drop { kind: _, to } => *to == s,
    }
}

/// Whether a half-move leaves the homes of that colour's king and rook alone.
fn keeps_right_of(v: Variant, c: Colour, long: bool, by: Colour, m: &Move) -> bool
    ensures { result ≡ keeps_right v c long by m.now }
{
    !touches_square(v, by, m, home_of_king(v, c))
        && !touches_square(v, by, m, home_of_rook(v, c, long))
}

/// What is left of the rights after a half-move of the colour `by`.
pub(crate) fn rights_left(v: Variant, rights: Rights, by: Colour, m: &Move) -> Rights
    ensures { result ≡ next_rights v rights by m.now }
{
    let white_short = rights.white_short && keeps_right_of(v, Colour::White, false, by, m);
    let white_long = rights.white_long && keeps_right_of(v, Colour::White, true, by, m);
    let black_short = rights.black_short && keeps_right_of(v, Colour::Black, false, by, m);
    let black_long = rights.black_long && keeps_right_of(v, Colour::Black, true, by, m);
    Rights {
        white_short,
        white_long,
        black_short,
        black_long,
    }
}
