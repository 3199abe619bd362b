//! Where the kings themselves may go.
ghost use Rattle.std.specs.Prelude.{◌≡◌, ◌↔◌, IsTrue, None, length, slice_set};
ghost use Rattle.chess_model.specs.Placement.{man_at, opposite, IsHeldBy, IsHeldAs};
ghost use Rattle.chess_model.specs.Reach.{Reaches};
ghost use Rattle.chess_model.specs.Attacked.{IsAttacked};
ghost use Rattle.chess_model.specs.Allowed.{IsSafeAfter};
ghost use Rattle.variant_rules.specs.Checks.{IsOnlyKing};

use crate::listing::going;
use crate::position::Position;
use crate::sights::written;
use bitboard_core::{Bits, is_struck};
use chess_model::{Colour, Kind, Move, Square};

/// Whether no king of that colour stands outside a.
fn is_only_king(men: &Bits, c: Colour, a: Square) -> bool
    requires { length men.now ≡ 64 }
    ensures { IsTrue result → IsOnlyKing men.now c a }
{
    written(men.side(c).kings, a, false) == 0
}

/// Whether the enemy would attack b if the man of that colour on a weren't there.
fn is_attacked_without(men: &Bits, c: Colour, a: Square, b: Square) -> bool
    requires squares { length men.now ≡ 64 }
    requires held { IsHeldBy c (man_at men.now a) }
    ensures { IsTrue result ↔ IsAttacked (slice_set men.now a None) (opposite c) b }
{
    let enemy = c.opposite();
    is_struck(
        &men.side(enemy),
        enemy,
        written(men.occupied(), a, false),
        b,
    )
}

impl Position {
    /// Whether the own king isn't attacked after its move from a to b.
    pub(crate) fn king_may_go(&self, a: Square, b: Square) -> bool
        requires held { IsHeldAs self.now.to_move Kind.King (man_at self.now.men a) }
        requires reached { Reaches self.now.men self.now.en_passant self.now.to_move Kind.King a b }
        ensures { IsTrue result ↔ IsSafeAfter self.now (Move.Plain a b None) }
    {
        if !is_only_king(&self.men, self.to_move, a) {
            return self.is_safe_after(&going(a, b));
        }
        !is_attacked_without(&self.men, self.to_move, a, b)
    }
}
