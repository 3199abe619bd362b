//! Where men may be dropped.
ghost use Rattle.std.specs.Prelude.{◌↔◌, IsTrue};
ghost use Rattle.chess_model.specs.Allowed.{HasDrops, MayDropOn};

use chess_model::{Kind, Square, Variant};

/// Whether men are dropped in a variant.
#[inline]
pub fn has_drops(v: Variant) -> bool
    ensures { IsTrue result ↔ HasDrops v }
{
    match v {
        Variant::Chess => false,
        Variant::Crazyhouse => true,
        Variant::Bughouse => true,
        Variant::Fischer(_) => false,
    }
}

/// Whether a man of that kind may be dropped on the rank of that square.
#[inline]
pub fn may_drop_on(k: Kind, to: Square) -> bool
    ensures { IsTrue result ↔ MayDropOn k to }
{
    match k {
        Kind::Pawn => 0 < to.rank() && to.rank() < 7,
        Kind::Knight => true,
        Kind::Bishop => true,
        Kind::Rook => true,
        Kind::Queen => true,
        Kind::King => true,
    }
}
