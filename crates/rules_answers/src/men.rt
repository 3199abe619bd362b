//! What stands on a square.
ghost use Rattle.std.specs.Prelude.{◌≡◌, ◌↔◌, IsTrue};
ghost use Rattle.chess_model.specs.Men.{is_held_as};
ghost use Rattle.chess_model.specs.Placement.{IsHeldBy, IsHeldAs};

use chess_model::{Colour, Kind, Man};

/// Whether a man of that colour stands there.
#[inline]
pub fn is_held_by(c: Colour, man: Option<Man>) -> bool
    ensures { IsTrue result ↔ IsHeldBy c man }
{
    match man {
        Some(m) => m.colour == c,
        None => false,
    }
}

/// Whether a man of that colour and kind stands there.
#[inline]
pub fn is_held_as_kind(c: Colour, k: Kind, man: Option<Man>) -> bool
    ensures { IsTrue result ↔ IsHeldAs c k man }
{
    match man {
        Some(m) => m.colour == c && m.kind == k,
        None => false,
    }
}

/// The same, as the test of the rules.
#[inline]
pub(crate) fn is_man_of(c: Colour, k: Kind, man: Option<Man>) -> bool
    ensures { result ≡ is_held_as c k man }
{
    match man {
        Some(m) => m.colour.is_same(c) && m.kind.is_same(k),
        None => false,
    }
}
