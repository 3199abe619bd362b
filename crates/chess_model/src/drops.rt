//! Which variants have drops.

ghost use Rattle.std.specs.Prelude.{◌≡◌};
ghost use Rattle.chess_model.specs.Tests.{has_drops};

use crate::variant::Variant;

/// Whether men in hand belong to the variant.
pub fn has_drops(variant: Variant) -> bool
    ensures { result ≡ has_drops variant }
{
    match variant {
        Variant::Chess => false,
        Variant::Crazyhouse => true,
        Variant::Bughouse => true,
        Variant::Fischer(_) => false,
    }
}
