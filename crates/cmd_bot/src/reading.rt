//! The reading of the line that names the variant.

ghost use Rattle.std.specs.Prelude.{◌≡◌, ◌≢◌, IfSome};
ghost use Rattle.cmd_bot.specs.Game.{variant_named, with_drops};

use chess_model::{Variant, read_variant};

/// The most half-moves that the bot looks ahead in crazyhouse, where drops make many.
const MOST_WITH_DROPS: u8 = 3;

/// The variant that the line names, where the bot plays it so many half-moves ahead.
pub(crate) fn read_bot_variant(line: &[u8], depth: u8) -> Option<Variant>
    ensures named { result ≡ variant_named depth line.now }
    ensures one_board { IfSome result (λ variant. variant ≢ Variant.Bughouse) }
{
    match read_variant(line) {
        Some(Variant::Chess) => Some(Variant::Chess),
        Some(Variant::Crazyhouse) => with_drops(depth),
        Some(Variant::Bughouse) => None,
        Some(Variant::Fischer(number)) => Some(Variant::Fischer(number)),
        None => None,
    }
}

/// Crazyhouse, where the bot plays it so many half-moves ahead.
fn with_drops(depth: u8) -> Option<Variant>
    ensures named { result ≡ with_drops depth }
    ensures one_board { IfSome result (λ variant. variant ≢ Variant.Bughouse) }
{
    if depth > MOST_WITH_DROPS {
        return None;
    }
    Some(Variant::Crazyhouse)
}
