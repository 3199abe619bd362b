//! The long text of a move, as `N/g1-f3`.
ghost use Rattle.std.specs.Prelude.{◌≡◌};
ghost use Rattle.move_writer.specs.Blanks.{HasNoBlank};
ghost use Rattle.move_writer.specs.Verbose.{verbose_of};

use crate::draft::MoveDraft;
use crate::letters::letter;
use chess_model::{Move, MoveText, Shown};

/// The verbose text of a move, as FICS style 12 writes it: `P/e2-e4`, `P/e7-e8=Q`, `o-o`, `o-o-o`, `P/@@-e4`.
pub fn verbose(s: &Shown) -> MoveText
    ensures text { result ≡ verbose_of s.now }
    ensures unbroken { HasNoBlank result }
{
    let mut text = MoveDraft::new();
    match s.what {
        Move::Plain { from, to, promo } => {
            text.push(letter(s.kind));
            text.push(b'/');
            text.push_square(from);
            text.push(b'-');
            text.push_square(to);
            text.push_promotion(promo);
        }
        Move::Castle { long: false } => text.push_all(b"o-o"),
        Move::Castle { long: true } => text.push_all(b"o-o-o"),
        Move::Drop { kind, to } => {
            text.push(letter(kind));
            text.push_all(b"/@@-");
            text.push_square(to);
        }
    }
    text.finish()
}
