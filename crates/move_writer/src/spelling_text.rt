//! A move as players type it, as `g1f3`.
ghost use Rattle.std.specs.Prelude.{◌≡◌, ◌+◌, ◌<◌, ◌≤◌, ◌++◌, length};
ghost use Rattle.move_writer.specs.Blanks.{HasNoBlank};
ghost use Rattle.move_writer.specs.Spelling.{lower_promotion, spelling_of};

use crate::draft::MoveDraft;
use crate::letters::letter;
use chess_model::{Kind, Move, MoveText};

/// A move spelled as players type it: `e2e4`, `e7e8=q`, `O-O`, `O-O-O`, `P@e4`.
pub fn spelling(m: &Move) -> MoveText
    ensures text { result ≡ spelling_of m.now }
    ensures unbroken { HasNoBlank result }
{
    let mut text = MoveDraft::new();
    match m {
        Move::Plain { from, to, promo } => {
            text.push_square(*from);
            text.push_square(*to);
            push_lower_promotion(&mut text, *promo);
        }
        Move::Castle { long: false } => text.push_all(b"O-O"),
        Move::Castle { long: true } => text.push_all(b"O-O-O"),
        Move::Drop { kind, to } => {
            text.push(letter(*kind));
            text.push(b'@');
            text.push_square(*to);
        }
    }
    text.finish()
}

/// Appends what a pawn becomes, its letter in lower case, where it becomes something.
fn push_lower_promotion(text: &mut MoveDraft, promo: Option<Kind>)
    requires { length text.old < 11 }
    ensures text { text.new ≡ text.old ++ lower_promotion promo }
    ensures most { length text.new ≤ length text.old + 2 }
{
    if let Some(kind) = promo {
        text.push(b'=');
        text.push(letter(kind).to_ascii_lowercase());
    }
}
