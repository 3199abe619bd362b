//! What the bot answers, as a text.
ghost use Rattle.std.specs.Prelude.{◌≡◌, ◌≢◌, ◌∷◌, ◌++◌, IfOk};
ghost use Rattle.std.specs.Fmt.{signed_decimal};
ghost use Rattle.house_bot.specs.AnswerText.{found_text, best_line};

use crate::chosen::best;
use chess_model::{Move, Variant};
use itoa::Buffer;
use memory::NoMemory;
use move_writer::spelling;
use std::alloc::Global;
use variant_rules::Position;

/// The best move of a position `depth` half-moves ahead, spelled as players type it, or `none`; a blank; and the value.
/// The position is afterwards as it was before, also where memory runs out.
pub fn answer_text(alloc: Global, p: &mut Position, depth: u8) -> Result<Vec<u8>, NoMemory>
    requires { p.old.variant ≢ Variant.Bughouse }
    ensures same { p.new ≡ p.old }
    ensures text { IfOk result (λ text. text.items ≡ best_line depth p.old) }
{
    let (value, found) = best(alloc, p, depth)?;
    let text = written(alloc, found, value)?;
    Ok(text)
}

fn written(alloc: Global, found: Option<Move>, value: i32) -> Result<Vec<u8>, NoMemory>
    ensures { IfOk result (λ text. text.items ≡ found_text found ++ 32 ∷ signed_decimal value) }
{
    let mut text = move_text(alloc, found)?;
    text.extend_from_slice(b" ")?;
    text.extend_from_slice(Buffer::new().format(i64::from(value)).as_bytes())?;
    Ok(text)
}

fn move_text(alloc: Global, found: Option<Move>) -> Result<Vec<u8>, NoMemory>
    ensures { IfOk result (λ text. text.items ≡ found_text found) }
{
    match found {
        Some(m) => Ok(Vec::from_slice(alloc, spelling(&m).bytes())?),
        None => Ok(Vec::from_slice(alloc, b"none")?),
    }
}
