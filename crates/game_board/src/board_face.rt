//! What a board line shows of a position.
ghost use Rattle.std.specs.Prelude.{◌≡◌, option_copied, codes};
ghost use Rattle.move_writer.specs.Blanks.{HasNoBlank};
ghost use Rattle.game_board.specs.Face.{face_of};

use chess_model::{Face, MoveText, Shown, Square};
use move_writer::{pretty, verbose};
use variant_rules::Position;

/// What a board line shows of a position to which `half_moves` half-moves led, `last` being the last of them.
pub fn face(position: &Position, half_moves: u16, last: Option<&Shown>) -> Face
    ensures face { result ≡ face_of position.now half_moves (option_copied last.entry) }
    ensures verbose { HasNoBlank result.verbose }
    ensures pretty { HasNoBlank result.pretty }
{
    let rights = position.rights();
    let (verbose, pretty) = match last {
        Some(shown) => (verbose(shown), pretty(shown)),
        None => (none_text(), none_text()),
    };
    Face {
        men: *position.men(),
        to_move: position.to_move(),
        push: position.en_passant().map(Square::file),
        rights: [
            rights.white_short,
            rights.white_long,
            rights.black_short,
            rights.black_long,
        ],
        quiet: position.quiet(),
        number: half_moves / 2 + 1,
        verbose,
        pretty,
    }
}

/// What stands in place of a move before the first one.
fn none_text() -> MoveText
    ensures text { result ≡ codes "none" }
    ensures unbroken { HasNoBlank result }
{
    MoveText::of(b"none").unwrap()
}
