//! Laws of the pretty texts.

ghost use Rattle.std.specs.Prelude.{◌≡◌, Some};
ghost use Rattle.chess_model.specs.Allowed.{Allowed};
ghost use Rattle.chess_model.specs.LegalPositions.{IsSound};
ghost use Rattle.rules_reading.specs.ReadsBack.{ReadsBack};

use chess_model::Move;
use move_reader::read_word;
use move_writer::pretty;
use variant_rules::Position;

/// After every legal list of half-moves the pretty text of an allowed move is read as that move.
#[tactic(auto, using(crate::proofs::ReadBack::reads_back))]
pub fn pretty_texts_read_back()
    ensures { ReadsBack }
{}

/// The move that the pretty text of an allowed move stands for: that move. A position is sound after every legal list
/// of half-moves (`legal_positions_are_sound` of chess_model).
pub fn read_back(p: &Position, m: Move) -> Option<Move>
    requires sound { IsSound p.now }
    requires allowed { Allowed p.now m }
    ensures { result ≡ Some m }
{
    let text = pretty(&p.shown(m));
    let Some(word) = read_word(text.bytes()) else {
        return None;
    };
    p.resolve(&word).ok()
}
