//! Why a word has no move, as a refusal.
ghost use Rattle.std.specs.Prelude.{◌≡◌, IfOk};
ghost use Rattle.chess_model.specs.Allowed.{Allowed};
ghost use Rattle.game_board.specs.Causes.{refusal_of_rejection, in_words};
ghost use Rattle.chess_model.specs.WordAnswer.{word_answer};

use chess_model::{Move, MoveWord, Rejection};
use fics_words::Refusal;
use variant_rules::Position;

/// The refusal that tells a player why a word has no move.
pub fn refusal_of(cause: Rejection) -> Refusal
    ensures { result ≡ refusal_of_rejection cause }
{
    match cause {
        Rejection::Ambiguous => Refusal::Ambiguous,
        Rejection::LeavesKing => Refusal::LeavesKing,
        Rejection::CastleForbidden => Refusal::CastleForbidden,
        Rejection::NoDrops => Refusal::NoDrops,
        Rejection::NotInHand => Refusal::NotInHand,
        Rejection::Occupied => Refusal::Occupied,
        Rejection::EndRank => Refusal::EndRank,
        Rejection::NoPiece => Refusal::NoPiece,
        Rejection::CannotReach => Refusal::CannotReach,
    }
}

/// The move that a word stands for in a position, or the refusal.
pub(crate) fn answer_of(position: &Position, word: &MoveWord) -> Result<Move, Refusal>
    ensures answer { result ≡ in_words (word_answer position.now word.now) }
    ensures allowed { IfOk result (Allowed position.now) }
{
    match position.resolve(word) {
        Ok(what) => Ok(what),
        Err(cause) => Err(refusal_of(cause)),
    }
}
