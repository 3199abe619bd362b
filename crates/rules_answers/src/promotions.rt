//! The promotion of a word's move.
ghost use Rattle.std.specs.Prelude.{◌≡◌};
ghost use Rattle.chess_model.specs.Answer.{is_promotion, promotion_of};

use crate::asked::AskedBoard;
use crate::homes::last_rank_of;
use crate::men::is_man_of;
use chess_model::{Kind, Square};

/// Whether a plain move between these squares brings an own pawn to its last rank.
#[inline]
pub fn is_promotion<B: AskedBoard>(board: &B, from: Square, to: Square) -> bool
    ensures { result ≡ is_promotion (B.position board.now) from to }
{
    is_man_of(board.to_move(), Kind::Pawn, board.man_on(from))
        && to.rank() == last_rank_of(board.to_move())
}

/// The promotion of a word's move: without a letter a queen, and none where no pawn is promoted.
#[inline]
pub(crate) fn promotion_of<B: AskedBoard>(
    board: &B,
    from: Square,
    to: Square,
    letter: Option<Kind>,
) -> Option<Kind>
    ensures { result ≡ promotion_of (B.position board.now) from to letter }
{
    if is_promotion(board, from, to) {
        Some(letter.unwrap_or(Kind::Queen))
    } else {
        None
    }
}
