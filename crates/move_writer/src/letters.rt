//! The letters of men and the names of squares.
ghost use Rattle.std.specs.Prelude.{◌≡◌};
ghost use Rattle.move_writer.specs.Letters.{letter_of, file_letter, rank_digit};
ghost use Rattle.move_writer.specs.Blanks.{Shows};

use chess_model::{Kind, Square};

/// The letter of a kind of man, `P`, `N`, `B`, `R`, `Q` or `K` (FIDE Laws, appendix C.2; the pawn's by FICS style 12).
pub fn letter(kind: Kind) -> u8
    ensures letter { result ≡ letter_of kind }
    ensures shows { Shows result }
{
    match kind {
        Kind::Pawn => b'P',
        Kind::Knight => b'N',
        Kind::Bishop => b'B',
        Kind::Rook => b'R',
        Kind::Queen => b'Q',
        Kind::King => b'K',
    }
}

/// The letter of a square's file, `a` to `h`.
pub(crate) fn file_of(square: Square) -> u8
    ensures letter { result ≡ file_letter square }
    ensures shows { Shows result }
{
    b'a' + square.number() % 8
}

/// The digit of a square's rank, `1` to `8`.
pub(crate) fn rank_of(square: Square) -> u8
    ensures digit { result ≡ rank_digit square }
    ensures shows { Shows result }
{
    b'1' + square.number() / 8
}
