//! What single bytes of a move word stand for.

ghost use Rattle.std.specs.Prelude.{◌≡◌, ◌<◌, IfSome};
ghost use Rattle.move_reader.specs.Reading.{man_of, lookup, promotable, droppable, file_of_letter, rank_of_digit};

use chess_model::Kind;

/// The kind of man that a capital letter names.
pub(crate) fn man_of(letter: u8) -> Option<Kind>
    ensures { result ≡ man_of letter }
{
    match letter {
        b'K' => Some(Kind::King),
        b'Q' => Some(Kind::Queen),
        b'R' => Some(Kind::Rook),
        b'B' => Some(Kind::Bishop),
        b'N' => Some(Kind::Knight),
        b'P' => Some(Kind::Pawn),
        _ => None,
    }
}

/// The kind that a pawn becomes, by its letter of any case.
pub(crate) fn promotion_of(letter: u8) -> Option<Kind>
    ensures { result ≡ lookup promotable letter }
{
    match letter {
        b'Q' => Some(Kind::Queen),
        b'q' => Some(Kind::Queen),
        b'R' => Some(Kind::Rook),
        b'r' => Some(Kind::Rook),
        b'B' => Some(Kind::Bishop),
        b'b' => Some(Kind::Bishop),
        b'N' => Some(Kind::Knight),
        b'n' => Some(Kind::Knight),
        _ => None,
    }
}

/// The kind of a man that may be dropped, by its letter of any case.
pub(crate) fn droppable(letter: u8) -> Option<Kind>
    ensures { result ≡ lookup droppable letter }
{
    match letter {
        b'P' => Some(Kind::Pawn),
        b'p' => Some(Kind::Pawn),
        b'N' => Some(Kind::Knight),
        b'n' => Some(Kind::Knight),
        b'B' => Some(Kind::Bishop),
        b'b' => Some(Kind::Bishop),
        b'R' => Some(Kind::Rook),
        b'r' => Some(Kind::Rook),
        b'Q' => Some(Kind::Queen),
        b'q' => Some(Kind::Queen),
        _ => None,
    }
}

/// The file of a lower-case letter from `a` to `h`, counted from 0.
pub(crate) fn file_of(letter: u8) -> Option<u8>
    ensures file { result ≡ file_of_letter letter }
    ensures within { IfSome result (λ file. file < 8) }
{
    if (b'a'..=b'h').contains(&letter) {
        Some(letter - b'a')
    } else {
        None
    }
}

/// The rank of a digit from `1` to `8`, counted from 0.
pub(crate) fn rank_of(digit: u8) -> Option<u8>
    ensures rank { result ≡ rank_of_digit digit }
    ensures within { IfSome result (λ rank. rank < 8) }
{
    if (b'1'..=b'8').contains(&digit) {
        Some(digit - b'1')
    } else {
        None
    }
}
