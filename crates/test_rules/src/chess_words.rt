//! Words of a game as the tests write them: `e2e4`, `a7b8q`, `Nd2`, `O-O`, `P@e4`.

use chess_model::{Kind, MoveWord, Square};

fn square_of(file: u8, rank: u8) -> Option<Square> {
    if !(b'a'..=b'h').contains(&file) || !(b'1'..=b'8').contains(&rank) {
        return None;
    }
    Some(Square::on(file - b'a', rank - b'1'))
}

/// The letters of the kinds.
const KINDS: &[(u8, Kind)] = &[
    (b'P', Kind::Pawn),
    (b'N', Kind::Knight),
    (b'B', Kind::Bishop),
    (b'R', Kind::Rook),
    (b'Q', Kind::Queen),
    (b'K', Kind::King),
];

/// The kind of a letter, large or small.
fn kind_of(letter: u8) -> Option<Kind> {
    let large = letter.to_ascii_uppercase();
    for (of, kind) in KINDS {
        if large == *of {
            return Some(*kind);
        }
    }
    None
}

pub fn word_of(text: &[u8]) -> Option<MoveWord> {
    match text {
        b"O-O" => Some(MoveWord::Castle { long: false }),
        b"O-O-O" => Some(MoveWord::Castle { long: true }),
        [kind, b'@', file, rank] => Some(MoveWord::Drop {
            kind: kind_of(*kind)?,
            to: square_of(*file, *rank)?,
        }),
        [kind, file, rank] => Some(MoveWord::Named {
            kind: kind_of(*kind)?,
            file: None,
            rank: None,
            to: square_of(*file, *rank)?,
            promo: None,
        }),
        [a, b, c, d] => Some(MoveWord::Coordinate {
            from: square_of(*a, *b)?,
            to: square_of(*c, *d)?,
            promo: None,
        }),
        [a, b, c, d, letter] => Some(MoveWord::Coordinate {
            from: square_of(*a, *b)?,
            to: square_of(*c, *d)?,
            promo: Some(kind_of(*letter)?),
        }),
        _ => None,
    }
}
