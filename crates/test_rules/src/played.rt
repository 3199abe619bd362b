//! Games played word by word: which words are accepted, and why the next one isn't.

use crate::chess_words::word_of;
use chess_model::{Colour, Kind, Man, Rejection, Square, Variant};
use rules_plain::PlainBoard;
use std::test::Fail;

/// The board after the words, and how the first word that has no move is refused.
fn played(v: Variant, words: &str) -> Option<(PlainBoard, u32, Option<Rejection>)> {
    let mut board = PlainBoard::start(v);
    let mut accepted: u32 = 0;
    for text in words.split_whitespace() {
        let word = word_of(text.as_bytes())?;
        match board.answer(&word) {
            Ok(m) => board = board.after(m),
            Err(why) => return Some((board, accepted, Some(why))),
        }
        accepted = accepted.saturating_add(1);
    }
    Some((board, accepted, None))
}

/// A game's variant and words, how many of them are played, and why the next one is refused.
struct Row(Variant, &'static str, u32, Option<Rejection>);

const CHESS: Variant = Variant::Chess;

const HOUSE: Variant = Variant::Crazyhouse;

const FORBIDDEN: Option<Rejection> = Some(Rejection::CastleForbidden);

const ROWS: &[Row] = &[
    Row(CHESS, "e2e4", 1, None),
    Row(CHESS, "e2e5", 0, Some(Rejection::CannotReach)),
    Row(CHESS, "e3e4", 0, Some(Rejection::NoPiece)),
    Row(CHESS, "e7e5", 0, Some(Rejection::NoPiece)),
    Row(CHESS, "P@e4", 0, Some(Rejection::NoDrops)),
    // the knight on c3 is pinned by the bishop on b4
    Row(
        CHESS,
        "e2e4 e7e5 b1c3 f8b4 d2d3 a7a6 c3d5",
        6,
        Some(Rejection::LeavesKing),
    ),
    // en passant at once, and not a move later
    Row(CHESS, "e2e4 a7a6 e4e5 d7d5 e5d6 e7d6", 6, None),
    Row(
        CHESS,
        "e2e4 a7a6 e4e5 d7d5 a2a3 h7h6 e5d6",
        6,
        Some(Rejection::CannotReach),
    ),
    // en passant would open the fifth rank between the king on a5 and the rook on h5
    Row(
        CHESS,
        "e2e4 h7h5 e4e5 h5h4 e1e2 h8h5 e2d3 g7g6 d3c4 f8g7 c4b5 g7f8 b5a5 d7d5 e5d6",
        14,
        Some(Rejection::LeavesKing),
    ),
    // castling, said as the king's move and as a word
    Row(CHESS, "g1f3 g8f6 g2g3 g7g6 f1g2 f8g7 O-O O-O", 8, None),
    Row(CHESS, "g1f3 g8f6 g2g3 g7g6 f1g2 f8g7 e1g1 e8g8", 8, None),
    Row(
        CHESS,
        "d2d4 d7d5 b1c3 b8c6 c1f4 c8f5 d1d2 d8d7 O-O-O e8c8",
        10,
        None,
    ),
    // over a man, out of check, through an attacked square and into check
    Row(CHESS, "O-O", 0, FORBIDDEN),
    Row(CHESS, "e2e4 e7e5 g1f3 f8b4 f1e2 b4d2 e1g1", 6, FORBIDDEN),
    Row(
        CHESS,
        "e2e4 b7b6 g2g3 c8a6 f1g2 e7e6 g1f3 h7h6 O-O",
        8,
        FORBIDDEN,
    ),
    Row(CHESS, "e2e4 b7b6 g1f3 c8a6 f1a6 b8a6 O-O", 7, None),
    Row(
        CHESS,
        "f2f4 e7e5 g1f3 f8c5 g2g3 a7a6 f1g2 b7b6 O-O",
        8,
        FORBIDDEN,
    ),
    // the rook came back
    Row(
        CHESS,
        "g1f3 g8f6 g2g3 g7g6 f1g2 f8g7 h1g1 a7a6 g1h1 a6a5 O-O",
        10,
        FORBIDDEN,
    ),
    // Fischer random: king and rook exchange at once; the king stands on g already; a rook on f is in the way of the
    // other one; castling would unmask the queen on a1
    Row(Variant::Fischer(468), "O-O", 1, None),
    Row(Variant::Fischer(96), "f1g3 a7a6 O-O", 3, None),
    Row(Variant::Fischer(0), "O-O", 0, FORBIDDEN),
    Row(
        Variant::Fischer(681),
        "a2a4 b7b5 a4b5 a7a6 b5a6 a8a6 c2c3 h7h6 d1c2 g7g6 O-O-O",
        11,
        None,
    ),
    Row(
        Variant::Fischer(681),
        "a2a4 b7b5 a4b5 a7a6 b5a6 a8a6 c2c3 h7h6 d1c2 a6a1 O-O-O",
        10,
        FORBIDDEN,
    ),
    // two squares stand for castling where the king's home is on file e, and for a step of the king elsewhere
    Row(
        Variant::Fischer(518),
        "g1f3 g8f6 g2g3 g7g6 f1g2 f8g7 e1g1",
        7,
        None,
    ),
    Row(
        Variant::Fischer(468),
        "f1g1",
        0,
        Some(Rejection::CannotReach),
    ),
    // two knights reach d2
    Row(
        CHESS,
        "d2d4 d7d5 g1f3 g8f6 Nd2",
        4,
        Some(Rejection::Ambiguous),
    ),
    Row(CHESS, "Nf3 Nf6 Ng1", 3, None),
    Row(CHESS, "Bd5", 0, Some(Rejection::CannotReach)),
    // a pawn becomes what the letter says, but no king and no pawn
    Row(
        CHESS,
        "a2a4 b7b5 a4b5 a7a6 b5a6 h7h6 a6a7 h6h5 a7b8k",
        8,
        Some(Rejection::CannotReach),
    ),
    Row(
        CHESS,
        "a2a4 b7b5 a4b5 a7a6 b5a6 h7h6 a6a7 h6h5 a7b8p",
        8,
        Some(Rejection::CannotReach),
    ),
    // drops
    Row(
        HOUSE,
        "e2e4 d7d5 e4d5 b8c6 P@b8",
        4,
        Some(Rejection::EndRank),
    ),
    Row(
        HOUSE,
        "e2e4 d7d5 e4d5 b8c6 g1f3 a7a6 P@g1",
        6,
        Some(Rejection::EndRank),
    ),
    Row(
        HOUSE,
        "e2e4 d7d5 e4d5 b8c6 N@e4",
        4,
        Some(Rejection::NotInHand),
    ),
    Row(
        HOUSE,
        "e2e4 d7d5 e4d5 b8c6 P@d5",
        4,
        Some(Rejection::Occupied),
    ),
    Row(
        HOUSE,
        "e2e4 d7d5 e4d5 b8c6 P@e4 a7a6 P@e5",
        6,
        Some(Rejection::NotInHand),
    ),
];

/// Whether so many words of a row are played, and the next one is refused as the row says.
fn is_answered(row: &Row) -> bool {
    match played(row.0, row.1) {
        Some((_, accepted, refused)) => accepted == row.2 && refused == row.3,
        None => false,
    }
}

#[test]
fn words_are_answered(rt: HostRuntime) -> Result<(), Fail> {
    for row in ROWS {
        assert!(rt; is_answered(row), "{}", row.1);
    }
    Ok(())
}

/// The row of the record: White's a-pawn goes to b8 and becomes a queen, which Black takes.
const PROMOTED: &str = "a2a4 b7b5 a4b5 a7a6 b5a6 h7h6 a6a7 h6h5 a7b8q";

/// What White's pawn becomes on b8.
const BECOMES: &[(&str, Kind)] = &[
    ("a2a4 b7b5 a4b5 a7a6 b5a6 h7h6 a6a7 h6h5 a7b8", Kind::Queen),
    ("a2a4 b7b5 a4b5 a7a6 b5a6 h7h6 a6a7 h6h5 a7b8q", Kind::Queen),
    ("a2a4 b7b5 a4b5 a7a6 b5a6 h7h6 a6a7 h6h5 a7b8r", Kind::Rook),
    (
        "a2a4 b7b5 a4b5 a7a6 b5a6 h7h6 a6a7 h6h5 a7b8b",
        Kind::Bishop,
    ),
    (
        "a2a4 b7b5 a4b5 a7a6 b5a6 h7h6 a6a7 h6h5 a7b8n",
        Kind::Knight,
    ),
];

/// The man on b8 after nine words of chess, if all are played.
fn man_on_b8(words: &str) -> Option<Man> {
    let (board, accepted, _) = played(Variant::Chess, words)?;
    if accepted != 9 {
        return None;
    }
    board.man(Square::of(57)?)
}

#[test]
fn a_pawn_becomes_what_is_named(rt: HostRuntime) -> Result<(), Fail> {
    for (words, kind) in BECOMES {
        let man = Man {
            colour: Colour::White,
            kind: *kind,
            promoted: true,
        };
        assert!(rt; man_on_b8(words) == Some(man), "{words}");
    }
    Ok(())
}

/// How many men of these kinds a colour has in hand.
fn in_hand(board: &PlainBoard, colour: Colour, kind: Kind) -> u8 {
    board.hand(colour).count(kind)
}

/// The board after one more word.
fn after(board: &PlainBoard, text: &[u8]) -> Option<PlainBoard> {
    let word = word_of(text)?;
    match board.answer(&word) {
        Ok(m) => Some(board.after(m)),
        Err(_) => None,
    }
}

#[test]
fn a_promoted_man_comes_as_a_pawn(rt: HostRuntime) -> Result<(), Fail> {
    let (board, _, _) = played(Variant::Crazyhouse, PROMOTED).ok_or("words")?;
    assert!(rt; in_hand(&board, Colour::White, Kind::Pawn) == 2);
    assert!(rt; in_hand(&board, Colour::White, Kind::Knight) == 1);
    assert!(rt; in_hand(&board, Colour::Black, Kind::Pawn) == 0);
    let next = after(&board, b"a8b8").ok_or("a8b8")?;
    assert!(rt; in_hand(&next, Colour::Black, Kind::Pawn) == 1);
    assert!(rt; in_hand(&next, Colour::Black, Kind::Queen) == 0);
    Ok(())
}
