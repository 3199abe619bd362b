//! Spellings of move words, good and bad.

use chess_model::{Kind, MoveWord, Square};
use move_reader::read_word;
use std::process::Abort;
use std::test::Fail;

/// A move of two squares, by their numbers.
fn squares(from: u8, to: u8, promo: Option<Kind>) -> Option<MoveWord> {
    let (Some(from), Some(to)) = (Square::of(from), Square::of(to)) else {
        return None;
    };
    Some(MoveWord::Coordinate { from, to, promo })
}

/// A move in algebraic notation.
fn named(kind: Kind, file: Option<u8>, rank: Option<u8>, to: u8) -> Option<MoveWord> {
    let Some(to) = Square::of(to) else {
        return None;
    };
    Some(MoveWord::Named {
        kind,
        file,
        rank,
        to,
        promo: None,
    })
}

/// A pawn that becomes another man.
fn promoted(file: Option<u8>, to: u8, promo: Kind) -> Option<MoveWord> {
    let Some(to) = Square::of(to) else {
        return None;
    };
    Some(MoveWord::Named {
        kind: Kind::Pawn,
        file,
        rank: None,
        to,
        promo: Some(promo),
    })
}

/// A drop.
fn dropped(kind: Kind, to: u8) -> Option<MoveWord> {
    let Some(to) = Square::of(to) else {
        return None;
    };
    Some(MoveWord::Drop { kind, to })
}

/// A word as the tables have it: squares, files and ranks by their numbers.
enum Word {
    Squares(u8, u8, Option<Kind>),
    /// A kind, the file and the rank that are said of where it stands, and the square that it goes to.
    Named(Kind, Option<u8>, Option<u8>, u8),
    /// The file that a pawn comes from, if it is said, the square, and what it becomes.
    Promoted(Option<u8>, u8, Kind),
    Castle(bool),
    Dropped(Kind, u8),
}

use Word::{Castle, Dropped, Named, Promoted, Squares};

fn word_of(word: &Word) -> Option<MoveWord> {
    match word {
        Squares(from, to, promo) => squares(*from, *to, *promo),
        Named(kind, file, rank, to) => named(*kind, *file, *rank, *to),
        Promoted(file, to, promo) => promoted(*file, *to, *promo),
        Castle(long) => Some(MoveWord::Castle { long: *long }),
        Dropped(kind, to) => dropped(*kind, *to),
    }
}

/// What a spelling is read as. It ensures nothing, so that nothing above it is proved over what it is read as.
fn read(text: &[u8]) -> Option<MoveWord> {
    read_word(text)
}

/// The place of the first spelling of a table that isn't read as its word, if one isn't.
fn first_misread(table: &[(&[u8], Word)]) -> Option<usize> {
    for (place, (text, word)) in table.iter().enumerate() {
        let expected = word_of(word);
        if expected.is_none() || read(text) != expected {
            return Some(place);
        }
    }
    None
}

const TWO_SQUARES: &[(&[u8], Word)] = &[
    (b"e2e4", Squares(12, 28, None)),
    (b"e2-e4", Squares(12, 28, None)),
    (b"a1h8", Squares(0, 63, None)),
    (b"e7e8q", Squares(52, 60, Some(Kind::Queen))),
    (b"e7e8=Q", Squares(52, 60, Some(Kind::Queen))),
    (b"e7-e8N", Squares(52, 60, Some(Kind::Knight))),
    (b"b7-a8=b", Squares(49, 56, Some(Kind::Bishop))),
    (b"e8b1", Squares(60, 1, None)),
];

const ALGEBRAIC: &[(&[u8], Word)] = &[
    (b"e4", Named(Kind::Pawn, None, None, 28)),
    (b"Pe4", Named(Kind::Pawn, None, None, 28)),
    (b"exd5", Named(Kind::Pawn, Some(4), None, 35)),
    (b"ed5+", Named(Kind::Pawn, Some(4), None, 35)),
    (b"bxc3", Named(Kind::Pawn, Some(1), None, 18)),
    (b"Bxc3", Named(Kind::Bishop, None, None, 18)),
    (b"Nbd2", Named(Kind::Knight, Some(1), None, 11)),
    (b"R1a3", Named(Kind::Rook, None, Some(0), 16)),
    (b"Qh4xe1#", Named(Kind::Queen, Some(7), Some(3), 4)),
    (b"Kg1", Named(Kind::King, None, None, 6)),
    (b"e2e4+", Named(Kind::Pawn, Some(4), Some(1), 28)),
    (b"e2xe4", Named(Kind::Pawn, Some(4), Some(1), 28)),
];

const OTHERS: &[(&[u8], Word)] = &[
    (b"e8=Q", Promoted(None, 60, Kind::Queen)),
    (b"e8b", Promoted(None, 60, Kind::Bishop)),
    (b"dxe8r#", Promoted(Some(3), 60, Kind::Rook)),
    (b"O-O", Castle(false)),
    (b"o-o+", Castle(false)),
    (b"0-0#", Castle(false)),
    (b"O-O-O", Castle(true)),
    (b"o-o-o", Castle(true)),
    (b"0-0-0+", Castle(true)),
    (b"P@e4", Dropped(Kind::Pawn, 28)),
    (b"n@f7#", Dropped(Kind::Knight, 53)),
    (b"b@a1", Dropped(Kind::Bishop, 0)),
    (b"q@h8+", Dropped(Kind::Queen, 63)),
];

/// The tables of spellings, each with a name.
const TABLES: &[(&str, &[(&[u8], Word)])] = &[
    ("reads_two_squares", TWO_SQUARES),
    ("reads_algebraic_notation", ALGEBRAIC),
    ("reads_promotions_castling_and_drops", OTHERS),
];

/// Looks at each table, whether its rows are as they have to be.
fn each_table(rt: &impl Abort) -> Result<(), Fail> {
    for (name, table) in TABLES {
        assert_eq!(rt; first_misread(table), None, "{name}");
    }
    Ok(())
}

#[test]
fn reads_spellings(rt: HostRuntime) -> Result<(), Fail> {
    each_table(&rt)
}

const NO_SPELLINGS: &[&[u8]] = &[
    b"", b"e", b"4", b"e9", b"i4", b"e2e4 ", b" e2e4", b"E2E4", b"e2--e4", b"e2 e4", b"e7e8k",
    b"e7e8p", b"e7e8==q", b"e7-e8=", b"e4++", b"e4=", b"xe", b"nf3", b"nf3+", b"kxe4", b"O-0",
    b"o-O", b"O-O-", b"O-O-O-O", b"OO", b"O-O++", b"K@e4", b"k@e4", b"P@", b"P@e9", b"P@e4=Q",
    b"resign",
];

#[test]
fn refuses_what_is_no_spelling(rt: HostRuntime) -> Result<(), Fail> {
    for text in NO_SPELLINGS {
        assert!(rt; read(text).is_none());
    }
    Ok(())
}
