//! The two texts of a move.

use crate::text::games::square;
use chess_model::{Kind, Move, MoveText, Shown, State};
use move_writer::{pretty, verbose};
use std::test::Fail;
use test_steps::assert_rows;

/// The verbose text, of which the tests know no more than what they read in it.
fn long_text(shown: &Shown) -> MoveText {
    verbose(shown)
}

/// The pretty text, likewise.
fn short_text(shown: &Shown) -> MoveText {
    pretty(shown)
}

/// What is done, by a kind of man and squares as they are written.
enum What {
    /// A man goes from a square to another, where a pawn may become something else.
    Goes(Kind, &'static [u8; 2], &'static [u8; 2], Option<Kind>),
    Castles(bool),
    Drops(Kind, &'static [u8; 2]),
}

use What::{Castles, Drops, Goes};

/// The marks of a half-move: a capture, the file and the rank of the origin.
struct Marks(bool, bool, bool);

const NONE: Marks = Marks(false, false, false);

const TAKES: Marks = Marks(true, false, false);

/// A half-move, its marks, what the opponent is left in, and both texts.
struct Row(What, Marks, State, &'static str, &'static str);

fn kind_of(what: &What) -> Kind {
    match what {
        Goes(kind, _, _, _) => *kind,
        Castles(_) => Kind::King,
        Drops(kind, _) => *kind,
    }
}

fn move_of(what: &What) -> Option<Move> {
    match what {
        Goes(_, from, to, promo) => Some(Move::Plain {
            from: square(from[0], from[1])?,
            to: square(to[0], to[1])?,
            promo: *promo,
        }),
        Castles(long) => Some(Move::Castle { long: *long }),
        Drops(kind, to) => Some(Move::Drop {
            kind: *kind,
            to: square(to[0], to[1])?,
        }),
    }
}

fn shown_of(row: &Row) -> Option<Shown> {
    let Marks(takes, by_file, by_rank) = row.1;
    Some(Shown {
        what: move_of(&row.0)?,
        kind: kind_of(&row.0),
        takes,
        by_file,
        by_rank,
        after: row.2,
    })
}

/// Whether both texts of a row are written.
fn is_written(row: &Row) -> bool {
    match shown_of(row) {
        Some(shown) => {
            long_text(&shown).bytes() == row.3.as_bytes()
                && short_text(&shown).bytes() == row.4.as_bytes()
        }
        None => false,
    }
}

const PAWNS: &[Row] = &[
    Row(
        Goes(Kind::Pawn, b"e2", b"e4", None),
        NONE,
        State::Safe,
        "P/e2-e4",
        "e4",
    ),
    Row(
        Goes(Kind::Pawn, b"e2", b"e4", None),
        NONE,
        State::Check,
        "P/e2-e4",
        "e4+",
    ),
    Row(
        Goes(Kind::Pawn, b"e2", b"e4", None),
        NONE,
        State::Stalemate,
        "P/e2-e4",
        "e4",
    ),
    Row(
        Goes(Kind::Pawn, b"e4", b"d5", None),
        TAKES,
        State::Safe,
        "P/e4-d5",
        "exd5",
    ),
    Row(
        Goes(Kind::Pawn, b"e7", b"e8", Some(Kind::Queen)),
        NONE,
        State::Safe,
        "P/e7-e8=Q",
        "e8=Q",
    ),
    Row(
        Goes(Kind::Pawn, b"e7", b"e8", Some(Kind::Knight)),
        NONE,
        State::Safe,
        "P/e7-e8=N",
        "e8=N",
    ),
    Row(
        Goes(Kind::Pawn, b"h2", b"g1", Some(Kind::Rook)),
        TAKES,
        State::Mate,
        "P/h2-g1=R",
        "hxg1=R#",
    ),
    Row(
        Goes(Kind::Pawn, b"h2", b"g1", Some(Kind::Bishop)),
        TAKES,
        State::Check,
        "P/h2-g1=B",
        "hxg1=B+",
    ),
    // a pawn's marks of the origin mean nothing
    Row(
        Goes(Kind::Pawn, b"e2", b"e4", None),
        Marks(false, true, true),
        State::Safe,
        "P/e2-e4",
        "e4",
    ),
];

#[test]
fn writes_pawns(rt: HostRuntime) -> Result<(), Fail> {
    assert_rows!(rt; PAWNS, |row| is_written(row));
    Ok(())
}

const PIECES: &[Row] = &[
    Row(
        Goes(Kind::Knight, b"b1", b"d2", None),
        NONE,
        State::Safe,
        "N/b1-d2",
        "Nd2",
    ),
    Row(
        Goes(Kind::Knight, b"b1", b"d2", None),
        Marks(false, true, false),
        State::Safe,
        "N/b1-d2",
        "Nbd2",
    ),
    Row(
        Goes(Kind::Knight, b"b1", b"d2", None),
        Marks(false, false, true),
        State::Safe,
        "N/b1-d2",
        "N1d2",
    ),
    Row(
        Goes(Kind::Knight, b"b1", b"d2", None),
        Marks(false, true, true),
        State::Safe,
        "N/b1-d2",
        "Nb1d2",
    ),
    Row(
        Goes(Kind::Knight, b"b1", b"d2", None),
        Marks(true, true, true),
        State::Safe,
        "N/b1-d2",
        "Nb1xd2",
    ),
    Row(
        Goes(Kind::Rook, b"a1", b"a5", None),
        Marks(true, false, true),
        State::Safe,
        "R/a1-a5",
        "R1xa5",
    ),
    Row(
        Goes(Kind::Queen, b"d8", b"h4", None),
        NONE,
        State::Mate,
        "Q/d8-h4",
        "Qh4#",
    ),
    Row(
        Goes(Kind::Queen, b"d8", b"h4", None),
        Marks(true, true, true),
        State::Check,
        "Q/d8-h4",
        "Qd8xh4+",
    ),
    Row(
        Goes(Kind::Bishop, b"f1", b"c4", None),
        NONE,
        State::Safe,
        "B/f1-c4",
        "Bc4",
    ),
    Row(
        Goes(Kind::King, b"e1", b"e2", None),
        NONE,
        State::Safe,
        "K/e1-e2",
        "Ke2",
    ),
];

#[test]
fn writes_pieces(rt: HostRuntime) -> Result<(), Fail> {
    assert_rows!(rt; PIECES, |row| is_written(row));
    Ok(())
}

const OTHERS: &[Row] = &[
    Row(Castles(false), NONE, State::Safe, "o-o", "O-O"),
    Row(Castles(true), NONE, State::Safe, "o-o-o", "O-O-O"),
    Row(Castles(false), NONE, State::Check, "o-o", "O-O+"),
    Row(Castles(true), NONE, State::Mate, "o-o-o", "O-O-O#"),
    Row(
        Drops(Kind::Pawn, b"e4"),
        NONE,
        State::Safe,
        "P/@@-e4",
        "P@e4",
    ),
    Row(
        Drops(Kind::Knight, b"f7"),
        NONE,
        State::Mate,
        "N/@@-f7",
        "N@f7#",
    ),
    Row(
        Drops(Kind::Queen, b"a8"),
        NONE,
        State::Check,
        "Q/@@-a8",
        "Q@a8+",
    ),
];

#[test]
fn writes_castlings_and_drops(rt: HostRuntime) -> Result<(), Fail> {
    assert_rows!(rt; OTHERS, |row| is_written(row));
    Ok(())
}
