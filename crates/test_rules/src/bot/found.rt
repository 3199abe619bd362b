//! Positions, and the move and the value that the bot has to find, with values by hand: mates that everybody knows, the
//! shortest known stalemate (S. Loyd), and material that is counted on the fingers.

use chess_model::{Move, Variant};
use house_bot::best;
use memory::NoMemory;
use move_reader::read_word;
use std::alloc::Global;
use std::test::Fail;
use test_steps::assert_rows;
use variant_rules::Position;

/// A position, as the words that lead to it, and what is to be found there.
struct Row {
    variant: Variant,
    words: &'static str,
    depth: u8,
    /// The move's word; empty where there is none.
    found: &'static str,
    value: i32,
}

const FOOLS: &str = "f3 e5 g4";

const FOOLED: &str = "f3 e5 g4 Qh4";

const SCHOLARS: &str = "e4 e5 Bc4 Nc6 Qh5 Nf6";

const LEGALS: &str = "e4 e5 Bc4 d6 Nf3 Bg4 Nc3 g6 Nxe5 Bxd1";

const LOYDS: &str = "e3 a5 Qh5 Ra6 Qxa5 h5 h4 Rah6 Qxc7 f6 Qxd7 Kf7 Qxb7 Qd3 Qxb8 Qh7 Qxc8 Kg6 Qe6";

const TAKEN: &str = "e4 d5 exd5";

// a mate along h4 to e1, unless White can drop a pawn in between
const LONG_LINE: &str = "c4 d5 cxd5 e5 f3 a6 g4";

const ROWS: &[Row] = &[
    // the first of many that are worth the same, and no move where nothing is looked ahead
    Row {
        variant: Variant::Chess,
        words: "",
        depth: 1,
        found: "b1a3",
        value: 0,
    },
    Row {
        variant: Variant::Chess,
        words: "",
        depth: 0,
        found: "",
        value: 0,
    },
    Row {
        variant: Variant::Crazyhouse,
        words: "",
        depth: 0,
        found: "",
        value: 0,
    },
    // mate in one, seen from nearer and from farther, and the mate itself
    Row {
        variant: Variant::Chess,
        words: FOOLS,
        depth: 1,
        found: "d8h4",
        value: 100_000,
    },
    Row {
        variant: Variant::Chess,
        words: FOOLS,
        depth: 2,
        found: "d8h4",
        value: 100_001,
    },
    Row {
        variant: Variant::Chess,
        words: FOOLED,
        depth: 0,
        found: "",
        value: -100_000,
    },
    Row {
        variant: Variant::Chess,
        words: FOOLED,
        depth: 3,
        found: "",
        value: -100_003,
    },
    Row {
        variant: Variant::Chess,
        words: SCHOLARS,
        depth: 1,
        found: "h5f7",
        value: 100_000,
    },
    Row {
        variant: Variant::Chess,
        words: SCHOLARS,
        depth: 3,
        found: "h5f7",
        value: 100_002,
    },
    // a queen is down, and a bishop to be had; or mate in two
    Row {
        variant: Variant::Chess,
        words: LEGALS,
        depth: 1,
        found: "e1d1",
        value: -5,
    },
    Row {
        variant: Variant::Chess,
        words: LEGALS,
        depth: 3,
        found: "c4f7",
        value: 100_000,
    },
    // stalemate is worth nothing, whatever was taken
    Row {
        variant: Variant::Chess,
        words: LOYDS,
        depth: 0,
        found: "",
        value: 0,
    },
    Row {
        variant: Variant::Chess,
        words: LOYDS,
        depth: 2,
        found: "",
        value: 0,
    },
    // a pawn that takes a knight becomes a queen
    Row {
        variant: Variant::Chess,
        words: "a4 b5 axb5 a6 bxa6 h6 a7 h5",
        depth: 1,
        found: "axb8=Q",
        value: 13,
    },
    // what was taken is in hand, and counts in crazyhouse alone
    Row {
        variant: Variant::Chess,
        words: TAKEN,
        depth: 0,
        found: "",
        value: -1,
    },
    Row {
        variant: Variant::Crazyhouse,
        words: TAKEN,
        depth: 0,
        found: "",
        value: -2,
    },
    Row {
        variant: Variant::Chess,
        words: TAKEN,
        depth: 1,
        found: "d8d5",
        value: 0,
    },
    Row {
        variant: Variant::Crazyhouse,
        words: TAKEN,
        depth: 1,
        found: "d8d5",
        value: 0,
    },
    Row {
        variant: Variant::Chess,
        words: TAKEN,
        depth: 2,
        found: "d8d5",
        value: 0,
    },
    Row {
        variant: Variant::Chess,
        words: LONG_LINE,
        depth: 1,
        found: "d8h4",
        value: 100_000,
    },
    Row {
        variant: Variant::Crazyhouse,
        words: LONG_LINE,
        depth: 1,
        found: "c8g4",
        value: 0,
    },
];

/// The position after the words, where each is answered.
fn position_after(variant: Variant, words: &str) -> Option<Position> {
    let mut position = Position::start(variant);
    for text in words.split_whitespace() {
        let Some(word) = read_word(text.as_bytes()) else {
            return None;
        };
        let Ok(m) = position.resolve(&word) else {
            return None;
        };
        position.make(m);
    }
    Some(position)
}

/// What the bot finds; nothing in bughouse, where it isn't asked.
fn looked(
    alloc: Global,
    position: &mut Position,
    depth: u8,
) -> Result<Option<(i32, Option<Move>)>, NoMemory> {
    match position.variant() {
        Variant::Bughouse => Ok(None),
        _ => Ok(Some(best(alloc, position, depth)?)),
    }
}

/// Whether that is the move that the word stands for, or none for an empty one.
fn is_that(position: &Position, found: Option<Move>, text: &str) -> bool {
    let Some(m) = found else {
        return text.is_empty();
    };
    match read_word(text.as_bytes()) {
        Some(word) => position.resolve(&word) == Ok(m),
        None => false,
    }
}

/// Whether the bot finds what it has to, and leaves the position as it was.
fn holds(alloc: Global, row: &Row) -> Result<bool, NoMemory> {
    let Some(mut position) = position_after(row.variant, row.words) else {
        return Ok(false);
    };
    match looked(alloc, &mut position, row.depth)? {
        Some((value, found)) => Ok(value == row.value && is_that(&position, found, row.found)),
        None => Ok(false),
    }
}

#[test]
fn moves_and_values(rt: HostRuntime) -> Result<(), Fail> {
    assert_rows!(rt; ROWS, |row| holds(rt.alloc(), row)?);
    Ok(())
}
