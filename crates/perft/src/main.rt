//! Counts the lists of allowed half-moves that lead on from some positions. It does so by `moves`, `make` and `unmake`,
//! and prints for each position its name, the length of the lists and their number. Each word behind the program's name
//! makes the lists one half-move longer.
#![tactic(auto)]

ghost use Rattle.std.specs.Prelude.{◌≡◌};

use chess_model::Variant;
use memory::NoMemory;
use move_reader::read_word;
use std::alloc::{AllocError, Global};
use std::io::ErrorKind;
use std::{env, io};
use variant_rules::Position;

/// A position, as the words that lead to it.
struct Row {
    name: &'static str,
    variant: Variant,
    words: &'static str,
    /// The length of the lists that are counted.
    length: u8,
}

/// The position after the words, as far as they are answered.
fn position_after(v: Variant, words: &str) -> Position {
    let mut position = Position::start(v);
    for text in words.split_whitespace() {
        let Some(word) = read_word(text.as_bytes()) else {
            return position;
        };
        let Ok(m) = position.resolve(&word) else {
            return position;
        };
        position.make(m);
    }
    position
}

/// How many lists of so many allowed half-moves there are. The position is as before.
fn lists(alloc: Global, position: &mut Position, length: u8) -> Result<u64, NoMemory>
    ensures { position.new ≡ position.old }
{
    if length == 0 {
        return Ok(1);
    }
    let moves = position.moves(alloc)?;
    if length == 1 {
        return Ok(moves.len() as u64);
    }
    let mut found: u64 = 0;
    for m in &moves {
        let tried = *m;
        if position.allowed(tried) {
            let undo = position.make(*m);
            let below = lists(alloc, position, length - 1);
            position.unmake(undo);
            found = found.saturating_add(below?);
        }
    }
    Ok(found)
}

const ROWS: &[Row] = &[
    Row {
        name: "start",
        variant: Variant::Chess,
        words: "",
        length: 4,
    },
    Row {
        name: "kiwipete",
        variant: Variant::Chess,
        words: "Nf3 b5 Ng1 b4 Nf3 Ba6 Ng1 Nf6 Nf3 Nc6 Ng1 Na5 e4 Nc4 d4 Nb6 d5 g6 Nf3 Bg7 Ne5 e6 \
            Qf3 Qe7 Nc3 h5 Bd2 h4 Be2 h3",
        length: 3,
    },
    Row {
        name: "italian",
        variant: Variant::Chess,
        words: "e4 e5 Nf3 Nc6 Bc4 Bc5 d3 d6 Nc3 Nf6 O-O O-O Bg5 Bg4 a3 a6 Qe2 Qe7",
        length: 3,
    },
    Row {
        name: "crazyhouse",
        variant: Variant::Crazyhouse,
        words: "e4 e6 d4 Nf6 e5 Ne4 Nc3 Bb4 Nf3 Nc6 Bd3",
        length: 3,
    },
    // few men on open lines: en passant that bares the king along a rank
    Row {
        name: "endgame",
        variant: Variant::Chess,
        words: "d2d4 h7h6 c1h6 b8c6 h6g7 c6d4 d1d4 h8h2 g7f8 h2h1 d4a7 h1g1 a7b7 a8a2 f8e7 g1f1 \
            e1d2 f1f2 b7c8 g8e7 c8d8 e8d8 b1a3 a2a3 a1a3 e7d5 c2c3 d5c3 d2c3 f2f5 b2b4 d8e7 b4b5 \
            e7f6 c3b4 f5h5 a3d3 f6g5 b4a5 g5h4 d3d2 f7f5 d2b2 f5f4 b2b4 d7d6",
        length: 4,
    },
    // a pawn before its last rank, and a king beside an enemy knight
    Row {
        name: "promotion",
        variant: Variant::Chess,
        words: "e4 Nf6 d4 Nxe4 d5 e6 dxe6 c6 Bc4 Be7 Ne2 Nxf2 exd7 Kf8",
        length: 3,
    },
    // en passant that bares the king along a file
    Row {
        name: "passing",
        variant: Variant::Chess,
        words: "e4 d5 exd5 e5 Qe2 e4 d4",
        length: 3,
    },
    // a pawn that takes a knight and becomes what it likes
    Row {
        name: "corner",
        variant: Variant::Chess,
        words: "a4 b5 axb5 a6 bxa6 h6 a7 h5",
        length: 3,
    },
    // arrays of Fischer random; 518 is the usual one
    Row {
        name: "array_0",
        variant: Variant::Fischer(0),
        words: "",
        length: 4,
    },
    Row {
        name: "array_96",
        variant: Variant::Fischer(96),
        words: "",
        length: 4,
    },
    Row {
        name: "array_468",
        variant: Variant::Fischer(468),
        words: "",
        length: 4,
    },
    Row {
        name: "array_518",
        variant: Variant::Fischer(518),
        words: "",
        length: 4,
    },
    Row {
        name: "array_681",
        variant: Variant::Fischer(681),
        words: "",
        length: 4,
    },
    Row {
        name: "array_959",
        variant: Variant::Fischer(959),
        words: "",
        length: 4,
    },
    // both sides may castle: kings on d, b, g and d, rooks beside them and far away
    Row {
        name: "wing",
        variant: Variant::Fischer(603),
        words: "e2e4 a7a5 e4e5 a5a4 g1f3 d7d6 c1b3 b8a7 b3a5 e8c6 b1c1 c6e4 c2c3 g8f6 f3d4 c8b6 c3c4",
        length: 3,
    },
    Row {
        name: "far",
        variant: Variant::Fischer(901),
        words: "h2h3 d7d6 g1f3 c8f5 a2a4 h7h6 d2d4 f5c2 d1c2 e8b5 c1f4 b5c4 c2b3 f7f5 e1d2 c4d4",
        length: 3,
    },
    Row {
        name: "beside",
        variant: Variant::Fischer(400),
        words: "e1d3 f8e6 d1e1 f7f5 d3b4 e6f8 g2g3 g7g5 c2c3 f8g6 a2a4 e8d6 f1e3 e7e6 b1e4 d8f6 e3d5",
        length: 3,
    },
    Row {
        name: "centre",
        variant: Variant::Fischer(720),
        words: "e2e4 e8d6 e1d3 h7h5 d3b4 f8e8 f1b5 e7e6 h2h4 c7c5 g2g4 h5g4 c2c3 e6e5 g1e2 b7b6",
        length: 3,
    },
];

/// How many words stand behind the program's name.
fn words_given(rt: &HostRuntime) -> usize {
    match env::args(rt) {
        Ok(args) => args.skip(1).count(),
        Err(_) => 0,
    }
}

fn main(rt: HostRuntime) -> io::Result<()> {
    let longer = words_given(&rt).min(4) as u8;
    for row in ROWS {
        let mut position = position_after(row.variant, row.words);
        let length = row.length.saturating_add(longer);
        match lists(rt.alloc(), &mut position, length) {
            Ok(found) => println!(rt; "{} {length} {found}", row.name)?,
            Err(_) => println!(rt; "{} out of memory", row.name)?,
        }
    }
    Ok(())
}
