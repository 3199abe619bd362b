//! Looks for the best move in positions where it is known. It prints for each its name, how far it looks ahead and the
//! value. With a word behind the program's name it looks in harder positions too, and in each once more by the plain
//! search, which has no bounds, so that the two can be compared in one run.
#![tactic(auto)]

ghost use Rattle.std.specs.Prelude.{◌≡◌, ◌≢◌};

use chess_model::Variant;
use house_bot::best;
use memory::NoMemory;
use move_reader::read_word;
use std::alloc::{AllocError, Global};
use std::io::ErrorKind;
use std::{env, io};
use variant_rules::Position;

/// A position, as the words that lead to it.
#[derive(Drop)]
struct Row {
    name: &'static str,
    variant: Variant,
    words: &'static str,
    /// How many half-moves are looked ahead.
    depth: u8,
}

/// The position after the words, as far as they are answered.
fn position_after(v: Variant, words: &str) -> Position {
    let mut position = Position::start(v);
    for text in words.split_whitespace() {
        let Some(word) = read_word(text.as_bytes()) else {
            return position;
        };
        let Ok(m) = position.resolve(&word) else {
            return position;
        };
        position.make(m);
    }
    position
}

/// The value by the plain search: every list of half-moves is looked at.
fn plain(alloc: Global, position: &mut Position, depth: u8) -> Result<i32, NoMemory>
    requires { position.old.variant ≢ Variant.Bughouse }
    ensures { position.new ≡ position.old }
{
    if depth == 0 {
        return standing(alloc, position, 0);
    }
    let moves = position.moves(alloc)?;
    if moves.is_empty() {
        return standing(alloc, position, depth);
    }
    let mut most = -200_000;
    for m in &moves {
        let tried = *m;
        if position.allowed(tried) {
            let undo = position.make(*m);
            let below = plain(alloc, position, depth - 1);
            position.unmake(undo);
            most = most.max(below?.wrapping_neg());
        }
    }
    Ok(most)
}

/// The value where no move is made.
fn standing(alloc: Global, position: &mut Position, depth: u8) -> Result<i32, NoMemory>
    requires { position.old.variant ≢ Variant.Bughouse }
    ensures { position.new ≡ position.old }
{
    let (value, _none) = best(alloc, position, depth)?;
    Ok(value)
}

/// The value of a row's position, by bounds or plainly; none in bughouse, where the bot isn't asked.
fn looked(alloc: Global, row: &Row, plainly: bool) -> Result<Option<i32>, NoMemory> {
    let mut position = position_after(row.variant, row.words);
    match position.variant() {
        Variant::Bughouse => Ok(None),
        _ => {
            if plainly {
                return Ok(Some(plain(alloc, &mut position, row.depth)?));
            }
            let (value, _found) = best(alloc, &mut position, row.depth)?;
            Ok(Some(value))
        }
    }
}

/// Mates whose values are known: 100,000 and the half-moves that are left behind them.
fn known() -> [Row; 3] {
    [
        Row {
            name: "fool",
            variant: Variant::Chess,
            words: "f3 e5 g4",
            depth: 3,
        },
        Row {
            name: "scholar",
            variant: Variant::Chess,
            words: "e4 e5 Bc4 Nc6 Qh5 Nf6",
            depth: 3,
        },
        Row {
            name: "legal",
            variant: Variant::Chess,
            words: "e4 e5 Bc4 d6 Nf3 Bg4 Nc3 g6 Nxe5 Bxd1",
            depth: 3,
        },
    ]
}

/// The start, crowded middle games, and crazyhouse with a man of each kind in both hands.
fn harder() -> [Row; 5] {
    [
        Row {
            name: "start",
            variant: Variant::Chess,
            words: "",
            depth: 4,
        },
        Row {
            name: "kiwipete",
            variant: Variant::Chess,
            words: "Nf3 b5 Ng1 b4 Nf3 Ba6 Ng1 Nf6 Nf3 Nc6 Ng1 Na5 e4 Nc4 d4 Nb6 d5 g6 Nf3 Bg7 Ne5 e6 \
                Qf3 Qe7 Nc3 h5 Bd2 h4 Be2 h3",
            depth: 4,
        },
        Row {
            name: "italian",
            variant: Variant::Chess,
            words: "e4 e5 Nf3 Nc6 Bc4 Bc5 d3 d6 Nc3 Nf6 O-O O-O Bg5 Bg4 a3 a6 Qe2 Qe7",
            depth: 4,
        },
        Row {
            name: "exchanges",
            variant: Variant::Crazyhouse,
            words: "e4 e6 d4 Nf6 e5 Ne4 Nc3 Bb4 Nf3 Nc6 Bd3",
            depth: 3,
        },
        Row {
            name: "full_hands",
            variant: Variant::Crazyhouse,
            words: "b1a3 g8h6 d2d3 e7e6 c1h6 f8a3 h6g7 a3b2 g2g4 b2g7 h2h3 g7a1 d1a1 b8c6 a1h8 e8e7 \
                h8d8 e7d8",
            depth: 3,
        },
    ]
}

/// How many words stand behind the program's name.
fn words_given(rt: &HostRuntime) -> usize {
    match env::args(rt) {
        Ok(args) => args.skip(1).count(),
        Err(_) => 0,
    }
}

/// Prints the value of a row's position after a word for the way in which it was looked for.
fn print_row(rt: &HostRuntime, way: &str, row: &Row, plainly: bool) -> io::Result<()> {
    match looked(rt.alloc(), row, plainly) {
        Ok(Some(value)) => println!(rt; "{way} {} {} {value}", row.name, row.depth)?,
        Ok(None) => println!(rt; "{way} {} not looked for", row.name)?,
        Err(_) => println!(rt; "{way} {} out of memory", row.name)?,
    }
    Ok(())
}

fn main(rt: HostRuntime) -> io::Result<()> {
    for row in &known() {
        print_row(&rt, "best", row, false)?;
    }
    if words_given(&rt) == 0 {
        return Ok(());
    }
    for row in &harder() {
        print_row(&rt, "best", row, false)?;
    }
    for row in &harder() {
        print_row(&rt, "plain", row, true)?;
    }
    Ok(())
}
