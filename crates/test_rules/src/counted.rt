//! How many lists of allowed moves there are from the start, against counts that are known from outside
//! (Chess Programming Wiki, `Perft Results`): by the plain board, and by a position whose moves are listed, made and
//! taken back.

ghost use Rattle.std.specs.Prelude.{◌≡◌};

use chess_model::{Move, Square, Variant};
use memory::NoMemory;
use rules_plain::PlainBoard;
use std::alloc::Global;
use std::test::Fail;
use variant_rules::Position;

/// The board after the plain move between two squares, where it is allowed.
fn moved(board: &PlainBoard, a: u8, b: u8) -> Option<PlainBoard> {
    let m = Move::Plain {
        from: Square::of(a)?,
        to: Square::of(b)?,
        promo: None,
    };
    let tried = m;
    if board.allowed(m) {
        Some(board.after(tried))
    } else {
        None
    }
}

fn lists_of_one(board: &PlainBoard) -> u32 {
    let mut found: u32 = 0;
    for a in 0..64 {
        for b in 0..64 {
            if moved(board, a, b).is_some() {
                found = found.saturating_add(1);
            }
        }
    }
    found
}

fn lists_of_two(board: &PlainBoard) -> u32 {
    let mut found: u32 = 0;
    for a in 0..64 {
        for b in 0..64 {
            if let Some(next) = moved(board, a, b) {
                found = found.saturating_add(lists_of_one(&next));
            }
        }
    }
    found
}

fn lists_of_three(board: &PlainBoard) -> u32 {
    let mut found: u32 = 0;
    for a in 0..64 {
        for b in 0..64 {
            if let Some(next) = moved(board, a, b) {
                found = found.saturating_add(lists_of_two(&next));
            }
        }
    }
    found
}

/// How many lists of so many allowed half-moves there are.
fn lists_by_moves(alloc: Global, position: &mut Position, length: u8) -> Result<usize, NoMemory>
    ensures { position.new ≡ position.old }
{
    if length == 0 {
        return Ok(1);
    }
    let moves = position.moves(alloc)?;
    let mut found: usize = 0;
    for m in &moves {
        let tried = *m;
        if position.allowed(tried) {
            let undo = position.make(*m);
            let below = lists_by_moves(alloc, position, length - 1);
            position.unmake(undo);
            found = found.saturating_add(below?);
        }
    }
    Ok(found)
}

#[test]
fn lists_by_moves_that_are_made_and_taken_back(rt: HostRuntime) -> Result<(), Fail> {
    let mut position = Position::start(Variant::Chess);
    assert_eq!(rt; lists_by_moves(rt.alloc(), &mut position, 1)?, 20);
    assert_eq!(rt; lists_by_moves(rt.alloc(), &mut position, 2)?, 400);
    assert_eq!(rt; lists_by_moves(rt.alloc(), &mut position, 3)?, 8902);
    Ok(())
}

#[test]
fn lists_from_the_start(rt: HostRuntime) {
    let start = PlainBoard::start(Variant::Chess);
    assert_eq!(rt; lists_of_one(&start), 20);
    assert_eq!(rt; lists_of_two(&start), 400);
    assert_eq!(rt; lists_of_three(&start), 8902);
}
