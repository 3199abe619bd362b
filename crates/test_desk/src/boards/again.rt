//! What boards have on which a game was played again.

use crate::boards::games::{Game, game_of};
use chess_model::Colour;
use chess_model::Variant::{Bughouse, Chess};
use clock_ledger::Moment;
use desk_boards::Boards;
use game_board::GameBoard;
use game_records::PackedHalf;
use memory::NoMemory;
use std::alloc::Global;
use std::process::Abort;
use std::test::Fail;
use test_steps::assert_rows;
use test_steps::games::{Halves, half_of};

/// When the games are resumed, in milliseconds.
const RESUMED: u64 = 500_000;

/// What a board has: its half-moves, and the milliseconds on the clocks of White and of Black.
#[derive(Clone, Copy)]
struct Kept(usize, i64, i64);

/// A game, and what its boards have, the second one where there is one.
const ROWS: &[(Game, Kept, Option<Kept>)] = &[
    (Game(2, Chess, &[]), Kept(0, 120_000, 120_000), None),
    // a second was taken from White twice, and from Black once
    (
        Game(2, Chess, &["1e2e4", "1e7e5", "1g1f3+", "1b8c6+", "1f1b5+"]),
        Kept(5, 118_000, 119_000),
        None,
    ),
    (
        Game(
            2,
            Bughouse,
            &[
                "2d2d4", "1e2e4", "1e7e5", "2d7d5", "1g1f3+", "2c2c4+", "2d5c4+",
            ],
        ),
        Kept(3, 119_000, 120_000),
        Some(Kept(4, 119_000, 119_000)),
    ),
];

/// Whether a board has this, and came with it.
fn has(board: &GameBoard, expected: Kept) -> bool {
    board.list().len() == expected.0
        && usize::from(board.resumed()) == expected.0
        && usize::from(board.played()) == expected.0
        && board.ledger(Colour::White).remaining() == expected.1
        && board.ledger(Colour::Black).remaining() == expected.2
        && board.begin().millis() == RESUMED
}

/// Whether the boards in both places have this.
fn have(boards: &Boards, first: Kept, second: Option<Kept>) -> bool {
    let (one, two) = boards.both();
    if !has(one, first) {
        return false;
    }
    match (two, second) {
        (None, None) => true,
        (Some(board), Some(expected)) => has(board, expected),
        _ => false,
    }
}

/// Whether the half-moves are those of the words.
fn are(halves: &[PackedHalf], words: Halves) -> bool {
    if halves.len() != words.len() {
        return false;
    }
    for (half, word) in halves.iter().zip(words) {
        let it = half.unpacked();
        let expected = half_of(word);
        if it.board != expected.board || it.what != expected.what || it.charge != expected.charge {
            return false;
        }
    }
    true
}

/// Whether the boards give the half-moves of the words back, with their charges.
fn give(alloc: Global, boards: &Boards, words: Halves) -> Result<bool, NoMemory> {
    let halves = boards.halves(alloc)?;
    Ok(are(halves.as_slice(), words))
}

/// Whether a row's boards are as they should be.
fn is_resumed(
    alloc: Global,
    game: Game,
    first: Kept,
    second: Option<Kept>,
) -> Result<bool, NoMemory> {
    let stored = game_of(alloc, game)?;
    let Some(boards) = Boards::of_stored(alloc, &stored, Moment::new(RESUMED))? else {
        return Ok(false);
    };
    if !have(&boards, first, second) {
        return Ok(false);
    }
    give(alloc, &boards, game.2)
}

#[test]
fn boards_are_as_they_were(rt: HostRuntime) -> Result<(), Fail> {
    assert_rows!(rt; ROWS, |(game, first, second)| is_resumed(rt.alloc(), *game, *first, *second)?);
    Ok(())
}
