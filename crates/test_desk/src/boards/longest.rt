//! The 1,200 half-moves of a board, and the one that isn't taken.

use crate::boards::games::Game;
use chess_model::Variant::{Bughouse, Chess};
use desk_boards::replays;
use memory::NoMemory;
use std::alloc::Global;
use std::process::Abort;
use std::test::Fail;
use test_steps::assert_rows;
use test_steps::games::{Halves, halves_of, players, push_each, stored};

/// Four half-moves that lead back to where they began.
const AROUND: Halves = &["1g1f3", "1g8f6", "1f3g1", "1f6g8"];

/// And so on both boards.
const BOTH: Halves = &[
    "1g1f3", "2g1f3", "1g8f6", "2g8f6", "1f3g1", "2f3g1", "1f6g8", "2f6g8",
];

/// A game, how often its half-moves are made, those behind them, and whether it is played again.
const ROWS: &[(Game, u16, Halves, bool)] = &[
    (Game(0, Chess, AROUND), 300, &[], true),
    (Game(0, Chess, AROUND), 300, &["1e2e4"], false),
    (
        Game(0, Chess, AROUND),
        299,
        &["1g1f3", "1g8f6", "1f3g1", "1e7e5"],
        true,
    ),
    (Game(0, Bughouse, BOTH), 300, &[], true),
    (Game(0, Bughouse, BOTH), 300, &["2e2e4"], false),
    (Game(0, Bughouse, AROUND), 300, &["2e2e4"], true),
];

/// Whether a row's game is played again.
fn is_replayed(alloc: Global, game: Game, times: u16, behind: Halves) -> Result<bool, NoMemory> {
    let mut halves = halves_of(alloc, game.2, times)?;
    push_each(&mut halves, behind)?;
    let game = stored(alloc, (game.0, 0), game.1, players(game.1), halves)?;
    replays(alloc, &game)
}

#[test]
fn a_board_has_1_200_half_moves(rt: HostRuntime) -> Result<(), Fail> {
    assert_rows!(rt; ROWS, |row| is_replayed(rt.alloc(), row.0, row.1, row.2)? == row.3);
    Ok(())
}
