//! Which games are played again.

use crate::boards::games::{Game, game_of};
use chess_model::Variant::{Bughouse, Chess, Crazyhouse};
use desk_boards::replays;
use memory::NoMemory;
use std::alloc::Global;
use std::process::Abort;
use std::test::Fail;
use test_steps::assert_rows;

/// A game, and whether it is played again.
const ROWS: &[(Game, bool)] = &[
    // one board, without clocks and with them
    (Game(0, Chess, &[]), true),
    (Game(0, Chess, &["1e2e4", "1e7e5", "1g1f3"]), true),
    (Game(2, Chess, &["1e2e4", "1e7e5", "1g1f3+"]), true),
    (
        Game(
            0,
            Crazyhouse,
            &["1e2e4", "1d7d5", "1e4d5", "1d8d5", "1P@e4"],
        ),
        true,
    ),
    // a half-move that isn't allowed: no reach, another's man, nothing in hand
    (Game(0, Chess, &["1e2e4", "1e7e5", "1g1g3"]), false),
    (Game(0, Chess, &["1e2e4", "1e4e5"]), false),
    (Game(0, Crazyhouse, &["1e2e4", "1d7d5", "1P@e5"]), false),
    // a charge that is missing, and one where none belongs
    (Game(2, Chess, &["1e2e4", "1e7e5", "1g1f3"]), false),
    (Game(2, Chess, &["1e2e4+"]), false),
    (Game(2, Chess, &["1e2e4", "1e7e5+"]), false),
    (Game(0, Chess, &["1e2e4", "1e7e5", "1g1f3+"]), false),
    // a board that the game hasn't
    (Game(0, Chess, &["2e2e4"]), false),
    (Game(0, Chess, &["0e2e4"]), false),
    (Game(0, Bughouse, &["3e2e4"]), false),
    // the last half-move may mate, and none comes after it
    (Game(0, Chess, &["1f2f3", "1e7e5", "1g2g4", "1d8h4"]), true),
    (
        Game(0, Chess, &["1f2f3", "1e7e5", "1g2g4", "1d8h4", "1a2a3"]),
        false,
    ),
    // a pair: both boards from White's first half-move on, in any order
    (
        Game(0, Bughouse, &["2e2e4", "1d2d4", "2e7e5", "2g1f3", "1d7d5"]),
        true,
    ),
    (Game(0, Bughouse, &["1e2e4", "1e4e5"]), false),
    // the first half-move of each colour is free on each board
    (
        Game(2, Bughouse, &["1e2e4", "1e7e5", "2e2e4", "1g1f3+", "2e7e5"]),
        true,
    ),
    (Game(2, Bughouse, &["1e2e4", "1e7e5", "2e2e4+"]), false),
    // a black pawn that is captured on board 1 is Black's on board 2, and not before
    (
        Game(0, Bughouse, &["1e2e4", "1d7d5", "2d2d4", "1e4d5", "2P@e4"]),
        true,
    ),
    (
        Game(0, Bughouse, &["1e2e4", "1d7d5", "2d2d4", "2P@e4", "1e4d5"]),
        false,
    ),
    // a knight on g3 would shield the king, which is no mate at a pair
    (
        Game(0, Bughouse, &["1f2f3", "1e7e5", "1g2g4", "1d8h4", "2e2e4"]),
        true,
    ),
    // the queen on f7 mates, and then no half-move comes on either board
    (
        Game(
            0,
            Bughouse,
            &[
                "2d2d4", "1e2e4", "1e7e5", "1f1c4", "1b8c6", "1d1h5", "1g8f6", "1h5f7",
            ],
        ),
        true,
    ),
    (
        Game(
            0,
            Bughouse,
            &[
                "1e2e4", "1e7e5", "1f1c4", "1b8c6", "1d1h5", "1g8f6", "1h5f7", "2d2d4",
            ],
        ),
        false,
    ),
];

/// Whether a game is played again.
fn is_replayed(alloc: Global, game: Game) -> Result<bool, NoMemory> {
    let game = game_of(alloc, game)?;
    replays(alloc, &game)
}

#[test]
fn games_replay(rt: HostRuntime) -> Result<(), Fail> {
    assert_rows!(rt; ROWS, |(game, expected)| is_replayed(rt.alloc(), *game)? == *expected);
    Ok(())
}
