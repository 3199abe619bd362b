//! Evenings with stored games.

use crate::examine::games::Game;
use crate::examine::running::{Evening, Stored, goes_so};
use chess_model::Variant::{Bughouse, Chess, Crazyhouse, Fischer};
use std::process::Abort;
use std::test::Fail;
use test_steps::assert_rows;

/// The record of an untimed game of Ann against Ben, after e2e4.
const ANN_AND_BEN: Stored = Stored::Bytes(&[
    0x01, 0x47, 0, 0, 0, 0, 0, 0x03, 0x41, 0x6e, 0x6e, 0x03, 0x42, 0x65, 0x6e, 0, 0x01, 0x18, 0xe0,
    0,
]);

/// Two minutes and twelve seconds; White took four seconds for the knight, and Black half a second.
const KNIGHTS: Stored = Stored::Of(Game(2, 12, Chess, &["1e2e4", "1e7e5", "1g1f3*", "1b8c6-"], 1));

/// The shortest game that ends by mate.
const MATED: Stored = Stored::Of(Game(0, 0, Chess, &["1f2f3", "1e7e5", "1g2g4", "1d8h4"], 1));

/// Both sides take a pawn, and White drops the own one.
const DROPPED: Stored = Stored::Of(Game(
    0,
    0,
    Crazyhouse,
    &["1e2e4", "1d7d5", "1e4d5", "1d8d5", "1P@e4"],
    1,
));

/// White takes a pawn at the first board, which comes into Black's hand at the second.
const PAIR: Stored = Stored::Of(Game(0, 0, Bughouse, &["1e2e4", "2d2d4", "1d7d5", "1e4d5"], 1));

/// The array of chess.
const ARRAY: Stored = Stored::Of(Game(0, 0, Fischer(518), &["1e2e4"], 1));

/// The knights go to and fro, as often as a board can take it.
const KNIGHT_GAME: Stored = Stored::Of(Game(
    0,
    0,
    Chess,
    &["1g1f3", "1g8f6", "1f3g1", "1f6g8"],
    300,
));

/// The start of an untimed game, as one who examines it is shown it.
pub const START: &str =
    "<12> rnbqkbnr pppppppp -------- -------- -------- -------- PPPPPPPP RNBQKBNR W -1 1 1 1 1 0 1 Ann Ben 2 0 0 39 39 0 0 1 none (0:00) none 0";

const PAWN: &str =
    "<12> rnbqkbnr pppppppp -------- -------- ----P--- -------- PPPP-PPP RNBQKBNR B 4 1 1 1 1 0 1 Ann Ben 2 0 0 39 39 0 0 1 P/e2-e4 (0:00) e4 0";

const TIMED: &str =
    "<12> rnbqkbnr pppppppp -------- -------- -------- -------- PPPPPPPP RNBQKBNR W -1 1 1 1 1 0 1 Ann Ben 2 2 12 39 39 120 120 1 none (0:00) none 0";

const BOTH_PAWNS: &str =
    "<12> rnbqkbnr pppp-ppp -------- ----p--- ----P--- -------- PPPP-PPP RNBQKBNR W 4 1 1 1 1 0 1 Ann Ben 2 2 12 39 39 120 120 2 P/e7-e5 (0:00) e5 0";

const CHARGED: &str =
    "<12> rnbqkbnr pppp-ppp -------- ----p--- ----P--- -----N-- PPPP-PPP RNBQKB-R B -1 1 1 1 1 1 1 Ann Ben 2 2 12 39 39 128 120 2 N/g1-f3 (0:04) Nf3 0";

const FREE: &str =
    "<12> rnbqkbnr pppp-ppp -------- ----p--- ----P--- -----N-- PPPP-PPP RNBQKB-R B -1 1 1 1 1 1 1 Ann Ben 2 2 12 39 39 120 120 2 N/g1-f3 (0:00) Nf3 0";

const BOTH_KNIGHTS: &str =
    "<12> r-bqkbnr pppp-ppp --n----- ----p--- ----P--- -----N-- PPPP-PPP RNBQKB-R W -1 1 1 1 1 2 1 Ann Ben 2 2 12 39 39 128 131 3 N/b8-c6 (0:00) Nc6 0";

const MATE: &str =
    "<12> rnb-kbnr pppp-ppp -------- ----p--- ------Pq -----P-- PPPPP--P RNBQKBNR W -1 1 1 1 1 1 1 Ann Ben 2 0 0 39 39 0 0 3 Q/d8-h4 (0:00) Qh4# 0";

const QUEEN: &str =
    "<12> rnb-kbnr ppp-pppp -------- ---q---- -------- -------- PPPP-PPP RNBQKBNR W -1 1 1 1 1 0 1 Ann Ben 2 0 0 38 38 0 0 3 Q/d8-d5 (0:00) Qxd5 0";

const DROP: &str =
    "<12> rnb-kbnr ppp-pppp -------- ---q---- ----P--- -------- PPPP-PPP RNBQKBNR B -1 1 1 1 1 0 1 Ann Ben 2 0 0 39 38 0 0 3 P/@@-e4 (0:00) P@e4 0";

const SECOND: &str =
    "<12> rnbqkbnr pppppppp -------- -------- ---P---- -------- PPP-PPPP RNBQKBNR B 3 1 1 1 1 0 2 Cat Dan 2 0 0 39 39 0 0 1 P/d2-d4 (0:00) d4 0";

const TAKEN: &str =
    "<12> rnbqkbnr ppp-pppp -------- ---P---- -------- -------- PPPP-PPP RNBQKBNR B -1 1 1 1 1 0 1 Ann Ben 2 0 0 39 38 0 0 2 P/e4-d5 (0:00) exd5 0";

const ROUND: &str =
    "<12> rnbqkbnr pppppppp -------- -------- -------- -------- PPPPPPPP RNBQKBNR W -1 1 1 1 1 1200 1 Ann Ben 2 0 0 39 39 0 0 601 N/f6-g8 (0:00) Ng8 0";

const NO_HANDS: &str = "<b1> game 1 white [] black []";

const NO_HANDS_THERE: &str = "<b1> game 2 white [] black []";

const EVENINGS: &[(&str, Evening)] = &[
    (
        "one half-move",
        Evening(
            ANN_AND_BEN,
            1,
            &[],
            0,
            &[
                START,
                "> forward",
                PAWN,
                "> back 2",
                "refused 58 NoEarlierMoves",
            ],
        ),
    ),
    (
        "no such game",
        Evening(ANN_AND_BEN, 2, &[], 10, &["no such game"]),
    ),
    (
        "nothing is read behind a fault of the first write",
        Evening(ANN_AND_BEN, 1, &[0], 3, &["> forward"]),
    ),
    (
        "a bad line, and empty ones before it",
        Evening(
            ANN_AND_BEN,
            1,
            &[],
            7,
            &[
                START,
                "> ",
                "> forward",
                PAWN,
                "> ",
                "> forward 0",
                "bad line 4",
            ],
        ),
    ),
    (
        "a number that is too great",
        Evening(
            ANN_AND_BEN,
            1,
            &[],
            7,
            &[START, "> back 2401", "bad line 1"],
        ),
    ),
    (
        "played on, and back at the stored game",
        Evening(
            KNIGHTS,
            1,
            &[],
            0,
            &[
                TIMED,
                "> forward 3",
                CHARGED,
                "> back",
                BOTH_PAWNS,
                "> Nf3",
                FREE,
                "> forward",
                "refused 57 NoMoreMoves",
                "> revert",
                BOTH_PAWNS,
                "> forward 2",
                BOTH_KNIGHTS,
                "> e4e6",
                "refused 9 CannotReach",
                "> revert",
                BOTH_KNIGHTS,
                "> back 4",
                TIMED,
            ],
        ),
    ),
    (
        "mate",
        Evening(
            MATED,
            1,
            &[],
            0,
            &[START, "> forward 4", MATE, "> a2a3", "refused 10 GameOver"],
        ),
    ),
    (
        "a drop",
        Evening(
            DROPPED,
            1,
            &[],
            0,
            &[
                START,
                NO_HANDS,
                "> forward 5",
                DROP,
                "<b1> game 1 white [] black [P]",
                "> back",
                QUEEN,
                "<b1> game 1 white [P] black [P]",
                "> N@e4",
                "refused 5 NotInHand",
                "> P@d8",
                "refused 7 EndRank",
                "> P@e4",
                DROP,
                "<b1> game 1 white [] black [P]",
                "> revert",
                DROP,
                "<b1> game 1 white [] black [P]",
            ],
        ),
    ),
    (
        "a pair",
        Evening(
            PAIR,
            1,
            &[],
            0,
            &[
                START,
                NO_HANDS,
                NO_HANDS_THERE,
                "> forward 2",
                SECOND,
                NO_HANDS,
                NO_HANDS_THERE,
                "> forward 2",
                TAKEN,
                NO_HANDS,
                "<b1> game 2 white [] black [P]",
                "> e7e5",
                "refused 21 NotInVariant",
                "> back 3",
                PAWN,
                NO_HANDS,
                NO_HANDS_THERE,
            ],
        ),
    ),
    (
        "Fischer random",
        Evening(ARRAY, 1, &[], 0, &[START, "> forward", PAWN]),
    ),
    (
        "as many half-moves as a board takes",
        Evening(
            KNIGHT_GAME,
            1,
            &[],
            0,
            &[
                START,
                "> forward 1200",
                ROUND,
                "> e2e4",
                "refused 12 TooManyMoves",
            ],
        ),
    ),
];

#[test]
fn stored_games_are_examined(rt: HostRuntime) -> Result<(), Fail> {
    assert_rows!(rt; EVENINGS, |row| goes_so(rt.alloc(), &row.1)?);
    Ok(())
}
