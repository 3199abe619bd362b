//! A game of chess with clocks that is adjourned and resumed elsewhere.

use crate::store::evenings::{House, Sitting, first_failing};
use crate::store::talks::Player::{Ann, Ben};
use crate::store::talks::{ASKED, DONE, PASSWORD, PROMPT, Row};
use std::test::Fail;
use test_server_steps::talk::Comes::{Line, Quiet};

const CREATED: &[u8] = b"{Game 1 (Ann vs. Ben) Creating 2 12 chess match.}\n\r";

const CONTINUED: &[u8] = b"{Game 1 (Ann vs. Ben) Continuing 2 12 chess match.}\n\r";

const ANN_OFFERS: &[u8] = b"Ann offers to adjourn.\n\r";

const ADJOURNED: &[u8] = b"{Game 1 (Ann vs. Ben) adjourned} *\n\r";

/// The board as Ann, who has White, is shown it, and as Ben is: it differs in who is to move, the viewer or the
/// opponent, and in which side is below.
const START_FOR_ANN: &[u8] =
    b"<12> rnbqkbnr pppppppp -------- -------- -------- -------- PPPPPPPP RNBQKBNR W -1 1 1 1 1 0 1 \
    Ann Ben 1 2 12 39 39 120 120 1 none (0:00) none 0\n\r";

const START_FOR_BEN: &[u8] =
    b"<12> rnbqkbnr pppppppp -------- -------- -------- -------- PPPPPPPP RNBQKBNR W -1 1 1 1 1 0 1 \
    Ann Ben -1 2 12 39 39 120 120 1 none (0:00) none 1\n\r";

const E4_FOR_ANN: &[u8] =
    b"<12> rnbqkbnr pppppppp -------- -------- ----P--- -------- PPPP-PPP RNBQKBNR B 4 1 1 1 1 0 1 \
    Ann Ben -1 2 12 39 39 120 120 1 P/e2-e4 (0:00) e4 0\n\r";

const E4_FOR_BEN: &[u8] =
    b"<12> rnbqkbnr pppppppp -------- -------- ----P--- -------- PPPP-PPP RNBQKBNR B 4 1 1 1 1 0 1 \
    Ann Ben 1 2 12 39 39 120 120 1 P/e2-e4 (0:00) e4 1\n\r";

const E5_FOR_ANN: &[u8] =
    b"<12> rnbqkbnr pppp-ppp -------- ----p--- ----P--- -------- PPPP-PPP RNBQKBNR W 4 1 1 1 1 0 1 \
    Ann Ben 1 2 12 39 39 120 120 2 P/e7-e5 (0:00) e5 0\n\r";

const E5_FOR_BEN: &[u8] =
    b"<12> rnbqkbnr pppp-ppp -------- ----p--- ----P--- -------- PPPP-PPP RNBQKBNR W 4 1 1 1 1 0 1 \
    Ann Ben -1 2 12 39 39 120 120 2 P/e7-e5 (0:00) e5 1\n\r";

/// Ann has 120,000 + 12,000 - 4,000 milliseconds.
const NF3_FOR_ANN: &[u8] =
    b"<12> rnbqkbnr pppp-ppp -------- ----p--- ----P--- -----N-- PPPP-PPP RNBQKB-R B -1 1 1 1 1 1 1 \
    Ann Ben -1 2 12 39 39 128 120 2 N/g1-f3 (0:04) Nf3 0\n\r";

const NF3_FOR_BEN: &[u8] =
    b"<12> rnbqkbnr pppp-ppp -------- ----p--- ----P--- -----N-- PPPP-PPP RNBQKB-R B -1 1 1 1 1 1 1 \
    Ann Ben 1 2 12 39 39 128 120 2 N/g1-f3 (0:04) Nf3 1\n\r";

/// Ben has thought for a second since the game was resumed: he has 120,000 + 12,000 - 1,000 milliseconds.
const NC6_FOR_BEN: &[u8] =
    b"<12> r-bqkbnr pppp-ppp --n----- ----p--- ----P--- -----N-- PPPP-PPP RNBQKB-R W -1 1 1 1 1 2 1 \
    Ann Ben -1 2 12 39 39 128 131 3 N/b8-c6 (0:01) Nc6 1\n\r";

/// Ann and Ben register, play and adjourn.
const ADJOURN: &[Row] = &[
    Row(Ann, 0, Line(b"Ann"), &[b"Entered as Ann.\n\r", PROMPT]),
    Row(Ben, 0, Line(b"Ben"), &[b"Entered as Ben.\n\r", PROMPT]),
    Row(Ann, 0, Line(b"register abc"), &[DONE, PROMPT]),
    Row(Ben, 0, Line(b"register def"), &[DONE, PROMPT]),
    Row(Ann, 0, Line(b"match ben 2 12 white"), &[DONE, PROMPT]),
    Row(
        Ben,
        0,
        Line(b"accept"),
        &[
            b"Challenge: Ann 2 12 chess white\n\r",
            CREATED,
            START_FOR_BEN,
            PROMPT,
        ],
    ),
    Row(
        Ann,
        3_000,
        Line(b"e4"),
        &[CREATED, START_FOR_ANN, E4_FOR_ANN, PROMPT],
    ),
    Row(Ben, 5_000, Line(b"e5"), &[E4_FOR_BEN, E5_FOR_BEN, PROMPT]),
    Row(Ann, 9_000, Line(b"Nf3"), &[E5_FOR_ANN, NF3_FOR_ANN, PROMPT]),
    Row(Ann, 9_500, Line(b"adjourn"), &[ANN_OFFERS, PROMPT]),
    Row(
        Ben,
        9_700,
        Line(b"accept"),
        &[NF3_FOR_BEN, ANN_OFFERS, ADJOURNED, PROMPT],
    ),
    Row(Ann, 9_800, Quiet, &[b"\n\r", ADJOURNED, PROMPT]),
    Row(Ben, 9_800, Quiet, &[]),
];

/// They enter by their passwords, and both ask to resume: Ann is shown the board that she left.
const RESUME: &[Row] = &[
    Row(Ann, 990_000, Line(b"Ann"), &[PASSWORD]),
    Row(
        Ann,
        990_000,
        Line(b"abc"),
        &[b"Entered as Ann.\n\r", PROMPT],
    ),
    Row(Ben, 990_000, Line(b"Ben"), &[PASSWORD]),
    Row(
        Ben,
        990_000,
        Line(b"def"),
        &[b"Entered as Ben.\n\r", PROMPT],
    ),
    Row(Ben, 1_000_000, Line(b"resume ann"), &[ASKED, PROMPT]),
    Row(
        Ann,
        1_000_000,
        Line(b"resume ben"),
        &[b"Ben asks to resume.\n\r", CONTINUED, NF3_FOR_ANN, PROMPT],
    ),
    Row(
        Ben,
        1_001_000,
        Line(b"Nc6"),
        &[CONTINUED, NF3_FOR_BEN, NC6_FOR_BEN, PROMPT],
    ),
];

/// Two accounts and the game are saved, and the game's record goes once it is resumed.
const EVENING: &[Sitting] = &[
    Sitting {
        rows: ADJOURN,
        turn: 10_000,
        saved: 3,
        held: 3,
    },
    Sitting {
        rows: RESUME,
        turn: 1_002_000,
        saved: 1,
        held: 2,
    },
];

#[test]
fn a_game_is_resumed_at_another_server(rt: HostRuntime) -> Result<(), Fail> {
    assert_eq!(rt;
        first_failing(&rt, rt.alloc(), House::OneThread, EVENING)?,
        None
    );
    Ok(())
}

#[test]
fn a_game_is_resumed_in_another_hall(rt: HostRuntime) -> Result<(), Fail> {
    assert_eq!(rt; first_failing(&rt, rt.alloc(), House::Hall, EVENING)?, None);
    Ok(())
}
