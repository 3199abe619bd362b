//! A bughouse pair of four registered players that is adjourned and resumed elsewhere.

use crate::store::evenings::{House, Sitting, first_failing};
use crate::store::talks::Player::{Ann, Ben, Cat, Dan};
use crate::store::talks::{ASKED, DONE, PASSWORD, PROMPT, Row};
use std::test::Fail;
use test_server_steps::talk::Comes::{Line, Quiet};

const CREATED_1: &[u8] = b"{Game 1 (Ann vs. Ben) Creating 2 0 bughouse match.}\n\r";

const CREATED_2: &[u8] = b"{Game 2 (Cat vs. Dan) Creating 2 0 bughouse match.}\n\r";

const CONTINUED_1: &[u8] = b"{Game 1 (Ann vs. Ben) Continuing 2 0 bughouse match.}\n\r";

const CONTINUED_2: &[u8] = b"{Game 2 (Cat vs. Dan) Continuing 2 0 bughouse match.}\n\r";

const ANN_OFFERS: &[u8] = b"Ann offers to adjourn.\n\r";

/// Dan, who says it last, sits at board 2.
const ENDED_1: &[u8] = b"{Game 1 (Ann vs. Ben) partner's game ended} *\n\r";

const ENDED_2: &[u8] = b"{Game 2 (Cat vs. Dan) adjourned} *\n\r";

const NO_HANDS_1: &[u8] = b"<b1> game 1 white [] black []\n\r";

const NO_HANDS_2: &[u8] = b"<b1> game 2 white [] black []\n\r";

/// The pawn that Ann captures comes into the hand of Dan, her partner.
const PAWN_CAME: &[u8] = b"<b1> game 2 white [] black [P] <- P\n\r";

const PAWN_HELD: &[u8] = b"<b1> game 2 white [] black [P]\n\r";

const START_1_FOR_ANN: &[u8] =
    b"<12> rnbqkbnr pppppppp -------- -------- -------- -------- PPPPPPPP RNBQKBNR W -1 1 1 1 1 0 1 \
    Ann Ben 1 2 0 39 39 120 120 1 none (0:00) none 0\n\r";

const START_1_FOR_BEN: &[u8] =
    b"<12> rnbqkbnr pppppppp -------- -------- -------- -------- PPPPPPPP RNBQKBNR W -1 1 1 1 1 0 1 \
    Ann Ben -1 2 0 39 39 120 120 1 none (0:00) none 1\n\r";

const START_1_FOR_OTHERS: &[u8] =
    b"<12> rnbqkbnr pppppppp -------- -------- -------- -------- PPPPPPPP RNBQKBNR W -1 1 1 1 1 0 1 \
    Ann Ben 0 2 0 39 39 120 120 1 none (0:00) none 0\n\r";

const START_2_FOR_CAT: &[u8] =
    b"<12> rnbqkbnr pppppppp -------- -------- -------- -------- PPPPPPPP RNBQKBNR W -1 1 1 1 1 0 2 \
    Cat Dan 1 2 0 39 39 120 120 1 none (0:00) none 0\n\r";

const START_2_FOR_DAN: &[u8] =
    b"<12> rnbqkbnr pppppppp -------- -------- -------- -------- PPPPPPPP RNBQKBNR W -1 1 1 1 1 0 2 \
    Cat Dan -1 2 0 39 39 120 120 1 none (0:00) none 1\n\r";

const START_2_FOR_OTHERS: &[u8] =
    b"<12> rnbqkbnr pppppppp -------- -------- -------- -------- PPPPPPPP RNBQKBNR W -1 1 1 1 1 0 2 \
    Cat Dan 0 2 0 39 39 120 120 1 none (0:00) none 0\n\r";

const E4_FOR_ANN: &[u8] =
    b"<12> rnbqkbnr pppppppp -------- -------- ----P--- -------- PPPP-PPP RNBQKBNR B 4 1 1 1 1 0 1 \
    Ann Ben -1 2 0 39 39 120 120 1 P/e2-e4 (0:00) e4 0\n\r";

const E4_FOR_BEN: &[u8] =
    b"<12> rnbqkbnr pppppppp -------- -------- ----P--- -------- PPPP-PPP RNBQKBNR B 4 1 1 1 1 0 1 \
    Ann Ben 1 2 0 39 39 120 120 1 P/e2-e4 (0:00) e4 1\n\r";

const E4_FOR_OTHERS: &[u8] =
    b"<12> rnbqkbnr pppppppp -------- -------- ----P--- -------- PPPP-PPP RNBQKBNR B 4 1 1 1 1 0 1 \
    Ann Ben 0 2 0 39 39 120 120 1 P/e2-e4 (0:00) e4 0\n\r";

const D5_FOR_ANN: &[u8] =
    b"<12> rnbqkbnr ppp-pppp -------- ---p---- ----P--- -------- PPPP-PPP RNBQKBNR W 3 1 1 1 1 0 1 \
    Ann Ben 1 2 0 39 39 120 120 2 P/d7-d5 (0:00) d5 0\n\r";

const D5_FOR_BEN: &[u8] =
    b"<12> rnbqkbnr ppp-pppp -------- ---p---- ----P--- -------- PPPP-PPP RNBQKBNR W 3 1 1 1 1 0 1 \
    Ann Ben -1 2 0 39 39 120 120 2 P/d7-d5 (0:00) d5 1\n\r";

const D5_FOR_OTHERS: &[u8] =
    b"<12> rnbqkbnr ppp-pppp -------- ---p---- ----P--- -------- PPPP-PPP RNBQKBNR W 3 1 1 1 1 0 1 \
    Ann Ben 0 2 0 39 39 120 120 2 P/d7-d5 (0:00) d5 0\n\r";

const EXD5_FOR_ANN: &[u8] =
    b"<12> rnbqkbnr ppp-pppp -------- ---P---- -------- -------- PPPP-PPP RNBQKBNR B -1 1 1 1 1 0 1 \
    Ann Ben -1 2 0 39 38 119 120 2 P/e4-d5 (0:01) exd5 0\n\r";

const EXD5_FOR_BEN: &[u8] =
    b"<12> rnbqkbnr ppp-pppp -------- ---P---- -------- -------- PPPP-PPP RNBQKBNR B -1 1 1 1 1 0 1 \
    Ann Ben 1 2 0 39 38 119 120 2 P/e4-d5 (0:01) exd5 1\n\r";

const EXD5_FOR_OTHERS: &[u8] =
    b"<12> rnbqkbnr ppp-pppp -------- ---P---- -------- -------- PPPP-PPP RNBQKBNR B -1 1 1 1 1 0 1 \
    Ann Ben 0 2 0 39 38 119 120 2 P/e4-d5 (0:01) exd5 0\n\r";

/// All four register, Ann and Ben start the game with their partners, and Ann captures. All say that they adjourn.
const ADJOURN: &[Row] = &[
    Row(Ann, 0, Line(b"Ann"), &[b"Entered as Ann.\n\r", PROMPT]),
    Row(Ben, 0, Line(b"Ben"), &[b"Entered as Ben.\n\r", PROMPT]),
    Row(Cat, 0, Line(b"Cat"), &[b"Entered as Cat.\n\r", PROMPT]),
    Row(Dan, 0, Line(b"Dan"), &[b"Entered as Dan.\n\r", PROMPT]),
    Row(Ann, 0, Line(b"register abc"), &[DONE, PROMPT]),
    Row(Ben, 0, Line(b"register def"), &[DONE, PROMPT]),
    Row(Cat, 0, Line(b"register ghi"), &[DONE, PROMPT]),
    Row(Dan, 0, Line(b"register jkl"), &[DONE, PROMPT]),
    Row(Ann, 0, Line(b"partner dan"), &[ASKED, PROMPT]),
    Row(
        Dan,
        0,
        Line(b"partner ann"),
        &[DONE, b"Ann offers to be your partner.\n\r", PROMPT],
    ),
    Row(Ben, 0, Line(b"partner cat"), &[ASKED, PROMPT]),
    Row(
        Cat,
        0,
        Line(b"partner ben"),
        &[DONE, b"Ben offers to be your partner.\n\r", PROMPT],
    ),
    Row(
        Ann,
        0,
        Line(b"match ben 2 0 bughouse white"),
        &[DONE, b"You are now the partner of Dan.\n\r", PROMPT],
    ),
    Row(
        Ben,
        0,
        Line(b"accept"),
        &[
            b"You are now the partner of Cat.\n\r",
            b"Challenge: Ann 2 0 bughouse white\n\r",
            CREATED_1,
            CREATED_2,
            START_1_FOR_BEN,
            NO_HANDS_1,
            START_2_FOR_OTHERS,
            NO_HANDS_2,
            PROMPT,
        ],
    ),
    Row(
        Ann,
        1_000,
        Line(b"e4"),
        &[
            CREATED_1,
            CREATED_2,
            START_1_FOR_ANN,
            NO_HANDS_1,
            START_2_FOR_OTHERS,
            NO_HANDS_2,
            E4_FOR_ANN,
            PROMPT,
        ],
    ),
    Row(Ben, 2_000, Line(b"d5"), &[E4_FOR_BEN, D5_FOR_BEN, PROMPT]),
    Row(
        Ann,
        3_000,
        Line(b"exd5"),
        &[D5_FOR_ANN, EXD5_FOR_ANN, PAWN_CAME, PROMPT],
    ),
    Row(Ann, 4_000, Line(b"adjourn"), &[ANN_OFFERS, PROMPT]),
    Row(
        Ben,
        4_000,
        Line(b"accept"),
        &[EXD5_FOR_BEN, PAWN_CAME, ANN_OFFERS, PROMPT],
    ),
    Row(
        Cat,
        4_000,
        Line(b"accept"),
        &[
            CREATED_1,
            CREATED_2,
            START_1_FOR_OTHERS,
            NO_HANDS_1,
            START_2_FOR_CAT,
            NO_HANDS_2,
            E4_FOR_OTHERS,
            D5_FOR_OTHERS,
            EXD5_FOR_OTHERS,
            PAWN_CAME,
            ANN_OFFERS,
            PROMPT,
        ],
    ),
    Row(
        Dan,
        4_000,
        Line(b"accept"),
        &[
            CREATED_1,
            CREATED_2,
            START_1_FOR_OTHERS,
            NO_HANDS_1,
            START_2_FOR_DAN,
            NO_HANDS_2,
            E4_FOR_OTHERS,
            D5_FOR_OTHERS,
            EXD5_FOR_OTHERS,
            PAWN_CAME,
            ANN_OFFERS,
            ENDED_1,
            ENDED_2,
            PROMPT,
        ],
    ),
    Row(Ann, 4_000, Quiet, &[b"\n\r", ENDED_1, ENDED_2, PROMPT]),
    Row(Ben, 4_000, Quiet, &[b"\n\r", ENDED_1, ENDED_2, PROMPT]),
    Row(Cat, 4_000, Quiet, &[b"\n\r", ENDED_1, ENDED_2, PROMPT]),
    Row(Dan, 4_000, Quiet, &[]),
];

/// They enter by their passwords, and all four ask to resume, Ann as the last: she is shown the boards and the hands
/// that she left.
const RESUME: &[Row] = &[
    Row(Ann, 9_000, Line(b"Ann"), &[PASSWORD]),
    Row(Ann, 9_000, Line(b"abc"), &[b"Entered as Ann.\n\r", PROMPT]),
    Row(Ben, 9_000, Line(b"Ben"), &[PASSWORD]),
    Row(Ben, 9_000, Line(b"def"), &[b"Entered as Ben.\n\r", PROMPT]),
    Row(Cat, 9_000, Line(b"Cat"), &[PASSWORD]),
    Row(Cat, 9_000, Line(b"ghi"), &[b"Entered as Cat.\n\r", PROMPT]),
    Row(Dan, 9_000, Line(b"Dan"), &[PASSWORD]),
    Row(Dan, 9_000, Line(b"jkl"), &[b"Entered as Dan.\n\r", PROMPT]),
    Row(Dan, 9_500, Line(b"resume ann"), &[ASKED, PROMPT]),
    Row(Cat, 9_500, Line(b"resume ann"), &[ASKED, PROMPT]),
    Row(Ben, 9_500, Line(b"resume ann"), &[ASKED, PROMPT]),
    Row(
        Ann,
        9_600,
        Line(b"resume ben"),
        &[
            b"Dan asks to resume.\n\r",
            b"Cat asks to resume.\n\r",
            b"Ben asks to resume.\n\r",
            CONTINUED_1,
            CONTINUED_2,
            EXD5_FOR_ANN,
            NO_HANDS_1,
            START_2_FOR_OTHERS,
            PAWN_HELD,
            PROMPT,
        ],
    ),
];

/// Four accounts and the game are saved, and the game's record goes once it is resumed.
const EVENING: &[Sitting] = &[
    Sitting {
        rows: ADJOURN,
        turn: 5_000,
        saved: 5,
        held: 5,
    },
    Sitting {
        rows: RESUME,
        turn: 9_700,
        saved: 1,
        held: 4,
    },
];

#[test]
fn a_pair_is_resumed_at_another_server(rt: HostRuntime) -> Result<(), Fail> {
    assert_eq!(rt;
        first_failing(&rt, rt.alloc(), House::OneThread, EVENING)?,
        None
    );
    Ok(())
}

#[test]
fn a_pair_is_resumed_in_another_hall(rt: HostRuntime) -> Result<(), Fail> {
    assert_eq!(rt; first_failing(&rt, rt.alloc(), House::Hall, EVENING)?, None);
    Ok(())
}
