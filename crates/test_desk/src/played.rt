//! What a desk gives whoever asks behind the end of its game, and when it becomes vacant.

use crate::stages::{Case, Stage, each_case};
use crate::table::Given::Refused;
use crate::table::{ANN, BEN, Does, Given, Opening, STRANGER, Step};
use chess_model::Colour;
use fics_words::{BoardNumber, Refusal};
use linked_desk::{Ended, Why};

const RESIGNATION: &[Step] = &[
    Step(3_000, ANN, Does::Move("e2e4"), Given::Done),
    Step(5_000, BEN, Does::Move("e7e5"), Given::Done),
    Step(5_000, BEN, Does::Fetch, Given::Items(4, false)),
    Step(9_500, BEN, Does::Resign, Given::Done),
];

const FAREWELLS: &[Step] = &[
    Step(9_500, BEN, Does::Fetch, Given::Items(1, true)),
    Step(9_500, BEN, Does::Fetch, Refused(Refusal::NotWatching)),
    Step(9_500, ANN, Does::Fetch, Given::Items(5, true)),
];

/// White has left board 1, so that Black has won.
const LEFT: Option<Ended> = Some(Ended {
    why: Why::Left,
    board: BoardNumber::First,
    winner: Some(Colour::Black),
});

/// White's flag has fallen at board 1.
const FLAGGED: Option<Ended> = Some(Ended {
    why: Why::Flag,
    board: BoardNumber::First,
    winner: Some(Colour::Black),
});

const A_GAME_THAT_IS_FLAGGED_STEPS: &[Step] = &[
    Step(0, ANN, Does::Move("e2e4"), Given::Done),
    Step(0, BEN, Does::Move("e7e5"), Given::Done),
    Step(59_999, BEN, Does::Flag, Refused(Refusal::NotFallen)),
    Step(60_000, ANN, Does::Fetch, Given::Items(4, false)),
    Step(1, BEN, Does::Flag, Given::Done),
];

const CASES: &[Case] = &[
    Case {
        name: "a_game_that_is_over",
        opening: Opening::Chess(2, 12),
        stages: &[
            Stage::Makes(RESIGNATION),
            Stage::Stays,
            Stage::Makes(FAREWELLS),
            Stage::Clears,
        ],
    },
    // who leaves a running game loses it; who leaves after its end changes nothing but the viewers
    Case {
        name: "a_game_that_is_left",
        opening: Opening::Chess(0, 0),
        stages: &[
            Stage::Makes(&[Step(10, STRANGER, Does::Leave, Given::Done)]),
            Stage::Outcome(None, 2),
            Stage::Stays,
            Stage::Makes(&[Step(20, ANN, Does::Leave, Given::Done)]),
            Stage::Outcome(LEFT, 1),
            Stage::Stays,
            Stage::Makes(&[Step(30, BEN, Does::Leave, Given::Done)]),
            Stage::Outcome(LEFT, 0),
            Stage::Stays,
        ],
    },
    // White has a minute and thinks from moment 0 on; an act never counts as earlier than the one before it
    Case {
        name: "a_flag_at_an_earlier_moment",
        opening: Opening::Chess(1, 0),
        stages: &[
            Stage::Makes(A_GAME_THAT_IS_FLAGGED_STEPS),
            Stage::Outcome(FLAGGED, 2),
        ],
    },
];

#[test]
fn games_are_over(rt: HostRuntime) {
    each_case(&rt, rt.alloc(), CASES);
}
