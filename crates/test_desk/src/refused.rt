//! A refusal of each kind, by a table.

use crate::table::Does::{Acked, Fetch, Flag, Leave, Move, Resign};
use crate::table::Given::{Done, Refused};
use crate::table::{ANN, BEN, Opening, SERIAL, STRANGER, Step, desk_of, first_failing};
use fics_words::Refusal;
use linked_desk::Desk;
use std::alloc::Global;
use std::process::Abort;

const AT_ANOTHER_GAME: &[Step] = &[
    Step(0, ANN, Move("e2e4"), Refused(Refusal::NotPlaying)),
    Step(0, ANN, Acked(1_000), Refused(Refusal::NotPlaying)),
    Step(0, ANN, Resign, Refused(Refusal::NotPlaying)),
    Step(0, ANN, Fetch, Refused(Refusal::NotWatching)),
];

const AT_THE_GAME: &[Step] = &[
    Step(0, STRANGER, Move("e2e4"), Refused(Refusal::NotPlaying)),
    Step(0, STRANGER, Acked(1_000), Refused(Refusal::NotPlaying)),
    Step(0, BEN, Move("e7e5"), Refused(Refusal::NotYourTurn)),
    Step(0, ANN, Move("e2e5"), Refused(Refusal::CannotReach)),
    Step(0, ANN, Move("e3e4"), Refused(Refusal::NoPiece)),
    Step(0, ANN, Move("e1g1"), Refused(Refusal::CastleForbidden)),
    Step(0, STRANGER, Resign, Refused(Refusal::NotPlaying)),
    Step(0, STRANGER, Flag, Refused(Refusal::NotPlaying)),
    Step(0, ANN, Flag, Refused(Refusal::NotFallen)),
    Step(0, STRANGER, Fetch, Refused(Refusal::NotWatching)),
    // nothing of it has changed the game
    Step(0, ANN, Move("e2e4"), Done),
];

const REFUSALS_AFTER_THE_END_STEPS: &[Step] = &[
    Step(0, BEN, Resign, Done),
    Step(0, ANN, Move("e2e4"), Refused(Refusal::GameOver)),
    Step(0, ANN, Resign, Refused(Refusal::GameOver)),
    Step(0, ANN, Flag, Refused(Refusal::GameOver)),
    Step(0, ANN, Acked(1_000), Done),
    Step(0, STRANGER, Acked(1_000), Refused(Refusal::NotPlaying)),
];

const REFUSALS_OF_A_VACANT_DESK_STEPS: &[Step] = &[
    Step(0, ANN, Move("e2e4"), Refused(Refusal::NotPlaying)),
    Step(0, ANN, Acked(1_000), Refused(Refusal::NotPlaying)),
    Step(0, ANN, Resign, Refused(Refusal::NotPlaying)),
    Step(0, ANN, Flag, Refused(Refusal::NotPlaying)),
    Step(0, ANN, Fetch, Refused(Refusal::NotWatching)),
    Step(0, ANN, Leave, Done),
];

/// A name, what stands at the desk, the steps under another serial that come first, and those at the game.
struct Case(&'static str, Opening, &'static [Step], &'static [Step]);

const CASES: &[Case] = &[
    Case(
        "refusals_of_a_running_game",
        Opening::Chess(1, 0),
        AT_ANOTHER_GAME,
        AT_THE_GAME,
    ),
    Case(
        "refusals_after_the_end",
        Opening::Chess(1, 0),
        &[],
        REFUSALS_AFTER_THE_END_STEPS,
    ),
    Case(
        "refusals_of_a_vacant_desk",
        Opening::Vacant,
        &[],
        REFUSALS_OF_A_VACANT_DESK_STEPS,
    ),
];

/// The serial and the place of the first step of a case that is given something else, if one is.
fn first_wrong_of(rt: &impl Abort, alloc: Global, case: &Case) -> Option<(u64, usize)> {
    let mut desk = desk_of(rt, alloc, case.1);
    first_wrong_at(&mut desk, case)
}

fn first_wrong_at(desk: &mut Desk, case: &Case) -> Option<(u64, usize)> {
    if let Some(place) = first_failing(desk, SERIAL + 1, case.2) {
        return Some((SERIAL + 1, place));
    }
    let place = first_failing(desk, SERIAL, case.3)?;
    Some((SERIAL, place))
}

/// Looks at each case, whether it goes as it has to.
fn each_case(rt: &impl Abort, alloc: Global) {
    for case in CASES {
        assert_eq!(rt; first_wrong_of(rt, alloc, case), None, "{}", case.0);
    }
}

#[test]
fn acts_are_refused(rt: HostRuntime) {
    each_case(&rt, rt.alloc());
}
