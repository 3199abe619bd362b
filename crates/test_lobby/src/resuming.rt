//! Adjourned games where no line reaches: their numbers and save orders, and what is full.

use crate::resuming_steps::{Resuming, first_unlike_anew};
use crate::steps::{CHESS, DONE, Step};
use std::test::Fail;

const ANN: Resuming = Resuming::Other(Step::Enter(1, *b"Ann", DONE));

const BEN: Resuming = Resuming::Other(Step::Enter(2, *b"beN", DONE));

const CID: Resuming = Resuming::Other(Step::Enter(3, *b"Cid", DONE));

const DAN: Resuming = Resuming::Other(Step::Enter(4, *b"Dan", DONE));

const THE_LEAST_NUMBER_IS_GIVEN_STEPS: &[Resuming] = &[
    Resuming::Add(1, *b"Ann", *b"Ben", DONE),
    Resuming::Add(3, *b"Ann", *b"Ben", DONE),
    ANN,
    BEN,
    Resuming::Other(Step::Match(1, *b"Ben", CHESS, DONE)),
    Resuming::Other(Step::Start(2, 1, 1, 1)),
    Resuming::Shelves(2, 1, 1, *b"Ann", *b"Ben", 2),
    Resuming::Numbers(&[1, 2, 3]),
    Resuming::Stored(
        1,
        &[
            b"1 Ann Ben 2 12 chess",
            b"2 Ann Ben 2 12 chess",
            b"3 Ann Ben 2 12 chess",
        ],
    ),
    Resuming::Other(Step::InUse(1, false)),
    Resuming::Orders(1, 1),
    Resuming::Asks(1, *b"Ben", 1),
    Resuming::Starts(2, *b"Ann", 1, 1, 2, 1),
    Resuming::Orders(2, 1),
    Resuming::Shelves(2, 1, 2, *b"Ann", *b"Ben", 1),
    Resuming::Orders(3, 1),
    Resuming::Saved(2),
    Resuming::Orders(1, 3),
    Resuming::Sizes(0, 3),
];

const WHO_IS_NOT_IN_RESUMES_NOTHING_STEPS: &[Resuming] = &[
    Resuming::Add(1, *b"Ann", *b"Ben", DONE),
    Resuming::Plans(1, *b"Ben", 54),
    BEN,
    Resuming::Plans(1, *b"Ben", 54),
];

const A_FULL_QUEUE_STEPS: &[Resuming] = &[
    Resuming::Add(1, *b"Ann", *b"Ben", DONE),
    ANN,
    BEN,
    CID,
    Resuming::Other(Step::MatchTimes(3, *b"Ben", CHESS, 511)),
    Resuming::Asks(1, *b"Ben", 1),
    Resuming::Plans(1, *b"Ben", 49),
    // one who resumes needs no room
    Resuming::Starts(2, *b"Ann", 1, 1, 1, 1),
];

const A_FULL_SHELF_STEPS: &[Resuming] = &[
    ANN,
    BEN,
    CID,
    DAN,
    Resuming::Fill(9_999),
    Resuming::Other(Step::Match(1, *b"Ben", CHESS, DONE)),
    Resuming::Other(Step::Match(3, *b"Dan", CHESS, DONE)),
    Resuming::Other(Step::Start(2, 1, 1, 1)),
    Resuming::Other(Step::Ask(4, None, 45)),
    Resuming::Add(10_000, *b"Yan", *b"Zoe", 45),
    Resuming::Sizes(0, 9_999),
    Resuming::Shelves(1, 1, 1, *b"Ann", *b"Ben", 10_000),
    Resuming::Other(Step::Ask(4, None, 45)),
    // a game that leaves the shelf makes its own room
    Resuming::Asks(1, *b"Ben", 10_000),
    Resuming::Starts(2, *b"Ann", 10_000, 1, 2, 1),
    Resuming::Sizes(0, 9_999),
];

/// A name, and the steps of a lobby of its own.
const CASES: &[(&str, &[Resuming])] = &[
    ("the_least_number_is_given", THE_LEAST_NUMBER_IS_GIVEN_STEPS),
    (
        "who_is_not_in_resumes_nothing",
        WHO_IS_NOT_IN_RESUMES_NOTHING_STEPS,
    ),
    ("a_full_queue", A_FULL_QUEUE_STEPS),
    ("a_full_shelf", A_FULL_SHELF_STEPS),
];

#[test]
fn resuming(rt: HostRuntime) -> Result<(), Fail> {
    for (name, steps) in CASES {
        assert_eq!(rt; first_unlike_anew(rt.alloc(), steps)?, None, "{name}");
    }
    Ok(())
}
