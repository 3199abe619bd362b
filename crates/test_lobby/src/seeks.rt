//! Seeks where no line reaches: of who isn't in, and beside the copies that are made ahead of their lists.

use crate::seek_steps::{Seeking, WHITE, first_failing_seek_anew};
use crate::steps::{CHESS, DONE, HOUSE, PAIRS, Step};
use std::test::Fail;

const ANN: Seeking = Seeking::Other(Step::Enter(1, *b"Ann", DONE));

const BEN: Seeking = Seeking::Other(Step::Enter(2, *b"beN", DONE));

const WHO_IS_NOT_IN_SEEKS_NOTHING_STEPS: &[Seeking] = &[
    ANN,
    Seeking::Post(1, CHESS, 1, DONE),
    Seeking::Outside(9),
    Seeking::Post(9, PAIRS, 0, 54),
    Seeking::Unpost(9, None, 54),
    Seeking::Ask(9, 1, 54),
    Seeking::Ask(9, 7, 54),
];

const LISTS_AS_COPIED_AHEAD_STEPS: &[Seeking] = &[
    ANN,
    BEN,
    Seeking::Who(2, &[b"Ann", b"beN"]),
    Seeking::Sought(1, &[]),
    Seeking::Post(1, WHITE, 1, DONE),
    Seeking::Post(2, HOUSE, 2, DONE),
    Seeking::Sought(
        2,
        &[b"1 Ann 5 0 chess white", b"2 beN 3 0 crazyhouse black"],
    ),
    Seeking::Unpost(1, Some(1), DONE),
    Seeking::Sought(2, &[b"2 beN 3 0 crazyhouse black"]),
];

/// A name, and the steps of a lobby of its own.
const CASES: &[(&str, &[Seeking])] = &[
    (
        "who_is_not_in_seeks_nothing",
        WHO_IS_NOT_IN_SEEKS_NOTHING_STEPS,
    ),
    ("lists_as_copied_ahead", LISTS_AS_COPIED_AHEAD_STEPS),
];

#[test]
fn seeks(rt: HostRuntime) -> Result<(), Fail> {
    for (name, steps) in CASES {
        assert_eq!(rt; first_failing_seek_anew(rt.alloc(), steps)?, None, "{name}");
    }
    Ok(())
}
