//! Desks in use, as the steward asks for them and clears them, and who is gone.

use crate::steps::{CHESS, DONE, Step, first_failing_anew};
use std::test::Fail;

/// Who isn't there leaves nothing behind, and a name is free again.
const GONE_STEPS: &[Step] = &[
    Step::Enter(1, *b"Ann", DONE),
    Step::Seated(1, 0, 0, 0),
    Step::Seated(2, 0, 0, 0),
    Step::Fetch(2, 0),
    Step::Going(1),
    Step::Bye(1),
    Step::Bye(1),
    Step::Going(1),
    Step::Enter(9, *b"Ann", DONE),
];

const GAMES_START_AND_END_STEPS: &[Step] = &[
    Step::Enter(1, *b"Ann", DONE),
    Step::Enter(2, *b"Ben", DONE),
    Step::Match(1, *b"Ben", CHESS, DONE),
    Step::Start(2, 1, 1, 1),
    Step::Seated(1, 1, 1, 0),
    Step::Seated(2, 1, 1, 1),
    Step::Clear(1, 1, 1, false),
    Step::Seated(1, 0, 0, 0),
    Step::Seated(2, 1, 1, 1),
    Step::InUse(1, true),
    Step::Clear(2, 1, 1, true),
    Step::Seated(2, 0, 0, 0),
    Step::InUse(1, false),
];

const DESKS_IN_USE_STEPS: &[Step] = &[
    Step::Desks(&[]),
    Step::Enter(1, *b"Ann", DONE),
    Step::Enter(2, *b"Ben", DONE),
    Step::Enter(3, *b"Cid", DONE),
    Step::Enter(4, *b"Dan", DONE),
    Step::Match(1, *b"Ben", CHESS, DONE),
    Step::Start(2, 1, 1, 1),
    Step::Match(3, *b"Dan", CHESS, DONE),
    Step::Start(4, 2, 2, 4),
    Step::Desks(&[(1, 1), (2, 2)]),
    Step::Clear(1, 1, 1, true),
    Step::Desks(&[(2, 2)]),
    Step::Match(1, *b"Ben", CHESS, DONE),
    Step::Start(2, 1, 3, 1),
    Step::Desks(&[(1, 3), (2, 2)]),
];

/// A name, and the steps of a lobby of its own.
const CASES: &[(&str, &[Step])] = &[
    ("gone", GONE_STEPS),
    ("a_desk_is_cleared", GAMES_START_AND_END_STEPS),
    ("desks_in_use", DESKS_IN_USE_STEPS),
];

#[test]
fn desks_and_departures(rt: HostRuntime) -> Result<(), Fail> {
    for (name, steps) in CASES {
        assert_eq!(rt; first_failing_anew(rt.alloc(), steps)?, None, "{name}");
    }
    Ok(())
}
