//! Moves and acknowledgements with clients' stamps, and what the clocks show after them.

use crate::shown::last_clocks;
use crate::table::{ANN, BEN, Does, Given, SERIAL, Step, desk_with_game, first_failing};
use linked_desk::Desk;
use std::alloc::Global;
use std::process::Abort;
use test_steps::assert_rows;

/// The first half-move of each player, which is free, at 3,000 and at 5,000 milliseconds.
const OPENING: &[Step] = &[
    Step(3_000, ANN, Does::Move("e2e4"), Given::Done),
    Step(5_000, BEN, Does::Move("e7e5"), Given::Done),
];

/// White's clock after these steps, in milliseconds, where each is given what it has to be.
fn white_after(desk: &mut Desk, steps: &[Step]) -> Option<i64> {
    if first_failing(desk, SERIAL, steps).is_some() {
        return None;
    }
    let [white, _] = last_clocks(desk, BEN)?;
    Some(white)
}

/// What is done after the opening, and White's clock afterwards: White plays `g1f3` at 9,000.
const ROWS: &[(&[Step], i64)] = &[
    // without both stamps the server's time counts
    (
        &[Step(9_000, ANN, Does::Move("g1f3"), Given::Done)],
        116_000,
    ),
    (
        &[Step(9_000, ANN, Does::Stamped("g1f3", 1_200), Given::Done)],
        116_000,
    ),
    (
        &[
            Step(5_000, ANN, Does::Acked(1_000), Given::Done),
            Step(9_000, ANN, Does::Move("g1f3"), Given::Done),
        ],
        116_000,
    ),
    // the client's 5,000 are more than the server's 4,000, and its 200 are less
    (
        &[
            Step(5_000, ANN, Does::Acked(1_000), Given::Done),
            Step(9_000, ANN, Does::Stamped("g1f3", 6_000), Given::Done),
        ],
        116_000,
    ),
    (
        &[
            Step(5_000, ANN, Does::Acked(1_000), Given::Done),
            Step(9_000, ANN, Does::Stamped("g1f3", 1_200), Given::Done),
        ],
        119_800,
    ),
    // the last acknowledgement counts: 100 and not 300
    (
        &[
            Step(5_000, ANN, Does::Acked(900), Given::Done),
            Step(5_000, ANN, Does::Acked(1_100), Given::Done),
            Step(9_000, ANN, Does::Stamped("g1f3", 1_200), Given::Done),
        ],
        119_900,
    ),
    // one of the player who isn't to move is nothing
    (
        &[
            Step(5_000, BEN, Does::Acked(1_000), Given::Done),
            Step(9_000, ANN, Does::Stamped("g1f3", 1_200), Given::Done),
        ],
        116_000,
    ),
    (
        &[
            Step(5_000, ANN, Does::Acked(1_000), Given::Done),
            Step(5_000, BEN, Does::Acked(1_100), Given::Done),
            Step(9_000, ANN, Does::Stamped("g1f3", 1_200), Given::Done),
        ],
        119_800,
    ),
];

/// Whether White's clock shows that after the opening and these steps in a game of two minutes.
fn is_left(rt: &impl Abort, alloc: Global, steps: &[Step], left: i64) -> bool {
    let mut desk = desk_with_game(rt, alloc, 2, 0);
    white_after(&mut desk, OPENING) == Some(120_000) && white_after(&mut desk, steps) == Some(left)
}

/// White has two minutes and thinks from 5,000 to 9,000, which is 4,000.
#[test]
fn clients_are_charged_their_own_time(rt: HostRuntime) {
    assert_rows!(rt; ROWS, |(steps, left)| is_left(&rt, rt.alloc(), steps, *left));
}
