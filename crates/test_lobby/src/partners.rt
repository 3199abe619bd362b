//! Partners where no line reaches: of who isn't in, and where a queue is full.

use crate::partner_steps::{ASKED, Pairing, first_failing_pairing_anew};
use crate::steps::{DONE, Step};
use std::test::Fail;

const ANN: Pairing = Pairing::Other(Step::Enter(1, *b"Ann", DONE));

const BEN: Pairing = Pairing::Other(Step::Enter(2, *b"beN", DONE));

const WHO_IS_NOT_IN_HAS_NO_PARTNER_STEPS: &[Pairing] = &[
    ANN,
    Pairing::Ask(9, *b"Ann", 54),
    Pairing::Part(9, 54),
    Pairing::Ptell(9, b"hi", 54),
];

const A_FULL_QUEUE_TAKES_NO_LINE_STEPS: &[Pairing] = &[
    ANN,
    BEN,
    Pairing::AskTimes(1, *b"Ben", 512),
    Pairing::Ask(1, *b"Ben", 49),
    Pairing::Ask(2, *b"Ann", DONE),
    Pairing::Ask(1, *b"Ben", 38),
    Pairing::Ptell(1, b"hi", 49),
    Pairing::Part(1, DONE),
    Pairing::Other(Step::Fetch(2, 512)),
    Pairing::Part(2, 37),
];

/// A name, and the steps of a lobby of its own.
const CASES: &[(&str, &[Pairing])] = &[
    (
        "who_is_not_in_has_no_partner",
        WHO_IS_NOT_IN_HAS_NO_PARTNER_STEPS,
    ),
    (
        "a_full_queue_takes_no_line_of_a_partner",
        A_FULL_QUEUE_TAKES_NO_LINE_STEPS,
    ),
];

#[test]
fn partners(rt: HostRuntime) -> Result<(), Fail> {
    for (name, steps) in CASES {
        assert_eq!(rt;
            first_failing_pairing_anew(rt.alloc(), steps)?,
            None,
            "{name}"
        );
    }
    Ok(())
}
