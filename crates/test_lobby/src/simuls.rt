//! Simuls where no line reaches: of who isn't in, and with all the boards that one may have.

use crate::partner_steps::ASKED;
use crate::simul_steps::{Giving, first_failing_simul_anew};
use crate::steps::{CHESS, DONE, PAIRS, Step};
use std::test::Fail;

const WHO_IS_NOT_IN_GIVES_NONE_STEPS: &[Giving] = &[
    Giving::Open(9, 54),
    Giving::Next(9, 54),
    Giving::Previous(9, 54),
    Giving::Board(9, *b"Zoe", 54),
];

const A_SIMUL_HAS_32_BOARDS_STEPS: &[Giving] = &[
    Giving::Other(Step::Enter(0, *b"Zoe", DONE)),
    Giving::Other(Step::Enter(40, *b"Yan", DONE)),
    Giving::Other(Step::Enter(41, *b"Xia", DONE)),
    Giving::Open(0, DONE),
    Giving::Plays32(0, *b"Zoe"),
    // with 32 boards no other one comes, by a challenge nor by a seek, until one is gone
    Giving::Other(Step::Seated(0, 32, 1, 0)),
    Giving::Other(Step::Match(40, *b"Zoe", CHESS, DONE)),
    Giving::Other(Step::Match(0, *b"Xia", CHESS, DONE)),
    Giving::Other(Step::Ask(0, None, 43)),
    Giving::Other(Step::Ask(41, None, 43)),
    Giving::Post(40, CHESS, 1, DONE),
    Giving::AskSeek(0, 1, 43),
    Giving::Previous(0, DONE),
    Giving::Other(Step::Seated(0, 32, 32, 0)),
    Giving::Next(0, DONE),
    Giving::Other(Step::Clear(0, 1, 1, true)),
    Giving::Other(Step::Seated(0, 31, 2, 0)),
    Giving::Other(Step::Ask(41, None, DONE)),
    Giving::Other(Step::Start(0, 1, 33, 0)),
    Giving::Previous(0, DONE),
    Giving::Other(Step::Seated(0, 32, 1, 0)),
];

/// Zoe has 32 boards: her partner begins no game of four, since she would be seated in it, until one of them is gone.
const A_PARTNER_HAS_32_BOARDS_STEPS: &[Giving] = &[
    Giving::Other(Step::Enter(0, *b"Zoe", DONE)),
    Giving::Other(Step::Enter(40, *b"Yan", DONE)),
    Giving::Other(Step::Enter(41, *b"Xia", DONE)),
    Giving::Other(Step::Enter(42, *b"Wes", DONE)),
    Giving::Pair(0, *b"Yan", ASKED),
    Giving::Pair(40, *b"Zoe", DONE),
    Giving::Pair(41, *b"Wes", ASKED),
    Giving::Pair(42, *b"Xia", DONE),
    Giving::Open(0, DONE),
    Giving::Plays32(0, *b"Zoe"),
    // by her partner's challenge, and by one to her partner
    Giving::Other(Step::Match(40, *b"Xia", PAIRS, DONE)),
    Giving::Other(Step::Match(42, *b"Yan", PAIRS, DONE)),
    Giving::Other(Step::Ask(41, None, 43)),
    Giving::Other(Step::Ask(40, None, 43)),
    Giving::Other(Step::Clear(0, 1, 1, true)),
    Giving::Other(Step::Ask(40, None, DONE)),
    // the serial is odd: Yan has White, so Zoe has Black of the second board, and her place comes behind the others
    Giving::Other(Step::Start(41, 1, 33, 40)),
    Giving::Other(Step::Seated(40, 1, 1, 0)),
    Giving::Other(Step::Seated(42, 1, 1, 2)),
    Giving::Other(Step::Seated(0, 32, 2, 0)),
    Giving::Previous(0, DONE),
    Giving::Other(Step::Seated(0, 32, 1, 3)),
];

/// A name, and the steps of a lobby of its own.
const CASES: &[(&str, &[Giving])] = &[
    ("who_is_not_in_gives_none", WHO_IS_NOT_IN_GIVES_NONE_STEPS),
    ("a_simul_has_32_boards", A_SIMUL_HAS_32_BOARDS_STEPS),
    ("a_partner_has_32_boards", A_PARTNER_HAS_32_BOARDS_STEPS),
];

#[test]
fn simuls(rt: HostRuntime) -> Result<(), Fail> {
    for (name, steps) in CASES {
        assert_eq!(rt;
            first_failing_simul_anew(rt.alloc(), steps)?,
            None,
            "{name}"
        );
    }
    Ok(())
}
