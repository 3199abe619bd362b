//! Refusals of acts that no line of a player makes, and of logins, each by its number.

use chess_model::Variant;
use std::alloc::Global;
use std::process::Abort;
use std::test::Fail;
use test_server_steps::{Does, Said, Step, first_failing_anew};

const WHO_IS_NOT_IN_STEPS: &[Step] = &[
    Step(
        0,
        1,
        Does::Match(*b"Ben", Variant::Chess),
        Said::Refused(54),
    ),
    Step(0, 1, Does::Accept(None), Said::Refused(54)),
    Step(0, 1, Does::Enter(*b"Ann"), Said::Entered),
    Step(0, 1, Does::Enter(*b"Abe"), Said::Refused(24)),
];

const OF_LOGINS_STEPS: &[Step] = &[
    Step(0, 1, Does::Register(1), Said::Refused(54)),
    Step(0, 1, Does::Guest, Said::Entered),
    Step(0, 1, Does::Guest, Said::Refused(24)),
    Step(0, 2, Does::Login(*b"Ann", 9), Said::Entered),
    Step(0, 2, Does::Register(1), Said::Done),
    Step(0, 2, Does::Register(2), Said::Refused(48)),
    Step(0, 2, Does::Bye, Said::Done),
    Step(0, 2, Does::Enter(*b"ann"), Said::NeedPassword),
    Step(0, 2, Does::Login(*b"ann", 2), Said::Refused(23)),
    Step(0, 2, Does::Where, Said::Places(0)),
    Step(0, 2, Does::Login(*b"ann", 1), Said::Entered),
    Step(0, 3, Does::Login(*b"Ann", 1), Said::Refused(24)),
    Step(0, 3, Does::Enter(*b"Ben"), Said::Entered),
    Step(0, 9, Does::InUse, Said::Desks(0)),
    Step(0, 2, Does::Match(*b"Ben", Variant::Chess), Said::Done),
    Step(0, 3, Does::Accept(None), Said::Started),
    Step(0, 9, Does::InUse, Said::Desks(1)),
];

/// No line names a desk at which its player has no seat.
const WITHOUT_A_SEAT_STEPS: &[Step] = &[
    Step(0, 1, Does::Enter(*b"Ann"), Said::Entered),
    Step(0, 2, Does::Enter(*b"Ben"), Said::Entered),
    Step(0, 1, Does::Resign(1), Said::Refused(20)),
    Step(0, 1, Does::Items(1), Said::Refused(18)),
    Step(0, 1, Does::Match(*b"Ben", Variant::Chess), Said::Done),
    Step(0, 2, Does::Accept(None), Said::Started),
    Step(0, 3, Does::Move(1, 12, 28), Said::Refused(20)),
    Step(0, 3, Does::Items(1), Said::Refused(18)),
    Step(0, 1, Does::Castle(1), Said::Refused(3)),
    Step(0, 1, Does::Move(1, 12, 28), Said::Done),
    Step(0, 1, Does::Knight(1, 21), Said::Refused(11)),
    Step(0, 1, Does::Leave(1), Said::Done),
    Step(0, 2, Does::Flag(1), Said::Refused(10)),
    Step(0, 1, Does::Items(1), Said::Refused(18)),
];

/// A name, and the steps of a server of its own.
const CASES: &[(&str, &[Step])] = &[
    ("who_is_not_in", WHO_IS_NOT_IN_STEPS),
    ("of_logins", OF_LOGINS_STEPS),
    ("without_a_seat", WITHOUT_A_SEAT_STEPS),
];

/// Looks at each case, whether it goes as it has to.
fn each_case(rt: &impl Abort, alloc: Global) -> Result<(), Fail> {
    for (name, steps) in CASES {
        assert_eq!(rt; first_failing_anew(alloc, steps)?, None, "{name}");
    }
    Ok(())
}

#[test]
fn acts_are_refused(rt: HostRuntime) -> Result<(), Fail> {
    each_case(&rt, rt.alloc())
}
