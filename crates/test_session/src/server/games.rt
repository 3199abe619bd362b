//! Games by acts alone, with each reply.

use chess_model::Variant;
use std::test::Fail;
use test_server_steps::{Does, Said, Step, first_failing_anew, made_anew};

const A_GAME_THAT_IS_RESIGNED_STEPS: &[Step] = &[
    Step(0, 1, Does::Enter(*b"Ann"), Said::Entered),
    Step(0, 2, Does::Enter(*b"Ben"), Said::Entered),
    Step(0, 1, Does::Match(*b"Ben", Variant::Chess), Said::Done),
    Step(0, 2, Does::Lines, Said::Waiting(1, 0)),
    Step(0, 2, Does::Lines, Said::Waiting(0, 0)),
    Step(0, 2, Does::Accept(None), Said::Started),
    Step(0, 1, Does::Where, Said::Places(1)),
    Step(0, 1, Does::Items(1), Said::Items(2, false)),
    Step(0, 1, Does::Items(1), Said::Items(0, false)),
    Step(3000, 1, Does::Move(1, 12, 28), Said::Done),
    Step(5000, 2, Does::Move(1, 52, 36), Said::Done),
    Step(9000, 1, Does::Move(1, 6, 21), Said::Done),
    Step(9100, 1, Does::Items(1), Said::Items(3, false)),
    Step(9200, 2, Does::Clear(1), Said::Kept),
    Step(9500, 2, Does::Resign(1), Said::Done),
    Step(9600, 2, Does::Items(1), Said::Items(6, true)),
    Step(9700, 2, Does::Clear(1), Said::Freed),
    Step(9700, 2, Does::Where, Said::Places(0)),
    Step(9700, 1, Does::Lines, Said::Waiting(0, 1)),
    Step(9800, 1, Does::Items(1), Said::Items(1, true)),
    Step(9900, 1, Does::Clear(1), Said::Cleared),
    Step(9900, 1, Does::Where, Said::Places(0)),
    Step(9900, 1, Does::Clear(1), Said::Kept),
    Step(9900, 1, Does::Items(1), Said::Refused(18)),
];

#[test]
fn a_game_that_is_resigned(rt: HostRuntime) -> Result<(), Fail> {
    assert_eq!(rt;
        made_anew(rt.alloc(), A_GAME_THAT_IS_RESIGNED_STEPS)?,
        Some(24)
    );
    Ok(())
}

const A_PLAYER_WHO_LEAVES_STEPS: &[Step] = &[
    Step(0, 7, Does::Enter(*b"Ann"), Said::Entered),
    Step(0, 9, Does::Enter(*b"Ben"), Said::Entered),
    Step(0, 7, Does::Match(*b"Ben", Variant::Chess), Said::Done),
    Step(0, 9, Does::Accept(Some(*b"Ann")), Said::Started),
    Step(0, 7, Does::Going, Said::Places(1)),
    Step(0, 7, Does::Leave(1), Said::Done),
    Step(0, 7, Does::Clear(1), Said::Freed),
    Step(0, 7, Does::Bye, Said::Done),
    Step(0, 7, Does::Where, Said::Places(0)),
    Step(0, 9, Does::Items(1), Said::Items(3, true)),
    Step(0, 9, Does::Clear(1), Said::Cleared),
    Step(0, 7, Does::Enter(*b"Ann"), Said::Entered),
    Step(0, 7, Does::Match(*b"Ben", Variant::Chess), Said::Done),
    Step(0, 9, Does::Accept(None), Said::Started),
    Step(0, 7, Does::Resign(1), Said::Refused(20)),
    Step(0, 7, Does::Resign(2), Said::Done),
];

#[test]
fn a_player_who_leaves(rt: HostRuntime) -> Result<(), Fail> {
    assert_eq!(rt;
        first_failing_anew(rt.alloc(), A_PLAYER_WHO_LEAVES_STEPS)?,
        None
    );
    Ok(())
}
