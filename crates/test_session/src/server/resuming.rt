//! Games that are adjourned, stored and resumed, by acts alone, with each reply.

use chess_model::Variant;
use std::test::Fail;
use test_server_steps::{Does, Said, Step, first_failing_anew};

/// Two who are registered adjourn a game of one half-move and resume it, under another serial; then one of them leaves,
/// which adjourns it again. Accounts and games make save orders, and those that are saved go. Ben has been told of the
/// challenge and twice of the asking.
const TWICE_ADJOURNED: &[Step] = &[
    Step(0, 1, Does::Resume(*b"Ben"), Said::Refused(54)),
    Step(0, 1, Does::Stored, Said::Refused(54)),
    Step(0, 9, Does::Orders, Said::Orders(0)),
    Step(0, 1, Does::Enter(*b"Ann"), Said::Entered),
    Step(0, 2, Does::Enter(*b"Ben"), Said::Entered),
    Step(0, 1, Does::Register(1), Said::Done),
    Step(0, 2, Does::Register(2), Said::Done),
    Step(0, 9, Does::Orders, Said::Orders(2)),
    Step(0, 1, Does::Resume(*b"Cid"), Said::Refused(32)),
    Step(0, 1, Does::Resume(*b"Ann"), Said::Refused(50)),
    Step(0, 1, Does::Resume(*b"Ben"), Said::Refused(44)),
    Step(0, 1, Does::Match(*b"Ben", Variant::Chess), Said::Done),
    Step(0, 2, Does::Accept(None), Said::Started),
    Step(1000, 1, Does::Move(1, 12, 28), Said::Done),
    Step(2000, 1, Does::Adjourn(1), Said::Done),
    Step(2000, 1, Does::Adjourn(1), Said::Refused(17)),
    Step(2000, 1, Does::AcceptOffer(1), Said::Refused(16)),
    Step(2000, 2, Does::AcceptOffer(1), Said::Done),
    Step(2000, 2, Does::Move(1, 52, 36), Said::Refused(10)),
    Step(2000, 2, Does::Items(1), Said::Items(5, true)),
    Step(2000, 2, Does::Clear(1), Said::Freed),
    Step(2000, 2, Does::Stored, Said::Lines(0)),
    Step(2000, 1, Does::Items(1), Said::Items(5, true)),
    Step(2000, 1, Does::Clear(1), Said::Cleared),
    Step(2000, 1, Does::Clear(1), Said::Kept),
    Step(2000, 1, Does::Stored, Said::Lines(1)),
    Step(2000, 2, Does::Stored, Said::Lines(1)),
    Step(2000, 9, Does::Orders, Said::Orders(3)),
    Step(3000, 1, Does::Resume(*b"Ben"), Said::Asked),
    Step(3000, 1, Does::Resume(*b"Ben"), Said::Asked),
    Step(3000, 2, Does::Lines, Said::Waiting(3, 0)),
    Step(3000, 2, Does::Resume(*b"Ann"), Said::Started),
    Step(3000, 2, Does::Stored, Said::Lines(0)),
    Step(3000, 9, Does::Orders, Said::Orders(4)),
    Step(3000, 9, Does::Saved(3), Said::Done),
    Step(3000, 9, Does::Orders, Said::Orders(1)),
    Step(3000, 1, Does::Where, Said::Places(1)),
    Step(3000, 2, Does::Move(1, 52, 36), Said::Refused(20)),
    Step(4000, 2, Does::Move(2, 52, 36), Said::Done),
    Step(4000, 1, Does::Items(2), Said::Items(3, false)),
    Step(5000, 1, Does::Leave(2), Said::Done),
    Step(5000, 1, Does::Clear(2), Said::Freed),
    Step(5000, 2, Does::Items(2), Said::Items(4, true)),
    Step(5000, 2, Does::Clear(2), Said::Cleared),
    Step(5000, 2, Does::Stored, Said::Lines(1)),
    Step(5000, 9, Does::Orders, Said::Orders(2)),
];

/// Guests don't adjourn, and who leaves a game of guests loses it: nothing is stored.
const OF_GUESTS: &[Step] = &[
    Step(0, 1, Does::Enter(*b"Ann"), Said::Entered),
    Step(0, 2, Does::Enter(*b"Ben"), Said::Entered),
    Step(0, 1, Does::Register(1), Said::Done),
    Step(0, 1, Does::Match(*b"Ben", Variant::Chess), Said::Done),
    Step(0, 2, Does::Accept(None), Said::Started),
    Step(0, 1, Does::Adjourn(1), Said::Refused(53)),
    Step(0, 2, Does::Adjourn(1), Said::Refused(53)),
    Step(0, 1, Does::Leave(1), Said::Done),
    Step(0, 1, Does::Clear(1), Said::Freed),
    Step(0, 2, Does::Items(1), Said::Items(3, true)),
    Step(0, 2, Does::Clear(1), Said::Cleared),
    Step(0, 1, Does::Stored, Said::Lines(0)),
    Step(0, 1, Does::Resume(*b"Ben"), Said::Refused(44)),
    Step(0, 9, Does::Orders, Said::Orders(1)),
];

#[test]
fn adjourned_games_are_resumed(rt: HostRuntime) -> Result<(), Fail> {
    assert_eq!(rt; first_failing_anew(rt.alloc(), TWICE_ADJOURNED)?, None);
    assert_eq!(rt; first_failing_anew(rt.alloc(), OF_GUESTS)?, None);
    Ok(())
}
