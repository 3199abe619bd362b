//! The acts of sessions that make and answer offers, in order.

use crate::evenings::{Asked, Step, first_failing_anew};
use std::test::Fail;
use test_server_steps::talk::Comes;

/// An offer at the present place, and then the round.
const OFFERS: &[Asked] = &[Asked::Where, Asked::Offer, Asked::Lines, Asked::News];

/// The desk has nothing to accept or decline, so the lobby is asked.
const ACCEPTS_NOTHING: &[Asked] = &[
    Asked::Where,
    Asked::AcceptOffer,
    Asked::Accept,
    Asked::Lines,
    Asked::News,
];

const DECLINES_NOTHING: &[Asked] = &[
    Asked::Where,
    Asked::DeclineOffer,
    Asked::Decline,
    Asked::Lines,
    Asked::News,
];

/// The desk has an offer, so the lobby isn't asked. The draw ends the game.
const ACCEPTS: &[Asked] = &[
    Asked::Where,
    Asked::AcceptOffer,
    Asked::Lines,
    Asked::News,
    Asked::Clear,
];

const DECLINES: &[Asked] = &[Asked::Where, Asked::DeclineOffer, Asked::Lines, Asked::News];

/// A challenge of somebody who is named is answered in the lobby alone.
const ACCEPTS_BEN: &[Asked] = &[Asked::Accept, Asked::Lines, Asked::News];

const DECLINES_BEN: &[Asked] = &[Asked::Decline, Asked::Lines, Asked::News];

/// Without a place the lobby is asked behind Where.
const ACCEPTS_ALONE: &[Asked] = &[Asked::Where, Asked::Accept, Asked::Lines];

const DECLINES_ALONE: &[Asked] = &[Asked::Where, Asked::Decline, Asked::Lines];

const STEPS: &[Step<'static>] = &[
    Step(1, 1_000, Comes::Line(b"accept"), ACCEPTS_NOTHING),
    Step(1, 1_000, Comes::Line(b"decline"), DECLINES_NOTHING),
    Step(1, 1_000, Comes::Line(b"accept Ben"), ACCEPTS_BEN),
    Step(1, 1_000, Comes::Line(b"decline Ben"), DECLINES_BEN),
    Step(1, 2_000, Comes::Line(b"abort"), OFFERS),
    Step(1, 2_000, Comes::Line(b"accept"), ACCEPTS_NOTHING),
    Step(2, 2_000, Comes::Line(b"decline"), DECLINES),
    Step(1, 3_000, Comes::Line(b"takeback 3"), OFFERS),
    Step(1, 3_000, Comes::Line(b"draw"), OFFERS),
    Step(2, 4_000, Comes::Line(b"accept"), ACCEPTS),
    Step(2, 4_000, Comes::Line(b"accept"), ACCEPTS_ALONE),
    Step(2, 4_000, Comes::Line(b"decline"), DECLINES_ALONE),
    Step(
        2,
        4_000,
        Comes::Line(b"draw"),
        &[Asked::Where, Asked::Lines],
    ),
];

#[test]
fn a_session_asks_the_desk_first(rt: HostRuntime) -> Result<(), Fail> {
    assert_eq!(rt; first_failing_anew(rt.alloc(), STEPS)?, None);
    Ok(())
}
