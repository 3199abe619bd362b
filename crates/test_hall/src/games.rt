//! Games by two sessions, over the server of one thread and at the seats of a hall.

use crate::halls::{hall, two_seats};
use crate::steps::{Does, Game, Step, replied};
use fics_words::Fail as Failure;
use one_server::{OneServer, Runner};
use std::alloc::Global;
use std::sync::Wait;
use std::test::Fail;
use test_server_steps::{Said, server};
use test_steps::first_wrong;
use turn_chain::OpenGate;

/// A game that is resigned. Both players then clear the desk: the first gives up its place and the second one frees the
/// desk, and a Clear after that changes nothing.
const GAME: &[Step] = &[
    Step(0, 1, Does::Enter(*b"Ann"), Said::Entered),
    Step(0, 2, Does::Enter(*b"Ben"), Said::Entered),
    Step(0, 1, Does::Match(*b"Ben"), Said::Done),
    Step(0, 2, Does::Lines, Said::Waiting(1, 0)),
    Step(0, 2, Does::Accept, Said::Started),
    Step(0, 1, Does::Where, Said::Places(1)),
    Step(0, 1, Does::Items, Said::Items(2, false)),
    Step(3000, 1, Does::Move(12, 28), Said::Done),
    Step(5000, 2, Does::Move(52, 36), Said::Done),
    Step(9000, 1, Does::Move(6, 21), Said::Done),
    Step(9100, 1, Does::Items, Said::Items(3, false)),
    Step(9200, 2, Does::Clear, Said::Kept),
    Step(9500, 2, Does::Resign, Said::Done),
    Step(9600, 2, Does::Items, Said::Items(6, true)),
    Step(9700, 2, Does::Clear, Said::Freed),
    Step(9700, 2, Does::Where, Said::Places(0)),
    Step(9800, 1, Does::Items, Said::Items(1, true)),
    Step(9900, 1, Does::Clear, Said::Cleared),
    Step(9900, 1, Does::Clear, Said::Kept),
    Step(9900, 1, Does::Items, Said::Refused(18)),
];

/// After a resignation both players fetch what is left of the game, so that nobody looks on any more, and then both
/// clear the desk: the first Clear frees it for everybody, the second finds nothing to clear, and neither player has a
/// place.
const CLEARED_TWICE: &[Step] = &[
    Step(0, 1, Does::Enter(*b"Ann"), Said::Entered),
    Step(0, 2, Does::Enter(*b"Ben"), Said::Entered),
    Step(0, 1, Does::Match(*b"Ben"), Said::Done),
    Step(0, 2, Does::Accept, Said::Started),
    Step(3000, 1, Does::Move(12, 28), Said::Done),
    Step(4000, 2, Does::Resign, Said::Done),
    Step(4100, 1, Does::Items, Said::Items(4, true)),
    Step(4200, 2, Does::Items, Said::Items(4, true)),
    Step(4300, 1, Does::Clear, Said::Cleared),
    Step(4400, 2, Does::Clear, Said::Kept),
    Step(4500, 1, Does::Where, Said::Places(0)),
    Step(4500, 2, Does::Where, Said::Places(0)),
];

/// The place of the first step that is replied otherwise at a hall with an empty lobby, if one is.
fn over_hall<R: Wait>(rt: &R, alloc: Global, steps: &[Step]) -> Result<Option<usize>, Failure> {
    let (hall, first) = hall(alloc)?;
    let gate = OpenGate::new();
    let (mut ann, mut ben) = two_seats(rt, &hall, first, &gate);
    at_two_seats(alloc, &mut ann, &mut ben, steps)
}

/// The place of the first step of the sessions 1 and 2 that is replied otherwise at their seats, if one is.
pub fn at_two_seats<R: Runner>(
    alloc: Global,
    ann: &mut R,
    ben: &mut R,
    steps: &[Step],
) -> Result<Option<usize>, Failure> {
    Ok(first_wrong!(steps, |step| {
        let seat = if step.1 == 1 { &mut *ann } else { &mut *ben };
        replied(seat, alloc, step.0, Game::First, step.2)? == step.3
    }))
}

/// The place of the first step that is replied otherwise by the server of one thread, if one is.
fn over_one_server(alloc: Global, steps: &[Step]) -> Result<Option<usize>, Failure> {
    let mut server = server(alloc)?;
    at_the_server(alloc, &mut server, steps)
}

fn at_the_server(
    alloc: Global,
    server: &mut OneServer,
    steps: &[Step],
) -> Result<Option<usize>, Failure> {
    Ok(first_wrong!(steps, |step| {
        let mut seat = server.seat(step.1);
        replied(&mut seat, alloc, step.0, Game::First, step.2)? == step.3
    }))
}

#[test]
fn games_over_the_server_of_one_thread(rt: HostRuntime) -> Result<(), Fail> {
    assert_eq!(rt; over_one_server(rt.alloc(), GAME)?, None);
    assert_eq!(rt; over_one_server(rt.alloc(), CLEARED_TWICE)?, None);
    Ok(())
}

#[test]
fn the_same_games_at_the_hall(rt: HostRuntime) -> Result<(), Fail> {
    assert_eq!(rt; over_hall(&rt, rt.alloc(), GAME)?, None);
    assert_eq!(rt; over_hall(&rt, rt.alloc(), CLEARED_TWICE)?, None);
    Ok(())
}
