//! The acts of sessions that leave.

use crate::evenings::{Asked, first_differing, leaves, leaves_short, seat};
use fics_words::Fail as Failure;
use one_server::OneServer;
use std::alloc::Global;
use std::test::Fail;
use test_server_steps::{made, server};

const WHOLE: &[Asked] = &[Asked::Going, Asked::Leave, Asked::Clear, Asked::Bye];

const WITHOUT_A_PLACE: &[Asked] = &[Asked::Going, Asked::Bye];

/// Whether a session that leaves makes these acts.
fn is_left_by(
    alloc: Global,
    server: &mut OneServer,
    session: u32,
    acts: &[Asked],
) -> Result<bool, Failure> {
    let start = made(server);
    leaves(alloc, server, session, 9_000)?;
    Ok(first_differing(server, start, session, 9_000, acts).is_none())
}

/// Whether a session that leaves twice gives its place up at first, and has none then.
fn is_left_twice(alloc: Global) -> Result<bool, Failure> {
    let mut server = server(alloc)?;
    seats_and_leaves_twice(alloc, &mut server)
}

fn seats_and_leaves_twice(alloc: Global, server: &mut OneServer) -> Result<bool, Failure> {
    seat(server)?;
    Ok(is_left_by(alloc, server, 2, WHOLE)? && is_left_by(alloc, server, 2, WITHOUT_A_PLACE)?)
}

#[test]
fn a_session_that_leaves_gives_its_place_up(rt: HostRuntime) -> Result<(), Fail> {
    assert!(rt; is_left_twice(rt.alloc())?);
    Ok(())
}

/// Whether Ben, who is told his places by a round and then leaves, makes these acts, where the act behind `before`
/// others runs out of memory.
fn is_left_short(alloc: Global, before: u32, acts: &[Asked]) -> Result<bool, Failure> {
    let mut server = server(alloc)?;
    seats_and_leaves_short(alloc, &mut server, before, acts)
}

fn seats_and_leaves_short(
    alloc: Global,
    server: &mut OneServer,
    before: u32,
    acts: &[Asked],
) -> Result<bool, Failure> {
    seat(server)?;
    let start = made(server);
    let met_want = leaves_short(alloc, server, 2, 9_000, before)?;
    Ok(met_want && first_differing(server, start, 2, 9_000, acts).is_none())
}

const WITHOUT_GOING: &[Asked] = &[
    Asked::Lines,
    Asked::News,
    Asked::Leave,
    Asked::Clear,
    Asked::Bye,
];

/// Ben's places are those that a round told him, where the act that asks for them runs out of memory.
#[test]
fn a_session_without_memory_for_going_gives_its_place_up(rt: HostRuntime) -> Result<(), Fail> {
    assert!(rt; is_left_short(rt.alloc(), 0, WITHOUT_GOING)?);
    Ok(())
}

/// For each act of leaving, what is made where that one runs out of memory.
const PASSED_OVER: &[&[Asked]] = &[
    WITHOUT_GOING,
    &[
        Asked::Lines,
        Asked::News,
        Asked::Going,
        Asked::Clear,
        Asked::Bye,
    ],
    &[
        Asked::Lines,
        Asked::News,
        Asked::Going,
        Asked::Leave,
        Asked::Bye,
    ],
    &[
        Asked::Lines,
        Asked::News,
        Asked::Going,
        Asked::Leave,
        Asked::Clear,
    ],
];

/// Each act of leaving may run out of memory, and the others are made.
#[test]
fn a_session_passes_over_one_act_of_leaving(rt: HostRuntime) -> Result<(), Fail> {
    for (missing, acts) in PASSED_OVER.iter().enumerate() {
        assert!(rt; is_left_short(rt.alloc(), missing as u32, acts)?);
    }
    Ok(())
}
