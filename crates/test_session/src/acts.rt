//! The acts of sessions, in order.

use crate::evenings::{Asked, Step, first_failing_anew, takes};
use fics_words::Fail as Failure;
use one_server::OneServer;
use std::alloc::Global;
use std::test::Fail;
use test_server_steps::server;
use test_server_steps::talk::Comes;

const AT_DESK: &[Asked] = &[Asked::Where, Asked::Move, Asked::Lines, Asked::News];

const FLAG: &[Asked] = &[Asked::Where, Asked::Flag, Asked::Lines, Asked::News];

const OFFER: &[Asked] = &[Asked::Where, Asked::Offer, Asked::Lines, Asked::News];

const STORED: &[Asked] = &[Asked::Stored, Asked::Lines, Asked::News];

const RESUME: &[Asked] = &[Asked::Resume, Asked::Lines, Asked::News];

const RESIGN: &[Asked] = &[
    Asked::Where,
    Asked::Resign,
    Asked::Lines,
    Asked::News,
    Asked::Clear,
];

const STEPS: &[Step] = &[
    Step(1, 1_000, Comes::Line(b""), &[Asked::Lines, Asked::News]),
    Step(1, 2_000, Comes::Line(b"e2e4"), AT_DESK),
    Step(2, 3_000, Comes::Quiet, &[Asked::Lines, Asked::News]),
    Step(2, 3_500, Comes::Ack(7), &[Asked::Where, Asked::Acked]),
    Step(1, 3_500, Comes::Line(b"adjourn"), OFFER),
    Step(1, 3_500, Comes::Line(b"stored"), STORED),
    Step(1, 3_500, Comes::Line(b"resume Ben"), RESUME),
    Step(2, 3_500, Comes::TooLong, &[Asked::Lines, Asked::News]),
    Step(1, 4_000, Comes::Line(b"flag"), FLAG),
    Step(2, 5_000, Comes::Line(b"resign"), RESIGN),
    Step(
        2,
        6_000,
        Comes::Line(b"resign"),
        &[Asked::Where, Asked::Lines],
    ),
    Step(
        1,
        7_000,
        Comes::Quiet,
        &[Asked::Lines, Asked::News, Asked::Clear],
    ),
    Step(1, 8_000, Comes::Quiet, &[Asked::Lines]),
    Step(1, 8_000, Comes::Ack(7), &[Asked::Where]),
    Step(1, 8_000, Comes::Line(b"quit"), &[Asked::Going, Asked::Bye]),
];

#[test]
fn a_session_makes_the_acts_of_its_script(rt: HostRuntime) -> Result<(), Fail> {
    assert_eq!(rt; first_failing_anew(rt.alloc(), STEPS)?, None);
    Ok(())
}

#[test]
fn a_player_without_a_place_is_answered_by_the_session(rt: HostRuntime) -> Result<(), Fail> {
    assert!(rt; is_answered_alone(rt.alloc())?);
    Ok(())
}

/// Whether a player without a place is refused what a place has, and then told nothing.
fn is_answered_alone(alloc: Global) -> Result<bool, Failure> {
    let mut server = server(alloc)?;
    is_refused_and_told_nothing(alloc, &mut server)
}

fn is_refused_and_told_nothing(alloc: Global, server: &mut OneServer) -> Result<bool, Failure> {
    Ok(is_refused(alloc, server)? && is_told_nothing(alloc, server)?)
}

fn is_refused(alloc: Global, server: &mut OneServer) -> Result<bool, Failure> {
    let answer = takes(alloc, server, 7, 0, Comes::Line(b"flag"))?;
    Ok(answer.as_slice() == b"refused 20 NotPlaying\n\rfics% ".as_slice())
}

fn is_told_nothing(alloc: Global, server: &mut OneServer) -> Result<bool, Failure> {
    Ok(takes(alloc, server, 7, 0, Comes::Quiet)?.is_empty())
}
