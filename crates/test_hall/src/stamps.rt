//! A game over a stamped link, from the logins on, at a hall and over the server of one thread: at both the sessions
//! answer each line with the same bytes.

use crate::halls::{hall, two_seats};
use fics_words::Fail as Failure;
use one_server::Runner;
use session_core::Session;
use std::alloc::Global;
use std::sync::Wait;
use std::test::Fail;
use test_server_steps::talk::{Row, STAMPED_GAME, answers, first_failing};
use test_steps::first_wrong;
use turn_chain::OpenGate;

/// The place of the first row that is answered otherwise at a hall with an empty lobby, if one is.
fn over_hall<R: Wait>(rt: &R, alloc: Global, rows: &[Row]) -> Result<Option<usize>, Failure> {
    let (hall, first) = hall(alloc)?;
    let gate = OpenGate::new();
    let (mut ann, mut ben) = two_seats(rt, &hall, first, &gate);
    at_two_seats(alloc, &mut ann, &mut ben, rows)
}

/// The place of the first row of the sessions 1 and 2 that is answered otherwise at their seats, if one is.
fn at_two_seats<R: Runner>(
    alloc: Global,
    ann: &mut R,
    ben: &mut R,
    rows: &[Row],
) -> Result<Option<usize>, Failure> {
    let mut anns = Session::new(alloc);
    let mut bens = Session::new(alloc);
    by_sessions(alloc, ann, ben, &mut anns, &mut bens, rows)
}

fn by_sessions<R: Runner>(
    alloc: Global,
    ann: &mut R,
    ben: &mut R,
    anns: &mut Session,
    bens: &mut Session,
    rows: &[Row],
) -> Result<Option<usize>, Failure> {
    Ok(first_wrong!(
        rows,
        |row| if row.0 == 1 {
            answers(alloc, ann, anns, row)?
        } else {
            answers(alloc, ben, bens, row)?
        }
    ))
}

#[test]
fn a_stamped_game_is_answered_alike(rt: HostRuntime) -> Result<(), Fail> {
    assert_eq!(rt; over_hall(&rt, rt.alloc(), STAMPED_GAME)?, None);
    assert_eq!(rt; first_failing(rt.alloc(), STAMPED_GAME)?, None);
    Ok(())
}
