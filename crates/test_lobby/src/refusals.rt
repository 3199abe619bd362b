//! Refusals that no line of a player brings: of who isn't in the hall or is going, and where the hall, a queue or the
//! desks are full. One can't come by any acts: 35 by the count of games. 47 is tried over the accounts alone.

use crate::login_steps::{Login, Met, first_failing_login};
use crate::seek_steps::{playing, posts};
use crate::steps::{
    CHESS, DONE, PAIRS, Step, asking, challenging, entering, first_failing, first_failing_anew,
    hall, numbered, starts,
};
use lobby_state::Lobby;
use memory::NoMemory;
use std::alloc::Global;
use std::test::Fail;

const ENTERING_IS_REFUSED_TAKEN: &[Step] = &[
    Step::Enter(1, *b"Ann", DONE),
    Step::Enter(2, *b"aNN", 24),
    Step::Enter(1, *b"Ben", 24),
    Step::Going(1),
    Step::Enter(2, *b"Ann", 24),
];

const ENTERING_IS_REFUSED_FULL: &[Step] = &[
    Step::Enter(300, *b"Zoe", 25),
    Step::Enter(1, *b"Ann", 25),
    Step::Bye(1),
    Step::Enter(300, *b"Ann", DONE),
];

const ENTERING_IS_REFUSED_OUTSIDE: &[Login] = &[
    Login::Guest(301, Met::Refused(25)),
    Login::Guest(2, Met::Refused(25)),
    Login::Password(301, b"Ann", 1, Met::Refused(25)),
];

/// Whether these sessions enter, each under a name of its own.
fn all_enter(lobby: &mut Lobby, first: u32, end: u32) -> bool {
    for n in first..end {
        if entering(lobby, n, &numbered(n)) != DONE {
            return false;
        }
    }
    true
}

fn refuses_entrances(alloc: Global) -> Result<bool, NoMemory> {
    let mut lobby = hall(alloc)?;
    Ok(
        first_failing(&mut lobby, ENTERING_IS_REFUSED_TAKEN).is_none()
            && all_enter(&mut lobby, 2, 257)
            && first_failing_login(&mut lobby, ENTERING_IS_REFUSED_OUTSIDE).is_none()
            && first_failing(&mut lobby, ENTERING_IS_REFUSED_FULL).is_none(),
    )
}

#[test]
fn entering_is_refused(rt: HostRuntime) -> Result<(), Fail> {
    assert!(rt; refuses_entrances(rt.alloc())?);
    Ok(())
}

const WHO_IS_NOT_IN_IS_REFUSED_STEPS: &[Step] = &[
    Step::Enter(1, *b"Ann", DONE),
    Step::Enter(3, *b"Cid", DONE),
    Step::Match(1, *b"Cid", CHESS, DONE),
    Step::Going(3),
    Step::Match(9, *b"Ann", CHESS, 54),
    Step::Ask(9, None, 54),
    Step::Ask(9, Some(*b"Ann"), 54),
    // that who asks isn't in comes before that nobody has the name
    Step::Match(9, *b"Zoe", CHESS, 54),
    Step::Ask(9, Some(*b"Zoe"), 54),
    // who is going can't be named, not even by itself
    Step::Match(1, *b"Cid", CHESS, 32),
    Step::Match(3, *b"Cid", CHESS, 32),
];

const A_FULL_QUEUE_REFUSES_STEPS: &[Step] = &[
    Step::Enter(1, *b"Ann", DONE),
    Step::Enter(2, *b"Ben", DONE),
    Step::MatchTimes(1, *b"Ben", CHESS, 512),
    Step::Match(1, *b"Ben", CHESS, 49),
    Step::Match(1, *b"Ben", PAIRS, 37),
    Step::Fetch(2, 512),
    Step::Match(1, *b"Ben", CHESS, DONE),
];

/// A name, and the steps of a lobby of its own.
const CASES: &[(&str, &[Step])] = &[
    ("who_is_not_in_is_refused", WHO_IS_NOT_IN_IS_REFUSED_STEPS),
    ("a_full_queue_refuses", A_FULL_QUEUE_REFUSES_STEPS),
];

#[test]
fn acts_are_refused(rt: HostRuntime) -> Result<(), Fail> {
    for (name, steps) in CASES {
        assert_eq!(rt; first_failing_anew(rt.alloc(), steps)?, None, "{name}");
    }
    Ok(())
}

const ALL_DESKS_ARE_IN_USE_STEPS: &[Step] = &[
    Step::Bye(0),
    Step::Bye(1),
    Step::Enter(0, *b"Ann", DONE),
    Step::Enter(1, *b"Ben", DONE),
    Step::Match(0, *b"Ben", CHESS, DONE),
];

/// Whether two sessions sit down at the desk of their number.
fn sit_down(lobby: &mut Lobby, pair: u8) -> bool {
    let white = u32::from(pair);
    let black = white + 128;
    if challenging(lobby, white, &numbered(black), CHESS) != DONE {
        return false;
    }
    let offering = if pair % 2 == 0 { white } else { black };
    starts(
        lobby,
        black,
        pair.wrapping_add(1),
        u64::from(pair) + 1,
        offering,
    )
}

fn all_sit_down(lobby: &mut Lobby) -> bool {
    for pair in 0..128u8 {
        if !sit_down(lobby, pair) {
            return false;
        }
    }
    true
}

/// Whether two who have left their desk find no other one, by a challenge and by a seek.
fn finds_no_desk(lobby: &mut Lobby) -> bool {
    first_failing(lobby, ALL_DESKS_ARE_IN_USE_STEPS).is_none()
        && asking(lobby, 1, None) == 35
        && posts(lobby, 0, CHESS, 1, DONE)
        && playing(lobby, 1, 1) == 35
}

fn has_128_desks(alloc: Global) -> Result<bool, NoMemory> {
    let mut lobby = hall(alloc)?;
    Ok(all_enter(&mut lobby, 0, 256) && all_sit_down(&mut lobby) && finds_no_desk(&mut lobby))
}

#[test]
fn all_desks_are_in_use(rt: HostRuntime) -> Result<(), Fail> {
    assert!(rt; has_128_desks(rt.alloc())?);
    Ok(())
}
