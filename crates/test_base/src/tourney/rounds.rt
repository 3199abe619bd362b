//! Tourneys of as many players as there can be, and of one fewer.

use fics_words::{Fail, Handle, Refusal};
use std::alloc::Global;
use test_steps::first_wrong;
use tourney_desk::Tourney;

/// A player of three letters for each number below 676 joins; false where it is refused.
fn joins(tourney: &mut Tourney, number: u8) -> bool {
    match Handle::read(&[b'a' + number / 26, b'a' + number % 26, b'x']) {
        Some(name) => tourney.join(name).is_ok(),
        None => false,
    }
}

/// How many of so many players are let in.
fn count_of_joined(tourney: &mut Tourney, players: u8) -> u8 {
    let mut count = 0u8;
    for number in 0..players {
        if joins(tourney, number) {
            count = count.saturating_add(1);
        }
    }
    count
}

fn rounds(tourney: &mut Tourney) -> Result<u8, Fail> {
    tourney.start()
}

fn paired(tourney: &Tourney, round: u8) -> Result<Vec<(u8, u8)>, Fail> {
    tourney.pairs(round)
}

/// How many pairs the round has, and the first of them.
fn first_pair(tourney: &Tourney, round: u8) -> Option<(usize, (u8, u8))> {
    let Ok(pairs) = paired(tourney, round) else {
        return None;
    };
    let first = pairs.as_slice().first()?;
    Some((pairs.len(), *first))
}

/// A round, how many pairs it has, and the first of them.
type Round = (u8, Option<(usize, (u8, u8))>);

/// Those who come, those who are let in, and some of the 63 rounds that they play.
struct Evening {
    come: u8,
    joined: u8,
    rounds: &'static [Round],
}

/// What 63 players play: they are odd, so one is free in each of 63 rounds. In the first round player 0 is free, since
/// 0 and 0 leave nothing, and 1 meets 62; in the second 0 meets 1.
const ODD: Evening = Evening {
    come: 63,
    joined: 63,
    rounds: &[
        (1, Some((31, (1, 62)))),
        (2, Some((31, (0, 1)))),
        (63, Some((31, (62, 0)))),
        (64, None),
    ],
};

/// What 64 players play: nobody is free, and the 65th isn't let in.
const EVEN: Evening = Evening {
    come: 70,
    joined: 64,
    rounds: &[
        (1, Some((32, (0, 63)))),
        (2, Some((32, (0, 1)))),
        (63, Some((32, (62, 0)))),
    ],
};

fn first_wrong_round(tourney: &Tourney, rounds: &[Round]) -> Option<usize> {
    first_wrong!(rounds, |(round, pair)| first_pair(tourney, *round) == *pair)
}

fn is_played(tourney: &mut Tourney, evening: &Evening) -> bool {
    count_of_joined(tourney, evening.come) == evening.joined
        && matches!(rounds(tourney), Ok(63))
        && first_wrong_round(tourney, evening.rounds).is_none()
}

fn is_played_anew(alloc: Global, evening: &Evening) -> bool {
    let mut tourney = Tourney::new(alloc);
    is_played(&mut tourney, evening)
}

#[test]
fn sixty_three_play(rt: HostRuntime) {
    assert!(rt; is_played_anew(rt.alloc(), &ODD));
}

#[test]
fn sixty_four_play(rt: HostRuntime) {
    assert!(rt; is_played_anew(rt.alloc(), &EVEN));
}

/// Whether one player more than there can be is refused.
fn refuses_one_more(tourney: &mut Tourney) -> bool {
    let _joined = count_of_joined(tourney, 64);
    match Handle::read(b"Zoe") {
        Some(name) => is_full(tourney.join(name)),
        None => false,
    }
}

fn is_full(answer: Result<(), Fail>) -> bool {
    matches!(answer, Err(Fail::Refused(Refusal::TourneyFull)))
}

fn refuses_one_more_anew(alloc: Global) -> bool {
    let mut tourney = Tourney::new(alloc);
    refuses_one_more(&mut tourney)
}

#[test]
fn sixty_five_are_too_many(rt: HostRuntime) {
    assert!(rt; refuses_one_more_anew(rt.alloc()));
}
