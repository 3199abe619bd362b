//! Evenings of a few players: joining, the start, results, refusals and the table.

use fics_words::{Fail, Handle, HandleKey, Refusal};
use std::alloc::Global;
use test_steps::first_wrong;
use tourney_desk::{Score, ScoreRow, Tourney};

/// What a call has to answer: nothing where it is done, and else the refusal; `TooLong` stands for want of memory.
type Answer = Option<Refusal>;

/// A call, and what it has to answer. Players are named by the letters of their handles.
#[derive(Clone, Copy)]
enum Step {
    Join(&'static [u8], Answer),
    /// The start of so many rounds.
    Start(u8),
    NoStart(Refusal),
    /// The pairs of a round.
    Pairs(u8, &'static [(u8, u8)]),
    NoPairs(u8, Refusal),
    Report(&'static [u8], &'static [u8], Score, Answer),
    /// The table: of each row the player, the games and the half-points.
    Table(&'static [(u8, u8, u8)]),
    NoTable(Refusal),
}

const THREE: &[Step] = &[
    Step::NoStart(Refusal::TooFewPlayers),
    Step::Join(b"Ann", None),
    Step::NoStart(Refusal::TooFewPlayers),
    Step::Join(b"aNN", Some(Refusal::HandleTaken)),
    Step::Join(b"Ben", None),
    Step::Join(b"Cat", None),
    Step::NoPairs(1, Refusal::TourneyNotStarted),
    Step::NoTable(Refusal::TourneyNotStarted),
    Step::Report(
        b"Ben",
        b"Cat",
        Score::White,
        Some(Refusal::TourneyNotStarted),
    ),
    Step::Start(3),
    Step::NoStart(Refusal::TourneyStarted),
    Step::Join(b"Dan", Some(Refusal::TourneyStarted)),
    Step::NoPairs(0, Refusal::NoSuchRound),
    Step::Pairs(1, &[(1, 2)]),
    Step::Pairs(2, &[(0, 1)]),
    Step::Pairs(3, &[(2, 0)]),
    Step::NoPairs(4, Refusal::NoSuchRound),
    Step::Table(&[(0, 0, 0), (1, 0, 0), (2, 0, 0)]),
    Step::Report(b"ben", b"CAT", Score::Draw, None),
    Step::Table(&[(1, 1, 1), (2, 1, 1), (0, 0, 0)]),
    Step::Report(b"Ben", b"Cat", Score::White, Some(Refusal::AlreadyReported)),
    Step::Report(b"Cat", b"Ben", Score::White, Some(Refusal::NotPaired)),
    Step::Report(b"Ann", b"Ann", Score::White, Some(Refusal::NotPaired)),
    Step::Report(b"Ann", b"Dan", Score::White, Some(Refusal::NotPaired)),
    Step::Report(b"Cat", b"Ann", Score::Black, None),
    Step::Table(&[(0, 1, 2), (1, 1, 1), (2, 2, 1)]),
];

const FOUR: &[Step] = &[
    Step::Join(b"Zoe", None),
    Step::Join(b"Yan", None),
    Step::Join(b"Xia", None),
    Step::Join(b"Wim", None),
    Step::Start(3),
    Step::Pairs(1, &[(0, 3), (1, 2)]),
    Step::Pairs(2, &[(0, 1), (2, 3)]),
    Step::Pairs(3, &[(2, 0), (3, 1)]),
    Step::Table(&[(3, 0, 0), (2, 0, 0), (1, 0, 0), (0, 0, 0)]),
    Step::Report(b"Zoe", b"Wim", Score::White, None),
    Step::Report(b"Yan", b"Xia", Score::Draw, None),
    Step::Report(b"Wim", b"Zoe", Score::Draw, Some(Refusal::NotPaired)),
    Step::Report(b"Wim", b"Yan", Score::Black, None),
    Step::Table(&[(1, 2, 3), (0, 1, 2), (2, 1, 1), (3, 2, 0)]),
];

const TWO: &[Step] = &[
    Step::Join(b"Eve", None),
    Step::Join(b"Fay", None),
    Step::Start(1),
    Step::Pairs(1, &[(0, 1)]),
    Step::NoPairs(2, Refusal::NoSuchRound),
    Step::Report(b"Fay", b"Eve", Score::White, Some(Refusal::NotPaired)),
    Step::Report(b"Eve", b"Fay", Score::Black, None),
    Step::Table(&[(1, 1, 2), (0, 1, 0)]),
];

fn cause_of(fail: Fail) -> Answer {
    match fail {
        Fail::Refused(cause) => Some(cause),
        Fail::Memory => Some(Refusal::TooLong),
    }
}

fn key_of(letters: &[u8]) -> Option<HandleKey> {
    let name = Handle::read(letters)?;
    Some(name.key())
}

fn joined(tourney: &mut Tourney, letters: &[u8]) -> Answer {
    let Some(name) = Handle::read(letters) else {
        return Some(Refusal::BadHandle);
    };
    match tourney.join(name) {
        Ok(()) => None,
        Err(fail) => cause_of(fail),
    }
}

fn started(tourney: &mut Tourney) -> Result<u8, Fail> {
    tourney.start()
}

fn reported(tourney: &mut Tourney, white: &[u8], black: &[u8], score: Score) -> Answer {
    let (Some(white), Some(black)) = (key_of(white), key_of(black)) else {
        return Some(Refusal::BadHandle);
    };
    match tourney.report(white, black, score) {
        Ok(()) => None,
        Err(cause) => Some(cause),
    }
}

fn paired(tourney: &Tourney, round: u8) -> Result<Vec<(u8, u8)>, Fail> {
    tourney.pairs(round)
}

fn tabled(tourney: &Tourney) -> Result<Vec<ScoreRow>, Fail> {
    tourney.table()
}

fn are_pairs(told: Result<Vec<(u8, u8)>, Fail>, pairs: &[(u8, u8)]) -> bool {
    match told {
        Ok(told) => told.as_slice() == pairs,
        Err(_) => false,
    }
}

fn are_rows(told: &[ScoreRow], rows: &[(u8, u8, u8)]) -> bool {
    if told.len() != rows.len() {
        return false;
    }
    for (row, wanted) in told.iter().zip(rows) {
        if !is_row(row, *wanted) {
            return false;
        }
    }
    true
}

fn is_row(row: &ScoreRow, wanted: (u8, u8, u8)) -> bool {
    row.player == wanted.0 && row.games == wanted.1 && row.halves == wanted.2
}

fn refuses_start(tourney: &mut Tourney, cause: Refusal) -> bool {
    match started(tourney) {
        Ok(_) => false,
        Err(fail) => cause_of(fail) == Some(cause),
    }
}

fn refuses_pairs(tourney: &Tourney, round: u8, cause: Refusal) -> bool {
    match paired(tourney, round) {
        Ok(_) => false,
        Err(fail) => cause_of(fail) == Some(cause),
    }
}

fn refuses_table(tourney: &Tourney, cause: Refusal) -> bool {
    match tabled(tourney) {
        Ok(_) => false,
        Err(fail) => cause_of(fail) == Some(cause),
    }
}

fn is_table(told: Result<Vec<ScoreRow>, Fail>, rows: &[(u8, u8, u8)]) -> bool {
    match told {
        Ok(told) => are_rows(told.as_slice(), rows),
        Err(_) => false,
    }
}

fn are_rounds(told: Result<u8, Fail>, rounds: u8) -> bool {
    match told {
        Ok(told) => told == rounds,
        Err(_) => false,
    }
}

fn is_as_expected(tourney: &mut Tourney, step: &Step) -> bool {
    match step {
        Step::Join(name, answer) => joined(tourney, name) == *answer,
        Step::Start(rounds) => are_rounds(started(tourney), *rounds),
        Step::NoStart(cause) => refuses_start(tourney, *cause),
        Step::Pairs(round, pairs) => are_pairs(paired(tourney, *round), pairs),
        Step::NoPairs(round, cause) => refuses_pairs(tourney, *round, *cause),
        Step::Report(white, black, score, answer) => {
            reported(tourney, white, black, *score) == *answer
        }
        Step::Table(rows) => is_table(tabled(tourney), rows),
        Step::NoTable(cause) => refuses_table(tourney, *cause),
    }
}

/// The place of the first step that answers otherwise, if one does.
fn first_failing(tourney: &mut Tourney, steps: &[Step]) -> Option<usize> {
    first_wrong!(steps, |step| is_as_expected(tourney, step))
}

fn first_failing_anew(alloc: Global, steps: &[Step]) -> Option<usize> {
    let mut tourney = Tourney::new(alloc);
    first_failing(&mut tourney, steps)
}

#[test]
fn three_play(rt: HostRuntime) {
    assert_eq!(rt; first_failing_anew(rt.alloc(), THREE), None);
}

#[test]
fn four_play(rt: HostRuntime) {
    assert_eq!(rt; first_failing_anew(rt.alloc(), FOUR), None);
}

#[test]
fn two_play(rt: HostRuntime) {
    assert_eq!(rt; first_failing_anew(rt.alloc(), TWO), None);
}
