//! To and fro over as many half-moves as a pair can have.

use crate::examine::evenings::START;
use crate::examine::games::{Game, game_of};
use chess_model::Variant::Bughouse;
use examine_board::Exam;
use fics_words::Refusal;
use memory::NoMemory;
use std::alloc::Global;
use std::process::Abort;
use std::test::Fail;
use test_steps::first_wrong;
use test_steps::games::Halves;

/// Eight half-moves that lead both boards back to where they began.
const BOTH: Halves = &[
    "1g1f3", "2g1f3", "1g8f6", "2g8f6", "1f3g1", "2f3g1", "1f6g8", "2f6g8",
];

const LONGEST: Game = Game(0, 0, Bughouse, BOTH, 300);

/// A step on, or back where the number is below 0, and what the refusal is, if it is refused.
const STEPS: &[(i16, Option<Refusal>)] = &[
    (2_400, None),
    (1, Some(Refusal::NoMoreMoves)),
    (-2_400, None),
    (-1, Some(Refusal::NoEarlierMoves)),
    (2_401, Some(Refusal::NoMoreMoves)),
    (1_201, None),
    (-1_202, Some(Refusal::NoEarlierMoves)),
    (1_199, None),
    (-1, None),
    (1, None),
    (-2_400, None),
    (2_400, None),
    (-2_399, None),
    (-1, None),
];

/// Makes a step; its refusal, if it is refused.
fn stepped(exam: &mut Exam, by: i16) -> Option<Refusal> {
    let answer = if by < 0 {
        exam.back(by.unsigned_abs())
    } else {
        exam.forward(by.unsigned_abs())
    };
    answer.err()
}

/// Whether the exam is shown by as many lines as this, of which the first is this one.
fn is_shown(alloc: Global, exam: &Exam, count: usize, first: &str) -> Result<bool, NoMemory> {
    let lines = exam.lines(alloc)?;
    let lines = lines.as_slice();
    match lines.first() {
        Some(line) => Ok(lines.len() == count && line.bytes() == first.as_bytes()),
        None => Ok(false),
    }
}

/// Makes the steps; the place of the first that is answered otherwise, if one is, or else their number where the exam
/// isn't at the start then.
fn first_otherwise(alloc: Global, mut exam: Exam) -> Result<Option<usize>, NoMemory> {
    let wrong = first_wrong!(STEPS, |step| stepped(&mut exam, step.0) == step.1);
    if wrong.is_some() {
        return Ok(wrong);
    }
    if is_shown(alloc, &exam, 3, START)? {
        return Ok(None);
    }
    Ok(Some(STEPS.len()))
}

/// Opens the longest game, and makes the steps.
fn first_wrong_step(alloc: Global) -> Result<Option<usize>, NoMemory> {
    let game = game_of(alloc, LONGEST)?;
    match Exam::open(alloc, &game)? {
        Some(exam) => first_otherwise(alloc, exam),
        None => Ok(Some(0)),
    }
}

#[test]
fn a_pair_goes_to_and_fro(rt: HostRuntime) -> Result<(), Fail> {
    assert_eq!(rt; first_wrong_step(rt.alloc())?, None);
    Ok(())
}
