//! Stages of a game at a desk of two, each as it has to be.

use crate::shown::{ends_with_end, first_told_otherwise, last_clocks};
use crate::table::{ANN, Opening, SERIAL, Step, cleared, desk_of, first_failing, outcome};
use linked_desk::{Desk, Ended};
use std::alloc::Global;
use std::process::Abort;
use test_steps::first_wrong;

/// A stage of a game.
#[derive(Clone, Copy)]
pub enum Stage {
    /// These steps are made, each given what it has to be.
    Makes(&'static [Step]),
    /// Ann's board shows these times of White and Black, in milliseconds.
    Clocks([i64; 2]),
    /// A session is told these rows, as `first_told_otherwise` has them, and no others.
    Tells(u32, &'static [&'static str]),
    /// The last that a session is told is an end by that line.
    ShowsEnd(u32, &'static str),
    /// The game has that end, or none, and so many viewers.
    Outcome(Option<Ended>, usize),
    /// The game is still at the desk.
    Stays,
    /// The desk becomes vacant.
    Clears,
}

/// A name, what stands at the desk, and the stages.
pub struct Case {
    pub name: &'static str,
    pub opening: Opening,
    pub stages: &'static [Stage],
}

/// Whether a stage is as it has to be.
fn holds(desk: &mut Desk, stage: Stage) -> bool {
    match stage {
        Stage::Makes(steps) => first_failing(desk, SERIAL, steps).is_none(),
        Stage::Clocks(times) => last_clocks(desk, ANN) == Some(times),
        Stage::Tells(session, rows) => first_told_otherwise(desk, session, rows).is_none(),
        Stage::ShowsEnd(session, line) => ends_with_end(desk, session, line),
        Stage::Outcome(ended, viewers) => outcome(desk) == (ended, viewers),
        Stage::Stays => desk.serial() == Some(SERIAL),
        Stage::Clears => cleared(desk),
    }
}

/// The place of the first stage that isn't as it has to be, if one isn't.
pub fn first_wrong_at(desk: &mut Desk, stages: &[Stage]) -> Option<usize> {
    first_wrong!(stages, |stage| holds(desk, *stage))
}

/// The same of a case at a desk of its own. A test that has no desk of its own is proved in a fraction of the time.
fn first_wrong_of(rt: &impl Abort, alloc: Global, case: &Case) -> Option<usize> {
    let mut desk = desk_of(rt, alloc, case.opening);
    first_wrong_at(&mut desk, case.stages)
}

/// Looks at each case, whether it goes as it has to.
pub fn each_case(rt: &impl Abort, alloc: Global, cases: &[Case]) {
    for case in cases {
        assert_eq!(rt; first_wrong_of(rt, alloc, case), None, "{}", case.name);
    }
}
