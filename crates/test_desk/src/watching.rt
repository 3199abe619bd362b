//! Looking on at another game than the desk has, and at a vacant desk; and how much is said at one.
ghost use Rattle.std.specs.Prelude.{IfSome};
ghost use Rattle.linked_desk.specs.Acts.{FitsDeskAct};

use crate::table::Given::Refused;
use crate::table::{ANN, Given, Opening, SERIAL, answered, desk_of};
use fics_words::{Line, Refusal};
use linked_desk::{Desk, DeskAct};
use std::alloc::Global;
use std::process::Abort;
use test_steps::first_wrong;

/// What a session does at the desk.
#[derive(Clone, Copy)]
enum Does {
    Watch,
    Unwatch,
    Show,
    Remark,
    /// Says something so many times, and the last of them is given that.
    RemarkTimes(u16),
}

/// A session, what it does, and what it has to be given.
#[derive(Clone, Copy)]
struct Step(u32, Does, Given);

/// There is no such game.
const NOWHERE: &[Step] = &[
    Step(ANN, Does::Watch, Refused(Refusal::NoSuchGame)),
    Step(ANN, Does::Unwatch, Refused(Refusal::NotWatching)),
    Step(ANN, Does::Show, Refused(Refusal::NoSuchGame)),
    Step(ANN, Does::Remark, Refused(Refusal::NoSuchGame)),
];

/// So many remarks are told, and then no more.
const REMARKS: &[Step] = &[
    Step(ANN, Does::RemarkTimes(1_024), Given::Done),
    Step(ANN, Does::Remark, Refused(Refusal::FeedFull)),
];

/// A name, what stands at the desk, the serial that is named, and the steps.
const CASES: &[(&str, Opening, u64, &[Step])] = &[
    (
        "nobody_looks_on_elsewhere",
        Opening::Chess(0, 0),
        SERIAL + 1,
        NOWHERE,
    ),
    (
        "nobody_looks_on_at_a_vacant_desk",
        Opening::Vacant,
        SERIAL,
        NOWHERE,
    ),
    ("remarks_are_counted", Opening::Chess(0, 0), SERIAL, REMARKS),
];

/// The place of the first step at the game of that serial that is given something else, if one is.
fn first_failing(alloc: Global, desk: &mut Desk, serial: u64, steps: &[Step]) -> Option<usize> {
    first_wrong!(
        steps,
        |step| what_comes(alloc, desk, serial, step.0, step.1) == step.2
    )
}

/// The same at a desk with that opening.
fn first_failing_anew(
    rt: &impl Abort,
    alloc: Global,
    opening: Opening,
    serial: u64,
    steps: &[Step],
) -> Option<usize> {
    let mut desk = desk_of(rt, alloc, opening);
    first_failing(alloc, &mut desk, serial, steps)
}

/// What the last of so many remarks is given, where those before it are told.
fn remarks(alloc: Global, desk: &mut Desk, serial: u64, session: u32, times: u16) -> Given {
    for _remark in 1..times {
        let given = what_is_said(alloc, desk, serial, session, Does::Remark);
        if given != Given::Done {
            return given;
        }
    }
    what_is_said(alloc, desk, serial, session, Does::Remark)
}

fn what_comes(alloc: Global, desk: &mut Desk, serial: u64, session: u32, does: Does) -> Given {
    match does {
        Does::RemarkTimes(times) => remarks(alloc, desk, serial, session, times),
        _ => what_is_said(alloc, desk, serial, session, does),
    }
}

fn what_is_said(alloc: Global, desk: &mut Desk, serial: u64, session: u32, does: Does) -> Given {
    match act_of(alloc, does) {
        Some(act) => answered(desk, session, 0, serial, &act),
        None => Given::Nothing,
    }
}

fn act_of(alloc: Global, does: Does) -> Option<DeskAct>
    ensures { IfSome result FitsDeskAct }
{
    match does {
        Does::Watch => Some(DeskAct::Watch),
        Does::Unwatch => Some(DeskAct::Unwatch),
        Does::Show => Some(DeskAct::Show),
        Does::Remark | Does::RemarkTimes(_) => Some(DeskAct::Remark {
            text: remark(alloc)?,
        }),
    }
}

/// A remark, if there is memory for it.
fn remark(alloc: Global) -> Option<Line> {
    match Line::read(alloc, b"Ann kibitzes: hi") {
        Ok(text) => text,
        Err(_) => None,
    }
}

/// Looks at each case, whether it goes as it has to.
fn each_case(rt: &impl Abort, alloc: Global) {
    for (name, opening, serial, steps) in CASES {
        assert_eq!(rt;
            first_failing_anew(rt, alloc, *opening, *serial, steps),
            None,
            "{name}"
        );
    }
}

#[test]
fn looking_on(rt: HostRuntime) {
    each_case(&rt, rt.alloc());
}
