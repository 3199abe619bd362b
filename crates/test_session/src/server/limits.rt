//! Refusals that come where a list is at its end: half-moves, desks, lines, sessions, and men in hand.

use chess_model::Variant;
use memory::NoMemory;
use one_server::OneServer;
use std::alloc::Global;
use std::process::Abort;
use std::test::Fail;
use test_server_steps::{Does, Said, Step, first_failing, is_as_expected, server};
use test_steps::{first_wrong, least_wrong};

/// Ann and Ben at desk 1.
const SEATED_AT_CHESS: &[Step] = &[
    Step(0, 1, Does::Enter(*b"Ann"), Said::Entered),
    Step(0, 2, Does::Enter(*b"Ben"), Said::Entered),
    Step(0, 1, Does::Match(*b"Ben", Variant::Chess), Said::Done),
    Step(0, 2, Does::Accept(None), Said::Started),
];

const SEATED_AT_CRAZYHOUSE: &[Step] = &[
    Step(0, 1, Does::Enter(*b"Ann"), Said::Entered),
    Step(0, 2, Does::Enter(*b"Ben"), Said::Entered),
    Step(0, 1, Does::Match(*b"Ben", Variant::Crazyhouse), Said::Done),
    Step(0, 2, Does::Accept(None), Said::Started),
];

/// A part of a test at one server.
enum Part {
    Steps(&'static [Step]),
    /// These steps so many times.
    Times(u32, &'static [Step]),
    /// 256 sessions enter, each under a name of its own.
    AllEnter,
    /// 128 pairs of them sit down.
    AllSitDown,
}

/// The place of the first part at a new server in which a step is replied otherwise, if there is one.
fn first_failing_part(alloc: Global, parts: &[Part]) -> Result<Option<usize>, NoMemory> {
    let mut server = server(alloc)?;
    Ok(first_wrong_part(&mut server, parts))
}

fn first_wrong_part(server: &mut OneServer, parts: &[Part]) -> Option<usize> {
    first_wrong!(parts, |part| holds(server, part))
}

fn holds(server: &mut OneServer, part: &Part) -> bool {
    match part {
        Part::Steps(steps) => first_failing(server, steps).is_none(),
        Part::Times(times, steps) => first_failing_time(server, *times, steps).is_none(),
        Part::AllEnter => first_outside(server).is_none(),
        Part::AllSitDown => first_unseated(server).is_none(),
    }
}

/// The first of so many times at which steps are replied otherwise, if there is one.
fn first_failing_time(server: &mut OneServer, times: u32, steps: &[Step]) -> Option<u32> {
    least_wrong!(0..times, |_time| first_failing(server, steps).is_none())
}

/// The first of 256 sessions that doesn't enter under its name, if one doesn't.
fn first_outside(server: &mut OneServer) -> Option<u32> {
    least_wrong!(0..256u32, |number| {
        let step = Step(0, number, Does::Enter(name_of(number)), Said::Entered);
        is_as_expected(server, &step)
    })
}

/// A name of three letters, another one for each number below 676.
fn name_of(number: u32) -> [u8; 3] {
    [b'x', letter(number / 26), letter(number % 26)]
}

fn letter(number: u32) -> u8 {
    b'a' + (number % 26) as u8
}

/// Whether a session challenges the next one, and a game starts.
fn starts(server: &mut OneServer, one: u32) -> bool {
    let challenge = Does::Match(name_of(one.wrapping_add(1)), Variant::Chess);
    is_as_expected(server, &Step(0, one, challenge, Said::Done))
        && is_as_expected(
            server,
            &Step(0, one.wrapping_add(1), Does::Accept(None), Said::Started),
        )
}

/// The first of 128 pairs of sessions that starts no game, if one doesn't.
fn first_unseated(server: &mut OneServer) -> Option<u32> {
    least_wrong!(0..128u32, |pair| starts(server, 2 * pair))
}

const AFTER_1200_HALF_MOVES_ROUND: &[Step] = &[
    Step(0, 1, Does::Move(1, 6, 21), Said::Done),
    Step(0, 2, Does::Move(1, 62, 45), Said::Done),
    Step(0, 1, Does::Move(1, 21, 6), Said::Done),
    Step(0, 2, Does::Move(1, 45, 62), Said::Done),
];

const AFTER_1200_HALF_MOVES_MORE: &[Step] = &[
    Step(0, 2, Does::Move(1, 62, 45), Said::Refused(11)),
    Step(0, 1, Does::Move(1, 6, 21), Said::Refused(12)),
    Step(0, 1, Does::Move(1, 28, 36), Said::Refused(12)),
    Step(0, 1, Does::Resign(1), Said::Done),
];

const ENDS_AFTER_1200: &[Part] = &[
    Part::Steps(SEATED_AT_CHESS),
    Part::Times(300, AFTER_1200_HALF_MOVES_ROUND),
    Part::Steps(AFTER_1200_HALF_MOVES_MORE),
];

const WITHOUT_A_FREE_DESK_STEPS: &[Step] = &[
    Step(0, 0, Does::Going, Said::Places(1)),
    Step(0, 0, Does::Leave(1), Said::Done),
    Step(0, 0, Does::Bye, Said::Done),
    Step(0, 1, Does::Going, Said::Places(1)),
    Step(0, 1, Does::Leave(1), Said::Done),
    Step(0, 1, Does::Bye, Said::Done),
    Step(0, 300, Does::Enter(*b"Ann"), Said::Entered),
    Step(0, 301, Does::Enter(*b"Ben"), Said::Entered),
    Step(0, 300, Does::Match(*b"Ben", Variant::Chess), Said::Done),
    Step(0, 301, Does::Accept(None), Said::Refused(35)),
    Step(0, 300, Does::Clear(1), Said::Cleared),
    Step(0, 301, Does::Accept(None), Said::Started),
];

const FREES_A_DESK: &[Part] = &[
    Part::AllEnter,
    Part::AllSitDown,
    Part::Steps(WITHOUT_A_FREE_DESK_STEPS),
];

const OF_DROPS_STEPS: &[Step] = &[
    Step(0, 1, Does::Drop(1, 28), Said::Refused(5)),
    Step(0, 1, Does::Move(1, 12, 28), Said::Done),
    Step(0, 2, Does::Move(1, 51, 35), Said::Done),
    Step(0, 1, Does::Move(1, 28, 35), Said::Done),
    Step(0, 2, Does::Move(1, 57, 42), Said::Done),
    Step(0, 1, Does::Drop(1, 57), Said::Refused(7)),
    Step(0, 1, Does::Drop(1, 35), Said::Refused(6)),
    Step(0, 1, Does::Drop(1, 28), Said::Done),
    Step(0, 2, Does::Drop(1, 36), Said::Refused(5)),
];

const REFUSES_DROPS: &[Part] = &[
    Part::Steps(SEATED_AT_CRAZYHOUSE),
    Part::Steps(OF_DROPS_STEPS),
];

const OF_FULL_LISTS_TWO: &[Step] = &[
    Step(0, 1, Does::Enter(*b"Ann"), Said::Entered),
    Step(0, 2, Does::Enter(*b"Ben"), Said::Entered),
];

const OF_FULL_LISTS_FULL: &[Step] = &[Step(
    0,
    1,
    Does::Match(*b"Ben", Variant::Chess),
    Said::Refused(49),
)];

const OF_FULL_LISTS_MORE: &[Step] = &[Step(0, 1, Does::Match(*b"Ben", Variant::Chess), Said::Done)];

const AT_A_FULL_LIST: &[Part] = &[
    Part::Steps(OF_FULL_LISTS_TWO),
    Part::Times(512, OF_FULL_LISTS_MORE),
    Part::Steps(OF_FULL_LISTS_FULL),
];

const OF_A_FULL_HALL_STEPS: &[Step] = &[
    Step(0, 256, Does::Enter(*b"Ann"), Said::Refused(25)),
    Step(0, 5, Does::Bye, Said::Done),
    Step(0, 256, Does::Enter(*b"Ann"), Said::Entered),
];

const AT_A_FULL_HALL: &[Part] = &[Part::AllEnter, Part::Steps(OF_A_FULL_HALL_STEPS)];

/// A name, and the parts of a test at a server of its own.
const CASES: &[(&str, &[Part])] = &[
    // Knights go out and home again for 1,200 half-moves.
    ("after_1200_half_moves", ENDS_AFTER_1200),
    // All desks are in use, the first one by two who left the hall without a Clear.
    ("without_a_free_desk", FREES_A_DESK),
    // A pawn in hand, and where it may not be dropped: b8 is empty, d5 isn't.
    ("of_drops", REFUSES_DROPS),
    ("of_full_lists", AT_A_FULL_LIST),
    ("of_a_full_hall", AT_A_FULL_HALL),
];

/// Looks at each case, whether it goes as it has to.
fn each_case(rt: &impl Abort, alloc: Global) -> Result<(), Fail> {
    for (name, steps) in CASES {
        assert_eq!(rt; first_failing_part(alloc, steps)?, None, "{name}");
    }
    Ok(())
}

#[test]
fn lists_end(rt: HostRuntime) -> Result<(), Fail> {
    each_case(&rt, rt.alloc())
}
