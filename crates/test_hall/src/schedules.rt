//! Schedules of acts: who waits for a part that is out, who doesn't, and what the hall gives back at its close.

use crate::halls::hall;
use crate::held::{Came, Course, Schedule, Try, Went, given_back};
use crate::parts::{Difference, QUESTIONS, first_difference};
use crate::steps::{Does, Game, Step, replied};
use fics_words::Fail as Failure;
use hall_core::HallParts;
use one_server::OneServer;
use std::alloc::Global;
use std::marker::Brand;
use std::sync::Wait;
use std::test::Fail;
use test_server_steps::{Said, server};

/// Ann and Ben play at desk 1, Cat and Fay at desk 2, whose game has the number 3. Dan seeks and Eve looks on.
const BEFORE: &[Step] = &[
    Step(0, 1, Does::Enter(*b"Ann"), Said::Entered),
    Step(0, 2, Does::Enter(*b"Ben"), Said::Entered),
    Step(0, 3, Does::Enter(*b"Cat"), Said::Entered),
    Step(0, 4, Does::Enter(*b"Dan"), Said::Entered),
    Step(0, 5, Does::Enter(*b"Eve"), Said::Entered),
    Step(0, 6, Does::Enter(*b"Fay"), Said::Entered),
    Step(0, 1, Does::Match(*b"Ben"), Said::Done),
    Step(0, 2, Does::Accept, Said::Started),
    Step(0, 3, Does::Match(*b"Fay"), Said::Done),
    Step(0, 6, Does::Accept, Said::Started),
    Step(1000, 4, Does::Seek, Said::Number(1)),
];

const SCHEDULES: &[Schedule] = &[
    // Desk 1 is out: Ben can't leave it until Ann has moved, and everybody else is answered.
    Schedule {
        held: Step(3000, 1, Does::Move(12, 28), Said::Done),
        part: 1,
        meanwhile: &[
            Try(3100, 2, Does::Going, Came::Done(Said::Places(1))),
            Try(3100, 2, Does::Leave, Came::Busy(1)),
            Try(3100, 2, Does::Clear, Came::Busy(1)),
            Try(3200, 3, Does::Move(12, 28), Came::Done(Said::Done)),
            Try(3200, 3, Does::Where, Came::Done(Said::Places(1))),
            Try(3300, 4, Does::Seek, Came::Done(Said::Number(2))),
            Try(3400, 5, Does::FindGame(3), Came::Done(Said::Found)),
            Try(3400, 5, Does::Watch, Came::Done(Said::Items(1, false))),
            Try(3500, 2, Does::Leave, Came::Busy(1)),
        ],
        afterwards: &[
            Step(4000, 2, Does::Leave, Said::Done),
            Step(4000, 2, Does::Clear, Said::Freed),
            Step(4000, 2, Does::Bye, Said::Done),
            Step(4100, 1, Does::Lines, Said::Waiting(2, 1)),
            Step(4100, 1, Does::Items, Said::Items(4, true)),
            Step(4200, 6, Does::Move(52, 36), Said::Done),
            Step(4200, 5, Does::Items, Said::Items(1, false)),
            Step(4300, 3, Does::Items, Said::Items(4, false)),
        ],
    },
    // The lobby is out, in an act that takes Ann's lines: only those who need no more than a desk are answered.
    Schedule {
        held: Step(3000, 1, Does::Lines, Said::Waiting(1, 1)),
        part: 0,
        meanwhile: &[
            Try(3100, 3, Does::Move(12, 28), Came::Done(Said::Done)),
            Try(3200, 4, Does::Seek, Came::Busy(0)),
            Try(3200, 2, Does::Going, Came::Busy(0)),
            Try(3200, 2, Does::Clear, Came::Busy(0)),
            Try(3300, 2, Does::Items, Came::Done(Said::Items(2, false))),
            Try(3400, 5, Does::FindGame(3), Came::Busy(0)),
            Try(3400, 5, Does::Watch, Came::Done(Said::Items(1, false))),
        ],
        afterwards: &[
            Step(4000, 4, Does::Seek, Said::Number(2)),
            Step(4100, 1, Does::Lines, Said::Waiting(1, 1)),
            Step(4200, 6, Does::Move(52, 36), Said::Done),
            Step(4200, 5, Does::Items, Said::Items(1, false)),
        ],
    },
    // The lobby is out, in an act that needs desk 1 next, which is still there.
    Schedule {
        held: Step(3000, 1, Does::Clear, Said::Kept),
        part: 0,
        meanwhile: &[
            Try(3100, 4, Does::Seek, Came::Busy(0)),
            Try(3100, 2, Does::Items, Came::Done(Said::Items(2, false))),
            Try(3200, 3, Does::Move(12, 28), Came::Done(Said::Done)),
        ],
        afterwards: &[
            Step(4000, 4, Does::Seek, Said::Number(2)),
            Step(4000, 1, Does::Move(12, 28), Said::Done),
        ],
    },
    // Both parts of that act are out.
    Schedule {
        held: Step(3000, 1, Does::Clear, Said::Kept),
        part: 1,
        meanwhile: &[
            Try(3100, 4, Does::Seek, Came::Busy(0)),
            Try(3100, 2, Does::Clear, Came::Busy(0)),
            Try(3100, 2, Does::Items, Came::Busy(1)),
            Try(3200, 3, Does::Move(12, 28), Came::Done(Said::Done)),
        ],
        afterwards: &[
            Step(4000, 2, Does::Items, Said::Items(2, false)),
            Step(4000, 4, Does::Seek, Said::Number(2)),
            Step(4000, 1, Does::Move(12, 28), Said::Done),
        ],
    },
];

const AS_SAID: Course = Course {
    before: Went::AsSaid,
    meanwhile: Went::AsSaid,
    held: Went::AsSaid,
    afterwards: Went::AsSaid,
};

/// What came of a schedule: its course at the hall, and where the hall's parts differ from those of the server of one
/// thread, if they do.
type Outcome = (Course, Option<Difference>);

/// What comes of a schedule at a hall with an empty lobby.
fn outcome<R: Wait>(
    rt: &R,
    alloc: Global,
    before: &[Step],
    schedule: &Schedule,
) -> Result<Option<Outcome>, Failure> {
    let (hall, first) = hall(alloc)?;
    let given = given_back::<Brand, R>(rt, alloc, hall, first, before, schedule);
    compared(alloc, given, before, schedule)
}

fn compared(
    alloc: Global,
    given: Option<(Course, HallParts)>,
    before: &[Step],
    schedule: &Schedule,
) -> Result<Option<Outcome>, Failure> {
    let Some((course, mut parts)) = given else {
        return Ok(None);
    };
    let difference = behind_one_thread(alloc, &mut parts, before, schedule)?;
    Ok(Some((course, difference)))
}

/// Where the parts differ from those of a server of one thread that made the acts of a schedule.
fn behind_one_thread(
    alloc: Global,
    parts: &mut HallParts,
    before: &[Step],
    schedule: &Schedule,
) -> Result<Option<Difference>, Failure> {
    let mut server = server(alloc)?;
    in_one_thread(alloc, &mut server, parts, before, schedule)
}

/// Gives the acts of a schedule to the server of one thread in the order of the hall's history, in which Ann's act
/// comes behind those that were made while she was held.
fn in_one_thread(
    alloc: Global,
    server: &mut OneServer,
    parts: &mut HallParts,
    before: &[Step],
    schedule: &Schedule,
) -> Result<Option<Difference>, Failure> {
    make_all(alloc, server, before)?;
    make_tried(alloc, server, schedule.meanwhile)?;
    make(alloc, server, schedule.held)?;
    make_all(alloc, server, schedule.afterwards)?;
    first_difference(alloc, parts, server, QUESTIONS)
}

fn make_all(alloc: Global, server: &mut OneServer, steps: &[Step]) -> Result<(), Failure> {
    for step in steps {
        make(alloc, server, *step)?;
    }
    Ok(())
}

/// Makes the acts of the tries that don't come to a busy part.
fn make_tried(alloc: Global, server: &mut OneServer, tries: &[Try]) -> Result<(), Failure> {
    for row in tries {
        let Try(moment, session, does, came) = *row;
        if let Came::Done(said) = came {
            make(alloc, server, Step(moment, session, does, said))?;
        }
    }
    Ok(())
}

fn make(alloc: Global, server: &mut OneServer, step: Step) -> Result<(), Failure> {
    let Step(moment, session, does, _) = step;
    let mut seat = server.seat(session);
    let _said = replied(&mut seat, alloc, moment, Game::of(session), does)?;
    Ok(())
}

#[test]
fn schedules_at_the_hall(rt: HostRuntime) -> Result<(), Fail> {
    for (place, schedule) in SCHEDULES.iter().enumerate() {
        let came = outcome(&rt, rt.alloc(), BEFORE, schedule)?;
        assert!(rt; came == Some((AS_SAID, None)), "schedule {place}");
    }
    Ok(())
}
