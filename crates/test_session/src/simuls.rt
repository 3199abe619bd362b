//! The acts of who gives a simul, in order: behind each half-move that is accepted comes the next place.

use crate::evenings::{Asked, Step, enter, first_failing, ran, start};
use fics_words::{Fail, Handle};
use lobby_state::LobbyAct;
use one_server::{Act, OneServer};
use std::alloc::Global;
use std::test::Fail as TestFail;
use test_server_steps::talk::Comes;
use test_server_steps::{handle, server};

/// Ann, session 1, gives a simul.
fn open(server: &mut OneServer) -> Result<Handle, Fail> {
    let ann = handle(b"Ann")?;
    enter(server, 1, ann)?;
    ran(server, 1, Act::Lobby(LobbyAct::SimOpen))?;
    Ok(ann)
}

/// The session enters under this name, and plays against the giver, who has White.
fn join(server: &mut OneServer, giver: Handle, session: u32, name: &[u8; 3]) -> Result<(), Fail> {
    enter(server, session, handle(name)?)?;
    start(server, session, 1, giver)
}

/// Ben, session 2, plays against the giver.
fn give_to_one(server: &mut OneServer) -> Result<(), Fail> {
    let ann = open(server)?;
    join(server, ann, 2, b"Ben")
}

/// So does Cid, session 3.
fn give_to_two(server: &mut OneServer) -> Result<(), Fail> {
    let ann = open(server)?;
    join(server, ann, 2, b"Ben")?;
    join(server, ann, 3, b"Cid")
}

fn first_failing_of_one(
    alloc: Global,
    server: &mut OneServer,
    steps: &[Step<'_>],
) -> Result<Option<usize>, Fail> {
    give_to_one(server)?;
    Ok(first_failing(alloc, server, steps))
}

fn first_failing_of_two(
    alloc: Global,
    server: &mut OneServer,
    steps: &[Step<'_>],
) -> Result<Option<usize>, Fail> {
    give_to_two(server)?;
    Ok(first_failing(alloc, server, steps))
}

/// The place of the first step at a new server that makes other acts, where Ann gives a simul to Ben.
fn first_failing_of_one_anew(alloc: Global, steps: &[Step<'_>]) -> Result<Option<usize>, Fail> {
    let mut server = server(alloc)?;
    first_failing_of_one(alloc, &mut server, steps)
}

/// The same where she gives it to Ben and Cid.
fn first_failing_of_two_anew(alloc: Global, steps: &[Step<'_>]) -> Result<Option<usize>, Fail> {
    let mut server = server(alloc)?;
    first_failing_of_two(alloc, &mut server, steps)
}

/// A half-move of the giver that is accepted, one that is refused, and one of an opponent.
const TURNS: &[Asked] = &[
    Asked::Where,
    Asked::Move,
    Asked::SimNext,
    Asked::Lines,
    Asked::News,
    Asked::News,
];

const STAYS: &[Asked] = &[
    Asked::Where,
    Asked::Move,
    Asked::Lines,
    Asked::News,
    Asked::News,
];

const PLAYS: &[Asked] = &[Asked::Where, Asked::Move, Asked::Lines, Asked::News];

const NEXT: &[Asked] = &[Asked::SimNext, Asked::Lines, Asked::News, Asked::News];

const PREVIOUS: &[Asked] = &[Asked::SimPrev, Asked::Lines, Asked::News, Asked::News];

const GOES: &[Asked] = &[Asked::GoBoard, Asked::Lines, Asked::News, Asked::News];

const OPENS: &[Asked] = &[Asked::SimOpen, Asked::Lines, Asked::News, Asked::News];

const RESIGNS: &[Asked] = &[
    Asked::Where,
    Asked::Resign,
    Asked::Lines,
    Asked::News,
    Asked::Clear,
];

const HEARS: &[Asked] = &[Asked::Lines, Asked::News, Asked::News, Asked::Clear];

const CLOSES: &[Asked] = &[Asked::SimOpen, Asked::Lines, Asked::News];

/// Ann begins at Ben's board. Once Cid has resigned she has one place, and gives no simul any more.
const OF_TWO: &[Step<'static>] = &[
    Step(1, 1_000, Comes::Line(b"e2e4"), TURNS),
    Step(1, 1_000, Comes::Line(b"e2e5"), STAYS),
    Step(2, 2_000, Comes::Line(b"e7e5"), PLAYS),
    Step(1, 3_000, Comes::Line(b"d2d4"), TURNS),
    Step(1, 3_000, Comes::Line(b"simnext"), NEXT),
    Step(1, 3_000, Comes::Line(b"simprev"), PREVIOUS),
    Step(1, 3_000, Comes::Line(b"goboard Cid"), GOES),
    Step(1, 3_000, Comes::Line(b"simopen"), OPENS),
    Step(3, 4_000, Comes::Line(b"resign"), RESIGNS),
    Step(1, 5_000, Comes::Quiet, HEARS),
    Step(1, 6_000, Comes::Line(b"simopen"), CLOSES),
    Step(1, 7_000, Comes::Line(b"g1f3"), PLAYS),
];

/// With one place the next one is the same.
const ONE_TURNS: &[Asked] = &[
    Asked::Where,
    Asked::Move,
    Asked::SimNext,
    Asked::Lines,
    Asked::News,
];

/// A mate is an accepted half-move.
const MATES: &[Asked] = &[
    Asked::Where,
    Asked::Move,
    Asked::SimNext,
    Asked::Lines,
    Asked::News,
    Asked::Clear,
];

const OF_ONE: &[Step<'static>] = &[
    Step(1, 0, Comes::Line(b"e4"), ONE_TURNS),
    Step(2, 0, Comes::Line(b"e5"), PLAYS),
    Step(1, 0, Comes::Line(b"Qh5"), ONE_TURNS),
    Step(2, 0, Comes::Line(b"Nc6"), PLAYS),
    Step(1, 0, Comes::Line(b"Bc4"), ONE_TURNS),
    Step(2, 0, Comes::Line(b"Nf6"), PLAYS),
    Step(1, 0, Comes::Line(b"Qxf7"), MATES),
];

#[test]
fn a_giver_goes_on_behind_a_half_move(rt: HostRuntime) -> Result<(), TestFail> {
    assert_eq!(rt; first_failing_of_two_anew(rt.alloc(), OF_TWO)?, None);
    assert_eq!(rt; first_failing_of_one_anew(rt.alloc(), OF_ONE)?, None);
    Ok(())
}
