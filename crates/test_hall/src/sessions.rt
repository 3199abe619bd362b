//! An evening of two players by lines, from their logins to their goodbyes, at a hall and over the server of one
//! thread: the sessions write the same bytes.

use crate::halls::{hall, two_seats};
use fics_words::Fail as Failure;
use one_server::{OneServer, Runner};
use session_core::Session;
use std::alloc::Global;
use std::sync::Wait;
use std::test::Fail;
use test_server_steps::server;
use test_server_steps::talk::{Comes, answered};
use turn_chain::OpenGate;

/// The moment in milliseconds, the session, and what comes from its player.
#[derive(Clone, Copy)]
struct Came(u32, u32, Comes);

const EVENING: &[Came] = &[
    Came(100, 1, Comes::Line(b"Ann")),
    Came(200, 2, Comes::Line(b"Ben")),
    Came(300, 1, Comes::Line(b"match Ben 2 12 white")),
    Came(400, 2, Comes::Line(b"accept")),
    Came(1000, 1, Comes::Quiet),
    Came(3000, 1, Comes::Line(b"e2e4")),
    Came(3100, 1, Comes::Line(b"d2d4")),
    Came(5000, 2, Comes::Line(b"e7e5")),
    Came(6000, 1, Comes::Quiet),
    Came(6500, 2, Comes::Line(b"flag")),
    Came(9000, 1, Comes::Line(b"g1f3")),
    Came(9100, 2, Comes::Line(b"a1h8")),
    Came(9500, 2, Comes::Line(b"resign")),
    Came(9600, 1, Comes::Line(b"")),
    Came(9700, 1, Comes::Line(b"resign")),
    Came(9800, 2, Comes::Quiet),
    Came(9900, 1, Comes::Line(b"quit")),
    Came(9900, 2, Comes::Line(b"quit")),
];

/// Appends what a session writes for what comes from its player.
fn hear<R: Runner>(
    seat: &mut R,
    alloc: Global,
    session: &mut Session,
    came: Came,
    out: &mut Vec<u8>,
) -> Result<(), Failure> {
    let bytes = answered(alloc, seat, session, came.0, came.2)?;
    Ok(out.extend_from_slice(bytes.as_slice())?)
}

/// What both sessions write at a hall, in the order in which it is written.
fn at_the_hall<R: Wait>(rt: &R, alloc: Global, evening: &[Came]) -> Result<Vec<u8>, Failure> {
    let (hall, first) = hall(alloc)?;
    let gate = OpenGate::new();
    let (mut ann, mut ben) = two_seats(rt, &hall, first, &gate);
    both(alloc, &mut ann, &mut ben, evening)
}

/// What two sessions write at their seats.
fn both<R: Runner>(
    alloc: Global,
    ann: &mut R,
    ben: &mut R,
    evening: &[Came],
) -> Result<Vec<u8>, Failure> {
    let mut anns = Session::new(alloc);
    let mut bens = Session::new(alloc);
    by_sessions(alloc, ann, ben, &mut anns, &mut bens, evening)
}

fn by_sessions<R: Runner>(
    alloc: Global,
    ann: &mut R,
    ben: &mut R,
    anns: &mut Session,
    bens: &mut Session,
    evening: &[Came],
) -> Result<Vec<u8>, Failure> {
    let mut out = Vec::new(alloc);
    for came in evening {
        if came.1 == 1 {
            hear(ann, alloc, anns, *came, &mut out)?;
        } else {
            hear(ben, alloc, bens, *came, &mut out)?;
        }
    }
    Ok(out)
}

/// What both sessions write over the server of one thread.
fn over_one_server(alloc: Global, evening: &[Came]) -> Result<Vec<u8>, Failure> {
    let mut server = server(alloc)?;
    at_the_server(alloc, &mut server, evening)
}

fn at_the_server(
    alloc: Global,
    server: &mut OneServer,
    evening: &[Came],
) -> Result<Vec<u8>, Failure> {
    let mut anns = Session::new(alloc);
    let mut bens = Session::new(alloc);
    by_sessions_there(alloc, server, &mut anns, &mut bens, evening)
}

fn by_sessions_there(
    alloc: Global,
    server: &mut OneServer,
    anns: &mut Session,
    bens: &mut Session,
    evening: &[Came],
) -> Result<Vec<u8>, Failure> {
    let mut out = Vec::new(alloc);
    for came in evening {
        let mut seat = server.seat(came.1);
        if came.1 == 1 {
            hear(&mut seat, alloc, anns, *came, &mut out)?;
        } else {
            hear(&mut seat, alloc, bens, *came, &mut out)?;
        }
    }
    Ok(out)
}

/// The last things written are the refusal of Ann's resignation, since the game is over, and two goodbyes.
#[test]
fn two_sessions_write_the_same(rt: HostRuntime) -> Result<(), Fail> {
    let threads = at_the_hall(&rt, rt.alloc(), EVENING)?;
    let alone = over_one_server(rt.alloc(), EVENING)?;
    assert!(rt; threads.as_slice() == alone.as_slice());
    assert!(rt; alone.len() > 1000);
    assert!(rt;
        alone
            .as_slice()
            .ends_with(b"refused 20 NotPlaying\n\rfics% Goodbye.\n\rGoodbye.\n\r")
    );
    Ok(())
}
