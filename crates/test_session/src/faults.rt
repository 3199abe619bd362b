//! A player's link each call of which fails once, on one evening.

ghost use Rattle.std.specs.Prelude.{◌≡◌, false};

use crate::calls::{end_at, written_before};
use crate::links::{Gives, link_of};
use crate::opponent::{OpposedSeat, Spoken};
use crate::script_clock::ScriptClock;
use fics_words::Fail as Failure;
use link_core::{LinkEnd, serve_link};
use memory::NoMemory;
use memory_edges::MemLink;
use one_server::OneServer;
use std::alloc::Global;
use std::test::Fail;
use test_server_steps::server;
use test_steps::least_wrong;

/// What comes over Alice's link.
const ALICE: &[Gives] = &[
    Gives::Piece(b"Alice\n"),
    Gives::Piece(b"seek 5 0 white\n"),
    Gives::Piece(b"e4\n"),
    Gives::Piece(b"tell bob hi\n"),
    Gives::Pause,
    Gives::Piece(b"quit\n"),
];

/// The moments at which it comes, in milliseconds.
const MOMENTS: &[u64] = &[0, 1_000, 5_000, 7_000, 9_000, 9_500];

/// What Bob says meanwhile.
const BOB: &[Spoken] = &[
    Spoken(0, b"Bob"),
    Spoken(2_000, b"play 1"),
    Spoken(6_000, b"e5"),
    Spoken(8_000, b"resign"),
];

/// How many calls are tried, some of which her link doesn't come to.
const TRIED: usize = 30;

/// Serves Alice's link, which isn't closed.
fn serves(alloc: Global, server: &mut OneServer, link: &mut MemLink) -> LinkEnd
    requires { link.old.tale.closed ≡ false }
{
    let clock = ScriptClock::new(MOMENTS);
    let mut seat = OpposedSeat::new(alloc, server, BOB);
    serve_link(alloc, &mut seat, link, &clock)
}

/// Whether Alice's link whose call of this number fails ends by that, and was written what comes before it.
fn ends_at(alloc: Global, call: usize) -> Result<bool, Failure> {
    let expected = written_before(alloc, call)?;
    let mut link = link_of(alloc, ALICE, &[call as u64])?;
    let mut server = server(alloc)?;
    let end = serves(alloc, &mut server, &mut link);
    Ok(end == end_at(call) && link.written() == expected.as_slice())
}

#[test]
fn a_link_ends_by_the_kind_of_the_call_that_fails(rt: HostRuntime) -> Result<(), Fail> {
    assert_eq!(rt;
        least_wrong!(0..TRIED, |call| ends_at(rt.alloc(), call)?),
        None
    );
    Ok(())
}
