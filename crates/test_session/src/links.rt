//! Links in memory: how they end, what is written to them, and how often the clock is asked.

ghost use Rattle.std.specs.Prelude.{◌≡◌, false, IfOk};

use edge_traits::{Clock, StillClock};
use fics_words::Fail as Failure;
use link_core::{LinkEnd, serve_link};
use memory::NoMemory;
use memory_edges::{LinkStep, MemLink};
use std::alloc::Global;
use std::cell::Cell;
use std::test::Fail;
use test_server_steps::server;
use test_steps::first_wrong;
use test_steps::limits::LINE_BYTES;

const OPENING: &[u8] = b"Free Internet Chess Server profile\n\rlogin: ";

const GUEST: &[u8] =
    b"Free Internet Chess Server profile\n\rlogin: Entered as GuestAAAA.\n\rfics% Goodbye.\n\r";

const REST: &[u8] =
    b"Free Internet Chess Server profile\n\rlogin: Entered as GuestAAAA.\n\rfics% refused 20 NotPlaying\n\rfics% ";

const CUT: &[u8] = b"Free Internet Chess Server profile\n\rlogin: Entered as GuestAAAA.\n\rfics% ";

/// A line of 1,023 bytes is read, and is no command; a longer one is refused once.
const LONG: &[u8] =
    b"Free Internet Chess Server profile\n\rlogin: Entered as GuestAAAA.\n\rfics% refused 26 Unknown\n\rfics% refused 29 TooLong\n\rfics% refused 20 NotPlaying\n\rfics% ";

const LETTERS: [u8; LINE_BYTES] = [b'x'; LINE_BYTES];

/// What a link gives: a piece of bytes, or a pause.
pub enum Gives {
    Piece(&'static [u8]),
    Pause,
}

/// A link: what it gives, the calls that fail, how it ends, and what is written to it.
struct Row(&'static [Gives], &'static [u64], LinkEnd, &'static [u8]);

const QUITS: &[Gives] = &[
    Gives::Piece(b"gue"),
    Gives::Piece(b"st\n"),
    Gives::Pause,
    Gives::Piece(b"quit\nflag\n"),
];

const RESTS: &[Gives] = &[Gives::Piece(b"guest\nfl"), Gives::Piece(b"ag")];

const SPEAKS_LONG: &[Gives] = &[
    Gives::Piece(b"guest\n"),
    Gives::Piece(&LETTERS),
    Gives::Piece(b"\n"),
    Gives::Piece(&LETTERS),
    Gives::Piece(b"x"),
    Gives::Piece(b"\nfl\xFF\xFD\x01ag\n"),
];

const ROWS: &[Row] = &[
    Row(&[], &[0], LinkEnd::WriteFault, b""),
    Row(&[], &[1], LinkEnd::ReadFault, OPENING),
    Row(&[], &[], LinkEnd::End, OPENING),
    Row(QUITS, &[], LinkEnd::Quit, GUEST),
    Row(RESTS, &[], LinkEnd::End, REST),
    Row(RESTS, &[4], LinkEnd::ReadFault, CUT),
    Row(RESTS, &[5], LinkEnd::WriteFault, CUT),
    Row(SPEAKS_LONG, &[], LinkEnd::End, LONG),
];

#[test]
fn links_end_as_they_have_to(rt: HostRuntime) -> Result<(), Fail> {
    assert_eq!(rt; first_failing(rt.alloc(), ROWS), None);
    Ok(())
}

const FOUR_INPUTS: &[Gives] = &[
    Gives::Piece(b"guest\n\n"),
    Gives::Pause,
    Gives::Piece(b"flag\n"),
];

/// How a link ends that gives this, and how often its clock is asked.
fn asking(alloc: Global, steps: &[Gives]) -> Result<(LinkEnd, u64), Failure> {
    let mut link = link_of(alloc, steps, &[])?;
    let clock = CountingClock {
        calls: Cell::new(0),
    };
    let mut server = server(alloc)?;
    let end = serve_link(alloc, &mut server.seat(1), &mut link, &clock);
    Ok((end, clock.calls.get()))
}

/// Once for each of the four inputs, and once when it leaves.
#[test]
fn the_clock_is_asked_for_each_input(rt: HostRuntime) -> Result<(), Fail> {
    assert!(rt; asking(rt.alloc(), FOUR_INPUTS)? == (LinkEnd::End, 5));
    Ok(())
}

/// A clock that counts how often it is asked.
#[derive(Drop)]
struct CountingClock {
    calls: Cell<u64>,
}

impl Clock for CountingClock {
    ghost use Rattle.std.specs.Prelude.{true};

    ghost shows = { λ clock moment. true };

    fn now(&self) -> u64 {
        let calls = self.calls.get().wrapping_add(1);
        self.calls.set(calls);
        calls
    }
}

/// The place of the first row that ends otherwise, if one does.
fn first_failing(alloc: Global, rows: &[Row]) -> Option<usize> {
    first_wrong!(rows, |row| matches!(serves(alloc, row), Ok(true)))
}

fn serves(alloc: Global, row: &Row) -> Result<bool, Failure> {
    let mut link = link_of(alloc, row.0, row.1)?;
    let clock = StillClock::new(5);
    let mut server = server(alloc)?;
    let end = serve_link(alloc, &mut server.seat(1), &mut link, &clock);
    Ok(end == row.2 && link.written() == row.3)
}

/// A link that gives this, and whose calls of these numbers fail.
pub fn link_of(alloc: Global, steps: &[Gives], fails: &[u64]) -> Result<MemLink, NoMemory>
    ensures { IfOk result (λ link. link.tale.closed ≡ false) }
{
    let mut given = Vec::new(alloc);
    for step in steps {
        match step {
            Gives::Piece(bytes) => given.push(LinkStep::Piece(Vec::from_slice(alloc, bytes)?))?,
            Gives::Pause => given.push(LinkStep::Quiet)?,
        }
    }
    let fails = Vec::from_slice(alloc, fails)?;
    Ok(MemLink::new(alloc, given, fails))
}
