//! `serve` over the fakes: two guests who come in and quit, words that don't ask to serve, and a door and a sink that
//! fail.

ghost use Rattle.std.specs.Prelude.{Some, IfOk};
ghost use Rattle.edge_traits.specs.Door.{IsNew};
ghost use Rattle.memory_edges.specs.MemDoor.{AreNew};

use edge_traits::{OpenGate, StillClock};
use memory_edges::{LinkStep, MemDoor, MemKeeper, MemLink, MemSink};
use serve_call::serve;
use std::alloc::{AllocError, Global};
use std::sync::Wait;
use std::test::Fail;
use std::thread::Threads;

const SERVE: [&str; 3] = ["serve", "--port", "5000"];

const USAGE: &[u8] = b"usage: ficsd board, replay, demo N, check --store PATH, serve --port P\n";

/// What a guest is sent last.
const FAREWELL: &[u8] = b"Goodbye.\n\r";

/// A row: the words, and at which calls the door and the sink fail; the status, what is written, how many desks the
/// hall has that is given back and closed, and what each link is sent last, where it comes back.
struct Row {
    words: &'static [&'static str],
    door: &'static [u64],
    sink: &'static [u64],
    status: u8,
    text: &'static [u8],
    desks: Option<usize>,
    first: Option<&'static [u8]>,
    second: Option<&'static [u8]>,
}

const ROWS: &[Row] = &[
    Row {
        words: &SERVE,
        door: &[],
        sink: &[],
        status: 0,
        text: b"ready\nclosed\n",
        desks: Some(128),
        first: Some(FAREWELL),
        second: Some(FAREWELL),
    },
    Row {
        words: &["board"],
        door: &[],
        sink: &[],
        status: 1,
        text: USAGE,
        desks: None,
        first: None,
        second: None,
    },
    Row {
        words: &["serve"],
        door: &[],
        sink: &[],
        status: 1,
        text: USAGE,
        desks: None,
        first: None,
        second: None,
    },
    Row {
        words: &SERVE,
        door: &[1],
        sink: &[],
        status: 8,
        text: b"ready\nclosed\n",
        desks: Some(128),
        first: Some(FAREWELL),
        second: None,
    },
    Row {
        words: &SERVE,
        door: &[],
        sink: &[0],
        status: 3,
        text: b"",
        desks: Some(128),
        first: None,
        second: None,
    },
    Row {
        words: &SERVE,
        door: &[],
        sink: &[1],
        status: 3,
        text: b"ready\n",
        desks: Some(128),
        first: Some(FAREWELL),
        second: Some(FAREWELL),
    },
];

/// A link over which a guest comes in and quits.
fn guest(alloc: Global) -> Result<MemLink, AllocError>
    ensures { IfOk result (λ link. IsNew link.plan.faults (Some link.tale)) }
{
    let mut steps = Vec::new(alloc);
    for line in [b"guest\n".as_slice(), b"quit\n".as_slice()] {
        steps.push(LinkStep::Piece(Vec::from_slice(alloc, line)?))?;
    }
    Ok(MemLink::new(alloc, steps, Vec::new(alloc)))
}

/// Two of them.
fn two_guests(alloc: Global) -> Result<Vec<MemLink>, AllocError>
    ensures { IfOk result (λ links. AreNew links.items) }
{
    let mut links = Vec::new(alloc);
    links.push(guest(alloc)?)?;
    links.push(guest(alloc)?)?;
    Ok(links)
}

/// What came of a row: the status, the desks of the hall, the door and the sink.
#[derive(Drop)]
struct Served {
    status: u8,
    desks: Option<usize>,
    door: MemDoor,
    sink: MemSink,
}

/// Serves two guests, and closes the hall.
fn serving<T: Threads + Wait + Sync>(
    rt: &T,
    alloc: Global,
    row: &Row,
) -> Result<Served, AllocError> {
    let mut words = Vec::new(alloc);
    for word in row.words {
        words.push(String::from_str(alloc, word)?)?;
    }
    let mut door = MemDoor::new(two_guests(alloc)?, Vec::from_slice(alloc, row.door)?);
    let mut sink = MemSink::new(alloc, Vec::from_slice(alloc, row.sink)?);
    let mut keeper = MemKeeper::new(alloc, Vec::new(alloc));
    let clock = StillClock::new(1_000);
    let gate = OpenGate::new();
    let (status, hall) = serve(
        rt,
        alloc,
        words.as_slice(),
        &mut door,
        &clock,
        &mut keeper,
        &mut sink,
        &gate,
    );
    let desks = match hall {
        Some((hall, pass)) => Some(hall.close(pass).desks.len()),
        None => None,
    };
    Ok(Served {
        status,
        desks,
        door,
        sink,
    })
}

/// Whether a link came back exactly where it has to, and was sent this last.
fn is_sent(door: &MemDoor, number: u64, last: Option<&[u8]>) -> bool {
    match (door.written(number), last) {
        (Some(written), Some(last)) => written.ends_with(last),
        (None, None) => true,
        _ => false,
    }
}

/// Whether serving ended as the row says, and wrote and sent that.
fn is_as_said(served: &Served, row: &Row) -> bool {
    served.status == row.status
        && served.sink.written() == row.text
        && served.desks == row.desks
        && is_sent(&served.door, 1, row.first)
        && is_sent(&served.door, 2, row.second)
}

#[test]
fn serves_guests_and_gives_the_hall_back(rt: HostRuntime) -> Result<(), Fail> {
    for (place, row) in ROWS.iter().enumerate() {
        let served = serving(&rt, rt.alloc(), row)?;
        assert!(rt; is_as_said(&served, row), "row {place}");
    }
    Ok(())
}
