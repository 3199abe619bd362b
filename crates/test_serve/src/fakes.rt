//! Two guests over links in memory, who come in and quit.

ghost use Rattle.std.specs.Prelude.{Some, IfOk};
ghost use Rattle.edge_traits.specs.Door.{IsNew};
ghost use Rattle.memory_edges.specs.MemDoor.{AreNew};
ghost use Rattle.serve_core.specs.Serving.{IsUnused};

use edge_traits::{OpenGate, StillClock};
use lobby_state::Lobby;
use memory::NoMemory;
use memory_edges::{LinkStep, MemDoor, MemKeeper, MemLink, MemSink};
use serve_core::serve_lobby;
use serve_turn::ServeEnd;
use std::alloc::{AllocError, Global};
use std::sync::Wait;
use std::test::Fail;
use std::thread::Threads;

/// What a guest is sent last.
const FAREWELL: &[u8] = b"Goodbye.\n\r";

/// A link over which a guest comes in and quits; it fails at these calls.
fn guest(alloc: Global, fails: &[u64]) -> Result<MemLink, AllocError>
    ensures { IfOk result (λ link. IsNew link.plan.faults (Some link.tale)) }
{
    let mut steps = Vec::new(alloc);
    steps.push(LinkStep::Piece(Vec::from_slice(alloc, b"guest\n")?))?;
    steps.push(LinkStep::Piece(Vec::from_slice(alloc, b"quit\n")?))?;
    Ok(MemLink::new(alloc, steps, Vec::from_slice(alloc, fails)?))
}

/// Two of them, of which the first fails at these calls.
fn two_guests(alloc: Global, fails: &[u64]) -> Result<Vec<MemLink>, AllocError>
    ensures { IfOk result (λ links. AreNew links.items) }
{
    let mut links = Vec::new(alloc);
    links.push(guest(alloc, fails)?)?;
    links.push(guest(alloc, &[])?)?;
    Ok(links)
}

/// Serves an unused door to its end.
fn serve<T: Threads + Wait + Sync>(
    rt: &T,
    alloc: Global,
    door: &mut MemDoor,
    sink: &mut MemSink,
) -> Result<ServeEnd, NoMemory>
    requires { IsUnused door.old.tale }
{
    let clock = StillClock::new(1_000);
    let gate = OpenGate::new();
    let mut keeper = MemKeeper::new(alloc, Vec::new(alloc));
    let lobby = Lobby::new(alloc)?;
    let (end, _hall) = serve_lobby(rt, alloc, lobby, door, &clock, &mut keeper, sink, &gate);
    Ok(end)
}

/// A row: at which calls the door, the sink and the first link fail; how serving ends, what is written, and what each
/// link is sent last, where it comes back.
struct Row {
    door: &'static [u64],
    sink: &'static [u64],
    link: &'static [u64],
    end: ServeEnd,
    text: &'static [u8],
    first: Option<&'static [u8]>,
    second: Option<&'static [u8]>,
}

const ROWS: &[Row] = &[
    Row {
        door: &[],
        sink: &[],
        link: &[],
        end: ServeEnd::Done,
        text: b"ready\nclosed\n",
        first: Some(FAREWELL),
        second: Some(FAREWELL),
    },
    Row {
        door: &[0],
        sink: &[],
        link: &[],
        end: ServeEnd::DoorFault,
        text: b"ready\nclosed\n",
        first: None,
        second: None,
    },
    Row {
        door: &[1],
        sink: &[],
        link: &[],
        end: ServeEnd::DoorFault,
        text: b"ready\nclosed\n",
        first: Some(FAREWELL),
        second: None,
    },
    Row {
        door: &[],
        sink: &[0],
        link: &[],
        end: ServeEnd::WriteFault,
        text: b"",
        first: None,
        second: None,
    },
    Row {
        door: &[],
        sink: &[1],
        link: &[],
        end: ServeEnd::WriteFault,
        text: b"ready\n",
        first: Some(FAREWELL),
        second: Some(FAREWELL),
    },
    Row {
        door: &[],
        sink: &[],
        link: &[0],
        end: ServeEnd::Done,
        text: b"ready\nclosed\n",
        first: Some(b""),
        second: Some(FAREWELL),
    },
];

/// What came of a row: how serving ended, the door and the sink.
#[derive(Drop)]
struct Served {
    end: ServeEnd,
    door: MemDoor,
    sink: MemSink,
}

/// Serves the door of a row to its end.
fn serve_row<T: Threads + Wait + Sync>(rt: &T, alloc: Global, row: &Row) -> Result<Served, Fail> {
    let mut door = MemDoor::new(
        two_guests(alloc, row.link)?,
        Vec::from_slice(alloc, row.door)?,
    );
    let mut sink = MemSink::new(alloc, Vec::from_slice(alloc, row.sink)?);
    let end = serve(rt, alloc, &mut door, &mut sink)?;
    Ok(Served { end, door, sink })
}

/// Whether a link came back exactly where it has to, and was sent this last.
fn is_sent(door: &MemDoor, number: u64, last: Option<&[u8]>) -> bool {
    match (door.written(number), last) {
        (Some(written), Some(last)) => written.ends_with(last),
        (None, None) => true,
        _ => false,
    }
}

/// Whether serving ended as the row says, and wrote and sent that.
fn is_as_said(served: &Served, row: &Row) -> bool {
    served.end == row.end
        && served.sink.written() == row.text
        && is_sent(&served.door, 1, row.first)
        && is_sent(&served.door, 2, row.second)
}

#[test]
fn links_come_back_served(rt: HostRuntime) -> Result<(), Fail> {
    for (place, row) in ROWS.iter().enumerate() {
        let served = serve_row(&rt, rt.alloc(), row)?;
        assert!(rt; is_as_said(&served, row), "row {place}");
    }
    Ok(())
}
