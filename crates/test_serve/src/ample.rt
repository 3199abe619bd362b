//! With ample memory nothing is cut short, whatever fails: at each status that stands above want of memory the pass which
//! is given back tells of none, all that was to be saved is saved but where the keeper failed, and each player has heard
//! everything.

ghost use Rattle.std.specs.Prelude.{Some, IfOk};
ghost use Rattle.edge_traits.specs.Door.{IsNew};
ghost use Rattle.memory_edges.specs.MemDoor.{AreNew};

use crate::words::words_of;
use edge_traits::{OpenGate, StillClock};
use memory_edges::{LinkStep, MemDoor, MemKeeper, MemLink, MemSink};
use serve_call::serve;
use std::alloc::{AllocError, Global};
use std::sync::Wait;
use std::test::Fail;
use std::thread::Threads;
use test_steps::assert_rows;

/// What each of two players says.
const SAYS: [&[u8]; 2] = [
    b"Ann\nregister abc\nwho\nquit\n",
    b"Ben\nregister abc\nquit\n",
];

/// What each of them is written last. Who is there when Ann asks depends on the threads, so of her answers the last two
/// are looked at.
const LAST: [&[u8]; 2] = [b"fics% Goodbye.\n\r", b"Ok.\n\rfics% Goodbye.\n\r"];

/// A row: at which calls the door, the sink and the keeper fail, how many links come, and the status.
struct Row {
    door: &'static [u64],
    sink: &'static [u64],
    keeper: &'static [u64],
    links: usize,
    status: u8,
    /// How many records the keeper holds in the end.
    records: usize,
}

/// The keeper's first call is the load, and its others are the puts of the last turn, of which one fails.
const ROWS: &[Row] = &[
    Row {
        door: &[],
        sink: &[],
        keeper: &[],
        links: 2,
        status: 0,
        records: 2,
    },
    Row {
        door: &[2],
        sink: &[],
        keeper: &[],
        links: 2,
        status: 8,
        records: 2,
    },
    Row {
        door: &[1],
        sink: &[],
        keeper: &[],
        links: 1,
        status: 8,
        records: 1,
    },
    Row {
        door: &[],
        sink: &[1],
        keeper: &[],
        links: 2,
        status: 3,
        records: 2,
    },
    Row {
        door: &[],
        sink: &[],
        keeper: &[2],
        links: 2,
        status: 4,
        records: 1,
    },
    Row {
        door: &[2],
        sink: &[1],
        keeper: &[2],
        links: 2,
        status: 8,
        records: 1,
    },
];

/// A link over which a player says this.
fn player(alloc: Global, says: &[u8]) -> Result<MemLink, AllocError>
    ensures { IfOk result (λ link. IsNew link.plan.faults (Some link.tale)) }
{
    let mut steps = Vec::new(alloc);
    steps.push(LinkStep::Piece(Vec::from_slice(alloc, says)?))?;
    Ok(MemLink::new(alloc, steps, Vec::new(alloc)))
}

/// The links of both.
fn players(alloc: Global) -> Result<Vec<MemLink>, AllocError>
    ensures { IfOk result (λ links. AreNew links.items) }
{
    let mut links = Vec::new(alloc);
    links.push(player(alloc, SAYS[0])?)?;
    links.push(player(alloc, SAYS[1])?)?;
    Ok(links)
}

/// What came of serving: the status, whether memory was said to have run out, the door, and how many records the keeper
/// holds.
#[derive(Drop)]
struct Served {
    status: u8,
    short: Option<bool>,
    door: MemDoor,
    records: usize,
}

/// Serves the players of a row.
fn serve_row<T: Threads + Wait + Sync>(
    rt: &T,
    alloc: Global,
    row: &Row,
) -> Result<Served, AllocError> {
    let words = words_of(alloc, &["serve", "--port", "5000"])?;
    let mut door = MemDoor::new(players(alloc)?, Vec::from_slice(alloc, row.door)?);
    let mut keeper = MemKeeper::new(alloc, Vec::from_slice(alloc, row.keeper)?);
    let mut sink = MemSink::new(alloc, Vec::from_slice(alloc, row.sink)?);
    let clock = StillClock::new(1_000);
    let gate = OpenGate::new();
    let (status, hall) = serve(
        rt,
        alloc,
        words.as_slice(),
        &mut door,
        &clock,
        &mut keeper,
        &mut sink,
        &gate,
    );
    let short = match &hall {
        Some((_hall, pass)) => Some(pass.is_short()),
        None => None,
    };
    Ok(Served {
        status,
        short,
        door,
        records: keeper.pairs().len(),
    })
}

/// Whether the first so many links came back, and were written all to the end.
fn are_heard(door: &MemDoor, links: usize) -> bool {
    for (place, last) in LAST.iter().enumerate() {
        let is_last = match door.written(place as u64 + 1) {
            Some(written) => place < links && written.ends_with(last),
            None => place >= links,
        };
        if !is_last {
            return false;
        }
    }
    true
}

/// Whether a row holds.
fn row_holds<T: Threads + Wait + Sync>(
    rt: &T,
    alloc: Global,
    row: &Row,
) -> Result<bool, AllocError> {
    let served = serve_row(rt, alloc, row)?;
    Ok(
        served.status == row.status
            && served.short == Some(false)
            && served.records == row.records
            && are_heard(&served.door, row.links),
    )
}

#[test]
fn nothing_is_cut_short_where_memory_is_enough(rt: HostRuntime) -> Result<(), Fail> {
    assert_rows!(rt; ROWS, |row| row_holds(&rt, rt.alloc(), row)?);
    Ok(())
}
