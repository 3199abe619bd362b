//! `serve` over a keeper: what is registered is saved and loaded again, a keeper that fails, alone and with the sink, and
//! a bad record.

ghost use Rattle.std.specs.Prelude.{Some, IfOk};
ghost use Rattle.edge_traits.specs.Door.{IsNew};
ghost use Rattle.memory_edges.specs.MemDoor.{AreNew};

use crate::words::words_of;
use edge_traits::{Keeper, Kept, OpenGate, StillClock};
use memory_edges::{LinkStep, MemDoor, MemKeeper, MemLink, MemSink};
use serve_call::serve;
use std::alloc::{AllocError, Global};
use std::sync::Wait;
use std::test::Fail;
use std::thread::Threads;
use test_steps::assert_rows;

const SERVE: &[&str] = &["serve", "--port", "5000"];

/// A link over which a player says this, all at once.
fn player(alloc: Global, says: &[u8]) -> Result<MemLink, AllocError>
    ensures { IfOk result (λ link. IsNew link.plan.faults (Some link.tale)) }
{
    let mut steps = Vec::new(alloc);
    steps.push(LinkStep::Piece(Vec::from_slice(alloc, says)?))?;
    Ok(MemLink::new(alloc, steps, Vec::new(alloc)))
}

/// That link alone.
fn one_player(alloc: Global, says: &[u8]) -> Result<Vec<MemLink>, AllocError>
    ensures { IfOk result (λ links. AreNew links.items) }
{
    let mut links = Vec::new(alloc);
    links.push(player(alloc, says)?)?;
    Ok(links)
}

/// What came of serving: the status, the door and the sink.
#[derive(Drop)]
struct Served {
    status: u8,
    door: MemDoor,
    sink: MemSink,
}

/// Serves a player who says this, over this keeper and a sink that fails at these writes.
fn serve_player<T: Threads + Wait + Sync>(
    rt: &T,
    alloc: Global,
    keeper: &mut MemKeeper,
    writes: &[u64],
    says: &[u8],
) -> Result<Served, AllocError> {
    let words = words_of(alloc, SERVE)?;
    let mut door = MemDoor::new(one_player(alloc, says)?, Vec::new(alloc));
    let mut sink = MemSink::new(alloc, Vec::from_slice(alloc, writes)?);
    let clock = StillClock::new(1_000);
    let gate = OpenGate::new();
    let (status, _hall) = serve(
        rt,
        alloc,
        words.as_slice(),
        &mut door,
        &clock,
        keeper,
        &mut sink,
        &gate,
    );
    Ok(Served { status, door, sink })
}

/// Whether the keeper holds exactly these keys, in this order.
fn holds(keeper: &MemKeeper, keys: &[&[u8]]) -> bool {
    let pairs = keeper.pairs();
    pairs.len() == keys.len()
        && pairs
            .iter()
            .zip(keys)
            .all(|(pair, key)| pair.key.as_slice() == *key)
}

/// A row: the record that the keeper holds under a key, if any, and at which of its calls it fails, where the put of
/// that record is the first; at which writes the sink fails; what the player says; the status, what is written, what the
/// player is sent last, where the link comes back, and the keys that the keeper holds in the end.
struct Row {
    record: Option<(&'static [u8], &'static [u8])>,
    fails: &'static [u64],
    writes: &'static [u64],
    says: &'static [u8],
    status: u8,
    text: &'static [u8],
    last: Option<&'static [u8]>,
    keys: &'static [&'static [u8]],
}

const ROWS: &[Row] = &[
    Row {
        record: None,
        fails: &[],
        writes: &[],
        says: b"guest\nquit\n",
        status: 0,
        text: b"ready\nclosed\n",
        last: Some(b"Goodbye.\n\r"),
        keys: &[],
    },
    Row {
        record: None,
        fails: &[],
        writes: &[],
        says: b"Ann\nregister abc\nquit\n",
        status: 0,
        text: b"ready\nclosed\n",
        last: Some(b"Ok.\n\rfics% Goodbye.\n\r"),
        keys: &[b"aann"],
    },
    Row {
        record: None,
        fails: &[0],
        writes: &[],
        says: b"guest\nquit\n",
        status: 4,
        text: b"",
        last: None,
        keys: &[],
    },
    Row {
        record: None,
        fails: &[1],
        writes: &[],
        says: b"Ann\nregister abc\nquit\n",
        status: 4,
        text: b"ready\nclosed\n",
        last: Some(b"Ok.\n\rfics% Goodbye.\n\r"),
        keys: &[],
    },
    Row {
        record: Some((b"a", b"\0")),
        fails: &[],
        writes: &[],
        says: b"guest\nquit\n",
        status: 5,
        text: b"bad record 61\n",
        last: None,
        keys: &[b"a"],
    },
    // The sink fails at `closed`, behind a last turn in which the keeper failed.
    Row {
        record: None,
        fails: &[1],
        writes: &[1],
        says: b"Ann\nregister abc\nquit\n",
        status: 3,
        text: b"ready\n",
        last: Some(b"Ok.\n\rfics% Goodbye.\n\r"),
        keys: &[],
    },
    // The sink fails at `ready`, and at the line of a bad record.
    Row {
        record: None,
        fails: &[1],
        writes: &[0],
        says: b"guest\nquit\n",
        status: 3,
        text: b"",
        last: None,
        keys: &[],
    },
    Row {
        record: Some((b"a", b"\0")),
        fails: &[],
        writes: &[0],
        says: b"guest\nquit\n",
        status: 3,
        text: b"",
        last: None,
        keys: &[b"a"],
    },
];

/// The keeper of a row.
fn keeper_of(alloc: Global, row: &Row) -> Result<MemKeeper, AllocError> {
    let mut keeper = MemKeeper::new(alloc, Vec::from_slice(alloc, row.fails)?);
    if let Some((key, record)) = row.record {
        if keeper.put(key, record) != Kept::Done {
            return Err(AllocError);
        }
    }
    Ok(keeper)
}

/// Whether the link came back exactly where it has to, and was sent this last.
fn is_sent(door: &MemDoor, last: Option<&[u8]>) -> bool {
    match (door.written(1), last) {
        (Some(written), Some(last)) => written.ends_with(last),
        (None, None) => true,
        _ => false,
    }
}

/// Whether serving ended as the row says, and wrote and sent that.
fn is_as_said(served: &Served, row: &Row) -> bool {
    served.status == row.status
        && served.sink.written() == row.text
        && is_sent(&served.door, row.last)
}

/// Whether a row holds.
fn row_holds<T: Threads + Wait + Sync>(rt: &T, alloc: Global, row: &Row) -> Result<bool, Fail> {
    let mut keeper = keeper_of(alloc, row)?;
    let served = serve_player(rt, alloc, &mut keeper, row.writes, row.says)?;
    Ok(is_as_said(&served, row) && holds(&keeper, row.keys))
}

#[test]
fn a_keeper_is_served_over(rt: HostRuntime) -> Result<(), Fail> {
    assert_rows!(rt; ROWS, |row| row_holds(&rt, rt.alloc(), row)?);
    Ok(())
}

/// An evening: what the player says, and what that one is sent last.
struct Evening(&'static [u8], &'static [u8]);

/// Who registered on one evening is asked for the password on the next.
const EVENINGS: &[Evening] = &[
    Evening(
        b"Ann\nregister abc\nquit\n",
        b"Entered as Ann.\n\rfics% Ok.\n\rfics% Goodbye.\n\r",
    ),
    Evening(
        b"ann\nabc\nquit\n",
        b"password: Entered as Ann.\n\rfics% Goodbye.\n\r",
    ),
    Evening(
        b"Ann\nabd\n",
        b"password: refused 23 WrongPassword\n\rlogin: ",
    ),
];

/// The first evening on which serving didn't end well or another text was sent, all of them over one keeper.
fn first_wrong_evening<T: Threads + Wait + Sync>(
    rt: &T,
    alloc: Global,
    evenings: &[Evening],
) -> Result<Option<usize>, Fail> {
    let mut keeper = MemKeeper::new(alloc, Vec::new(alloc));
    for (place, evening) in evenings.iter().enumerate() {
        let served = serve_player(rt, alloc, &mut keeper, &[], evening.0)?;
        if served.status != 0 || !is_sent(&served.door, Some(evening.1)) {
            return Ok(Some(place));
        }
    }
    Ok(None)
}

#[test]
fn what_was_registered_is_known_on_the_next_evening(rt: HostRuntime) -> Result<(), Fail> {
    assert_eq!(rt; first_wrong_evening(&rt, rt.alloc(), EVENINGS)?, None);
    Ok(())
}
