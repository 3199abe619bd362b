//! `pgn` over a keeper in memory: what the store holds, by the bytes of its keys and records, and what is written, both
//! written out by hand.

use cmd_lines::End;
use cmd_pgn::pgn;
use cmd_store::Outcome;
use edge_traits::{Keeper, Kept};
use memory::NoMemory;
use memory_edges::{MemKeeper, MemSink};
use std::alloc::Global;
use std::test::Fail;
use test_steps::assert_rows;

/// A key and its record.
type Pair = (&'static [u8], &'static [u8]);

/// The keys of games 1, 2 and 300.
const ONE: &[u8] = b"g\x00\x00\x00\x00\x00\x00\x00\x01";

const TWO: &[u8] = b"g\x00\x00\x00\x00\x00\x00\x00\x02";

const THREE_HUNDRED: &[u8] = b"g\x00\x00\x00\x00\x00\x00\x01\x2C";

/// Ann against Ben, untimed, after e2e4.
const ANN_BEN: &[u8] = b"\x01\x47\x00\x00\x00\x00\x00\x03Ann\x03Ben\x00\x01\x18\xE0\x00";

/// Cat against Dan in 5 minutes, before the first half-move.
const CAT_DAN: &[u8] = b"\x01\x47\x00\x00\x05\x00\x00\x03Cat\x03Dan\x00\x00";

/// Ann against Ben at crazyhouse, and at Fischer random with the array of chess.
const CRAZYHOUSE: &[u8] = b"\x01\x47\x01\x00\x00\x00\x00\x03Ann\x03Ben\x00\x00";

const FISCHER: &[u8] = b"\x03\x47\x02\x06\x00\x00\x00\x00\x03Ann\x03Ben\x00\x00";

const ANN_BEN_TEXT: &[u8] = b"\
[Event \"?\"]
[Site \"?\"]
[Date \"????.??.??\"]
[Round \"?\"]
[White \"Ann\"]
[Black \"Ben\"]
[Result \"*\"]

1. e4 *

";

const CAT_DAN_TEXT: &[u8] = b"\
[Event \"?\"]
[Site \"?\"]
[Date \"????.??.??\"]
[Round \"?\"]
[White \"Cat\"]
[Black \"Dan\"]
[Result \"*\"]

*

";

/// What the store is given, in this order; at which calls the keeper and the sink fail; what is written, and the
/// outcome.
struct Row {
    pairs: &'static [Pair],
    keeper: &'static [u64],
    sink: &'static [u64],
    texts: &'static [&'static [u8]],
    outcome: Outcome,
}

const DONE: Outcome = Outcome::Read(End::Done);

const ROWS: &[Row] = &[
    // nothing is stored
    Row {
        pairs: &[],
        keeper: &[],
        sink: &[],
        texts: &[],
        outcome: DONE,
    },
    Row {
        pairs: &[(ONE, ANN_BEN)],
        keeper: &[],
        sink: &[],
        texts: &[ANN_BEN_TEXT],
        outcome: DONE,
    },
    // games of other variants, and an account, are passed over
    Row {
        pairs: &[
            (ONE, CRAZYHOUSE),
            (TWO, ANN_BEN),
            (THREE_HUNDRED, FISCHER),
            (b"aann", b"\x01\x41\x03Ann0123456789abcdef0123456789abcdef"),
        ],
        keeper: &[],
        sink: &[],
        texts: &[ANN_BEN_TEXT],
        outcome: DONE,
    },
    // in the order of their numbers
    Row {
        pairs: &[(THREE_HUNDRED, CAT_DAN), (ONE, ANN_BEN)],
        keeper: &[],
        sink: &[],
        texts: &[ANN_BEN_TEXT, CAT_DAN_TEXT],
        outcome: DONE,
    },
    // the second write fails
    Row {
        pairs: &[(ONE, CAT_DAN), (TWO, CRAZYHOUSE), (THREE_HUNDRED, ANN_BEN)],
        keeper: &[],
        sink: &[1],
        texts: &[CAT_DAN_TEXT],
        outcome: Outcome::Read(End::WriteFault),
    },
    // a bad record, and a load that fails
    Row {
        pairs: &[(ONE, ANN_BEN), (b"a", b"\x00")],
        keeper: &[],
        sink: &[],
        texts: &[b"bad record 61\n"],
        outcome: Outcome::BadRecord,
    },
    Row {
        pairs: &[(ONE, ANN_BEN)],
        keeper: &[1],
        sink: &[],
        texts: &[],
        outcome: Outcome::KeeperFault,
    },
];

fn goes_as_said(alloc: Global, row: &Row) -> Result<bool, NoMemory> {
    let text = joined(alloc, row.texts)?;
    let keeper = MemKeeper::new(alloc, Vec::from_slice(alloc, row.keeper)?);
    let sink = MemSink::new(alloc, Vec::from_slice(alloc, row.sink)?);
    Ok(is_written(alloc, keeper, sink, row, text.as_slice()))
}

/// The parts one behind the other.
pub fn joined(alloc: Global, parts: &[&[u8]]) -> Result<Vec<u8>, NoMemory> {
    let mut bytes = Vec::new(alloc);
    for part in parts {
        bytes.extend_from_slice(part)?;
    }
    Ok(bytes)
}

fn is_written(
    alloc: Global,
    mut keeper: MemKeeper,
    mut sink: MemSink,
    row: &Row,
    text: &[u8],
) -> bool {
    for (key, record) in row.pairs {
        if keeper.put(key, record) != Kept::Done {
            return false;
        }
    }
    let outcome = pgn(alloc, &mut sink, &mut keeper);
    outcome == row.outcome && sink.written() == text
}

#[test]
fn chess_games_of_a_store_are_exported(rt: HostRuntime) -> Result<(), Fail> {
    assert_rows!(rt; ROWS, |row| goes_as_said(rt.alloc(), row)?);
    Ok(())
}
