//! `run` over a keeper: the command `check`, and commands that don't call their keeper. The records are written out by
//! hand from their form.

use cmd_run::run;
use edge_traits::{Keeper, Kept};
use memory_edges::{MemKeeper, MemSink, MemSource};
use std::alloc::Global;
use std::process::Abort;
use std::test::Fail;
use test_steps::assert_rows;

/// A key and the record under it.
pub(crate) type KeyAndRecord = (&'static [u8], &'static [u8]);

/// A row of the table: the words, what the keeper holds, which calls of the keeper fail and which writes; the status,
/// and the text that is written.
struct Row(
    &'static [&'static str],
    &'static [KeyAndRecord],
    &'static [u64],
    &'static [u64],
    u8,
    &'static str,
);

/// Ann's account.
const ANN: KeyAndRecord = (b"aann", b"\x01A\x03Ann0123456789abcdef0123456789abcdef");

/// Ben's account.
const BEN: KeyAndRecord = (b"aben", b"\x01A\x03Ben0123456789abcdef0123456789abcdef");

/// An untimed game of chess of Ann and Ben after e2 to e4, under number 1.
pub(crate) const E4: KeyAndRecord = (
    b"g\x00\x00\x00\x00\x00\x00\x00\x01",
    b"\x01G\x00\x00\x00\x00\x00\x03Ann\x03Ben\x00\x01\x18\xE0\x00",
);

const ROWS: &[Row] = &[
    Row(
        &["check", "--store", "x"],
        &[],
        &[],
        &[],
        0,
        "ok: 0 accounts, 0 games\n",
    ),
    Row(
        &["check", "--store=x"],
        &[ANN, E4],
        &[],
        &[],
        0,
        "ok: 1 accounts, 1 games\n",
    ),
    Row(
        &["check", "--store", "x"],
        &[ANN, BEN],
        &[],
        &[],
        0,
        "ok: 2 accounts, 0 games\n",
    ),
    Row(
        &["check", "--store", "x"],
        &[(b"a", b"\x00")],
        &[],
        &[],
        5,
        "bad record 61\n",
    ),
    // the least bad key, behind a good record and before a worse one
    Row(
        &["check", "--store", "x"],
        &[ANN, (b"az", b"\x01"), (b"z", b"")],
        &[],
        &[],
        5,
        "bad record 617a\n",
    ),
    Row(&["check", "--store", "x"], &[], &[0], &[], 4, ""),
    // two records were put before the keeper loads
    Row(&["check", "--store", "x"], &[ANN, E4], &[2], &[], 4, ""),
    Row(&["check", "--store", "x"], &[ANN], &[], &[0], 3, ""),
    Row(&["check", "--store", "x"], &[(b"a", b"")], &[], &[0], 3, ""),
    // a keeper that would fail isn't called
    Row(&["board"], &[], &[0], &[], 0, ""),
    Row(&["tidy"], &[(b"a", b"\x00")], &[1], &[], 0, ""),
    Row(
        &["check"],
        &[],
        &[0],
        &[],
        1,
        "usage: ficsd board, replay, demo N, check --store PATH, serve --port P\n",
    ),
];

/// Whether the run ends with the status of the row and writes its text.
fn is_as_said(alloc: Global, row: &Row) -> Result<bool, Fail> {
    let mut words = Vec::new(alloc);
    for word in row.0 {
        words.push(String::from_str(alloc, word)?)?;
    }
    let mut source = MemSource::new(Vec::new(alloc), 4_096, Vec::new(alloc));
    let mut sink = MemSink::new(alloc, Vec::from_slice(alloc, row.3)?);
    let mut keeper = MemKeeper::new(alloc, Vec::from_slice(alloc, row.2)?);
    for (key, record) in row.1 {
        if keeper.put(key, record) != Kept::Done {
            return Ok(false);
        }
    }
    let status = run(alloc, words.as_slice(), &mut source, &mut sink, &mut keeper);
    Ok(status == row.4 && sink.written() == row.5.as_bytes())
}

#[test]
fn stores_are_checked(rt: HostRuntime) -> Result<(), Fail> {
    assert_rows!(rt; ROWS, |row| is_as_said(rt.alloc(), row)?);
    Ok(())
}
