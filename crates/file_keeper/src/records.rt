//! The table of records, in SQL, over any store of SQLite; and counts of faults.

ghost use Rattle.std.specs.Prelude.{◌≡◌, ◌≤◌, IsTrue, IfOk};
ghost use Rattle.edge_traits.specs.Calls.{load_answer, noted};
ghost use Rattle.edge_traits.specs.Faults.{Rose};
ghost use Rattle.edge_traits.specs.Keeper.{OnKeepFailed, OnLoadFailed};
ghost use Rattle.edge_traits.specs.Pairs.{IsAscending, keys_order};
ghost use Rattle.edge_traits.specs.declared.call_log.Request.{Request};

use edge_traits::{CallLog, KeeperFail, Kept, Pair, Request};
use sqlite::{Alter, Connection, Error, ErrorCode, Rows, params};
use sqlite_resolve::CompileError;
use std::alloc::{AllocError, Global};
use std::cmp::Ordering;

/// The one table of a store.
const TABLE: &str =
    "CREATE TABLE records (key BLOB PRIMARY KEY NOT NULL, record BLOB NOT NULL) STRICT";

/// Asks for a unique key, so that a table without one is refused.
const PUT: &str =
    "INSERT INTO records (key, record) VALUES (?1, ?2) ON CONFLICT (key) DO UPDATE SET record = excluded.record";

const REMOVE: &str = "DELETE FROM records WHERE key = ?1";

/// Reads no record: the keys of the table stand in an index by themselves.
const KEYS: &str = "SELECT key FROM records ORDER BY key";

const RECORD: &str = "SELECT record FROM records WHERE key = ?1";

/// What an error of SQLite is to a keeper: want of memory, or a fault.
pub fn fail_of(error: Error) -> KeeperFail {
    match error {
        Error::SqliteFailure(ErrorCode::OutOfMemory) => KeeperFail::Memory,
        _ => KeeperFail::Failed,
    }
}

/// The connection, once it has its clock and its table; it is let go where that fails.
pub fn with_table<S: Alter + Drop>(
    rt: &HostRuntime,
    conn: Connection<S>,
) -> Result<Connection<S>, KeeperFail> {
    let mut conn = conn;
    conn.set_clock(rt);
    match make_table(&mut conn) {
        Ok(()) => Ok(conn),
        Err(fail) => Err(fail),
    }
}

/// Makes the table where the database has none. A view or an index of that name is found at the first record.
fn make_table<S: Alter>(conn: &mut Connection<S>) -> Result<(), KeeperFail> {
    match conn.execute(TABLE, &[]) {
        Ok(_) => Ok(()),
        Err(Error::SqlInputError(CompileError::Exists)) => Ok(()),
        Err(error) => Err(fail_of(error)),
    }
}

/// What a store is asked. One function asks it all: each call of a generic one at a store has the proofs of all that
/// the store stands on to tie.
#[derive(Clone, Copy)]
pub enum Asked<'a> {
    /// Puts the record under the key, in place of the one that is there.
    Put { key: &'a [u8], bytes: &'a [u8] },
    /// Takes away the record under the key, if there is one.
    Remove { key: &'a [u8] },
    /// All records with their keys, in ascending order of key.
    Load,
}

/// Carries out what is asked. No pairs come but where it is all records.
pub fn carry_out<S: Alter>(
    alloc: Global,
    conn: &mut Connection<S>,
    asked: Asked<'_>,
) -> Result<Vec<Pair>, KeeperFail>
    ensures ascending { IfOk result (λ pairs. IsAscending pairs.items) }
{
    match asked {
        Asked::Put { key, bytes } => no_pairs(alloc, put_record(conn, key, bytes)),
        Asked::Remove { key } => no_pairs(alloc, remove_record(conn, key)),
        Asked::Load => all_pairs(alloc, conn),
    }
}

fn no_pairs(alloc: Global, outcome: Result<(), KeeperFail>) -> Result<Vec<Pair>, KeeperFail>
    ensures ascending { IfOk result (λ pairs. IsAscending pairs.items) }
{
    match outcome {
        Ok(()) => Ok(Vec::new(alloc)),
        Err(fail) => Err(fail),
    }
}

/// Puts the record under the key, in place of the one that is there.
fn put_record<S: Alter>(
    conn: &mut Connection<S>,
    key: &[u8],
    bytes: &[u8],
) -> Result<(), KeeperFail> {
    match conn.execute(PUT, params![key, bytes]) {
        Ok(_) => Ok(()),
        Err(error) => Err(fail_of(error)),
    }
}

/// Takes away the record under the key, if there is one.
fn remove_record<S: Alter>(conn: &mut Connection<S>, key: &[u8]) -> Result<(), KeeperFail> {
    match conn.execute(REMOVE, params![key]) {
        Ok(_) => Ok(()),
        Err(error) => Err(fail_of(error)),
    }
}

/// All records with their keys, in ascending order of key; a fault where the table gives them in another order.
fn all_pairs<S: Alter>(alloc: Global, conn: &mut Connection<S>) -> Result<Vec<Pair>, KeeperFail>
    ensures ascending { IfOk result (λ pairs. IsAscending pairs.items) }
{
    match read_pairs(alloc, conn) {
        Ok(pairs) => in_order(pairs),
        Err(error) => Err(fail_of(error)),
    }
}

/// The pairs, where their keys strictly rise; else a fault.
fn in_order(pairs: Vec<Pair>) -> Result<Vec<Pair>, KeeperFail>
    ensures ascending { IfOk result (λ pairs. IsAscending pairs.items) }
{
    if is_ascending(pairs.as_slice()) {
        Ok(pairs)
    } else {
        Err(KeeperFail::Failed)
    }
}

/// The pairs of the table's rows. The keys are read first, and then one record after another: a query for both in the
/// order of the keys sorts all records in memory before it gives the first, so that each would be there twice.
fn read_pairs<S: Alter>(alloc: Global, conn: &mut Connection<S>) -> Result<Vec<Pair>, Error> {
    let keys = read_keys(alloc, conn)?;
    let mut pairs = Vec::with_capacity(alloc, keys.len())?;
    for key in keys {
        let bytes = read_record(conn, &key)?;
        pairs.push(Pair { key, bytes })?;
    }
    Ok(pairs)
}

/// The keys of the table in ascending order.
fn read_keys<S: Alter>(alloc: Global, conn: &mut Connection<S>) -> Result<Vec<Vec<u8>>, Error> {
    let mut keys = Vec::new(alloc);
    let mut rows = conn.query(KEYS, &[])?;
    for _ in 0..u64::MAX {
        match next_key(&mut rows)? {
            Some(key) => keys.push(key)?,
            None => return Ok(keys),
        }
    }
    Ok(keys)
}

/// The key of the next row, if there is one.
fn next_key<S: Alter>(rows: &mut Rows<'_, S>) -> Result<Option<Vec<u8>>, Error> {
    rows.advance()?;
    match rows.get() {
        Some(row) => Ok(Some(row.get(0)?)),
        None => Ok(None),
    }
}

/// The record under the key.
fn read_record<S: Alter>(conn: &mut Connection<S>, key: &[u8]) -> Result<Vec<u8>, Error> {
    let row = conn.query_row(RECORD, params![key])?;
    row.get(0)
}

/// Whether the keys strictly rise.
fn is_ascending(pairs: &[Pair]) -> bool
    ensures { IsTrue result → IsAscending pairs.now }
{
    for i in 1..pairs.len() {
        let before = i - 1;
        match key_order(&pairs[before], &pairs[i]) {
            Ordering::Less => {}
            _ => return false,
        }
    }
    true
}

/// How the key of the first pair compares with that of the second.
fn key_order(first: &Pair, second: &Pair) -> Ordering
    ensures { result ≡ keys_order first.now.0 second.now.0 }
{
    first.key.as_slice().cmp(second.key.as_slice())
}

/// The answer to a change; counts the fault, if it was one.
pub fn kept(faults: &mut u64, outcome: Result<(), KeeperFail>) -> Kept
    ensures cause { OnKeepFailed result (Rose faults.old faults.new) }
    ensures counted { faults.old ≤ faults.new }
{
    match outcome {
        Ok(()) => Kept::Done,
        Err(KeeperFail::Memory) => Kept::Memory,
        Err(KeeperFail::Failed) => {
            *faults = faults.saturating_add(1);
            Kept::Failed
        }
    }
}

/// The answer to a load, which is noted; counts the fault, if it was one.
pub fn loaded(
    faults: &mut u64,
    calls: &mut CallLog,
    outcome: Result<Vec<Pair>, KeeperFail>,
) -> Result<Vec<Pair>, KeeperFail>
    ensures same { result ≡ outcome }
    ensures cause { OnLoadFailed result (Rose faults.old faults.new) }
    ensures counted { faults.old ≤ faults.new }
    ensures noted { calls.new ≡ noted calls.old Request.Load (load_answer result) }
{
    match outcome {
        Ok(pairs) => {
            calls.note(Request::Load, Kept::Done);
            Ok(pairs)
        }
        Err(KeeperFail::Memory) => {
            calls.note(Request::Load, Kept::Memory);
            Err(KeeperFail::Memory)
        }
        Err(KeeperFail::Failed) => {
            *faults = faults.saturating_add(1);
            calls.note(Request::Load, Kept::Failed);
            Err(KeeperFail::Failed)
        }
    }
}
