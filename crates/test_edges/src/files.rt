//! A store that one keeper writes, and what others make of it meanwhile and afterwards; and a keeper without a store.

use crate::calls::{Call, Records, first_failing};
use edge_traits::Kept;
use file_keeper::{AnyKeeper, SqliteKeeper, StoreReader};
use real_edges::NoStore;
use std::alloc::AllocError;
use std::hash::{BuildHasher, RandomState};
use std::test::Fail;
use std::{env, fs, io};

/// Of the keeper that has the file. Keys and records may be empty.
const WRITTEN: &[Call] = &[
    Call::Loads(&[]),
    Call::Puts(b"b", b"1", Kept::Done),
    Call::Puts(b"a", b"2", Kept::Done),
    Call::Puts(b"ab", b"", Kept::Done),
    Call::Puts(b"b", b"3", Kept::Done),
    Call::Puts(b"", b"4", Kept::Done),
    Call::Removes(b"none", Kept::Done),
    Call::Removes(b"a", Kept::Done),
    Call::Loads(LEFT),
];

const LEFT: Records = &[(b"", b"4"), (b"ab", b""), (b"b", b"3")];

/// Of a second keeper, while the first has the file.
const KEPT_OUT: &[Call] = &[
    Call::Puts(b"c", b"5", Kept::Failed),
    Call::Removes(b"b", Kept::Failed),
    Call::Refuses,
];

/// Of a keeper behind the first one.
const FOUND: &[Call] = &[
    Call::Loads(LEFT),
    Call::Puts(b"c", b"6", Kept::Done),
    Call::Removes(b"c", Kept::Done),
    Call::Loads(LEFT),
];

/// Of a reader, whoever has the file.
const READ: &[Call] = &[
    Call::Loads(LEFT),
    Call::Puts(b"c", b"7", Kept::Failed),
    Call::Removes(b"b", Kept::Failed),
    Call::Loads(LEFT),
];

/// Of a reader, where there is no file.
const NOTHING_THERE: &[Call] = &[Call::Refuses, Call::Refuses];

/// Of a keeper that keeps nothing.
const NOT_KEPT: &[Call] = &[
    Call::Puts(b"a", b"1", Kept::Done),
    Call::Removes(b"b", Kept::Done),
    Call::Loads(&[]),
];

/// A path where there is no file.
fn fresh_path(rt: &HostRuntime) -> io::Result<String> {
    let number = RandomState::new(rt)?.hash_one(&0u8);
    let folder = env::temp_dir(rt)?.into_string();
    Ok(format!(in rt.alloc(); "{folder}/ficsd-keeper-{number}")?)
}

fn keeper_at(rt: &HostRuntime, path: &str) -> Result<AnyKeeper, AllocError> {
    let path = String::from_str(rt.alloc(), path)?;
    Ok(AnyKeeper::Held(SqliteKeeper::new(*rt, path)))
}

fn reader_at(rt: &HostRuntime, path: &str) -> Result<AnyKeeper, AllocError> {
    let path = String::from_str(rt.alloc(), path)?;
    Ok(AnyKeeper::Read(StoreReader::new(*rt, path)))
}

/// The first call of a new keeper that comes to something else, if one does. It lets the file go at its end.
fn first_wrong_anew(
    rt: &HostRuntime,
    path: &str,
    calls: &[Call],
) -> Result<Option<usize>, AllocError> {
    let mut keeper = keeper_at(rt, path)?;
    Ok(first_wrong_to_the_end(&mut keeper, calls))
}

fn first_wrong_to_the_end(keeper: &mut AnyKeeper, calls: &[Call]) -> Option<usize> {
    let wrong = first_failing(keeper, calls);
    match keeper.close() {
        Kept::Done => wrong,
        _ => Some(calls.len()),
    }
}

fn first_wrong_read(
    rt: &HostRuntime,
    path: &str,
    calls: &[Call],
) -> Result<Option<usize>, AllocError> {
    let mut reader = reader_at(rt, path)?;
    Ok(first_failing(&mut reader, calls))
}

fn remove_store(rt: &HostRuntime, path: &str) -> io::Result<()> {
    fs::remove_file(rt, path)?;
    fs::remove_file(rt, format!(in rt.alloc(); "{path}-wal")?.as_str())
}

/// What a second keeper comes to while the first has the file.
fn first_wrong_beside(rt: &HostRuntime, path: &str) -> Result<Option<usize>, AllocError> {
    let mut first = keeper_at(rt, path)?;
    first_wrong_of_two(rt, path, &mut first)
}

fn first_wrong_of_two(
    rt: &HostRuntime,
    path: &str,
    first: &mut AnyKeeper,
) -> Result<Option<usize>, AllocError> {
    if let Some(place) = first_failing(first, WRITTEN) {
        return Ok(Some(place));
    }
    first_wrong_anew(rt, path, KEPT_OUT)
}

#[test]
fn keeps_records_in_a_file(rt: HostRuntime) -> Result<(), Fail> {
    let path = fresh_path(&rt)?;
    assert_eq!(rt; first_wrong_beside(&rt, &path)?, None);
    assert_eq!(rt; first_wrong_anew(&rt, &path, FOUND)?, None);
    remove_store(&rt, &path)?;
    Ok(())
}

/// What a reader comes to while a keeper has the file, with records in the log alone.
fn first_wrong_read_beside(rt: &HostRuntime, path: &str) -> Result<Option<usize>, AllocError> {
    let mut keeper = keeper_at(rt, path)?;
    first_wrong_read_of_two(rt, path, &mut keeper)
}

fn first_wrong_read_of_two(
    rt: &HostRuntime,
    path: &str,
    keeper: &mut AnyKeeper,
) -> Result<Option<usize>, AllocError> {
    if let Some(place) = first_failing(keeper, WRITTEN) {
        return Ok(Some(place));
    }
    first_wrong_read(rt, path, READ)
}

#[test]
fn reads_a_file_that_is_kept(rt: HostRuntime) -> Result<(), Fail> {
    let path = fresh_path(&rt)?;
    assert_eq!(rt; first_wrong_read(&rt, &path, NOTHING_THERE)?, None);
    assert!(rt; fs::metadata(&rt, path.as_str()).is_err());
    assert_eq!(rt; first_wrong_read_beside(&rt, &path)?, None);
    assert_eq!(rt; first_wrong_read(&rt, &path, READ)?, None);
    remove_store(&rt, &path)?;
    Ok(())
}

#[test]
fn keeps_nothing_without_a_store(rt: HostRuntime) -> Result<(), Fail> {
    let mut keeper = AnyKeeper::Nothing(NoStore::new(rt.alloc()));
    assert_eq!(rt; first_wrong_to_the_end(&mut keeper, NOT_KEPT), None);
    Ok(())
}
