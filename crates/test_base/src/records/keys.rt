//! The keys of the store.

use fics_words::Handle;
use game_records::{account_key, game_key, game_number};
use memory::NoMemory;
use std::alloc::Global;
use std::test::Fail;
use test_steps::assert_rows;

/// A key, and the number of the game that it is the key of.
type Row = (&'static [u8], Option<u64>);

const ROWS: &[Row] = &[
    (b"g\x00\x00\x00\x00\x00\x00\x00\x01", Some(1)),
    (b"g\x00\x00\x00\x00\x00\x00\x01\x02", Some(258)),
    (
        b"g\xff\xff\xff\xff\xff\xff\xff\xff",
        Some(18_446_744_073_709_551_615),
    ),
    (b"g\x00\x00\x00\x00\x00\x00\x00\x00", None),
    (b"g\x00\x00\x00\x00\x00\x00\x01", None),
    (b"g\x00\x00\x00\x00\x00\x00\x00\x00\x01", None),
    (b"a\x00\x00\x00\x00\x00\x00\x00\x01", None),
    (b"aann", None),
    (b"", None),
];

#[test]
fn numbers(rt: HostRuntime) -> Result<(), Fail> {
    assert_rows!(rt; ROWS, |(key, number)| game_number(key) == *number);
    Ok(())
}

/// Whether that is the key of the number, where there is one.
fn is_key(alloc: Global, number: Option<u64>, key: &[u8]) -> Result<bool, NoMemory> {
    let Some(number) = number else {
        return Ok(true);
    };
    Ok(number != 0 && game_key(alloc, number)?.as_slice() == key)
}

#[test]
fn games(rt: HostRuntime) -> Result<(), Fail> {
    assert_rows!(rt; ROWS, |(key, number)| is_key(rt.alloc(), *number, key)?);
    Ok(())
}

fn is_account_key(alloc: Global, name: &[u8], key: &[u8]) -> Result<bool, NoMemory> {
    match Handle::read(name) {
        Some(name) => Ok(account_key(alloc, name.key())?.as_slice() == key),
        None => Ok(false),
    }
}

#[test]
fn accounts(rt: HostRuntime) -> Result<(), Fail> {
    assert!(rt; is_account_key(rt.alloc(), b"Ann", b"aann")?);
    assert!(rt; is_account_key(rt.alloc(), b"McDonald", b"amcdonald")?);
    Ok(())
}
