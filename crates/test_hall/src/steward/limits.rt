//! Stores with as many accounts or games as a server holds, and with one more.

use edge_traits::{Keeper, Kept};
use lobby_load::{StoreFault, open_store};
use memory::NoMemory;
use memory_edges::{MemKeeper, MemSink};
use std::alloc::Global;

/// What the rows of a store are.
#[derive(Clone, Copy)]
enum Rows {
    Accounts,
    Games,
}

/// A game of Ann and Ben that has just begun.
const GAME: &[u8] = b"\x01\x47\x00\x00\x00\x00\x00\x03Ann\x03Ben\x00\x00";

/// Behind the head of a record: the name of an account has four letters.
const FOUR: &[u8] = b"\x01\x41\x04";

const DIGEST: [u8; 32] = [7; 32];

#[test]
fn the_account_behind_4096_is_bad(rt: HostRuntime) -> Result<(), NoMemory> {
    // The last one in the order of the keys is `xgbp`, since 6 x 676 + 1 x 26 + 15 is 4,097.
    let line = b"bad record 6178676270\n";
    assert!(rt; refuses(rt.alloc(), Rows::Accounts, 4097, line)?);
    Ok(())
}

#[test]
fn the_game_behind_10000_is_bad(rt: HostRuntime) -> Result<(), NoMemory> {
    // 10,001 is 2711 in hexadecimal digits.
    let line = b"bad record 670000000000002711\n";
    assert!(rt; refuses(rt.alloc(), Rows::Games, 10_001, line)?);
    Ok(())
}

#[test]
fn ten_thousand_games_are_loaded(rt: HostRuntime) -> Result<(), NoMemory> {
    assert!(rt; loads(rt.alloc(), Rows::Games, 10_000, (0, 10_000))?);
    Ok(())
}

/// Whether so many rows are loaded as so many accounts and games.
fn loads(alloc: Global, rows: Rows, count: u64, sizes: (u32, u32)) -> Result<bool, NoMemory> {
    let mut keeper = keeper_of(alloc, rows, count)?;
    let mut sink = MemSink::new(alloc, Vec::new(alloc));
    Ok(sizes_of(alloc, &mut keeper, &mut sink) == Some(sizes))
}

/// Whether a record of so many rows is told as bad, by this line.
fn refuses(alloc: Global, rows: Rows, count: u64, line: &[u8]) -> Result<bool, NoMemory> {
    let mut keeper = keeper_of(alloc, rows, count)?;
    let mut sink = MemSink::new(alloc, Vec::new(alloc));
    let sizes = sizes_of(alloc, &mut keeper, &mut sink);
    Ok(sizes.is_none() && sink.written() == line)
}

/// How many accounts and stored games the lobby has that is loaded. It ensures nothing, so that nothing above it is
/// proved over what opening does.
fn sizes_of(alloc: Global, keeper: &mut MemKeeper, sink: &mut MemSink) -> Option<(u32, u32)> {
    match open_store(alloc, keeper, sink) {
        Ok(lobby) => Some(lobby.sizes()),
        Err(StoreFault::BadRecord | StoreFault::KeeperFault) => None,
        Err(StoreFault::WriteFault | StoreFault::Memory) => None,
    }
}

/// A keeper that holds so many rows. The last one of all is put first, since a keeper in memory looks from the front.
fn keeper_of(alloc: Global, rows: Rows, count: u64) -> Result<MemKeeper, NoMemory> {
    let mut keeper = MemKeeper::new(alloc, Vec::new(alloc));
    for done in 0..count {
        put_row(alloc, &mut keeper, rows, count - done)?;
    }
    Ok(keeper)
}

/// Puts the row of that number.
fn put_row(alloc: Global, keeper: &mut MemKeeper, rows: Rows, number: u64) -> Result<(), NoMemory> {
    let kept = match rows {
        Rows::Accounts => put_account(alloc, keeper, number)?,
        Rows::Games => put_game(alloc, keeper, number)?,
    };
    match kept {
        Kept::Done => Ok(()),
        _ => Err(NoMemory),
    }
}

fn put_account(alloc: Global, keeper: &mut MemKeeper, number: u64) -> Result<Kept, NoMemory> {
    let name = name_of(number);
    let mut key = Vec::from_slice(alloc, b"a")?;
    key.extend_from_slice(&name)?;
    let mut record = Vec::from_slice(alloc, FOUR)?;
    record.extend_from_slice(&name)?;
    record.extend_from_slice(&DIGEST)?;
    Ok(keeper.put(key.as_slice(), record.as_slice()))
}

fn put_game(alloc: Global, keeper: &mut MemKeeper, number: u64) -> Result<Kept, NoMemory> {
    let mut key = Vec::from_slice(alloc, b"g")?;
    key.extend_from_slice(&number.to_be_bytes())?;
    Ok(keeper.put(key.as_slice(), GAME))
}

/// The name of the account of that number: they rise with the numbers, up to 17,575.
fn name_of(number: u64) -> [u8; 4] {
    [
        b'x',
        letter(number / 676),
        letter(number / 26),
        letter(number),
    ]
}

/// The letter of that number, counted from 0 and round again behind the last one.
fn letter(number: u64) -> u8 {
    b'a' + (number % 26) as u8
}
