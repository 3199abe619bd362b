//! Puts records into a store, loads them or holds the store. It prints what came of it. `bench/store` measures how long
//! that takes, and what becomes of a store on which things go wrong.
//!
//! The words are WHAT PATH COUNT: `put` puts so many records and says of each what came of it, `load` says how many
//! there are, `read` says it by the keeper that only reads, and `hold` keeps the store until its input ends.
#![tactic(auto)]

use edge_traits::{Keeper, KeeperFail, Kept};
use file_keeper::{AnyKeeper, SqliteKeeper, StoreReader};
use std::alloc::{AllocError, Global};
use std::io::Read;
use std::{env, io};

/// As long as the record of a game of some eighty half-moves.
const LENGTH: usize = 600;

fn main(rt: HostRuntime) -> io::Result<()> {
    let Ok(words) = words_of(&rt) else {
        return println!(rt; "out of memory");
    };
    let (Some(what), Some(path)) = (words.get(0), words.get(1)) else {
        return println!(rt; "the words are WHAT PATH COUNT");
    };
    let path = String::from_str(rt.alloc(), path)?;
    let mut keeper = keeper_for(rt, what.as_str(), path);
    if what.as_str() == "read" {
        say_count(&rt, &mut keeper)
    } else if what.as_str() == "put" {
        put_all(&rt, &mut keeper, count_of(words.get(2)))
    } else if what.as_str() == "hold" {
        hold(&rt, &mut keeper)
    } else {
        say_loaded(&rt, &mut keeper)
    }
}

/// The words behind the program's name.
fn words_of(rt: &HostRuntime) -> Result<Vec<String>, AllocError> {
    match env::args(rt) {
        Ok(args) => args.skip(1).collect(rt.alloc()),
        Err(_) => Err(AllocError),
    }
}

fn keeper_for(rt: HostRuntime, what: &str, path: String) -> AnyKeeper {
    if what == "read" {
        AnyKeeper::Read(StoreReader::new(rt, path))
    } else {
        AnyKeeper::Held(SqliteKeeper::new(rt, path))
    }
}

fn count_of(word: Option<&String>) -> u64 {
    match word {
        Some(text) => text.parse().unwrap_or(0),
        None => 0,
    }
}

/// Puts records one after another, each under its number, up to the first that isn't kept; then lets the store go.
fn put_all(rt: &HostRuntime, keeper: &mut AnyKeeper, count: u64) -> io::Result<()> {
    for number in 0..count {
        let Ok(kept) = put_one(rt.alloc(), keeper, number) else {
            return println!(*rt; "out of memory");
        };
        println!(*rt; "{number} {}", name_of(kept))?;
        if kept != Kept::Done {
            break;
        }
    }
    let kept = keeper.close();
    println!(*rt; "closed: {}", name_of(kept))
}

fn put_one(alloc: Global, keeper: &mut AnyKeeper, number: u64) -> Result<Kept, AllocError> {
    let key = format!(in alloc; "record {number:08}")?;
    let bytes = vec![in alloc; 120u8; LENGTH]?;
    Ok(keeper.put(key.as_bytes(), &bytes))
}

fn name_of(kept: Kept) -> &'static str {
    match kept {
        Kept::Done => "done",
        Kept::Failed => "failed",
        Kept::Memory => "out of memory",
    }
}

fn say_loaded(rt: &HostRuntime, keeper: &mut AnyKeeper) -> io::Result<()> {
    say_count(rt, keeper)?;
    let kept = keeper.close();
    println!(*rt; "closed: {}", name_of(kept))
}

fn say_count(rt: &HostRuntime, keeper: &mut AnyKeeper) -> io::Result<()> {
    match keeper.load() {
        Ok(pairs) => println!(*rt; "{} records", pairs.len()),
        Err(KeeperFail::Failed) => println!(*rt; "failed"),
        Err(KeeperFail::Memory) => println!(*rt; "out of memory"),
    }
}

/// Loads, and keeps the store until the input ends.
fn hold(rt: &HostRuntime, keeper: &mut AnyKeeper) -> io::Result<()> {
    say_count(rt, keeper)?;
    let mut byte = [0; 1];
    let _ended = rt.reader().read(&mut byte)?;
    let kept = keeper.close();
    println!(*rt; "closed: {}", name_of(kept))
}
