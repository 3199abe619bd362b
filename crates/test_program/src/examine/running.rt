//! `examine` over the fakes.

use crate::examine::games::{Game, game_of};
use cmd_examine::examine;
use cmd_store::status_of_outcome;
use edge_traits::{Keeper, Kept};
use game_records::{Record, StoredGame, game_key, is_game, write_record};
use memory::NoMemory;
use memory_edges::{MemKeeper, MemSink, MemSource};
use std::alloc::Global;

/// What a store has under the number 1: a record, byte by byte, or that of a game.
#[derive(Clone, Copy)]
pub enum Stored {
    Bytes(&'static [u8]),
    Of(Game),
}

/// An evening: what the store has, the number that is asked for, which writes fail, the status, and a text in which a
/// line behind `> ` is read and the others are written, in the order in which they are due.
#[derive(Clone, Copy)]
pub struct Evening(
    pub Stored,
    pub u64,
    pub &'static [u64],
    pub u8,
    pub &'static [&'static str],
);

fn record_of(alloc: Global, stored: Stored) -> Result<Vec<u8>, NoMemory> {
    match stored {
        Stored::Bytes(bytes) => Ok(Vec::from_slice(alloc, bytes)?),
        Stored::Of(game) => spelled(alloc, game_of(alloc, game)?),
    }
}

/// The record of a game; no bytes where it has none.
fn spelled(alloc: Global, game: StoredGame) -> Result<Vec<u8>, NoMemory> {
    if !is_game(&game) {
        return Ok(Vec::new(alloc));
    }
    let record = write_record(alloc, &Record::Game(game))?;
    Ok(Vec::from_slice(alloc, record.as_slice())?)
}

/// Puts the record under the number 1; whether it stands there then.
fn has_put(alloc: Global, keeper: &mut MemKeeper, stored: Stored) -> Result<bool, NoMemory> {
    let record = record_of(alloc, stored)?;
    let key = game_key(alloc, 1)?;
    Ok(matches!(keeper.put(key.as_slice(), record.as_slice()), Kept::Done))
}

/// The lines of the evening that are read, each ended by a line feed.
fn input_of(alloc: Global, evening: &Evening) -> Result<Vec<u8>, NoMemory> {
    let mut input = Vec::new(alloc);
    for line in evening.4 {
        if let Some(line) = line.strip_prefix("> ") {
            input.extend_from_slice(line.as_bytes())?;
            input.push(b'\n')?;
        }
    }
    Ok(input)
}

/// The lines of the evening that are written, each ended by a line feed.
fn output_of(alloc: Global, evening: &Evening) -> Result<Vec<u8>, NoMemory> {
    let mut output = Vec::new(alloc);
    for line in evening.4 {
        if !line.starts_with("> ") {
            output.extend_from_slice(line.as_bytes())?;
            output.push(b'\n')?;
        }
    }
    Ok(output)
}

/// Runs the command on an evening's input; the status, and what was written.
fn ran(
    alloc: Global,
    evening: &Evening,
    keeper: &mut MemKeeper,
) -> Result<(u8, Vec<u8>), NoMemory> {
    let mut source = MemSource::new(input_of(alloc, evening)?, 64, Vec::new(alloc));
    let mut sink = MemSink::new(alloc, Vec::from_slice(alloc, evening.2)?);
    let outcome = examine(alloc, evening.1, &mut source, &mut sink, keeper);
    Ok((
        status_of_outcome(outcome),
        Vec::from_slice(alloc, sink.written())?,
    ))
}

/// Whether an evening goes as it says.
pub fn goes_so(alloc: Global, evening: &Evening) -> Result<bool, NoMemory> {
    let mut keeper = MemKeeper::new(alloc, Vec::new(alloc));
    if !has_put(alloc, &mut keeper, evening.0)? {
        return Ok(false);
    }
    let (status, written) = ran(alloc, evening, &mut keeper)?;
    let due = output_of(alloc, evening)?;
    Ok(status == evening.3 && written.as_slice() == due.as_slice())
}
