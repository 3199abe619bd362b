//! What reading a text comes to.
ghost use Rattle.game_records.specs.Bounds.{IsSpellable};

use game_records::{Record, read_record, write_record};
use memory::NoMemory;
use std::alloc::Global;

/// What reading a text, and writing what was read, comes to.
#[derive(Clone, Copy, PartialEq)]
pub enum Outcome {
    /// It is no record.
    Nothing,
    /// It is a record, which is written with the same bytes.
    Same,
    /// It is a record, which is written with other bytes.
    Other,
}

/// What reading the text comes to.
pub fn reading(alloc: Global, text: &[u8]) -> Result<Outcome, NoMemory> {
    match read_record(alloc, text)? {
        None => Ok(Outcome::Nothing),
        Some(record) => written_again(alloc, &record, text),
    }
}

fn written_again(alloc: Global, value: &Record, text: &[u8]) -> Result<Outcome, NoMemory>
    requires { IsSpellable value.now }
{
    let written = write_record(alloc, value)?;
    if written.as_slice() == text {
        Ok(Outcome::Same)
    } else {
        Ok(Outcome::Other)
    }
}

/// Whether the text is no record.
pub fn is_nothing(alloc: Global, text: &[u8]) -> Result<bool, NoMemory> {
    Ok(matches!(reading(alloc, text)?, Outcome::Nothing))
}

/// Whether the text is a record, which is written with the same bytes.
pub fn is_same(alloc: Global, text: &[u8]) -> Result<bool, NoMemory> {
    Ok(matches!(reading(alloc, text)?, Outcome::Same))
}
