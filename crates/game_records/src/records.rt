//! Records: reading and writing.
ghost use Rattle.std.specs.Prelude.{◌≡◌, IfOk, IfSome, IfNone, IsTrue, ◌↔◌};
ghost use Rattle.game_records.specs.Bounds.{IsSpellable, IsTyped};
ghost use Rattle.game_records.specs.Reading.{record_in};
ghost use Rattle.game_records.specs.Spelling.{IsSpelled, spelling};
ghost use Rattle.game_records.specs.declared.records.Record.{Record};

use crate::accounts::{account_in, write_account};
use crate::bounds::is_game;
use crate::bytes::Bytes;
use crate::games::{game_in, write_game};
use crate::numbers::byte_at;
use crate::stored_game::StoredGame;
use fics_words::Account;
use memory::NoMemory;
use std::alloc::Global;

/// The second byte of an account's record.
const ACCOUNT: u8 = 0x41;

/// What the store has under one key.
#[derive(Drop)]
pub enum Record {
    /// A registered player.
    Account(Account),
    /// A game that waits to be resumed.
    Game(StoredGame),
}

/// Writes the one spelling of a record. Minutes and increment are at most 600, an array of Fischer random has a number
/// below 960, a board has at most 1,200 half-moves, and each charge is one that a clock may have.
#[tactic(auto, using(crate::proofs::Counts::few_halves))]
pub fn write_record(alloc: Global, value: &Record) -> Result<Bytes, NoMemory>
    requires { IsSpellable value.now }
    ensures { IfOk result (λ bytes. bytes ≡ spelling value.now) }
{
    let mut out = Vec::new(alloc);
    match value {
        Record::Account(account) => write_account(&mut out, account)?,
        Record::Game(game) => write_game(&mut out, game)?,
    }
    Ok(Bytes::of(out))
}

/// Reads a record: the one whose spelling these bytes are, and `None` exactly where they are the spelling of none.
pub fn read_record(alloc: Global, bytes: &[u8]) -> Result<Option<Record>, NoMemory>
    ensures found { IfOk result (λ read. IfSome read (λ r. IsSpelled r bytes.now)) }
    ensures none { IfOk result (λ read. IfNone read ((r : Record) → IsSpelled r bytes.now → ⊥)) }
{
    let Some(candidate) = record_in(alloc, bytes)? else {
        return Ok(None);
    };
    let spelled = is_spelled(alloc, &candidate, bytes)?;
    if !spelled {
        return Ok(None);
    }
    Ok(Some(candidate))
}

/// Whether the bytes are the spelling of the record.
fn is_spelled(alloc: Global, value: &Record, bytes: &[u8]) -> Result<bool, NoMemory>
    ensures { IfOk result (λ yes. IsTrue yes ↔ (IsSpellable value.now × (bytes.now ≡ spelling value.now))) }
{
    if !is_spellable(value) {
        return Ok(false);
    }
    let written = write_record(alloc, value)?;
    Ok(bytes == written.as_slice())
}

/// Whether the record has a spelling.
fn is_spellable(value: &Record) -> bool
    ensures { IsTrue result ↔ IsSpellable value.now }
{
    match value {
        Record::Account(_) => true,
        Record::Game(game) => is_game(game),
    }
}

/// The one record that the bytes may be the spelling of, where names are handles and nothing of the digest is missing.
fn record_in(alloc: Global, bytes: &[u8]) -> Result<Option<Record>, NoMemory>
    ensures value { IfOk result (λ read. IfSome read (λ r. r ≡ record_in bytes.now)) }
    ensures typed { IfOk result (λ read. IfSome read IsTyped) }
    ensures none { IfOk result (λ read. IfNone read (IsTyped (record_in bytes.now) → ⊥)) }
{
    if byte_at(bytes, 1) == ACCOUNT {
        return Ok(account_in(bytes).map(Record::Account));
    }
    Ok(game_in(alloc, bytes)?.map(Record::Game))
}
