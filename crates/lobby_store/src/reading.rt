//! What a keeper loads is read.
ghost use Rattle.std.specs.Prelude.{IfOk, IfSome, IfNone};
ghost use Rattle.game_records.specs.Spelling.{IsSpelled};
ghost use Rattle.game_records.specs.declared.records.Record.{Record};
ghost use Rattle.lobby_store.specs.Rows.{IsNoRow, IsRow};

use desk_boards::replays;
use edge_traits::Pair;
use fics_words::Account;
use game_records::{Record, StoredGame, account_key, game_number, read_record};
use memory::NoMemory;
use std::alloc::Global;

/// A row of a store: a record under its own key.
#[derive(Drop)]
pub enum StoreRow {
    /// An account, under the key of its name.
    Account(Account),
    /// A game that replays, under the key of its number, which is from 1 on.
    Game { number: u64, game: StoredGame },
}

/// Reads a pair of a key and a record: the row that it is, and `None` exactly where it is none: where the record isn't
/// in the grammar, isn't under its own key, or is a game that doesn't replay.
pub fn read_row(alloc: Global, pair: &Pair) -> Result<Option<StoreRow>, NoMemory>
    ensures found { IfOk result (λ read. IfSome read (λ row. IsRow row pair.now)) }
    ensures none { IfOk result (λ read. IfNone read (IsNoRow pair.now)) }
{
    match read_record(alloc, pair.bytes.as_slice())? {
        None => Ok(None),
        Some(Record::Account(account)) => account_row(alloc, pair, account),
        Some(Record::Game(game)) => game_row(alloc, pair, game),
    }
}

/// The row of the account that the record is, where it is under its own key.
fn account_row(alloc: Global, pair: &Pair, account: Account) -> Result<Option<StoreRow>, NoMemory>
    requires { IsSpelled (Record.Account account) pair.now.1 }
    ensures found { IfOk result (λ read. IfSome read (λ row. IsRow row pair.now)) }
    ensures none { IfOk result (λ read. IfNone read (IsNoRow pair.now)) }
{
    let own = account_key(alloc, account.name.key())?;
    if pair.key.as_slice() != own.as_slice() {
        return Ok(None);
    }
    Ok(Some(StoreRow::Account(account)))
}

/// The row of the game that the record is, where it is under a game's key and replays.
fn game_row(alloc: Global, pair: &Pair, game: StoredGame) -> Result<Option<StoreRow>, NoMemory>
    requires { IsSpelled (Record.Game game) pair.now.1 }
    ensures found { IfOk result (λ read. IfSome read (λ row. IsRow row pair.now)) }
    ensures none { IfOk result (λ read. IfNone read (IsNoRow pair.now)) }
{
    let Some(number) = game_number(pair.key.as_slice()) else {
        return Ok(None);
    };
    if !replays(alloc, &game)? {
        return Ok(None);
    }
    Ok(Some(StoreRow::Game { number, game }))
}
