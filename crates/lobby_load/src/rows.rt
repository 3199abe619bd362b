//! The rows of a store are added to a lobby, one after another.
ghost use Rattle.std.specs.Prelude.{◌≡◌, ◌≤◌, ◌<◌, false, IfOk, None, length};
ghost use Rattle.game_records.specs.Replays.{Replays};
ghost use Rattle.lobby_shelf.specs.Numbers.{stored_game};
ghost use Rattle.lobby_shelf.specs.Shelf.{most_stored};
ghost use Rattle.lobby_state.specs.Lobby.{has_account, most_accounts};
ghost use Rattle.lobby_state.specs.ShelfRoom.{places_taken};
ghost use Rattle.lobby_store.specs.Agreeing.{wanted_by};
ghost use Rattle.lobby_load.specs.Filling.{AddsAccount, AddsGame, AddsRow, CannotTake, OnTaken};

use edge_traits::Pair;
use fics_words::{Account, Fail};
use game_records::StoredGame;
use lobby_state::Lobby;
use lobby_store::{StoreRow, read_row};
use memory::NoMemory;
use std::alloc::Global;

/// What became of a row.
#[derive(Clone, Copy)]
pub(crate) enum Taken {
    /// It was added.
    Added,
    /// The lobby can't take it.
    Refused,
}

/// Adds the account or the game that the pair is the row of, if it is a row and there is room for it. The lobby has
/// nothing under that key yet.
pub(crate) fn add_row(alloc: Global, lobby: &mut Lobby, pair: &Pair) -> Result<Taken, NoMemory>
    requires { wanted_by lobby.old pair.now.0 ≡ None }
    ensures { IfOk result (λ taken. OnTaken taken (AddsRow pair.now lobby.old lobby.new)
        (CannotTake lobby.old pair.now)) }
{
    match read_row(alloc, pair)? {
        None => Ok(Taken::Refused),
        Some(StoreRow::Account(account)) => add_account(lobby, account),
        Some(StoreRow::Game { number, game }) => Ok(add_game(lobby, number, game)),
    }
}

/// Adds an account, if there is room for it.
fn add_account(lobby: &mut Lobby, account: Account) -> Result<Taken, NoMemory>
    requires { has_account lobby.old.accounts account.name ≡ false }
    ensures { IfOk result (λ taken. OnTaken taken (AddsAccount account lobby.old lobby.new)
        (most_accounts ≤ length lobby.old.accounts)) }
{
    match lobby.add_account(account) {
        Ok(()) => Ok(Taken::Added),
        Err(Fail::Refused(_)) => Ok(Taken::Refused),
        Err(Fail::Memory) => Err(NoMemory),
    }
}

/// Adds a stored game, if there is room for it.
fn add_game(lobby: &mut Lobby, number: u64, game: StoredGame) -> Taken
    requires positive { 1 ≤ number }
    requires unused { stored_game lobby.old.shelf.games number ≡ None }
    requires replays { Replays game }
    ensures { OnTaken result (AddsGame number game lobby.old lobby.new)
        (most_stored ≤ places_taken lobby.old) }
{
    match lobby.add_stored(number, game) {
        Ok(()) => Taken::Added,
        Err(_) => Taken::Refused,
    }
}
