//! What a keeper holds is loaded.
ghost use Rattle.std.specs.Prelude.{◌≡◌, ◌≤◌, IfOk, IfSome, OnOk};
ghost use Rattle.edge_traits.specs.Faults.{Rose};
ghost use Rattle.edge_traits.specs.Keeper.{Stays};
ghost use Rattle.edge_traits.specs.Pairs.{IsAscending};
ghost use Rattle.lobby_state.specs.Lobby.{opening};
ghost use Rattle.lobby_load.specs.BadRows.{IsGoodStore, IsLeastBad};
ghost use Rattle.lobby_load.specs.Filling.{HasRows, IsLeastBadOf, NamesKey};
ghost use Rattle.lobby_load.specs.Loaded.{AreSpelled, HasLoaded, HasSizes, IsAtOpening};
ghost use Rattle.lobby_load.specs.Calling.{LoadsAt, LoadsOnce};
ghost use Rattle.lobby_load.specs.Refused.{OnBadRecord, OnKeeperFault};

use crate::refusals::LoadRefusal;
use crate::rows::{Taken, add_row};
use collections::Listed;
use edge_traits::{Keeper, KeeperFail, Pair};
use lobby_state::Lobby;
use memory::NoMemory;
use std::alloc::Global;

/// Loads what a keeper holds: a lobby at its opening that has the accounts and the stored games of the keeper's table,
/// each under its own key, and no save order. It answers `BadRecord` with the least bad key: the record there isn't in
/// the grammar, isn't under its own key, is a game that doesn't replay, or is one more than 4,096 accounts or 10,000
/// games in the order of the keys. It answers `KeeperFault` only where the keeper counted a fault, and `Memory` only
/// when out of memory. It changes nothing at the keeper.
pub fn load<P: Keeper>(alloc: Global, keeper: &mut P) -> Result<Lobby, LoadRefusal>
    ensures opening { IfOk result IsAtOpening }
    ensures loaded { IfOk result (λ lobby. IfSome (P.table keeper.old) (λ table. HasLoaded table lobby)) }
    ensures sized { IfOk result (λ lobby. IfSome (P.table keeper.old) (λ table. HasSizes table lobby)) }
    ensures spelled { IfOk result AreSpelled }
    ensures good { IfOk result (λ lobby. IfSome (P.table keeper.old) IsGoodStore) }
    ensures bad { OnBadRecord result (λ key. IfSome (P.table keeper.old) (λ table. IsLeastBad table key)) }
    ensures unchanged { Stays (P.table keeper.old) (P.table keeper.new) }
    ensures called { LoadsOnce (P.calls keeper.old) (P.calls keeper.new) (LoadsAt result) }
    ensures cause { OnKeeperFault result (Rose (P.faults keeper.old) (P.faults keeper.new)) }
    ensures counted { P.faults keeper.old ≤ P.faults keeper.new }
{
    match keeper.load() {
        Ok(pairs) => lobby_of(alloc, pairs),
        Err(KeeperFail::Failed) => Err(LoadRefusal::KeeperFault),
        Err(KeeperFail::Memory) => Err(LoadRefusal::Memory),
    }
}

/// The lobby that is made of these pairs.
fn lobby_of(alloc: Global, pairs: Vec<Pair>) -> Result<Lobby, LoadRefusal>
    requires { IsAscending pairs.items }
    ensures made { IfOk result (HasRows pairs.items) }
    ensures bad { OnBadRecord result (IsLeastBadOf pairs.items) }
    ensures no_fault { OnKeeperFault result ⊥ }
{
    let mut lobby = Lobby::new(alloc)?;
    fill(alloc, &mut lobby, pairs)?;
    Ok(lobby)
}

/// Adds these pairs to a lobby at its opening, in their order. Each is let go once it was read, so that the records
/// aren't in memory beside the games that were made of them.
fn fill(alloc: Global, lobby: &mut Lobby, pairs: Vec<Pair>) -> Result<(), LoadRefusal>
    requires ascending { IsAscending pairs.items }
    requires empty { lobby.old ≡ opening }
    ensures made { OnOk result (HasRows pairs.items lobby.new) }
    ensures bad { OnBadRecord result (IsLeastBadOf pairs.items) }
    ensures no_fault { OnKeeperFault result ⊥ }
{
    for pair in pairs {
        match add_row(alloc, lobby, &pair)? {
            Taken::Added => {}
            Taken::Refused => return Err(bad_record(alloc, &pair)),
        }
    }
    Ok(())
}

/// The refusal that names the key of this pair, or want of memory for it.
fn bad_record(alloc: Global, pair: &Pair) -> LoadRefusal
    ensures { NamesKey pair.now.0 result }
{
    match listed(alloc, pair.key.as_slice()) {
        Ok(key) => LoadRefusal::BadRecord(key),
        Err(NoMemory) => LoadRefusal::Memory,
    }
}

/// A list of these bytes.
fn listed(alloc: Global, bytes: &[u8]) -> Result<Listed<u8>, NoMemory>
    ensures { IfOk result (λ list. list ≡ bytes.now) }
{
    let mut list = Listed::new(alloc);
    for byte in bytes {
        list.push(*byte)?;
    }
    Ok(list)
}
