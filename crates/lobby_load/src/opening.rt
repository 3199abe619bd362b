//! A store is opened: it is loaded, and a sink is told of a bad record.
ghost use Rattle.std.specs.Prelude.{◌≡◌, ◌≤◌, IfOk, IfSome};
ghost use Rattle.edge_traits.specs.Faults.{Rose};
ghost use Rattle.edge_traits.specs.Keeper.{Stays};
ghost use Rattle.lobby_load.specs.BadRows.{IsGoodStore};
ghost use Rattle.lobby_load.specs.Calling.{LoadsOnce, OpensAt};
ghost use Rattle.lobby_load.specs.Loaded.{AreSpelled, HasLoaded, HasSizes, IsAtOpening};
ghost use Rattle.lobby_load.specs.Refused.{IfWriteFault, OnReadFault, OnWriteFault, UnlessUnwritten, UnlessWriteFault};
ghost use Rattle.lobby_load.specs.Telling.{TellsBadRecord, TellsKey, bad_record_line};

use crate::loading::load;
use crate::refusals::{LoadRefusal, StoreFault};
use edge_traits::{Keeper, Sent, Sink};
use lobby_state::Lobby;
use memory::NoMemory;
use std::alloc::Global;

/// Loads what a keeper holds, as `load` does, and tells the sink of a bad record by the line `bad record K` and a line
/// feed, where K is the least bad key in lower-case hexadecimal digits; else it writes nothing. It answers `BadRecord`
/// where the line was written, `KeeperFault` only where the keeper counted a fault, `WriteFault` exactly where the sink
/// did, and `Memory` only when out of memory; then, as after `WriteFault`, a beginning of the line may have been
/// written.
pub fn open_store<P: Keeper, K: Sink>(
    alloc: Global,
    keeper: &mut P,
    sink: &mut K,
) -> Result<Lobby, StoreFault>
    ensures opening { IfOk result IsAtOpening }
    ensures loaded { IfOk result (λ lobby. IfSome (P.table keeper.old) (λ table. HasLoaded table lobby)) }
    ensures sized { IfOk result (λ lobby. IfSome (P.table keeper.old) (λ table. HasSizes table lobby)) }
    ensures spelled { IfOk result AreSpelled }
    ensures good { IfOk result (λ lobby. IfSome (P.table keeper.old) IsGoodStore) }
    ensures tells { TellsBadRecord (P.table keeper.old) (K.written sink.old) (K.written sink.new) result }
    ensures unchanged { Stays (P.table keeper.old) (P.table keeper.new) }
    ensures called { LoadsOnce (P.calls keeper.old) (P.calls keeper.new) (OpensAt result) }
    ensures keeper_cause { OnReadFault result (Rose (P.faults keeper.old) (P.faults keeper.new)) }
    ensures keeper_counted { P.faults keeper.old ≤ P.faults keeper.new }
    ensures write_cause { OnWriteFault result (Rose (K.faults sink.old) (K.faults sink.new)) }
    ensures write_counted { K.faults sink.old ≤ K.faults sink.new }
    ensures write_calm { UnlessWriteFault result (K.faults sink.new ≡ K.faults sink.old) }
{
    match load(alloc, keeper) {
        Ok(lobby) => Ok(lobby),
        Err(LoadRefusal::BadRecord(key)) => Err(tell(alloc, sink, key.as_slice())),
        Err(LoadRefusal::KeeperFault) => Err(StoreFault::KeeperFault),
        Err(LoadRefusal::Memory) => Err(StoreFault::Memory),
    }
}

/// Writes the line that tells of the record under this key.
fn tell<K: Sink>(alloc: Global, sink: &mut K, key: &[u8]) -> StoreFault
    ensures tells { TellsKey key.now (K.written sink.old) (K.written sink.new) result }
    ensures cause { IfWriteFault result (Rose (K.faults sink.old) (K.faults sink.new)) }
    ensures counted { K.faults sink.old ≤ K.faults sink.new }
    ensures calm { UnlessUnwritten result (K.faults sink.new ≡ K.faults sink.old) }
{
    let Ok(line) = bad_record_line(alloc, key) else {
        return StoreFault::Memory;
    };
    match sink.write(line.as_slice()) {
        Sent::All => StoreFault::BadRecord,
        Sent::Failed => StoreFault::WriteFault,
        Sent::Memory => StoreFault::Memory,
    }
}

/// The line that tells of the record under this key.
fn bad_record_line(alloc: Global, key: &[u8]) -> Result<Vec<u8>, NoMemory>
    ensures { IfOk result (λ line. line.items ≡ bad_record_line key.now) }
{
    let digits = hex::encode(alloc, key)?;
    let mut line = Vec::new(alloc);
    line.extend_from_slice(b"bad record ")?;
    line.extend_from_slice(digits.as_bytes())?;
    line.push(b'\n')?;
    Ok(line)
}
