//! A store is loaded, and its counts are written.

ghost use Rattle.std.specs.Prelude.{◌≡◌, ◌≤◌, IfOk};
ghost use Rattle.edge_traits.specs.Faults.{Rose};
ghost use Rattle.edge_traits.specs.Keeper.{Stays};
ghost use Rattle.cmd_check.specs.CheckEnds.{CheckEnds, WritesLine};
ghost use Rattle.cmd_check.specs.Counts.{check_line};
ghost use Rattle.cmd_lines.specs.Ends.{OnWriteFault as OnFaultOfWriting};
ghost use Rattle.lobby_load.specs.Calling.{LoadsOnce};
ghost use Rattle.cmd_store.specs.Outcomes.{EndsAt, OnKeeperFault, OnWriteFault};

use cmd_lines::{End, send};
use cmd_store::{Outcome, outcome_of};
use edge_traits::{Keeper, Sink};
use fics_words::write_number;
use lobby_load::open_store;
use memory::NoMemory;
use std::alloc::Global;

/// Loads what a keeper holds, for which it calls it once, and writes how many accounts and games that is: the line
/// `ok: A accounts, G games`. Of a bad record it writes the line `bad record K`, and at a fault of the keeper nothing.
/// At a fault of writing, and when out of memory, at most a beginning of the line was written.
pub fn check<K: Sink, P: Keeper>(alloc: Global, sink: &mut K, keeper: &mut P) -> Outcome
    ensures ends { CheckEnds (P.table keeper.old) (K.written sink.old) (K.written sink.new) result }
    ensures unchanged { Stays (P.table keeper.old) (P.table keeper.new) }
    ensures called { LoadsOnce (P.calls keeper.old) (P.calls keeper.new) (EndsAt result) }
    ensures keeper_cause { OnKeeperFault result (Rose (P.faults keeper.old) (P.faults keeper.new)) }
    ensures keeper_counted { P.faults keeper.old ≤ P.faults keeper.new }
    ensures write_cause { OnWriteFault result (Rose (K.faults sink.old) (K.faults sink.new)) }
    ensures write_counted { K.faults sink.old ≤ K.faults sink.new }
{
    match open_store(alloc, keeper, sink) {
        Ok(lobby) => {
            let (accounts, games) = lobby.sizes();
            Outcome::Read(tell_counts(alloc, accounts, games, sink))
        }
        Err(fault) => outcome_of(fault),
    }
}

/// Writes the line of the counts, in one write.
fn tell_counts<K: Sink>(alloc: Global, accounts: u32, games: u32, sink: &mut K) -> End
    ensures told { WritesLine (check_line accounts games) (K.written sink.old) (K.written sink.new) result }
    ensures cause { OnFaultOfWriting result (Rose (K.faults sink.old) (K.faults sink.new)) }
    ensures counted { K.faults sink.old ≤ K.faults sink.new }
{
    let Ok(line) = counts_line(alloc, accounts, games) else {
        return End::Memory;
    };
    match send(line.as_slice(), sink) {
        Ok(()) => End::Done,
        Err(end) => end,
    }
}

/// The line of the counts.
fn counts_line(alloc: Global, accounts: u32, games: u32) -> Result<Vec<u8>, NoMemory>
    ensures { IfOk result (λ line. line.items ≡ check_line accounts games) }
{
    let mut line = Vec::new(alloc);
    line.extend_from_slice(b"ok: ")?;
    write_number(&mut line, u64::from(accounts))?;
    line.extend_from_slice(b" accounts, ")?;
    write_number(&mut line, u64::from(games))?;
    line.extend_from_slice(b" games\n")?;
    Ok(line)
}
