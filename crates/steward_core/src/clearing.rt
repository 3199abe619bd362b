//! The first half of a turn of the steward: the desks whose players are gone are freed.
ghost use Rattle.std.specs.Prelude.{◌≡◌};
ghost use Rattle.one_server.specs.Running.{IsKnown};
ghost use Rattle.steward_core.specs.Clearing.{Cleared, ClearsOne, TakesClearing, end_of_both};

use clock_ledger::Moment;
use lobby_state::{DeskInUse, LobbyAct, LobbyReply, PairAct};
use memory::NoMemory;
use one_server::{Act, Reply, Runner, answered};
use std::alloc::Global;

/// How clearing ended.
#[derive(Clone, Copy)]
pub enum ClearingEnd {
    /// Each of its acts was made.
    Done,
    /// An act ran out of memory and was passed over.
    Memory,
}

/// Clears desks, all at `moment`, in milliseconds and at most 2^48: it asks which desks are in use, and
/// makes a Clear for each of them. An act that runs out of memory is passed over, and then the answer is `Memory`. It
/// waits where the runner does.
pub fn clearing_turn<R: Runner>(alloc: Global, runner: &mut R, moment: Moment) -> ClearingEnd
    ensures home { R.home runner.new ≡ R.home runner.old }
    ensures cleared { TakesClearing moment result (R.state runner.old) (R.state runner.new) }
{
    // What is known of every runner is known from here on.
    let _session = runner.session();
    match answered(runner, alloc, moment, Act::Lobby(LobbyAct::InUse)) {
        Ok(Reply::Lobby(LobbyReply::Desks(rows))) => {
            clear_each(alloc, runner, moment, rows.as_slice())
        }
        Ok(_) => ClearingEnd::Done,
        Err(NoMemory) => ClearingEnd::Memory,
    }
}

/// Makes a Clear for each of the desks, and passes over those that run out of memory.
fn clear_each<R: Runner>(
    alloc: Global,
    runner: &mut R,
    moment: Moment,
    rows: &[DeskInUse],
) -> ClearingEnd
    requires { IsKnown (R.state runner.old) }
    ensures home { R.home runner.new ≡ R.home runner.old }
    ensures cleared { Cleared moment result rows.now (R.state runner.old) (R.state runner.new) }
{
    let mut end = ClearingEnd::Done;
    for row in rows {
        let one = clear_one(alloc, runner, moment, row);
        end = end.and(one);
    }
    end
}

/// Makes a Clear for a desk, or passes over it.
fn clear_one<R: Runner>(
    alloc: Global,
    runner: &mut R,
    moment: Moment,
    row: &DeskInUse,
) -> ClearingEnd
    ensures home { R.home runner.new ≡ R.home runner.old }
    ensures cleared { ClearsOne moment result row.now (R.state runner.old) (R.state runner.new) }
{
    let clear = PairAct::Clear {
        desk: row.desk,
        serial: row.serial,
    };
    clear.names_desk();
    match answered(runner, alloc, moment, Act::Pair(clear)) {
        Ok(_) => ClearingEnd::Done,
        Err(NoMemory) => ClearingEnd::Memory,
    }
}

impl ClearingEnd {
    /// How clearing ended of which one half ended like this and the other like that.
    pub fn and(self, other: ClearingEnd) -> ClearingEnd
        ensures { result ≡ end_of_both self other }
    {
        match self {
            ClearingEnd::Done => other,
            ClearingEnd::Memory => ClearingEnd::Memory,
        }
    }
}
