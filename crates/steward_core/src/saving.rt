//! The second half of a turn of the steward: save orders are carried out and told as saved.
ghost use Rattle.std.specs.Prelude.{◌≡◌, ◌≤◌, length};
ghost use Rattle.edge_traits.specs.Calls.{store_of};
ghost use Rattle.edge_traits.specs.Faults.{Rose};
ghost use Rattle.one_server.specs.Running.{IsKnown};
ghost use Rattle.steward_core.specs.Agreement.{StaysAgreed};
ghost use Rattle.steward_core.specs.Saving.{RunsRound, SavesTold, TakesSaving, ToldAsSaved, orders_in, round_of};
ghost use Rattle.steward_core.specs.declared.saving.SaveRound.{SaveRound};
ghost use Rattle.steward_core.specs.declared.turn.StewardEnd.{StewardEnd};

use crate::turn::StewardEnd;
use clock_ledger::Moment;
use collections::Listed;
use edge_traits::{Keeper, Kept};
use lobby_shelf::{ORDERS_AT_ONCE, Order};
use lobby_state::{LobbyAct, LobbyReply};
use lobby_store::carry_out;
use memory::NoMemory;
use one_server::{Act, Reply, Runner, answered};
use std::alloc::Global;

/// How many answers a turn asks for at most, so that what it counts stays below 2^32.
const MOST_ANSWERS: u32 = (1 << 28) - 1;

/// How a round of saving ended.
#[derive(Clone, Copy)]
pub(crate) enum SaveRound {
    /// 16 orders were told, and all were carried out and told as saved.
    Full,
    /// So many orders were told, fewer than 16, and all were carried out and told as saved.
    Last(u32),
    /// The keeper failed.
    KeeperFault,
    /// Memory ran out.
    Memory,
}

/// Whether orders were told as saved.
#[derive(Clone, Copy)]
pub(crate) enum SavedTold {
    Done,
    /// Memory ran out, and nothing was told.
    Memory,
}

/// Carries out save orders and tells them as saved, round by round, until a round had fewer than 16.
pub(crate) fn save_orders<R: Runner, P: Keeper>(
    alloc: Global,
    runner: &mut R,
    keeper: &mut P,
    moment: Moment,
) -> StewardEnd
    ensures home { R.home runner.new ≡ R.home runner.old }
    ensures saving { TakesSaving moment result (store_of P.table P.faults P.calls keeper.old)
        (store_of P.table P.faults P.calls keeper.new) (R.state runner.old) (R.state runner.new) }
    ensures agrees { StaysAgreed (P.table keeper.old) (P.table keeper.new) (R.state runner.old) (R.state runner.new) }
    ensures fault { result ≡ StewardEnd.KeeperFault → Rose (P.faults keeper.old) (P.faults keeper.new) }
    ensures counted { P.faults keeper.old ≤ P.faults keeper.new }
{
    // What is known of every runner is known from here on.
    let _session = runner.session();
    let mut count = 0;
    for answer in 0..MOST_ANSWERS {
        match save_round(alloc, runner, keeper, moment) {
            SaveRound::Full => count += 16,
            SaveRound::Last(few) => return StewardEnd::Done(count + few),
            SaveRound::KeeperFault => return StewardEnd::KeeperFault,
            SaveRound::Memory => return StewardEnd::Memory,
        }
    }
    StewardEnd::Done(count)
}

/// Asks for orders, carries them out and tells them as saved.
fn save_round<R: Runner, P: Keeper>(
    alloc: Global,
    runner: &mut R,
    keeper: &mut P,
    moment: Moment,
) -> SaveRound
    requires known { IsKnown (R.state runner.old) }
    ensures home { R.home runner.new ≡ R.home runner.old }
    ensures round { RunsRound moment result (store_of P.table P.faults P.calls keeper.old)
        (store_of P.table P.faults P.calls keeper.new) (R.state runner.old) (R.state runner.new) }
    ensures agrees { StaysAgreed (P.table keeper.old) (P.table keeper.new) (R.state runner.old) (R.state runner.new) }
    ensures fault { result ≡ SaveRound.KeeperFault → Rose (P.faults keeper.old) (P.faults keeper.new) }
    ensures counted { P.faults keeper.old ≤ P.faults keeper.new }
{
    let reply = match answered(runner, alloc, moment, Act::Lobby(LobbyAct::Orders)) {
        Ok(reply) => reply,
        Err(NoMemory) => return SaveRound::Memory,
    };
    let orders = orders_in(alloc, reply);
    save_told(alloc, runner, keeper, moment, orders.as_slice())
}

/// The save orders that a reply tells.
fn orders_in(alloc: Global, reply: Reply) -> Listed<Order>
    ensures { result ≡ orders_in reply }
{
    match reply {
        Reply::Lobby(LobbyReply::Orders(orders)) => orders,
        _ => Listed::new(alloc),
    }
}

/// Carries out the orders that were told, and tells those that were carried out as saved.
fn save_told<R: Runner, P: Keeper>(
    alloc: Global,
    runner: &mut R,
    keeper: &mut P,
    moment: Moment,
    orders: &[Order],
) -> SaveRound
    requires known { IsKnown (R.state runner.old) }
    requires few { length orders.now ≤ 16 }
    ensures home { R.home runner.new ≡ R.home runner.old }
    ensures saves { SavesTold moment result orders.now (store_of P.table P.faults P.calls keeper.old)
        (store_of P.table P.faults P.calls keeper.new) (R.state runner.old) (R.state runner.new) }
    ensures fault { result ≡ SaveRound.KeeperFault → Rose (P.faults keeper.old) (P.faults keeper.new) }
    ensures counted { P.faults keeper.old ≤ P.faults keeper.new }
{
    let carried = carry_out(keeper, orders);
    let told = tell_saved(alloc, runner, moment, &orders[..carried.count]);
    round_of(carried.end, told, orders.len())
}

/// How a round ended in which so many orders were told.
fn round_of(end: Kept, told: SavedTold, count: usize) -> SaveRound
    requires { count ≤ 16 }
    ensures { result ≡ round_of end told count }
{
    match (end, told) {
        (Kept::Failed, _) => SaveRound::KeeperFault,
        (Kept::Memory, _) | (_, SavedTold::Memory) => SaveRound::Memory,
        (Kept::Done, SavedTold::Done) => {
            if count == ORDERS_AT_ONCE {
                SaveRound::Full
            } else {
                SaveRound::Last(count as u32)
            }
        }
    }
}

/// Tells these orders as saved: those up to the last of them. Nothing is told where there are none.
fn tell_saved<R: Runner>(
    alloc: Global,
    runner: &mut R,
    moment: Moment,
    orders: &[Order],
) -> SavedTold
    ensures home { R.home runner.new ≡ R.home runner.old }
    ensures told { ToldAsSaved moment orders.now result (R.state runner.old) (R.state runner.new) }
{
    let Some(last) = orders.last() else {
        return SavedTold::Done;
    };
    let act = Act::Lobby(LobbyAct::Saved { upto: last.number });
    match answered(runner, alloc, moment, act) {
        Ok(_) => SavedTold::Done,
        Err(NoMemory) => SavedTold::Memory,
    }
}
