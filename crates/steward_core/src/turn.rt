//! A whole turn of the steward.
ghost use Rattle.std.specs.Prelude.{◌≡◌, ◌≤◌};
ghost use Rattle.edge_traits.specs.Calls.{store_of};
ghost use Rattle.edge_traits.specs.Faults.{Rose};
ghost use Rattle.steward_core.specs.Agreement.{StaysAgreed};
ghost use Rattle.steward_core.specs.Turn.{TakesTurn, end_of_turn};
ghost use Rattle.steward_core.specs.declared.turn.StewardEnd.{StewardEnd};

use crate::clearing::{ClearingEnd, clearing_turn};
use crate::saving::save_orders;
use clock_ledger::Moment;
use edge_traits::Keeper;
use one_server::Runner;
use std::alloc::Global;

/// How a turn of the steward ended.
#[derive(Clone, Copy)]
pub enum StewardEnd {
    /// Each of its acts was made, and so many save orders were carried out and told as saved: all that stood, but for
    /// those that stand after 2^28 - 1 answers of 16.
    Done(u32),
    /// The keeper failed, which it counted. The orders that weren't told as saved stand, the one at which it failed
    /// among them: that one alone is in doubt, and the next turn carries it out once more.
    KeeperFault,
    /// Memory ran out somewhere, perhaps in a Clear that was passed over. The orders that weren't told as saved stand.
    Memory,
}

/// Makes a turn of the steward, all at `moment`, in milliseconds and at most 2^48. It asks which desks are in use and
/// makes a Clear for each of them, and passes over those that run out of memory. Then it asks for save orders, hands
/// each to the keeper in order and tells the lobby which were carried out, and goes on while the last answer had 16,
/// for 2^28 - 1 answers at most. It waits where the runner does.
pub fn steward_turn<R: Runner, P: Keeper>(
    alloc: Global,
    runner: &mut R,
    keeper: &mut P,
    moment: Moment,
) -> StewardEnd
    ensures home { R.home runner.new ≡ R.home runner.old }
    ensures turn { TakesTurn moment result (store_of P.table P.faults P.calls keeper.old)
        (store_of P.table P.faults P.calls keeper.new) (R.state runner.old) (R.state runner.new) }
    ensures agrees { StaysAgreed (P.table keeper.old) (P.table keeper.new) (R.state runner.old) (R.state runner.new) }
    ensures fault { result ≡ StewardEnd.KeeperFault → Rose (P.faults keeper.old) (P.faults keeper.new) }
    ensures counted { P.faults keeper.old ≤ P.faults keeper.new }
{
    let (cleared, saved) = turn_by_halves(alloc, runner, keeper, moment);
    end_of_turn(cleared, saved)
}

/// Makes a turn of the steward, as `steward_turn` does, and says how each half of it ended: where the keeper failed in
/// the second one, the first may have run out of memory all the same.
pub fn turn_by_halves<R: Runner, P: Keeper>(
    alloc: Global,
    runner: &mut R,
    keeper: &mut P,
    moment: Moment,
) -> (ClearingEnd, StewardEnd)
    ensures home { R.home runner.new ≡ R.home runner.old }
    ensures turn { (turn : TakesTurn moment (end_of_turn result.0 result.1)
        (store_of P.table P.faults P.calls keeper.old) (store_of P.table P.faults P.calls keeper.new)
        (R.state runner.old) (R.state runner.new)) × (turn.turn.cleared ≡ result.0) }
    ensures agrees { StaysAgreed (P.table keeper.old) (P.table keeper.new) (R.state runner.old) (R.state runner.new) }
    ensures fault { result.1 ≡ StewardEnd.KeeperFault → Rose (P.faults keeper.old) (P.faults keeper.new) }
    ensures counted { P.faults keeper.old ≤ P.faults keeper.new }
{
    // What is known of every runner is known from here on.
    let _session = runner.session();
    let cleared = clearing_turn(alloc, runner, moment);
    let saved = save_orders(alloc, runner, keeper, moment);
    (cleared, saved)
}

/// How a turn ended whose halves ended like this.
pub fn end_of_turn(cleared: ClearingEnd, saved: StewardEnd) -> StewardEnd
    ensures { result ≡ end_of_turn cleared saved }
{
    match (cleared, saved) {
        (ClearingEnd::Memory, StewardEnd::Done(_)) => StewardEnd::Memory,
        (_, saved) => saved,
    }
}
