//! Save orders are carried out at a keeper.
ghost use Rattle.std.specs.Prelude.{◌≡◌, ◌≤◌, drop, length, take};
ghost use Rattle.edge_traits.specs.Calls.{noted};
ghost use Rattle.edge_traits.specs.Faults.{Rose};
ghost use Rattle.edge_traits.specs.Keeper.{OnKeepFailed};
ghost use Rattle.edge_traits.specs.declared.keeper.Kept.{Kept};
ghost use Rattle.lobby_store.specs.Carrying.{CallsFor, CarriesOne, CarriesPerhaps, asked_with, in_doubt};

use edge_traits::{Keeper, Kept};
use lobby_shelf::Order;

/// How far a keeper came with save orders.
#[derive(Clone, Copy)]
pub struct Carried {
    /// How many of them were carried out, from the first one on.
    pub count: usize,
    /// What became of the one behind them; `Done` where all were carried out.
    pub end: Kept,
}

/// Hands the orders to the keeper, one after another, until one isn't carried out: it puts the record of an order under
/// the order's key, or removes the key where the order has no record. What was carried out stays so, and where the
/// keeper failed at an order, that one alone is in doubt: it may be carried out too. The keeper has no other calls.
pub fn carry_out<P: Keeper>(keeper: &mut P, orders: &[Order]) -> Carried
    ensures few { result.count ≤ length orders.now }
    ensures all { result.end ≡ Kept.Done → result.count ≡ length orders.now }
    ensures only_all { result.count ≡ length orders.now → result.end ≡ Kept.Done }
    ensures carried { CarriesPerhaps (P.table keeper.old) (P.table keeper.new) (take result.count orders.now)
        (in_doubt result.end (drop result.count orders.now)) }
    ensures calls { CallsFor result.end (take result.count orders.now) (P.calls keeper.old) (P.calls keeper.new) }
    ensures cause { OnKeepFailed result.end (Rose (P.faults keeper.old) (P.faults keeper.new)) }
    ensures counted { P.faults keeper.old ≤ P.faults keeper.new }
{
    let mut count = 0;
    for order in orders {
        match carry_one(keeper, order) {
            Kept::Done => count += 1,
            end => return Carried { count, end },
        }
    }
    Carried {
        count,
        end: Kept::Done,
    }
}

/// Hands the order to the keeper.
fn carry_one<P: Keeper>(keeper: &mut P, order: &Order) -> Kept
    ensures carried { CarriesOne (P.table keeper.old) (P.table keeper.new) order.now result }
    ensures noted { P.calls keeper.new ≡ noted (P.calls keeper.old) (asked_with order.now.bytes) result }
    ensures cause { OnKeepFailed result (Rose (P.faults keeper.old) (P.faults keeper.new)) }
    ensures counted { P.faults keeper.old ≤ P.faults keeper.new }
{
    match &order.bytes {
        Some(bytes) => keeper.put(order.key.as_slice(), bytes.as_slice()),
        None => keeper.remove(order.key.as_slice()),
    }
}
