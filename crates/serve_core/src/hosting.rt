//! The door's thread: it takes links until no more come, and waits for the workers.

ghost use Rattle.std.specs.Prelude.{◌≡◌, ◌≤◌, []};
ghost use Rattle.edge_traits.specs.Door.{KeepsLinks};
ghost use Rattle.edge_traits.specs.WhereTold.{WhereTold};
ghost use Rattle.serve_core.specs.Keeping.{KeepsLeft, SameHall, Underway, Stopped};
ghost use Rattle.edge_traits.specs.Calls.{Store, store_of};
ghost use Rattle.serve_core.specs.Tending.{Tended, stand};
ghost use Rattle.serve_turn.specs.declared.supply.Supply.TheVariants.{Enough};

use crate::round::round;
use crate::settle::Host;
use edge_traits::{Clock, Doorway, Gate, Keeper};
use hall_core::HallPass;
use serve_turn::{DoorEnd, Shared, Supply};
use std::sync::Wait;
use std::thread::{self, Scope, Threads};

/// What is left once all links were served: the first pass, into which all others were joined, whether memory ran out
/// somewhere, and why no more links were taken.
#[derive(Drop)]
pub struct Hosted {
    pub pass: HallPass,
    pub supply: Supply,
    pub end: DoorEnd,
}

/// Takes links until no more come, and serves each, and makes a turn of the steward over the keeper at each Quiet. The
/// pass is the first one, from which none was split, and the door is unused.
pub fn host_links<T, C, G, D, P>(
    shared: &Shared<'_, T, C, G>,
    pass: HallPass,
    door: &mut D,
    keeper: &mut P,
) -> Hosted
where
    T: Threads + Wait + Sync,
    C: Clock + Sync,
    G: Gate + Sync,
    D: Doorway,
    P: Keeper,
    requires kept { Underway C.shows shared.now.hall.now shared.now.clock.now Enough (D.tale door.old) pass [] }
    requires none { pass.splits ≡ 0 }
    ensures kept { Underway C.shows shared.now.hall.now shared.now.clock.now result.supply (D.tale door.new)
        result.pass [] }
    ensures tended { Tended
        (stand pass Enough (D.tale door.old)
        (store_of P.table P.faults P.calls keeper.old))
        (stand result.pass result.supply (D.tale door.new)
        (store_of P.table P.faults P.calls keeper.new)) }
    ensures opening { result.pass.opening ≡ pass.opening }
    ensures links { WhereTold (D.tale door.old) (D.tale door.new) KeepsLinks }
    ensures stopped { Stopped result.end result.pass.splits (D.tale door.new) (D.faults door.old) (D.faults door.new) }
    ensures counted { D.faults door.old ≤ D.faults door.new }
{
    let (hosted, lent, lent_keeper) = thread::scope(
        thread::scope_env(),
        shared.rt,
        |scope| -> (Hosted, &mut D, &mut P)
            requires kept { Underway C.shows shared.now.hall.now shared.now.clock.now Enough (D.tale door.now) pass [] }
            requires none { pass.splits ≡ 0 }
            ensures lent { result.1.ghost_name ≡ door.entry.ghost_name }
            ensures lent_keeper { result.2.ghost_name ≡ keeper.entry.ghost_name }
            ensures kept { Underway C.shows shared.entry.now.hall.now shared.entry.now.clock.now result.0.supply
                (D.tale result.1.now) result.0.pass [] }
            ensures tended { Tended
                (stand pass Enough (D.tale door.entry.now)
                (store_of P.table P.faults P.calls keeper.entry.now))
                (stand result.0.pass result.0.supply (D.tale result.1.now)
                (store_of P.table P.faults P.calls result.2.now)) }
            ensures opening { result.0.pass.opening ≡ pass.opening }
            ensures links { WhereTold (D.tale door.entry.now) (D.tale result.1.now) KeepsLinks }
            ensures stopped { Stopped result.0.end result.0.pass.splits (D.tale result.1.now)
                (D.faults door.entry.now) (D.faults result.1.now) }
            ensures counted { D.faults door.entry.now ≤ D.faults result.1.now }
        {
            let hosted = take_links(scope, shared, pass, door, keeper);
            (hosted, door, keeper)
        },
    );
    take_back(lent);
    take_back(lent_keeper);
    hosted
}

/// Takes links until no more come, and waits for the workers.
fn take_links<'s, 'a: 's, E, T, C, G, D, P>(
    scope: &Scope<'s, E>,
    shared: &'s Shared<'a, T, C, G>,
    pass: HallPass,
    door: &mut D,
    keeper: &mut P,
) -> Hosted
where
    T: Threads + Wait + Sync,
    C: Clock + Sync,
    G: Gate + Sync,
    D: Doorway,
    D::Link: 's,
    P: Keeper,
    requires kept { Underway C.shows shared.now.hall.now shared.now.clock.now Enough (D.tale door.old) pass [] }
    requires none { pass.splits ≡ 0 }
    ensures kept { Underway C.shows shared.now.hall.now shared.now.clock.now result.supply (D.tale door.new)
        result.pass [] }
    ensures tended { Tended
        (stand pass Enough (D.tale door.old)
        (store_of P.table P.faults P.calls keeper.old))
        (stand result.pass result.supply (D.tale door.new)
        (store_of P.table P.faults P.calls keeper.new)) }
    ensures opening { result.pass.opening ≡ pass.opening }
    ensures links { WhereTold (D.tale door.old) (D.tale door.new) KeepsLinks }
    ensures stopped { Stopped result.end result.pass.splits (D.tale door.new) (D.faults door.old) (D.faults door.new) }
    ensures counted { D.faults door.old ≤ D.faults door.new }
{
    let mut host = Host {
        pass,
        waiting: Vec::new(shared.alloc),
        supply: Supply::Enough,
    };
    let mut count = 0;
    for _ in shared.rt.forever() {
        let (after, so_far, end) = round(scope, shared, host, door, keeper, count);
        host = after;
        count = so_far;
        if let Some(end) = end {
            return at_end(shared, host, door, end);
        }
    }
    unreachable!()
}

/// Waits for all workers, once no more links are taken.
fn at_end<T, C, G, D>(
    shared: &Shared<'_, T, C, G>,
    host: Host<D::Link, C>,
    door: &mut D,
    end: DoorEnd,
) -> Hosted
where
    T: Threads + Wait,
    C: Clock,
    G: Gate,
    D: Doorway,
    requires kept { Underway C.shows shared.now.hall.now shared.now.clock.now host.supply (D.tale door.old)
        host.pass host.waiting.items }
    ensures kept { Underway C.shows shared.now.hall.now shared.now.clock.now result.supply (D.tale door.new)
        result.pass [] }
    ensures same { SameHall host.pass result.pass }
    ensures tended { (store : Store) → Tended
        (stand host.pass host.supply (D.tale door.old) store)
        (stand result.pass result.supply (D.tale door.new) store) }
    ensures left { WhereTold (D.tale door.old) (D.tale door.new) KeepsLeft }
    ensures end { result.end ≡ end }
    ensures faults { D.faults door.new ≡ D.faults door.old }
{
    let mut host = host;
    host.settle_all(shared, door);
    let Host { pass, supply, .. } = host;
    Hosted { pass, supply, end }
}

/// Does nothing: this use of a reference that was given back ties it to the parameter that lent it.
fn take_back<T>(lent: &mut T)
    ensures { lent.new ≡ lent.old }
{}
