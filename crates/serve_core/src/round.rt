//! One answer of the door, and what is done by it.

ghost use Rattle.std.specs.Prelude.{◌≡◌, ◌≤◌, ◌<◌, ◌^◌, MatchOption};
ghost use Rattle.edge_traits.specs.Calls.{store_of};
ghost use Rattle.edge_traits.specs.Door.{KeepsLinks};
ghost use Rattle.edge_traits.specs.WhereTold.{WhereTold};
ghost use Rattle.edge_traits.specs.Faults.{Rose};
ghost use Rattle.serve_core.specs.Keeping.{Underway, Stopped};
ghost use Rattle.serve_core.specs.Tending.{Tended, stand};
ghost use Rattle.serve_turn.specs.Turns.{MadeTurn, supply_then};
ghost use Rattle.serve_turn.specs.declared.end.DoorEnd.{DoorEnd};
ghost use Rattle.serve_turn.specs.declared.end.DoorEnd.TheVariants.{Spent};
ghost use Rattle.serve_turn.specs.declared.supply.Supply.{Supply};
ghost use Rattle.steward_core.specs.declared.turn.StewardEnd.{StewardEnd};
ghost use Rattle.steward_core.specs.declared.turn.StewardEnd.TheVariants.{KeeperFault};

use crate::attend::attend;
use crate::settle::Host;
use edge_traits::{Clock, Doorway, Gate, Keeper, Link};
use hall_core::HallPass;
use serve_turn::{Asked, DoorEnd, Shared, ask, turn};
use std::sync::Wait;
use std::thread::{Scope, Threads};

/// How many links are taken at most.
const MOST_LINKS: u32 = 1 << 31;

/// Settles with the workers that have ended, and takes the door's next answer: a link is served, and at a Quiet a turn
/// of the steward is made. The answer says why no further link is taken, if none is.
pub fn round<'s, 'a: 's, E, T, C, G, D, P>(
    scope: &Scope<'s, E>,
    shared: &'s Shared<'a, T, C, G>,
    host: Host<D::Link, C>,
    door: &mut D,
    keeper: &mut P,
    count: u32,
) -> (Host<D::Link, C>, u32, Option<DoorEnd>)
where
    T: Threads + Wait + Sync,
    C: Clock + Sync,
    G: Gate + Sync,
    D: Doorway,
    D::Link: 's,
    P: Keeper,
    requires few { count < 2 ^ 31 }
    requires count { host.pass.splits ≡ count }
    requires kept { Underway C.shows shared.now.hall.now shared.now.clock.now host.supply (D.tale door.old)
        host.pass host.waiting.items }
    ensures count { result.0.pass.splits ≡ result.1 }
    ensures kept { Underway C.shows shared.now.hall.now shared.now.clock.now result.0.supply (D.tale door.new)
        result.0.pass result.0.waiting.items }
    ensures tended { Tended
        (stand host.pass host.supply (D.tale door.old)
        (store_of P.table P.faults P.calls keeper.old))
        (stand result.0.pass result.0.supply (D.tale door.new)
        (store_of P.table P.faults P.calls keeper.new)) }
    ensures opening { result.0.pass.opening ≡ host.pass.opening }
    ensures links { WhereTold (D.tale door.old) (D.tale door.new) KeepsLinks }
    ensures counted { D.faults door.old ≤ D.faults door.new }
    ensures ends { MatchOption result.2 (result.1 < 2 ^ 31) (λ end. Stopped end result.1 (D.tale door.new)
        (D.faults door.old) (D.faults door.new)) }
{
    let mut host = host;
    host.settle_ended(shared, door);
    let ended = host.room_ahead(shared.alloc);
    match ask(door) {
        Asked::Link(link) => {
            attend(scope, shared, &mut host, door, ended, link);
            let count = count + 1;
            (host, count, spent(count))
        }
        Asked::Quiet => (at_quiet(shared, host, keeper), count, None),
        Asked::Ended(end) => (host, count, Some(end)),
    }
}

/// Makes a turn of the steward, as at a Quiet.
fn at_quiet<T: Threads + Wait, C: Clock, G: Gate, L: Link + Drop, P: Keeper>(
    shared: &Shared<'_, T, C, G>,
    host: Host<L, C>,
    keeper: &mut P,
) -> Host<L, C>
    requires here { host.pass.home ≡ shared.now.hall.now }
    ensures turn { (end : StewardEnd) × (made : Supply)
        × MadeTurn end made (store_of P.table P.faults P.calls keeper.old)
        (store_of P.table P.faults P.calls keeper.new) host.pass result.pass
        × (result.supply ≡ supply_then made host.supply)
        × (end ≡ KeeperFault → Rose (P.faults keeper.old) (P.faults keeper.new)) }
    ensures waiting { result.waiting ≡ host.waiting }
    ensures counted { P.faults keeper.old ≤ P.faults keeper.new }
{
    let Host {
        pass,
        waiting,
        supply,
    } = host;
    let (pass, _end, made) = turn(shared, pass, keeper);
    Host {
        pass,
        waiting,
        supply: made.then(supply),
    }
}

/// That no more links are taken, where so many came.
fn spent(count: u32) -> Option<DoorEnd>
    requires { count ≤ 2 ^ 31 }
    ensures { MatchOption result (count < 2 ^ 31) (λ end. (end ≡ Spent) × (count ≡ 2 ^ 31)) }
{
    if count == MOST_LINKS {
        Some(DoorEnd::Spent)
    } else {
        None
    }
}
