//! A link that came: it gets a pass, and is served by a worker of its own, or here.

ghost use Rattle.std.specs.Prelude.{◌≡◌, ◌<◌, ◌+◌, ◌^◌, OnSome, vec_len, vec_capacity};
ghost use Rattle.std.specs.declared.option.Option.{Option};
ghost use Rattle.edge_traits.specs.Door.{DoorTale, IsNew};
ghost use Rattle.edge_traits.specs.WhereTold.{WhereTold};
ghost use Rattle.serve_core.specs.Keeping.{Comes, KeepsLeft, Underway};
ghost use Rattle.edge_traits.specs.Calls.{Store};
ghost use Rattle.serve_core.specs.Tending.{Tended, stand};

use crate::settle::Host;
use crate::worker::{start, work};
use edge_traits::{Clock, Doorway, Gate};
use serve_turn::Shared;
use std::alloc::Global;
use std::sync::atomic::AtomicBool;
use std::sync::{Arc, Wait};
use std::thread::{Scope, Threads};

/// Serves a link that came, with a pass of its own: by a worker, where there is room for it and a thread can be had,
/// and else here.
pub fn attend<'s, 'a: 's, E, T, C, G, D>(
    scope: &Scope<'s, E>,
    shared: &'s Shared<'a, T, C, G>,
    host: &mut Host<D::Link, C>,
    door: &mut D,
    ended: Option<Arc<AtomicBool, Global>>,
    link: D::Link,
)
where
    T: Threads + Wait + Sync,
    C: Clock + Sync,
    G: Gate + Sync,
    D: Doorway,
    D::Link: 's,
    requires fresh { IsNew (D.Link.faults link) (D.Link.tale link) }
    requires few { host.old.pass.splits < 2 ^ 31 }
    requires kept { (before : Option DoorTale)
        × Underway C.shows shared.now.hall.now shared.now.clock.now host.old.supply before host.old.pass
        host.old.waiting.items
        × WhereTold before (D.tale door.old) (Comes (D.Link.tale link)) }
    requires room { OnSome ended (vec_len host.old.waiting < vec_capacity host.old.waiting) }
    ensures kept { Underway C.shows shared.now.hall.now shared.now.clock.now host.new.supply (D.tale door.new)
        host.new.pass host.new.waiting.items }
    ensures counted { host.new.pass.splits ≡ host.old.pass.splits + 1 }
    ensures opening { host.new.pass.opening ≡ host.old.pass.opening }
    ensures tended { (store : Store) → Tended
        (stand host.old.pass host.old.supply (D.tale door.old) store)
        (stand host.new.pass host.new.supply (D.tale door.new) store) }
    ensures left { WhereTold (D.tale door.old) (D.tale door.new) KeepsLeft }
    ensures faults { D.faults door.new ≡ D.faults door.old }
{
    let pass = shared.hall.split(&mut host.pass);
    let Some(ended) = ended else {
        let returned = work(shared, pass, link);
        host.settle(shared.hall, door, returned);
        return;
    };
    match start(scope, shared, pass, link, ended) {
        Ok(worker) => host.waiting.push_reserved(worker),
        Err(returned) => host.settle(shared.hall, door, returned),
    }
}
