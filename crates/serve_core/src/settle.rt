//! What the door's thread keeps of its workers, and how it settles with those that have ended.

ghost use Rattle.std.specs.Prelude.{◌≡◌, ◌≢◌, [], OnSome, vec_len, vec_capacity, ◌<◌, IfSome};
ghost use Rattle.edge_traits.specs.Door.{IsOut, TakesBack};
ghost use Rattle.edge_traits.specs.WhereTold.{WhereTold};
ghost use Rattle.hall_core.specs.Passes.{IsPassJoined};
ghost use Rattle.serve_core.specs.Keeping.{KeepsLeft, SameHall, Underway, supply_after};
ghost use Rattle.edge_traits.specs.Calls.{Store};
ghost use Rattle.serve_core.specs.Tending.{Tended, stand};

use crate::worker::{Returned, Worker};
use edge_traits::{Clock, Doorway, Gate, Link};
use hall_core::{Hall, HallPass};
use link_core::LinkEnd;
use serve_turn::{Shared, Supply};
use std::alloc::Global;
use std::sync::atomic::AtomicBool;
use std::sync::{Arc, Wait};
use std::thread::Threads;

/// What the door's thread keeps: the first pass, the workers that it started and hasn't joined, and whether memory ran
/// out somewhere.
#[derive(Drop)]
pub struct Host<L: Link + Drop, C: Clock> {
    pub pass: HallPass,
    pub waiting: Vec<Worker<L, C>>,
    pub supply: Supply,
}

impl<L: Link + Drop, C: Clock> Host<L, C> {
    /// Takes the room in which one more worker is kept, and the flag by which it tells that it has ended; none when out
    /// of memory.
    pub fn room_ahead(&mut self, alloc: Global) -> Option<Arc<AtomicBool, Global>>
        ensures room { OnSome result (vec_len self.new.waiting < vec_capacity self.new.waiting) }
        ensures waiting { self.new.waiting.items ≡ self.old.waiting.items }
        ensures pass { self.new.pass ≡ self.old.pass }
        ensures supply { self.new.supply ≡ self.old.supply }
    {
        self.waiting.reserve(1).ok()?;
        Arc::new(alloc, AtomicBool::new(false)).ok()
    }

    /// Joins a pass that was given up into the first one, and hands its link back to the door under its number.
    pub fn settle<D: Doorway<Link = L>>(&mut self, hall: &Hall, door: &mut D, returned: Returned<L>)
        requires here { self.old.pass.home ≡ hall.now }
        requires other_here { returned.pass.home ≡ hall.now }
        requires other_not_first { returned.pass.number ≢ 0 }
        requires out { IfSome (D.tale door.old) (IsOut returned.pass.number) }
        ensures joined { IsPassJoined self.old.pass returned.pass self.new.pass }
        ensures back { WhereTold (D.tale door.old) (D.tale door.new) (TakesBack returned.pass.number (record {
          tale = L.tale returned.link;
          faults = L.faults returned.link;
        })) }
        ensures waiting { self.new.waiting ≡ self.old.waiting }
        ensures supply { self.new.supply ≡ supply_after returned.end self.old.supply }
        ensures faults { D.faults door.new ≡ D.faults door.old }
    {
        let Returned { pass, link, end } = returned;
        let number = pass.session();
        hall.join(&mut self.pass, pass);
        self.supply = supply_after(end, self.supply);
        door.back(u64::from(number), link);
    }

    /// Settles with each worker that has ended.
    pub fn settle_ended<T, G, D>(&mut self, shared: &Shared<'_, T, C, G>, door: &mut D)
    where
        T: Threads + Wait,
        G: Gate,
        D: Doorway<Link = L>,
        requires { Underway C.shows shared.now.hall.now shared.now.clock.now self.old.supply (D.tale door.old)
            self.old.pass self.old.waiting.items }
        ensures kept { Underway C.shows shared.now.hall.now shared.now.clock.now self.new.supply (D.tale door.new)
            self.new.pass self.new.waiting.items }
        ensures same { SameHall self.old.pass self.new.pass }
        ensures tended { (store : Store) → Tended
            (stand self.old.pass self.old.supply (D.tale door.old) store)
            (stand self.new.pass self.new.supply (D.tale door.new) store) }
        ensures left { WhereTold (D.tale door.old) (D.tale door.new) KeepsLeft }
        ensures faults { D.faults door.new ≡ D.faults door.old }
    {
        let mut next = 0;
        while next < self.waiting.len() {
            if self.waiting[next].has_ended() {
                let worker = self.waiting.remove(next);
                let returned = worker.join(shared.rt);
                self.settle(shared.hall, door, returned);
            } else {
                next += 1;
            }
        }
    }

    /// Waits for all workers, and settles with each.
    pub fn settle_all<T, G, D>(&mut self, shared: &Shared<'_, T, C, G>, door: &mut D)
    where
        T: Threads + Wait,
        G: Gate,
        D: Doorway<Link = L>,
        requires { Underway C.shows shared.now.hall.now shared.now.clock.now self.old.supply (D.tale door.old)
            self.old.pass self.old.waiting.items }
        ensures kept { Underway C.shows shared.now.hall.now shared.now.clock.now self.new.supply (D.tale door.new)
            self.new.pass [] }
        ensures same { SameHall self.old.pass self.new.pass }
        ensures tended { (store : Store) → Tended
            (stand self.old.pass self.old.supply (D.tale door.old) store)
            (stand self.new.pass self.new.supply (D.tale door.new) store) }
        ensures left { WhereTold (D.tale door.old) (D.tale door.new) KeepsLeft }
        ensures faults { D.faults door.new ≡ D.faults door.old }
    {
        while let Some(worker) = self.waiting.pop() {
            let returned = worker.join(shared.rt);
            self.settle(shared.hall, door, returned);
        }
    }
}

/// Whether memory ran out somewhere, once this link was served too.
fn supply_after(end: LinkEnd, before: Supply) -> Supply
    ensures { result ≡ supply_after end before }
{
    match end {
        LinkEnd::Memory => Supply::Short,
        _ => before,
    }
}
