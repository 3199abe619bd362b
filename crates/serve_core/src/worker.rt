//! A worker: it serves one connection as a session of the hall.

ghost use Rattle.std.specs.Prelude.{◌≡◌, [], IfOk, IfErr};
ghost use Rattle.edge_traits.specs.Link.{LinkIsOpen};
ghost use Rattle.serve_core.specs.Working.{Due, IsPaid};

use core::thread::Stack;
use edge_traits::{Clock, Gate, Link};
use hall_core::HallPass;
use link_core::{LinkEnd, serve_link};
use serve_turn::Shared;
use std::alloc::Global;
use std::marker::Model;
use std::snapshot::Snapshot;
use std::sync::atomic::{AtomicBool, Ordering};
use std::sync::{Arc, Wait};
use std::thread::{Promise, PromisedHandle, Scope, Threads};

/// The size of a worker's stack, in bytes.
const STACK: usize = 1 << 20;

/// What a worker gives up when it has ended.
#[derive(Drop)]
pub struct Returned<L: Drop> {
    pub pass: HallPass,
    pub link: L,
    pub end: LinkEnd,
}

/// What a worker promises: that it serves this link with this pass, at moments that this clock shows.
#[derive(Drop)]
pub struct Worked<L: Drop, C> {
    pass: Snapshot<HallPass>,
    link: Snapshot<L>,
    clock: Snapshot<C>,
}

impl<L: Link + Drop, C: Clock> Promise<Returned<L>> for Worked<L, C> {
    ghost kept_by = { λ p r. IsPaid C.shows
        (record { pass = p.pass.value; link = L.tale p.link.value; clock = p.clock.value })
        r.end r.pass (record { tale = L.tale r.link; faults = L.faults r.link }) };
}

/// A worker that was started. Contracts see what it owes.
#[derive(Drop)]
pub struct Worker<L: Link + Drop, C: Clock> {
    handle: PromisedHandle<Returned<L>, Worked<L, C>>,
    ended: Arc<AtomicBool, Global>,
}

impl<L: Link + Drop, C: Clock> Model for Worker<L, C> {
    ghost use Rattle.serve_core.specs.Working.{Due};

    ghost Value = { Due C };

    ghost view = { λ w. record {
      pass = w.handle.promise.pass.value;
      link = L.tale w.handle.promise.link.value;
      clock = w.handle.promise.clock.value;
    } };
}

impl<L: Link + Drop, C: Clock> Worker<L, C> {
    /// Whether the worker has ended, so that a join doesn't wait for long.
    pub fn has_ended(&self) -> bool {
        self.ended.load(Ordering::SeqCst)
    }

    /// Waits for the worker, and gives what it gives up.
    pub fn join<T: Threads>(self, rt: &T) -> Returned<L>
        ensures { IsPaid C.shows self result.end result.pass (record {
          tale = L.tale result.link;
          faults = L.faults result.link;
        }) }
    {
        let Worker { handle, ended } = self;
        drop(ended);
        handle.join(rt)
    }
}

/// Serves a link, which isn't closed and has counted no fault, with a pass, to its end.
pub fn work<T: Threads + Wait, C: Clock, G: Gate, L: Link + Drop>(
    shared: &Shared<'_, T, C, G>,
    pass: HallPass,
    link: L,
) -> Returned<L>
    requires here { pass.home ≡ shared.now.hall.now }
    requires new { (pass.made ≡ []) × (pass.joined ≡ []) }
    requires faults { L.faults link ≡ 0 }
    requires unclosed { LinkIsOpen (L.tale link) }
    ensures { IsPaid C.shows (record { pass = pass; link = L.tale link; clock = shared.now.clock.now })
        result.end result.pass (record { tale = L.tale result.link; faults = L.faults result.link }) }
{
    let mut seat = shared.hall.seat(pass, shared.gate, shared.rt);
    let mut link = link;
    let end = serve_link(shared.alloc, &mut seat, &mut link, shared.clock);
    Returned {
        pass: seat.into_pass(),
        link,
        end,
    }
}

/// Starts a worker for a link, which isn't closed and has counted no fault. Where no thread can be had, the link is
/// served here, and what the worker would have given up is the answer.
pub fn start<'s, 'a: 's, E, T, C, G, L>(
    scope: &Scope<'s, E>,
    shared: &'s Shared<'a, T, C, G>,
    pass: HallPass,
    link: L,
    ended: Arc<AtomicBool, Global>,
) -> Result<Worker<L, C>, Returned<L>>
where
    T: Threads + Wait + Sync,
    C: Clock + Sync,
    G: Gate + Sync,
    L: Link + Send + Drop + 's,
    requires here { pass.home ≡ shared.now.hall.now }
    requires new { (pass.made ≡ []) × (pass.joined ≡ []) }
    requires faults { L.faults link ≡ 0 }
    requires unclosed { LinkIsOpen (L.tale link) }
    ensures started { IfOk result (λ w. w ≡ record {
      pass = pass;
      link = L.tale link;
      clock = shared.now.clock.now;
    }) }
    ensures served { IfErr result (λ r. IsPaid C.shows
        (record { pass = pass; link = L.tale link; clock = shared.now.clock.now }) r.end r.pass
        (record { tale = L.tale r.link; faults = L.faults r.link })) }
{
    let promise = Worked {
        pass: Snapshot::of(&pass),
        link: Snapshot::of(&link),
        clock: Snapshot::of(shared.clock),
    };
    let Ok(flag) = Arc::try_clone(&ended) else {
        return Err(work(shared, pass, link));
    };
    let job = move || -> Returned<L>
        requires here { pass.home ≡ shared.now.hall.now }
        requires new { (pass.made ≡ []) × (pass.joined ≡ []) }
        requires faults { L.faults link ≡ 0 }
        requires unclosed { LinkIsOpen (L.tale link) }
        ensures { IsPaid C.shows (record { pass = pass; link = L.tale link; clock = shared.entry.now.clock.now })
            result.end result.pass (record { tale = L.tale result.link; faults = L.faults result.link }) }
    {
        let returned = work(shared, pass, link);
        flag.store(true, Ordering::SeqCst);
        returned
    };
    match Stack::new()
        .stack_size(STACK)
        .spawn_scoped_with(scope, promise, job)
    {
        Ok(handle) => Ok(Worker { handle, ended }),
        Err(refused) => Err((refused.value)()),
    }
}
