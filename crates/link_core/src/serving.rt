//! A link from its opening to its end.
ghost use Rattle.std.specs.Prelude.{◌≡◌, ◌≤◌};
ghost use Rattle.edge_traits.specs.Faults.{Rose};
ghost use Rattle.edge_traits.specs.Link.{LinkIsOpen};
ghost use Rattle.link_core.specs.Serving.{ServesLink};

use crate::converse::converse;
use crate::link_end::LinkEnd;
use edge_traits::{Clock, Link};
use memory::NoMemory;
use one_server::{Runner, moment_of};
use session_core::Session;
use std::alloc::Global;

/// Serves a link, which isn't closed, by a session over `r`, until the player has quit, nothing more comes, the link
/// fails or has been read 2^40 times, or memory runs out. Each input is answered, at the moment that the clock shows
/// when it comes, cut to 2^48, and the answer is written before the link is read again. Whatever ends it, the session
/// then leaves, where it has entered and hasn't quit, and the link is closed, behind which it is neither read nor
/// written. Where an act of leaving runs out of memory the answer is `Memory`. A fault is answered only where the
/// link's count rose in this call.
pub fn serve_link<R: Runner, L: Link, C: Clock>(
    alloc: Global,
    r: &mut R,
    link: &mut L,
    clock: &C,
) -> LinkEnd
    requires unclosed { LinkIsOpen (L.tale link.old) }
    ensures home { R.home r.new ≡ R.home r.old }
    ensures served { ServesLink (C.shows clock.now) result
        (R.state r.old) (record { tale = L.tale link.old; faults = L.faults link.old })
        (R.state r.new) (record { tale = L.tale link.new; faults = L.faults link.new }) }
    ensures read_fault { result ≡ LinkEnd.ReadFault → Rose (L.faults link.old) (L.faults link.new) }
    ensures write_fault { result ≡ LinkEnd.WriteFault → Rose (L.faults link.old) (L.faults link.new) }
    ensures counted { L.faults link.old ≤ L.faults link.new }
{
    let mut session = Session::new(alloc);
    let end = converse(alloc, r, link, clock, &mut session);
    let left = session.leave(r, moment_of(clock.now()));
    link.close();
    match left {
        Ok(()) => end,
        Err(NoMemory) => LinkEnd::Memory,
    }
}
