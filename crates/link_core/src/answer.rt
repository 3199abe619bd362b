//! The answer to one input.
ghost use Rattle.std.specs.Prelude.{◌≡◌, false, OnOk};
ghost use Rattle.edge_traits.specs.Link.{LinkIsOpen};
ghost use Rattle.session_core.specs.Inputs.{FitsInput};
ghost use Rattle.session_core.specs.Memory.{is_gone};
ghost use Rattle.link_core.specs.Steps.{AfterAnswer, AfterWrite, LeavesLink, stand_of};

use crate::link_end::LinkEnd;
use edge_traits::{Clock, Link, Sent};
use one_server::{Runner, moment_of};
use session_core::{Input, Session};

/// Makes the session answer an input, at the present moment, and writes what it says to a link that isn't closed.
pub(crate) fn answer<R: Runner, L: Link, C: Clock>(
    r: &mut R,
    link: &mut L,
    clock: &C,
    session: &mut Session,
    input: Input,
) -> Result<(), LinkEnd>
    requires fits { FitsInput input }
    requires here { is_gone session.old ≡ false }
    requires unclosed { LinkIsOpen (L.tale link.old) }
    ensures home { R.home r.new ≡ R.home r.old }
    ensures answered { AfterAnswer (C.shows clock.now) input (stand_of (R.state r.old) session.old (L.tale link.old))
        (stand_of (R.state r.new) session.new (L.tale link.new)) result }
    ensures here { OnOk result (is_gone session.new ≡ false) }
    ensures link { LeavesLink result (L.tale link.new) (L.faults link.old) (L.faults link.new) }
{
    let moment = moment_of(clock.now());
    let Ok(wrote) = session.take(r, moment, input) else {
        return Err(LinkEnd::Memory);
    };
    write(link, wrote.bytes.as_slice())?;
    if wrote.quit {
        return Err(LinkEnd::Quit);
    }
    Ok(())
}

/// Writes bytes, if there are any, to a link that isn't closed.
pub(crate) fn write<L: Link>(link: &mut L, bytes: &[u8]) -> Result<(), LinkEnd>
    requires unclosed { LinkIsOpen (L.tale link.old) }
    ensures wrote { AfterWrite bytes.now (L.tale link.old) (L.tale link.new) result }
    ensures link { LeavesLink result (L.tale link.new) (L.faults link.old) (L.faults link.new) }
{
    if bytes.is_empty() {
        return Ok(());
    }
    match link.write(bytes) {
        Sent::All => Ok(()),
        Sent::Failed => Err(LinkEnd::WriteFault),
        Sent::Memory => Err(LinkEnd::Memory),
    }
}
