//! The door's next answer, as the door's thread takes it.

ghost use Rattle.std.specs.Prelude.{◌≤◌};
ghost use Rattle.edge_traits.specs.Door.{DoorGives, IfCame, IsNew, OnDoorFailed};
ghost use Rattle.edge_traits.specs.Faults.{Rose};
ghost use Rattle.edge_traits.specs.WhereTold.{WhereTold};
ghost use Rattle.serve_turn.specs.Asking.{OfAnswer};

use crate::end::DoorEnd;
use edge_traits::{Came, Doorway};

/// What is taken of an answer of the door.
#[derive(Drop)]
pub enum Asked<L> {
    /// A link came.
    Link(L),
    /// Nobody came within the door's own pause.
    Quiet,
    /// No further link is taken, for this reason.
    Ended(DoorEnd),
}

/// Asks the door for the next link, which is fresh. That the door is closed is told only where it answered so, and a
/// fault of it only where it failed.
pub fn ask<D: Doorway>(door: &mut D) -> Asked<D::Link>
    ensures gives { OfAnswer result (λ came. WhereTold (D.tale door.old) (D.tale door.new)
        (DoorGives D.Link.tale came)) }
    ensures fresh { OfAnswer result (λ came. IfCame came (λ link. IsNew (D.Link.faults link) (D.Link.tale link))) }
    ensures cause { OfAnswer result (λ came. OnDoorFailed came (Rose (D.faults door.old) (D.faults door.new))) }
    ensures counted { D.faults door.old ≤ D.faults door.new }
{
    match door.next() {
        Came::Link(link) => Asked::Link(link),
        Came::Quiet => Asked::Quiet,
        Came::Closed => Asked::Ended(DoorEnd::Closed),
        Came::Failed => Asked::Ended(DoorEnd::Failed),
    }
}
