//! Doors: where connections come from.

use crate::link::Link;

/// What a door gave.
#[derive(Drop)]
pub enum Came<L> {
    /// A connection.
    Link(L),
    /// Nobody came within the door's own pause.
    Quiet,
    /// The door is closed: nobody is left.
    Closed,
    /// A fault, which the object counted.
    Failed,
}

/// What a door answered last, without the connection.
#[derive(Clone, Copy, PartialEq, Eq)]
pub enum Answered {
    /// It wasn't asked yet.
    Nothing,
    Link,
    Quiet,
    Closed,
    Failed,
}

/// Where connections come from, and where they are handed back. A door that tells its `tale` says which links it has
/// left to give, which came, which came back under which numbers and with how many faults, how many Quiets it gave, and
/// what it answered last; a real one tells nothing. Its count of `faults` never falls.
pub trait Doorway {
    ghost use Rattle.std.specs.Prelude.{◌≡◌, ℕ, ◌≤◌, IfSome};
    ghost use Rattle.std.specs.declared.option.Option.{Option};
    ghost use Rattle.edge_traits.specs.Faults.{Rose};
    ghost use Rattle.edge_traits.specs.WhereTold.{WhereTold};
    ghost use Rattle.edge_traits.specs.Door.{DoorTale, DoorGives, IfCame, IsNew, IsOut, TakesBack, OnDoorFailed};

    /// A connection that this door gives.
    type Link: Link + Send + Drop;

    ghost tale: { Self → Option DoorTale };

    ghost faults: { Self → ℕ };

    /// The next connection, which is fresh. A door that tells is closed only where it has no link left; it fails only
    /// where the count of faults rose.
    fn next(&mut self) -> Came<Self::Link>
        ensures gives { WhereTold (tale self.old) (tale self.new) (DoorGives Self.Link.tale result) }
        ensures fresh { IfCame result (λ link. IsNew (Self.Link.faults link) (Self.Link.tale link)) }
        ensures cause { OnDoorFailed result (Rose (faults self.old) (faults self.new)) }
        ensures counted { faults self.old ≤ faults self.new };

    /// Hands back the connection that `next` gave as the number-th, counted from 1. Takes no memory and can't fail.
    fn back(&mut self, number: u64, link: Self::Link)
        requires { IfSome (tale self.old) (IsOut number) }
        ensures back { WhereTold (tale self.old) (tale self.new) (TakesBack number (record {
          tale = Self.Link.tale link;
          faults = Self.Link.faults link;
        })) }
        ensures faults { faults self.new ≡ faults self.old };
}
