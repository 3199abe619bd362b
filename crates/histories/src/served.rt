//! What a server of parts means.

/// A server whose state is a list of parts. Its meaning is a `Core`, which keeps the laws of `Lawful`.
pub trait Served {
    ghost use Rattle.histories.specs.Core.{Core, Lawful};

    /// What a part holds.
    type Part: Drop + Send + Sync;
    /// What a session asks for.
    type Act: Drop;
    /// What it is answered.
    type Reply: Drop;

    ghost core: { Core Self.Part Self.Act Self.Reply };

    ghost lawful: { Lawful core };
}
