//! How serving ends: why no further link is taken, and of which cause the end tells.

ghost use Rattle.std.specs.Prelude.{◌≡◌};
ghost use Rattle.serve_turn.specs.Stopping.{end_of, is_short};

use crate::supply::Supply;
use edge_traits::Sent;
use steward_core::StewardEnd;

/// Why no further link is taken.
#[derive(Clone, Copy)]
pub enum DoorEnd {
    /// The door is closed.
    Closed,
    /// The door failed.
    Failed,
    /// 2^31 links came.
    Spent,
}

/// How serving ended.
#[derive(Clone, Copy, Debug, PartialEq, Eq)]
pub enum ServeEnd {
    /// The door was closed, and all was served.
    Done,
    /// The door failed, and counted the fault.
    DoorFault,
    /// The sink failed, and counted the fault.
    WriteFault,
    /// The keeper failed in the last turn of the steward, and counted the fault.
    KeeperFault,
    /// Something ran out of memory.
    Memory,
    /// 2^31 links came.
    Spent,
}

impl ServeEnd {
    ghost use Rattle.std.specs.Prelude.{◌≡◌};
    ghost use Rattle.serve_turn.specs.Stopping.{serving_status};

    /// The number with which the program ends.
    pub fn status(self) -> u8
        ensures { result ≡ serving_status self }
    {
        match self {
            ServeEnd::Done => 0,
            ServeEnd::WriteFault => 3,
            ServeEnd::KeeperFault => 4,
            ServeEnd::Memory => 6,
            ServeEnd::DoorFault => 8,
            ServeEnd::Spent => 9,
        }
    }
}

/// How serving ends, by why no further link is taken, what became of the last write, how the last turn of the steward
/// ended, and whether memory ran out before that write. A fault of the door comes first, then one of the sink, then one
/// of the keeper, then running out of memory.
pub fn end_of(door: DoorEnd, sent: Sent, last: StewardEnd, supply: Supply) -> ServeEnd
    ensures { result ≡ end_of door sent last supply }
{
    match (door, sent, last, supply) {
        (DoorEnd::Failed, _, _, _) => ServeEnd::DoorFault,
        (_, Sent::Failed, _, _) => ServeEnd::WriteFault,
        (_, _, StewardEnd::KeeperFault, _) => ServeEnd::KeeperFault,
        (_, Sent::Memory, _, _) | (_, _, StewardEnd::Memory, _) | (_, _, _, Supply::Short) => {
            ServeEnd::Memory
        }
        (DoorEnd::Spent, _, _, _) => ServeEnd::Spent,
        (DoorEnd::Closed, _, _, _) => ServeEnd::Done,
    }
}

/// Whether memory ran out while serving: before the last write, or at it.
pub fn is_short(supply: Supply, sent: Sent) -> bool
    ensures { result ≡ is_short supply sent }
{
    match (supply, sent) {
        (Supply::Short, _) => true,
        (Supply::Enough, Sent::Memory) => true,
        (Supply::Enough, _) => false,
    }
}
