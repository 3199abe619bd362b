//! The ways in which a command over a store ends.

ghost use Rattle.std.specs.Prelude.{◌≡◌};
ghost use Rattle.cmd_store.specs.Outcomes.{outcome_of_fault, status_of_outcome};

use cmd_lines::{End, status};
use lobby_load::StoreFault;

/// How a command over a store ended.
#[derive(Clone, Copy, Debug, PartialEq, Eq)]
pub enum Outcome {
    /// The store was opened, or what was read and written failed: as a command without a store ends.
    Read(End),
    /// A record of the store is bad, and the line that names its key was written.
    BadRecord,
    /// The keeper of the store failed, and counted the fault.
    KeeperFault,
    /// The store has no game of the number that was asked for.
    NoGame,
}

/// The number with which the program ends: 4 at a fault of the keeper, 5 at a bad record, 10 where there is no such
/// game, and else that of the command's end.
pub fn status_of_outcome(outcome: Outcome) -> u8
    ensures { result ≡ status_of_outcome outcome }
{
    match outcome {
        Outcome::Read(end) => status(end),
        Outcome::KeeperFault => StoreFault::KeeperFault.status(),
        Outcome::BadRecord => StoreFault::BadRecord.status(),
        Outcome::NoGame => 10,
    }
}

/// How a command ends whose store couldn't be opened.
pub fn outcome_of(fault: StoreFault) -> Outcome
    ensures { result ≡ outcome_of_fault fault }
{
    match fault {
        StoreFault::BadRecord => Outcome::BadRecord,
        StoreFault::KeeperFault => Outcome::KeeperFault,
        StoreFault::WriteFault => Outcome::Read(End::WriteFault),
        StoreFault::Memory => Outcome::Read(End::Memory),
    }
}
