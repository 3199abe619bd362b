//! Why a store isn't loaded.
ghost use Rattle.std.specs.Prelude.{◌≡◌};
ghost use Rattle.lobby_load.specs.declared.refusals.LoadRefusal.TheVariants.{Memory};

use collections::Listed;
use memory::NoMemory;

/// Why no lobby was loaded.
#[derive(Drop)]
pub enum LoadRefusal {
    /// A record of the store is bad: this is the least of the keys whose record is.
    BadRecord(Listed<u8>),
    /// The keeper failed, and counted the fault.
    KeeperFault,
    /// Running out of memory.
    Memory,
}

impl From<NoMemory> for LoadRefusal {
    ghost from_gives = { λ _ refusal. refusal ≡ Memory };

    fn from(_want: NoMemory) -> LoadRefusal {
        LoadRefusal::Memory
    }
}

/// Why a store wasn't opened, once a bad record was told.
#[derive(Clone, Copy, Debug, PartialEq, Eq)]
pub enum StoreFault {
    /// A record of the store is bad, and the line that names its key was written.
    BadRecord,
    /// The keeper failed, and counted the fault.
    KeeperFault,
    /// A record of the store is bad, and the line that names its key couldn't be written: the sink counted the fault.
    WriteFault,
    /// Running out of memory.
    Memory,
}

impl StoreFault {
    ghost use Rattle.std.specs.Prelude.{◌≡◌};
    ghost use Rattle.lobby_load.specs.Refused.{unopened_status};

    /// The number with which the program ends that opened no store.
    pub fn status(self) -> u8
        ensures { result ≡ unopened_status self }
    {
        match self {
            StoreFault::WriteFault => 3,
            StoreFault::KeeperFault => 4,
            StoreFault::BadRecord => 5,
            StoreFault::Memory => 6,
        }
    }
}
