//! The keeper of a program, by what its words ask for.

ghost use Rattle.std.specs.Prelude.{◌≡◌, ◌≤◌};
ghost use Rattle.edge_traits.specs.Faults.{Rose};
ghost use Rattle.edge_traits.specs.Keeper.{OnKeepFailed};
ghost use Rattle.file_keeper.specs.AnyKeeper.{calls_had, faults_had};

use crate::sqlite_keeper::SqliteKeeper;
use crate::store_reader::StoreReader;
use edge_traits::{Keeper, KeeperFail, Kept, Pair};
use real_edges::NoStore;

/// The keeper of a program: one that keeps nothing, one of a server, or one that only reads. They are of one type, so
/// that what a program does with its keeper is compiled once.
pub enum AnyKeeper {
    Nothing(NoStore),
    Held(SqliteKeeper),
    Read(StoreReader),
}

// One call for who drops a keeper: a derived destructor is proved again in each crate above, with those of its parts.
impl Drop for AnyKeeper {
    fn drop(self) {
        match self {
            AnyKeeper::Nothing(_keeper) => {}
            AnyKeeper::Held(_keeper) => {}
            AnyKeeper::Read(_keeper) => {}
        }
    }
}

impl AnyKeeper {
    /// Lets the file go, if one is held, as `SqliteKeeper::close` does.
    pub fn close(&mut self) -> Kept
        ensures cause { OnKeepFailed result (Rose (faults_had self.old) (faults_had self.new)) }
        ensures counted { faults_had self.old ≤ faults_had self.new }
        ensures calls { calls_had self.new ≡ calls_had self.old }
    {
        match self {
            AnyKeeper::Nothing(_) => Kept::Done,
            AnyKeeper::Held(keeper) => keeper.close(),
            AnyKeeper::Read(_) => Kept::Done,
        }
    }
}

impl Keeper for AnyKeeper {
    ghost use Rattle.std.specs.Prelude.{None};

    ghost table = { λ _. None };

    ghost faults = { faults_had };

    ghost calls = { calls_had };

    fn put(&mut self, key: &[u8], bytes: &[u8]) -> Kept {
        match self {
            AnyKeeper::Nothing(keeper) => keeper.put(key, bytes),
            AnyKeeper::Held(keeper) => keeper.put(key, bytes),
            AnyKeeper::Read(keeper) => keeper.put(key, bytes),
        }
    }

    fn remove(&mut self, key: &[u8]) -> Kept {
        match self {
            AnyKeeper::Nothing(keeper) => keeper.remove(key),
            AnyKeeper::Held(keeper) => keeper.remove(key),
            AnyKeeper::Read(keeper) => keeper.remove(key),
        }
    }

    fn load(&mut self) -> Result<Vec<Pair>, KeeperFail> {
        match self {
            AnyKeeper::Nothing(keeper) => keeper.load(),
            AnyKeeper::Held(keeper) => keeper.load(),
            AnyKeeper::Read(keeper) => keeper.load(),
        }
    }
}
