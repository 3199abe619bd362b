//! The keeper of a program that has no store.

use edge_traits::{CallLog, Keeper, KeeperFail, Kept, Pair, Request};
use std::alloc::Global;

/// A keeper where nothing is to be kept: each change is answered Done and leaves nothing, there is nothing to load, and
/// it never fails. What it holds it doesn't tell.
#[derive(Drop)]
pub struct NoStore {
    alloc: Global,
    calls: CallLog,
}

impl NoStore {
    /// A keeper that was not called yet.
    pub fn new(alloc: Global) -> NoStore {
        NoStore {
            alloc,
            calls: CallLog::new(),
        }
    }
}

impl Keeper for NoStore {
    ghost use Rattle.std.specs.Prelude.{None};

    ghost table = { λ _. None };

    ghost faults = { λ _. 0 };

    ghost calls = { λ store. store.calls };

    fn put(&mut self, _key: &[u8], _bytes: &[u8]) -> Kept {
        self.calls.note(Request::Put, Kept::Done)
    }

    fn remove(&mut self, _key: &[u8]) -> Kept {
        self.calls.note(Request::Remove, Kept::Done)
    }

    fn load(&mut self) -> Result<Vec<Pair>, KeeperFail> {
        self.calls.note(Request::Load, Kept::Done);
        Ok(Vec::new(self.alloc))
    }
}
