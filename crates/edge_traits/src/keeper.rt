//! Where records are kept between two runs.

use crate::call_log::Request;
use memory::{Duplicate, NoMemory};
use std::alloc::Global;
use std::marker::Model;

/// A record and the key under which it is kept. Contracts see the pair of the two lists of bytes.
#[derive(Drop)]
pub struct Pair {
    pub key: Vec<u8>,
    pub bytes: Vec<u8>,
}

impl Model for Pair {
    ghost use Rattle.std.specs.Prelude.{List, ℕ};

    ghost Value = { List ℕ × List ℕ };

    ghost view = { λ pair. (pair.key.items, pair.bytes.items) };
}

impl Pair {
    ghost use Rattle.std.specs.Prelude.{◌≡◌, IfOk};

    /// A pair of copies of this key and this record; answers `NoMemory` only when out of memory.
    pub fn of(alloc: Global, key: &[u8], bytes: &[u8]) -> Result<Pair, NoMemory>
        ensures { IfOk result (λ pair. pair ≡ (key.now, bytes.now)) }
    {
        let key = Vec::from_slice(alloc, key)?;
        let bytes = Vec::from_slice(alloc, bytes)?;
        Ok(Pair { key, bytes })
    }
}

impl Duplicate for Pair {
    fn duplicate(&self) -> Result<Pair, NoMemory> {
        let alloc = *self.key.allocator();
        Pair::of(alloc, self.key.as_slice(), self.bytes.as_slice())
    }
}

/// What became of a call: of a change of the table, or of a load.
#[derive(Clone, Copy, Debug, PartialEq, Eq)]
pub enum Kept {
    /// The change was made, or the table was loaded.
    Done,
    /// A fault, which the object counted. A change that failed is in doubt: the table is as before, or as the change
    /// makes it. A load that failed leaves the table as before.
    Failed,
    /// Running out of memory; the table is as before.
    Memory,
}

/// Why a table couldn't be loaded.
#[derive(Clone, Copy)]
pub enum KeeperFail {
    /// A fault, which the object counted.
    Failed,
    /// Running out of memory.
    Memory,
}

/// A table of records under keys. An object that tells its `table` changes it by nothing but what it answers
/// `Done`, and perhaps by a change that it answers `Failed`, which is then made whole or not at all; its count of
/// `faults` never falls; and its `calls` are all that it had, each with its answer.
pub trait Keeper {
    ghost use Rattle.std.specs.Prelude.{◌≡◌, ℕ, ◌≤◌, IfOk};
    ghost use Rattle.std.specs.declared.option.Option.{Option};
    ghost use Rattle.edge_traits.specs.Calls.{Calls, load_answer, noted};
    ghost use Rattle.edge_traits.specs.Faults.{Rose};
    ghost use Rattle.edge_traits.specs.Pairs.{Records, IsAscending};
    ghost use Rattle.edge_traits.specs.Keeper.{HasPut, HasRemoved, AreAllOf, Stays, OnKeepFailed, OnLoadFailed};

    ghost table: { Self → Option Records };

    ghost faults: { Self → ℕ };

    ghost calls: { Self → Calls };

    /// Puts the record under the key, in place of the one that is there.
    fn put(&mut self, key: &[u8], bytes: &[u8]) -> Kept
        ensures put { HasPut (table self.old) (table self.new) key.now bytes.now result }
        ensures cause { OnKeepFailed result (Rose (faults self.old) (faults self.new)) }
        ensures counted { faults self.old ≤ faults self.new }
        ensures noted { calls self.new ≡ noted (calls self.old) Request.Put result };

    /// Takes away the record under the key, if there is one.
    fn remove(&mut self, key: &[u8]) -> Kept
        ensures removed { HasRemoved (table self.old) (table self.new) key.now result }
        ensures cause { OnKeepFailed result (Rose (faults self.old) (faults self.new)) }
        ensures counted { faults self.old ≤ faults self.new }
        ensures noted { calls self.new ≡ noted (calls self.old) Request.Remove result };

    /// Gives all pairs in ascending order of key.
    fn load(&mut self) -> Result<Vec<Pair>, KeeperFail>
        ensures all { IfOk result (λ pairs. AreAllOf (table self.old) pairs.items) }
        ensures ascending { IfOk result (λ pairs. IsAscending pairs.items) }
        ensures unchanged { Stays (table self.old) (table self.new) }
        ensures cause { OnLoadFailed result (Rose (faults self.old) (faults self.new)) }
        ensures counted { faults self.old ≤ faults self.new }
        ensures noted { calls self.new ≡ noted (calls self.old) Request.Load (load_answer result) };
}
