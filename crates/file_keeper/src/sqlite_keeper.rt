//! The keeper of a server: a file of SQLite.

ghost use Rattle.std.specs.Prelude.{◌≡◌, ◌≤◌, [], IfOk};
ghost use Rattle.edge_traits.specs.Faults.{Rose};
ghost use Rattle.edge_traits.specs.Keeper.{OnKeepFailed};
ghost use Rattle.edge_traits.specs.Pairs.{IsAscending};

use crate::records::{Asked, kept, loaded};
use crate::store::{Store, ask, close_store, let_go, open_store};
use crate::store_file::StoreFile;
use edge_traits::{CallLog, Keeper, KeeperFail, Kept, Pair, Request};
use sqlite::{Files, Unknown};
use sqlite_std_file::OpenError;
use std::hash::{BuildHasher, RandomState};
use std::io::ErrorKind;

/// A keeper over the file at a path, and its log beside it, named as the file with `-wal` behind it.
///
/// The first call opens the file, which makes it where there is none, and the keeper then holds it: no other keeper and
/// no `sqlite3` gets at it. A change that is answered Done has been given to the disk. Whatever fails, also for want of
/// memory, the file is let go, and the next call opens it anew. A change that is answered Failed is in doubt: the file
/// is found as before, or as the change makes it.
/// The file is refused where another holds it, where it isn't a database, and where a record or a key is no BLOB.
pub struct SqliteKeeper {
    rt: HostRuntime,
    path: String,
    store: Option<Store>,
    faults: u64,
    calls: CallLog,
}

// One call for who drops a keeper: a derived destructor is proved again in each crate above, with all of SQLite's.
impl Drop for SqliteKeeper {
    fn drop(self) {
        let SqliteKeeper {
            rt: _,
            path: _,
            store,
            faults: _,
            calls: _,
        } = self;
        let_go(store);
    }
}

impl SqliteKeeper {
    /// A keeper over the file at this path, which isn't opened yet.
    pub fn new(rt: HostRuntime, path: String) -> SqliteKeeper
        ensures faults { result.faults ≡ 0 }
        ensures calls { result.calls ≡ [] }
    {
        SqliteKeeper {
            rt,
            path,
            store: None,
            faults: 0,
            calls: CallLog::new(),
        }
    }

    /// Copies the log into the file and lets the file go, if it is open; a program does so at its end, since the file
    /// is whole by itself then. After another end the two belong together. The next call opens the file anew.
    pub fn close(&mut self) -> Kept
        ensures cause { OnKeepFailed result (Rose self.old.faults self.new.faults) }
        ensures counted { self.old.faults ≤ self.new.faults }
        ensures calls { self.new.calls ≡ self.old.calls }
    {
        let outcome = close_if_open(&mut self.store);
        kept(&mut self.faults, outcome)
    }
}

impl Keeper for SqliteKeeper {
    ghost use Rattle.std.specs.Prelude.{None};

    ghost table = { λ _. None };

    ghost faults = { λ keeper. keeper.faults };

    ghost calls = { λ keeper. keeper.calls };

    fn put(&mut self, key: &[u8], bytes: &[u8]) -> Kept {
        let outcome = asked_of(
            &self.rt,
            &self.path,
            &mut self.store,
            Asked::Put { key, bytes },
        );
        let answer = kept(&mut self.faults, done(outcome));
        self.calls.note(Request::Put, answer)
    }

    fn remove(&mut self, key: &[u8]) -> Kept {
        let outcome = asked_of(&self.rt, &self.path, &mut self.store, Asked::Remove { key });
        let answer = kept(&mut self.faults, done(outcome));
        self.calls.note(Request::Remove, answer)
    }

    fn load(&mut self) -> Result<Vec<Pair>, KeeperFail> {
        let outcome = asked_of(&self.rt, &self.path, &mut self.store, Asked::Load);
        loaded(&mut self.faults, &mut self.calls, outcome)
    }
}

/// Asks the store, which is opened where there is none, and let go where that fails.
fn asked_of(
    rt: &HostRuntime,
    path: &str,
    store: &mut Option<Store>,
    asked: Asked<'_>,
) -> Result<Vec<Pair>, KeeperFail>
    ensures ascending { IfOk result (λ pairs. IsAscending pairs.items) }
{
    let mut conn = taken_or_opened(rt, path, store)?;
    let outcome = ask(rt.alloc(), &mut conn, asked);
    keep_open(store, conn, outcome.is_ok());
    outcome
}

/// Whether what was asked went well.
fn done(outcome: Result<Vec<Pair>, KeeperFail>) -> Result<(), KeeperFail> {
    match outcome {
        Ok(_) => Ok(()),
        Err(fail) => Err(fail),
    }
}

/// The store, taken out; opened where there is none.
fn taken_or_opened(
    rt: &HostRuntime,
    path: &str,
    store: &mut Option<Store>,
) -> Result<Store, KeeperFail> {
    match store.take() {
        Some(conn) => Ok(conn),
        None => open_held(rt, path),
    }
}

/// Opens the file at the path and its log, and holds them.
fn open_held(rt: &HostRuntime, path: &str) -> Result<Store, KeeperFail> {
    let files = held_files(rt, path)?;
    let seed = drawn_seed(rt)?;
    open_store(rt, files, seed)
}

/// The file and its log, which are made where they are missing. What they held isn't known, and of a write that was
/// torn each byte is taken to be the old or the new one. A path that names no file to SQLite is refused.
fn held_files(rt: &HostRuntime, path: &str) -> Result<Files<StoreFile>, KeeperFail> {
    if path == ":memory:" || path.starts_with("file:") {
        return Err(KeeperFail::Failed);
    }
    match sqlite_std_file::open(rt, path, Unknown) {
        Ok(Files { log, db }) => Ok(Files {
            log: StoreFile::Held(log),
            db: StoreFile::Held(db),
        }),
        Err(OpenError::OutOfMemory) => Err(KeeperFail::Memory),
        Err(OpenError::Io(error)) if error.kind() == ErrorKind::OutOfMemory => {
            Err(KeeperFail::Memory)
        }
        Err(_) => Err(KeeperFail::Failed),
    }
}

fn drawn_seed(rt: &HostRuntime) -> Result<u64, KeeperFail> {
    match RandomState::new(rt) {
        Ok(drawn) => Ok(drawn.hash_one(&0u8)),
        Err(_) => Err(KeeperFail::Failed),
    }
}

/// Puts the store back after a call that went well; else it is let go.
fn keep_open(store: &mut Option<Store>, conn: Store, went_well: bool) {
    if went_well {
        let_go(store.replace(conn));
    } else {
        let_go(Some(conn));
    }
}

fn close_if_open(store: &mut Option<Store>) -> Result<(), KeeperFail> {
    match store.take() {
        Some(conn) => close_store(conn),
        None => Ok(()),
    }
}
