//! The keeper of commands that only read.

ghost use Rattle.std.specs.Prelude.{◌≡◌, ◌≤◌, [], IfOk};
ghost use Rattle.edge_traits.specs.Calls.{noted};
ghost use Rattle.edge_traits.specs.Faults.{Rose};
ghost use Rattle.edge_traits.specs.Pairs.{IsAscending};

use crate::copied::Copied;
use crate::records::{Asked, loaded};
use crate::store::{ask, let_go, open_store};
use crate::store_file::StoreFile;
use edge_traits::{CallLog, Keeper, KeeperFail, Kept, Pair, Request};
use sqlite::Files;
use std::fs;
use std::io::{self, ErrorKind};

/// How often the file and its log are read, while another writes them, before the load fails.
const MOST_READS: u32 = 100;

/// Any number: a log in memory needs no secret.
const SEED: u64 = 1;

/// A keeper over a copy in memory of the file at a path and of its log, made anew for each load.
///
/// It makes, locks and changes no file, and loads also while another keeper holds the file, and from a file that may
/// only be read. A path where there is no file is a fault, as is a change.
#[derive(Drop)]
pub struct StoreReader {
    rt: HostRuntime,
    path: String,
    faults: u64,
    calls: CallLog,
}

impl StoreReader {
    /// A reader of the file at this path, which isn't read yet.
    pub fn new(rt: HostRuntime, path: String) -> StoreReader
        ensures faults { result.faults ≡ 0 }
        ensures calls { result.calls ≡ [] }
    {
        StoreReader {
            rt,
            path,
            faults: 0,
            calls: CallLog::new(),
        }
    }

    /// The answer to a change, which is a fault.
    fn refuse(&mut self, request: Request) -> Kept
        ensures refused { result ≡ Kept.Failed }
        ensures rose { Rose self.old.faults self.new.faults }
        ensures counted { self.old.faults ≤ self.new.faults }
        ensures noted { self.new.calls ≡ noted self.old.calls request Kept.Failed }
    {
        self.faults = self.faults.saturating_add(1);
        self.calls.note(request, Kept::Failed)
    }
}

impl Keeper for StoreReader {
    ghost use Rattle.std.specs.Prelude.{◌≡◌, ◌≤◌, None};
    ghost use Rattle.edge_traits.specs.Calls.{noted};
    ghost use Rattle.edge_traits.specs.Faults.{Rose};
    ghost use Rattle.edge_traits.specs.Keeper.{HasPut, HasRemoved, OnKeepFailed};

    ghost table = { λ _. None };

    ghost faults = { λ reader. reader.faults };

    ghost calls = { λ reader. reader.calls };

    fn put(&mut self, _key: &[u8], _bytes: &[u8]) -> Kept
        ensures put { HasPut None None _key.now _bytes.now result }
        ensures cause { OnKeepFailed result (Rose self.old.faults self.new.faults) }
        ensures counted { self.old.faults ≤ self.new.faults }
        ensures noted { self.new.calls ≡ noted self.old.calls Request.Put result }
        ensures refused { result ≡ Kept.Failed }
    {
        self.refuse(Request::Put)
    }

    fn remove(&mut self, _key: &[u8]) -> Kept
        ensures removed { HasRemoved None None _key.now result }
        ensures cause { OnKeepFailed result (Rose self.old.faults self.new.faults) }
        ensures counted { self.old.faults ≤ self.new.faults }
        ensures noted { self.new.calls ≡ noted self.old.calls Request.Remove result }
        ensures refused { result ≡ Kept.Failed }
    {
        self.refuse(Request::Remove)
    }

    fn load(&mut self) -> Result<Vec<Pair>, KeeperFail> {
        let outcome = load_copy(&self.rt, &self.path);
        loaded(&mut self.faults, &mut self.calls, outcome)
    }
}

fn load_copy(rt: &HostRuntime, path: &str) -> Result<Vec<Pair>, KeeperFail>
    ensures ascending { IfOk result (λ pairs. IsAscending pairs.items) }
{
    let files = copied_files(rt, path)?;
    let mut conn = open_store(rt, files, SEED)?;
    let outcome = ask(rt.alloc(), &mut conn, Asked::Load);
    let_go(Some(conn));
    outcome
}

/// The file and its log as they stood at one moment. The log is read before the file and after it: where both readings
/// are the same, nothing was written to the log in between, and what was copied from it into the file stands in it
/// still.
fn copied_files(rt: &HostRuntime, path: &str) -> Result<Files<StoreFile>, KeeperFail> {
    let place = StoreFiles::of(rt, path)?;
    if has_journal(rt, &place.journal)? {
        return Err(KeeperFail::Failed);
    }
    for _ in 0..MOST_READS {
        let before = read_beside(rt, &place.log)?;
        let db = read_file(rt, &place.db)?;
        let after = read_beside(rt, &place.log)?;
        if before == after {
            return Ok(Files {
                log: StoreFile::Copy(Copied::of(after)),
                db: StoreFile::Copy(Copied::of(db)),
            });
        }
    }
    Err(KeeperFail::Failed)
}

/// The paths of a database's files.
#[derive(Drop)]
struct StoreFiles {
    db: String,
    log: String,
    journal: String,
}

impl StoreFiles {
    /// The files of the database at this path; they lie where a link leads.
    fn of(rt: &HostRuntime, path: &str) -> Result<StoreFiles, KeeperFail> {
        match StoreFiles::found(rt, path) {
            Ok(place) => Ok(place),
            Err(error) => Err(io_fail(&error)),
        }
    }

    fn found(rt: &HostRuntime, path: &str) -> io::Result<StoreFiles> {
        let db = fs::canonicalize(rt, path)?.into_string();
        let log = format!(in rt.alloc(); "{db}-wal")?;
        let journal = format!(in rt.alloc(); "{db}-journal")?;
        Ok(StoreFiles { db, log, journal })
    }
}

/// Whether `sqlite3` left a journal that it has to play back first. One that is empty or begins with a zero is spent.
fn has_journal(rt: &HostRuntime, path: &str) -> Result<bool, KeeperFail> {
    let journal = read_beside(rt, path)?;
    Ok(journal.first().is_some_and(|first| *first != 0))
}

/// What the file holds.
fn read_file(rt: &HostRuntime, path: &str) -> Result<Vec<u8>, KeeperFail> {
    match fs::read(rt, path) {
        Ok(bytes) => Ok(bytes),
        Err(error) => Err(io_fail(&error)),
    }
}

/// What a file beside the database holds: nothing where there is none.
fn read_beside(rt: &HostRuntime, path: &str) -> Result<Vec<u8>, KeeperFail> {
    match fs::read(rt, path) {
        Ok(bytes) => Ok(bytes),
        Err(error) if error.kind() == ErrorKind::NotFound => Ok(Vec::new(rt.alloc())),
        Err(error) => Err(io_fail(&error)),
    }
}

fn io_fail(error: &io::Error) -> KeeperFail {
    if error.kind() == ErrorKind::OutOfMemory {
        KeeperFail::Memory
    } else {
        KeeperFail::Failed
    }
}
