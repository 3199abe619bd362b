//! A store that is open: a connection of SQLite over files that are held, or over copies of them.

ghost use Rattle.std.specs.Prelude.{IfOk};
ghost use Rattle.edge_traits.specs.Pairs.{IsAscending};

use crate::records::{Asked, carry_out, fail_of, with_table};
use crate::store_file::StoreFile;
use edge_traits::{KeeperFail, Pair};
use sqlite::{Connection, FileStore, Files, Options};
use sqlite_disk::Disk;
use std::alloc::Global;

/// A store that is open. It is of one type, and each function at its end has one generic call: a call of a generic
/// function at this type has the proofs of all that SQLite stands on to tie.
pub type Store = Connection<FileStore<StoreFile>>;

/// Opens a store over its files; the table is made where it is missing. The log draws its salts by the seed.
pub fn open_store(
    rt: &HostRuntime,
    files: Files<StoreFile>,
    seed: u64,
) -> Result<Store, KeeperFail> {
    opened(rt, files, seed)
}

/// Asks a store.
pub fn ask(alloc: Global, conn: &mut Store, asked: Asked<'_>) -> Result<Vec<Pair>, KeeperFail>
    ensures ascending { IfOk result (λ pairs. IsAscending pairs.items) }
{
    carry_out(alloc, conn, asked)
}

/// Copies the log into the file, and lets the store go.
pub fn close_store(conn: Store) -> Result<(), KeeperFail> {
    closed(conn)
}

/// Lets a store go without a word.
pub fn let_go(_store: Option<Store>) {}

fn opened<D: Disk + Drop>(
    rt: &HostRuntime,
    files: Files<D>,
    seed: u64,
) -> Result<Connection<FileStore<D>>, KeeperFail> {
    if !files.may_be_used() {
        return Err(KeeperFail::Failed);
    }
    match Connection::open_files(rt.alloc(), files, Options::new(seed)) {
        Ok(conn) => with_table(rt, conn),
        Err((error, _left)) => Err(fail_of(error)),
    }
}

fn closed<D: Disk + Drop>(conn: Connection<FileStore<D>>) -> Result<(), KeeperFail> {
    match conn.close() {
        Ok(()) => Ok(()),
        Err(error) => Err(fail_of(error)),
    }
}
