//! Keepers over a file of SQLite: one that a server keeps its records with, and one that only reads them; and a keeper
//! that is either of them, or keeps nothing.
//!
//! Each meets the trait `Keeper`: it fails only where its count of faults rose, and the pairs that it loads ascend by
//! key; the one that reads refuses each change. What a file holds is told by neither: what is said of files here was
//! tested (`bench/store`) and isn't proved. The file has one table, which the command `sqlite3` reads and writes while
//! no keeper holds the file.
#![tactic(auto)]

mod any_keeper;
mod copied;
mod records;
mod sqlite_keeper;
mod store;
mod store_file;
mod store_reader;

pub use any_keeper::AnyKeeper;
pub use sqlite_keeper::SqliteKeeper;
pub use store_reader::StoreReader;
