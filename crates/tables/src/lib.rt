//! Tables: lists of rows that are found by a key.
//!
//! A `Table` is seen as the list of its rows, in an order that the caller chooses. No two rows have one key, a row is
//! found by its key without a walk over the others, and what leaves the table leaves the order of the others as it was.
//! Below it is an `IndexMap`, whose keys are those of the rows.
#![tactic(auto)]

mod keyed;
mod table;

pub use keyed::{Keyed, Parted};
pub use table::Table;
